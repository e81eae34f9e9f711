//! How many violations belong to a part, and what they lost.

ghost use Rattle.std.specs.Prelude.{◌≡◌, ◌+◌, ◌<◌, ◌^◌, ◌++◌, ◌∷◌, [], List, false};
ghost use Rattle.conflict_findings.specs.declared.rollback.Rollback.{Rollback};
ghost use Rattle.conflict_findings.specs.Keys as keys;
ghost use Rattle.conflict_findings.specs.Sums as spec;

use crate::part::Part;
use crate::rollback::Rollback;

/// What the violations of a part cost.
#[derive(Clone, Copy, PartialEq, Eq)]
pub struct Sum {
    /// How many they are.
    pub count: u32,
    /// How many instructions they lost.
    pub lost: u128,
}

/// The most violations that are summed: when one more is added, twice as many can be counted, since an instruction counts a violation
/// twice in which it was both the load and the store.
const MOST: u32 = 0x7FFF_FFFF;

/// What they may have lost before the last of them is added.
const MOST_LOST: u128 = 1 << 126;

impl Sum {
    /// What no violation costs.
    pub(crate) fn none() -> Sum
        ensures { result ≡ record { count = 0; lost = 0 } }
    {
        Sum { count: 0, lost: 0 }
    }

    /// Whether no violation is added any more.
    pub(crate) fn is_full(self) -> bool
        ensures roomy { result ≡ false → spec.IsRoomy self }
        ensures full { spec.IsRoomy self → result ≡ false }
    {
        self.count >= MOST || self.lost >= MOST_LOST
    }

    /// With one violation more, which lost so many instructions.
    pub(crate) fn more(self, lost: u64) -> Sum
        requires count { self.count + 1 < 2 ^ 32 }
        requires lost { self.lost + lost < 2 ^ 128 }
        ensures { result ≡ keys.more self lost }
    {
        Sum {
            count: self.count + 1,
            lost: self.lost + lost as u128,
        }
    }
}

/// What the violations of a part cost with one violation more, which may belong to it.
pub(crate) fn sum_more(sum: Sum, part: Part, rollback: &Rollback) -> Sum
    requires { (rollbacks : List Rollback) × (sum ≡ spec.sum_in part rollbacks) × spec.HasRoom rollbacks rollback.now.lost }
    ensures { (rollbacks : List Rollback) → sum ≡ spec.sum_in part rollbacks → result ≡ spec.sum_in part (rollbacks ++ rollback.now ∷ []) }
{
    if part.has(rollback) {
        sum.more(rollback.lost)
    } else {
        sum
    }
}
