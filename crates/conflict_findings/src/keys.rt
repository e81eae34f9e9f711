//! Sums of all violations that are told apart by a number.

ghost use Rattle.std.specs.Prelude.{◌≡◌, ◌≢◌, ◌<◌, ◌+◌, ◌^◌, ◌++◌, ◌∷◌, [], ℕ, List, OnOk, Some};
ghost use Rattle.std.specs.BTreeMap.{get};
ghost use Rattle.std.specs.Ordering.{nat_cmp};
ghost use Rattle.conflict_findings.specs.declared.rollback.Rollback.{Rollback};
ghost use Rattle.conflict_findings.specs.Keys as spec;
ghost use Rattle.conflict_findings.specs.Sums.{HasRoom};

use crate::rollback::Rollback;
use crate::sum::Sum;
use std::alloc::AllocError;
use std::collections::BTreeMap;

/// A number by which violations are told apart.
#[derive(Clone, Copy)]
pub enum Key {
    /// The address of the first instruction of the pair: the blamed store.
    Store,
    /// The address of the second: the blamed load.
    Load,
    /// The number of the line of the caches.
    Line,
    /// The violated epoch.
    Epoch,
}

impl Key {
    /// The number that a violation has, if it has one.
    pub fn of(self, rollback: &Rollback) -> Option<u32>
        ensures { result ≡ spec.key_of self rollback.now }
    {
        match self {
            Key::Store => Some(rollback.pair?.store),
            Key::Load => Some(rollback.pair?.load),
            Key::Line => rollback.line,
            Key::Epoch => Some(rollback.epoch),
        }
    }
}

/// Adds a violation to what those of each number cost, at the number that it has, if it has one.
pub(crate) fn add_by(
    sums: &mut BTreeMap<u32, Sum>,
    key: Key,
    rollback: &Rollback,
) -> Result<(), AllocError>
    requires { (rollbacks : List Rollback) × spec.AreSumsBy key rollbacks sums.old × HasRoom rollbacks rollback.now.lost }
    ensures { OnOk result ((rollbacks : List Rollback) → spec.AreSumsBy key rollbacks sums.old
        → spec.AreSumsBy key (rollbacks ++ rollback.now ∷ []) sums.new) }
{
    let Some(at) = key.of(rollback) else {
        return Ok(());
    };
    add(sums, at, rollback.lost)?;
    Ok(())
}

/// Adds a violation that lost so many instructions to the sum at a number.
fn add(sums: &mut BTreeMap<u32, Sum>, at: u32, lost: u64) -> Result<(), AllocError>
    requires count { (spec.sum_or (get nat_cmp sums.old at)).count + 1 < 2 ^ 32 }
    requires lost { (spec.sum_or (get nat_cmp sums.old at)).lost + lost < 2 ^ 128 }
    ensures here { OnOk result (get nat_cmp sums.new at ≡ Some (spec.more (spec.sum_or (get nat_cmp sums.old at)) lost)) }
    ensures others { OnOk result ((other : ℕ) → other ≢ at → get nat_cmp sums.new other ≡ get nat_cmp sums.old other) }
{
    let sum = sums.get(&at).copied().unwrap_or(Sum { count: 0, lost: 0 });
    sums.insert(at, sum.more(lost))?;
    Ok(())
}
