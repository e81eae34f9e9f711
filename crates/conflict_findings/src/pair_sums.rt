//! What the violations of each pair of instructions cost, and what became of them.

ghost use Rattle.std.specs.Prelude.{◌≡◌, ◌++◌, ◌∷◌, [], List, true};
ghost use Rattle.conflict_findings.specs.declared.rollback.Pair.{Pair};
ghost use Rattle.conflict_findings.specs.declared.rollback.Rollback.{Rollback};
ghost use Rattle.conflict_findings.specs.Parts.{has_pair};
ghost use Rattle.conflict_findings.specs.PairSums as spec;
ghost use Rattle.conflict_findings.specs.Sums.{HasRoom};

use crate::kinds::CountsByKind;
use crate::rollback::{Pair, Rollback};
use crate::sum::Sum;

/// How many violations were stale, in vain, and came true later.
#[derive(Clone, Copy, PartialEq, Eq)]
pub struct Fates {
    /// The blamed store stood before the blamed load.
    pub stale: u32,
    /// The causer's attempt was itself violated or cancelled.
    pub vain: u32,
    /// False sharing by an attempt that afterwards stored to a byte that the victim had read.
    pub came_true: u32,
}

/// The least and the greatest of some numbers.
#[derive(Clone, Copy, PartialEq, Eq)]
pub struct Bounds {
    /// The least.
    pub least: u32,
    /// The greatest. After the last byte of memory there is an address of more than 32 bits.
    pub greatest: u64,
}

/// What the violations of a pair cost, and what became of them. The fields stand in an order that leaves no gap between them.
#[derive(Clone, Copy, PartialEq, Eq)]
pub struct PairSum {
    /// How many violations they are, and what they lost.
    pub sum: Sum,
    /// How many are of each kind.
    pub counts: CountsByKind,
    /// What became of them.
    pub fates: Fates,
    /// By how many epochs the victims stood after the causers.
    pub distance: Option<Bounds>,
    /// Where they met: the lowest address, and the one after the highest.
    pub bytes: Option<Bounds>,
    /// The instructions.
    pub pair: Pair,
}

/// What of violations has bounds.
#[derive(Clone, Copy)]
pub(crate) enum Measure {
    /// By how many epochs the victim stands after the causer.
    Distance,
    /// Where they met: the first address, and the one after the last.
    Bytes,
}

impl Measure {
    /// That of a violation, if it has it.
    fn of(self, rollback: &Rollback) -> Option<Bounds>
        ensures { result ≡ spec.measured self rollback.now }
    {
        match self {
            Measure::Distance => Some(Bounds {
                least: rollback.distance,
                greatest: rollback.distance as u64,
            }),
            Measure::Bytes => {
                let bytes = rollback.bytes?;
                Some(Bounds {
                    least: bytes.first,
                    greatest: bytes.first as u64 + bytes.length as u64,
                })
            }
        }
    }
}

/// The bounds of what lies within either.
fn joined(one: Option<Bounds>, other: Option<Bounds>) -> Option<Bounds>
    ensures { result ≡ spec.joined one other }
{
    match (one, other) {
        (None, other) => other,
        (Some(one), None) => Some(one),
        (Some(one), Some(other)) => Some(Bounds {
            least: one.least.min(other.least),
            greatest: one.greatest.max(other.greatest),
        }),
    }
}

impl Fates {
    /// Of no violation.
    fn none() -> Fates
        ensures { result ≡ spec.fates_in [] }
    {
        Fates {
            stale: 0,
            vain: 0,
            came_true: 0,
        }
    }

    /// With one violation more.
    fn more(self, rollback: &Rollback) -> Fates
        requires { (rollbacks : List Rollback) × (self ≡ spec.fates_in rollbacks) × HasRoom rollbacks rollback.now.lost }
        ensures { (rollbacks : List Rollback) → self ≡ spec.fates_in rollbacks → result ≡ spec.fates_in (rollbacks ++ rollback.now ∷ []) }
    {
        Fates {
            stale: self.stale + rollback.stale as u32,
            vain: self.vain + rollback.vain as u32,
            came_true: self.came_true + rollback.came_true as u32,
        }
    }
}

impl PairSum {
    /// Of a pair at which no violation met.
    pub(crate) fn none(pair: Pair) -> PairSum
        ensures { result ≡ spec.pair_sum [] pair }
    {
        PairSum {
            sum: Sum::none(),
            counts: CountsByKind::none(),
            fates: Fates::none(),
            distance: None,
            bytes: None,
            pair,
        }
    }

    /// With one violation of its pair more.
    pub(crate) fn more(self, rollback: &Rollback) -> PairSum
        requires { (rollbacks : List Rollback) × (pair : Pair) × (self ≡ spec.pair_sum rollbacks pair) × HasRoom rollbacks rollback.now.lost }
        ensures { (rollbacks : List Rollback) (pair : Pair) → self ≡ spec.pair_sum rollbacks pair → has_pair rollback.now.pair pair ≡ true
            → result ≡ spec.pair_sum (rollbacks ++ rollback.now ∷ []) pair }
    {
        PairSum {
            sum: self.sum.more(rollback.lost),
            counts: self.counts.more(rollback),
            fates: self.fates.more(rollback),
            distance: joined(self.distance, Measure::Distance.of(rollback)),
            bytes: joined(self.bytes, Measure::Bytes.of(rollback)),
            pair: self.pair,
        }
    }
}
