//! What the violations of each pair of instructions cost, and what became of them.

ghost use Rattle.std.specs.Prelude.{◌≡◌, ◌++◌, ◌∷◌, [], List, OnOk, Some, cond, length, slice_get, slice_set, true};
ghost use Rattle.std.specs.BTreeMap.{get};
ghost use Rattle.conflict_findings.specs.declared.rollback.Pair.{Pair};
ghost use Rattle.conflict_findings.specs.declared.rollback.Rollback.{Rollback};
ghost use Rattle.conflict_findings.specs.ByPair as spec;
ghost use Rattle.conflict_findings.specs.Parts.{has_pair, is_pair};
ghost use Rattle.conflict_findings.specs.PairSums.{pair_sum};
ghost use Rattle.conflict_findings.specs.Sums.{HasRoom};

use crate::pair_sums::PairSum;
use crate::rollback::{Pair, Rollback};
use std::alloc::{AllocError, Global};
use std::collections::BTreeMap;

/// What the violations of each pair of instructions cost, and what became of them.
#[derive(Drop)]
pub struct SumsByPair {
    /// The sum of each pair, in the order in which the pairs first came.
    pub sums: Vec<PairSum>,
    /// Where in that list the sum of a pair stands, by the addresses of its store and its load.
    pub places: BTreeMap<(u32, u32), usize>,
}

impl SumsByPair {
    /// Of no violation.
    pub(crate) fn new(alloc: Global) -> SumsByPair
        ensures { spec.AreByPair [] result }
    {
        SumsByPair {
            sums: Vec::new(alloc),
            places: BTreeMap::new(alloc),
        }
    }

    /// Where the sum of a pair stands.
    fn place_of(&self, pair: Pair) -> Option<usize>
        ensures { result ≡ get spec.by_addresses self.now.places (pair.store, pair.load) }
    {
        self.places.get(&(pair.store, pair.load)).copied()
    }

    /// Adds a violation to the sum of its pair, if it has a pair.
    pub(crate) fn add(&mut self, rollback: &Rollback) -> Result<(), AllocError>
        requires { (rollbacks : List Rollback) × spec.AreByPair rollbacks self.old × HasRoom rollbacks rollback.now.lost }
        ensures { OnOk result ((rollbacks : List Rollback) → spec.AreByPair rollbacks self.old → spec.AreByPair (rollbacks ++ rollback.now ∷ []) self.new) }
    {
        let Some(pair) = rollback.pair else {
            return Ok(());
        };
        match self.place_of(pair) {
            Some(place) => {
                raise(&mut self.sums, place, rollback);
                Ok(())
            }
            None => {
                self.begin(pair, rollback)?;
                Ok(())
            }
        }
    }

    /// Adds the first violation of a pair.
    fn begin(&mut self, pair: Pair, rollback: &Rollback) -> Result<(), AllocError>
        requires pair { rollback.now.pair ≡ Some pair }
        requires room { HasRoom [] rollback.now.lost }
        ensures sums { OnOk result (self.new.sums.items ≡ self.old.sums.items ++ pair_sum (rollback.now ∷ []) pair ∷ []) }
        ensures places { OnOk result ((p : Pair) → get spec.by_addresses self.new.places (p.store, p.load)
            ≡ cond (is_pair p pair) (Some (length self.old.sums.items)) (get spec.by_addresses self.old.places (p.store, p.load))) }
    {
        let place = self.sums.len();
        self.sums.push(PairSum::none(pair).more(rollback))?;
        self.places.insert((pair.store, pair.load), place)?;
        Ok(())
    }
}

/// Adds a violation to the sum that stands at a place.
fn raise(sums: &mut Vec<PairSum>, place: usize, rollback: &Rollback)
    requires { (rollbacks : List Rollback) × (pair : Pair) × (slice_get sums.old.items place ≡ Some (pair_sum rollbacks pair)) × HasRoom rollbacks rollback.now.lost }
    ensures { (rollbacks : List Rollback) (pair : Pair) → slice_get sums.old.items place ≡ Some (pair_sum rollbacks pair) → has_pair rollback.now.pair pair ≡ true
        → sums.new.items ≡ slice_set sums.old.items place (pair_sum (rollbacks ++ rollback.now ∷ []) pair) }
{
    let sum = sums[place];
    sums[place] = sum.more(rollback);
}
