//! Sums in order, the heaviest first.

ghost use Rattle.std.specs.Prelude.{◌≡◌, IfOk, List, reverse};
ghost use Rattle.std.specs.BTreeMap.{IsOrdered};
ghost use Rattle.std.specs.List.Sorted.{IsPermutation, IsSorted};
ghost use Rattle.std.specs.Ordering.{nat_cmp};
ghost use Rattle.conflict_findings.specs.declared.rollback.Rollback.{Rollback};
ghost use Rattle.conflict_findings.specs.ByPair.{AreByPair};
ghost use Rattle.conflict_findings.specs.Order as spec;

use crate::pair_sums::PairSum;
use crate::pairs::SumsByPair;
use crate::sum::Sum;
use std::alloc::{AllocError, Global};
use std::cmp::Reverse;
use std::collections::BTreeMap;

/// Puts pairs in order: by what they lost, descending, then by how many violations they have, descending, then by the addresses
/// of the store and of the load.
fn order_pairs(sums: &mut Vec<PairSum>)
    ensures all { IsPermutation sums.old.items sums.new.items }
    ensures ordered { IsSorted spec.pair_order sums.new.items }
{
    sums.sort_unstable_by_key(|s| {
        (
            Reverse(s.sum.lost),
            Reverse(s.sum.count),
            s.pair.store,
            s.pair.load,
        )
    });
}

/// Puts sums in order: by what they lost, descending, then by how many violations they have, descending, then by their numbers.
fn order_numbers(sums: &mut Vec<(u32, Sum)>)
    ensures all { IsPermutation sums.old.items sums.new.items }
    ensures ordered { IsSorted spec.number_order sums.new.items }
{
    sums.sort_unstable_by_key(|s| (Reverse(s.1.lost), Reverse(s.1.count), s.0));
}

/// For each pair of instructions at which some violations met, what those cost, heaviest last, so that the list can be given back from
/// its end: by what they lost, then by how many they are, then by the addresses of the store and of the load, descending.
pub fn pairs_by_weight(sums: SumsByPair) -> Vec<PairSum>
    ensures { (rollbacks : List Rollback) → AreByPair rollbacks sums → spec.ArePairSums rollbacks (reverse result.items) }
{
    let SumsByPair { sums, .. } = sums;
    let mut found = sums;
    order_pairs(&mut found);
    found.reverse();
    found
}

/// The sums of a map with their numbers.
fn entries_of(alloc: Global, sums: &BTreeMap<u32, Sum>) -> Result<Vec<(u32, Sum)>, AllocError>
    ensures all { IfOk result (λ found. found.items ≡ sums.now.entries) }
    ensures ascending { IsOrdered nat_cmp sums.now }
{
    let mut found = Vec::new(alloc);
    for (number, sum) in sums.iter() {
        found.push((*number, *sum))?;
    }
    Ok(found)
}

/// The sums of a map with their numbers, heaviest first: by what they lost, then by how many violations they have, then by the
/// numbers, ascending.
pub fn heaviest(alloc: Global, sums: &BTreeMap<u32, Sum>) -> Result<Vec<(u32, Sum)>, AllocError>
    ensures ordered { IfOk result (λ found. spec.AreHeaviest sums.now found.items) }
    ensures ascending { IsOrdered nat_cmp sums.now }
{
    let mut found = entries_of(alloc, sums)?;
    order_numbers(&mut found);
    Ok(found)
}
