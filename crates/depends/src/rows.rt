//! The pairs of instructions that dependences of the run in order join, the heaviest first.
ghost use Rattle.std.specs.Prelude.{◌≡◌, IfOk, List};
ghost use Rattle.std.specs.BTreeMap.{IsOrdered};
ghost use Rattle.std.specs.List.Sorted.{IsPermutation, IsSorted};
ghost use Rattle.dependences.specs.declared.flow.Dependence.{Dependence};
ghost use Rattle.dependences.specs.Pairs.{by_pcs};
ghost use Rattle.dependences.specs.Summed.{AreSumsOf};
ghost use Rattle.depends.specs.Rows as spec;

use dependences::PairSum;
use std::alloc::{AllocError, Global};
use std::cmp::Reverse;
use std::collections::BTreeMap;

/// The pcs of a store and of a load, and what the dependences have in common that join them.
pub type Row = ((u32, u32), PairSum);

/// What dependences have in common, by pairs of instructions, from their sums: those of most dependences first, and of as many by the pcs
/// of the store and of the load.
///
/// `AllocError`: memory ran out.
pub fn rows_of(alloc: Global, sums: &BTreeMap<(u32, u32), PairSum>) -> Result<Vec<Row>, AllocError>
    ensures { IfOk result (λ rows. (found : List Dependence) → AreSumsOf found sums.now → spec.AreRowsOf found rows.items) }
{
    let mut rows = entries_of(alloc, sums)?;
    order(&mut rows);
    Ok(rows)
}

/// The sums of a map with their pairs.
fn entries_of(alloc: Global, sums: &BTreeMap<(u32, u32), PairSum>) -> Result<Vec<Row>, AllocError>
    ensures all { IfOk result (λ rows. rows.items ≡ sums.now.entries) }
    ensures ascending { IsOrdered by_pcs sums.now }
{
    let mut rows = Vec::new(alloc);
    for (pair, sum) in sums.iter() {
        rows.push((*pair, *sum))?;
    }
    Ok(rows)
}

/// Puts rows in order: by how many dependences they have, descending, then by the pcs.
fn order(rows: &mut Vec<Row>)
    ensures all { IsPermutation rows.old.items rows.new.items }
    ensures ordered { IsSorted spec.row_order rows.new.items }
{
    rows.sort_unstable_by_key(|row| (Reverse(row.1.times), row.0.0, row.0.1));
}
