//! The sums over the violations of a history.
ghost use Rattle.std.specs.Prelude.{◌≡◌, IfOk, List, OnOk, ℕ};
ghost use Rattle.conflict_findings.specs.declared.ended.Ended.{Ended};
ghost use Rattle.conflict_findings.specs.declared.ended.Running.{Running};
ghost use Rattle.conflict_findings.specs.declared.rollback.Rollback.{Rollback};
ghost use Rattle.conflict_findings.specs.AllSums.{AreAllSums};
ghost use Rattle.conflict_text.specs.Totals as totals;

use crate::parts::{push_instructions, push_lines, push_pairs};
use crate::sums::{push_epochs, push_kinds, push_total};
use conflict_findings::{
    Ends, LinesByKind, PairSum, Sum, Sums, SumsByKind, heaviest, pairs_by_weight,
};
use rv32_exec::Image;
use std::alloc::{AllocError, Global};
use std::collections::BTreeMap;

/// The sums over the violations of a history, as they are printed.
#[derive(Drop)]
pub struct Totals {
    /// What the violations of each epoch cost.
    pub epochs: BTreeMap<u32, Sum>,
    /// Those of each pair of instructions, heaviest last, so that they are given back while they are printed.
    pub pairs: Vec<PairSum>,
    /// Those in each line of the caches, heaviest first.
    pub lines: Vec<(u32, Sum)>,
    /// The same for each kind.
    pub kinds: LinesByKind,
    /// Those in which an instruction was the load.
    pub loads: BTreeMap<u32, Sum>,
    /// Those in which it was the store.
    pub stores: BTreeMap<u32, Sum>,
    /// Those in which it was either.
    pub instructions: BTreeMap<u32, Sum>,
    /// The lines of the kinds, and the total.
    pub last: Vec<u8>,
}

/// The lines of the kinds, and the total.
fn last_lines(
    alloc: Global,
    image: &Image,
    homefree: u32,
    kinds: SumsByKind,
    whole: Sum,
    ends: &Ends,
) -> Result<Vec<u8>, AllocError>
    ensures { IfOk result (λ text. text.items ≡ totals.last_text image.now homefree kinds whole ends.now.ended.items ends.now.running.items) }
{
    let mut text = Vec::new(alloc);
    push_kinds(&mut text, kinds)?;
    push_total(&mut text, image.epochs(), homefree, whole, ends)?;
    Ok(text)
}

/// The sums over violations, in order. It takes the homefree epoch after the history, which is how many epochs have committed, and how its
/// attempts ended.
pub(crate) fn totals_of(
    alloc: Global,
    image: &Image,
    homefree: u32,
    sums: Sums,
    ends: &Ends,
) -> Result<Totals, AllocError>
    ensures { IfOk result (λ told. (rollbacks : List Rollback) → AreAllSums rollbacks sums
        → totals.AreTotals image.now homefree rollbacks ends.now.ended.items ends.now.running.items told) }
{
    let last = last_lines(alloc, image, homefree, sums.kinds, sums.whole, ends)?;
    let lines = heaviest(alloc, &sums.lines)?;
    let Sums {
        epochs,
        kind_lines,
        loads,
        stores,
        instructions,
        pairs,
        ..
    } = sums;
    Ok(Totals {
        epochs,
        pairs: pairs_by_weight(pairs),
        lines,
        kinds: kind_lines,
        loads,
        stores,
        instructions,
        last,
    })
}

/// The lines of the sums over violations, at the end of a text: those of epochs, pairs, lines, instructions and kinds, and the total.
pub(crate) fn push_totals(text: &mut Vec<u8>, image: &Image, sums: Totals) -> Result<(), AllocError>
    ensures { OnOk result ((homefree : ℕ) (rollbacks : List Rollback) (ended : List Ended) (running : List Running)
        → totals.AreTotals image.now homefree rollbacks ended running sums
        → totals.IsSummed image.now homefree rollbacks ended running text.old.items text.new.items) }
{
    push_epochs(text, &sums.epochs)?;
    push_pairs(text, sums.pairs)?;
    push_lines(text, image, &sums.kinds, sums.lines.as_slice())?;
    push_instructions(text, &sums.loads, &sums.stores, &sums.instructions)?;
    text.extend_from_slice(sums.last.as_slice())
}
