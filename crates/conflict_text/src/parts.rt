//! The sums of pairs, lines and instructions.
ghost use Rattle.std.specs.Prelude.{◌≡◌, ◌++◌, OnOk, reverse};
ghost use Rattle.std.specs.BTreeMap.{IsOrdered, get};
ghost use Rattle.std.specs.List.{flat_map};
ghost use Rattle.std.specs.Ordering.{nat_cmp};
ghost use Rattle.conflict_findings.specs.Keys.{sum_or};
ghost use Rattle.conflict_findings.specs.Kinds.{counts_at};
ghost use Rattle.conflict_text.specs.Report as spec;

use crate::sums::{push_counts, push_sum};
use crate::words::{push_address, push_known_address, push_named, push_text};
use conflict_findings::{Bounds, CountsByKind, Fates, LinesByKind, Pair, PairSum, Sum};
use rv32_exec::Image;
use std::alloc::AllocError;
use std::collections::BTreeMap;

/// The two instructions of a pair, of which so many violations are full buffers.
#[tactic(auto, using(crate::proofs::Joining::joined), unfolding(crate::specs::Report::pair_name))]
fn push_pair_name(text: &mut Vec<u8>, full: u32, pair: Pair) -> Result<(), AllocError>
    ensures { OnOk result (text.new.items ≡ text.old.items ++ spec.pair_name full pair) }
{
    if full == 0 {
        push_address(text, b"pair store ", pair.store)?;
        push_address(text, b" load ", pair.load)
    } else {
        push_address(text, b"pair asked ", pair.store)?;
        push_address(text, b" held ", pair.load)
    }
}

/// How many were stale, in vain, and came true later.
#[tactic(auto, using(crate::proofs::Joining::joined), unfolding(crate::specs::Report::fates_text))]
fn push_fates(text: &mut Vec<u8>, fates: Fates) -> Result<(), AllocError>
    ensures { OnOk result (text.new.items ≡ text.old.items ++ spec.fates_text fates) }
{
    push_named(text, b" stale ", fates.stale as u128)?;
    push_named(text, b" vain ", fates.vain as u128)?;
    push_named(text, b" later ", fates.came_true as u128)
}

/// By how many epochs the victims stood after the causers.
#[tactic(auto, using(crate::proofs::Joining::joined), unfolding(crate::specs::Report::distance_text))]
fn push_distance(text: &mut Vec<u8>, distance: Option<Bounds>) -> Result<(), AllocError>
    ensures { OnOk result (text.new.items ≡ text.old.items ++ spec.distance_text distance) }
{
    let Some(bounds) = distance else {
        return push_text(text, b" distance - -");
    };
    push_named(text, b" distance ", bounds.least as u128)?;
    push_named(text, b" ", bounds.greatest as u128)
}

/// The bytes from the lowest at which they met to the highest.
#[tactic(auto, using(crate::proofs::Joining::joined), unfolding(crate::specs::Report::range_text))]
fn push_range(text: &mut Vec<u8>, bytes: Option<Bounds>) -> Result<(), AllocError>
    ensures { OnOk result (text.new.items ≡ text.old.items ++ spec.range_text bytes) }
{
    let Some(bounds) = bytes else {
        return push_text(text, b" at - -");
    };
    push_address(text, b" at ", bounds.least)?;
    let length = bounds.greatest.saturating_sub(bounds.least as u64);
    push_named(text, b" ", length as u128)
}

/// What the violations of a pair cost, and what became of them.
#[tactic(auto, using(crate::proofs::Joining::joined), unfolding(crate::specs::Report::pair_line))]
fn push_pair(text: &mut Vec<u8>, sum: PairSum) -> Result<(), AllocError>
    ensures { OnOk result (text.new.items ≡ text.old.items ++ spec.pair_line sum) }
{
    push_pair_name(text, sum.counts.full_buffer, sum.pair)?;
    push_sum(text, sum.sum)?;
    push_counts(text, sum.counts)?;
    push_fates(text, sum.fates)?;
    push_distance(text, sum.distance)?;
    push_range(text, sum.bytes)?;
    push_text(text, b"\n")
}

/// What those of each pair cost, from the last on.
pub(crate) fn push_pairs(text: &mut Vec<u8>, sums: Vec<PairSum>) -> Result<(), AllocError>
    ensures { OnOk result (text.new.items ≡ text.old.items ++ flat_map spec.pair_line (reverse sums.items)) }
{
    let mut sums = sums;
    while let Some(sum) = sums.pop() {
        push_pair(text, sum)?;
        give_back(&mut sums);
    }
    Ok(())
}

/// Gives back the memory that a list no longer needs, once that is an eighth of what it has.
fn give_back(sums: &mut Vec<PairSum>)
    ensures { sums.new.items ≡ sums.old.items }
{
    let capacity = sums.capacity();
    if sums.len() < capacity - capacity / 8 {
        sums.shrink_to_fit();
    }
}

/// The address of the line that has this number.
fn line_address(image: &Image, line: u32) -> Option<u32>
    ensures { result ≡ spec.line_address image.now line }
{
    line.checked_mul(image.machine().line_length)
}

/// What the violations in a line cost, with so many of each kind.
#[tactic(auto, using(crate::proofs::Joining::joined), unfolding(crate::specs::Report::line_text))]
fn push_line(
    text: &mut Vec<u8>,
    image: &Image,
    line: u32,
    sum: Sum,
    counts: CountsByKind,
) -> Result<(), AllocError>
    ensures { OnOk result (text.new.items ≡ text.old.items ++ spec.line_text image.now (line, sum) counts) }
{
    push_known_address(text, b"line ", line_address(image, line))?;
    push_sum(text, sum)?;
    push_counts(text, counts)?;
    push_text(text, b"\n")
}

/// What those in each line cost.
pub(crate) fn push_lines(
    text: &mut Vec<u8>,
    image: &Image,
    lines: &LinesByKind,
    sums: &[(u32, Sum)],
) -> Result<(), AllocError>
    ensures { OnOk result (text.new.items ≡ text.old.items ++ flat_map (λ e. spec.line_text image.now e (counts_at lines.now e.0)) sums.now) }
{
    for (line, sum) in sums {
        push_line(text, image, *line, *sum, lines.counts(*line))?;
    }
    Ok(())
}

/// What violations cost.
#[tactic(auto, using(crate::proofs::Joining::joined), unfolding(crate::specs::Report::role_text))]
fn push_role(text: &mut Vec<u8>, name: &[u8], sum: Sum) -> Result<(), AllocError>
    ensures { OnOk result (text.new.items ≡ text.old.items ++ spec.role_text name.now sum) }
{
    push_named(text, name, sum.count as u128)?;
    push_named(text, b" ", sum.lost)
}

/// What violations of a number cost.
fn sum_at(sums: &BTreeMap<u32, Sum>, at: u32) -> Sum
    ensures { result ≡ sum_or (get nat_cmp sums.now at) }
{
    match sums.get(&at) {
        Some(sum) => *sum,
        None => Sum { count: 0, lost: 0 },
    }
}

/// What the violations cost in which an instruction was the blamed load, and the blamed store.
#[tactic(auto, using(crate::proofs::Joining::joined), unfolding(crate::specs::Report::pc_text))]
fn push_pc(text: &mut Vec<u8>, pc: u32, victim: Sum, causer: Sum) -> Result<(), AllocError>
    ensures { OnOk result (text.new.items ≡ text.old.items ++ spec.pc_text pc victim causer) }
{
    push_address(text, b"pc ", pc)?;
    push_role(text, b" victim ", victim)?;
    push_role(text, b" causer ", causer)?;
    push_text(text, b"\n")
}

/// What those of each instruction cost, which are the keys of `sums`.
pub(crate) fn push_instructions(
    text: &mut Vec<u8>,
    loads: &BTreeMap<u32, Sum>,
    stores: &BTreeMap<u32, Sum>,
    sums: &BTreeMap<u32, Sum>,
) -> Result<(), AllocError>
    ensures told { OnOk result (text.new.items ≡ text.old.items
        ++ flat_map (λ e. spec.pc_text e.0 (sum_or (get nat_cmp loads.now e.0)) (sum_or (get nat_cmp stores.now e.0))) sums.now.entries) }
    ensures ascending { IsOrdered nat_cmp sums.now }
{
    for (pc, _) in sums.iter() {
        push_pc(text, *pc, sum_at(loads, *pc), sum_at(stores, *pc))?;
    }
    Ok(())
}
