//! The sums over violations.
ghost use Rattle.std.specs.Prelude.{◌≡◌, ◌++◌, OnOk};
ghost use Rattle.std.specs.BTreeMap.{IsOrdered};
ghost use Rattle.std.specs.List.{flat_map};
ghost use Rattle.std.specs.Ordering.{nat_cmp};
ghost use Rattle.conflict_text.specs.Report as spec;

use crate::ends::{push_rest, useful};
use crate::words::{kind_name, push_named, push_text, push_word};
use conflict_findings::{CountsByKind, Ends, Sum, SumsByKind};
use conflicts::Kind;
use std::alloc::AllocError;
use std::collections::BTreeMap;

/// How many violations there are, and what they lost.
#[tactic(auto, using(crate::proofs::Joining::joined), unfolding(crate::specs::Report::sum_text))]
pub(crate) fn push_sum(text: &mut Vec<u8>, sum: Sum) -> Result<(), AllocError>
    ensures { OnOk result (text.new.items ≡ text.old.items ++ spec.sum_text sum.count sum.lost) }
{
    push_named(text, b" rollbacks ", sum.count as u128)?;
    push_named(text, b" lost ", sum.lost)
}

/// How many are of each kind.
#[tactic(auto, using(crate::proofs::Joining::joined), unfolding(crate::specs::Report::counts_text))]
pub(crate) fn push_counts(text: &mut Vec<u8>, counts: CountsByKind) -> Result<(), AllocError>
    ensures { OnOk result (text.new.items ≡ text.old.items ++ spec.counts_text counts) }
{
    push_named(text, b" true ", counts.true_sharing as u128)?;
    push_named(text, b" silent ", counts.silent_store as u128)?;
    push_named(text, b" false ", counts.false_sharing as u128)?;
    push_named(text, b" buffer ", counts.full_buffer as u128)
}

/// What the violations of an epoch cost.
#[tactic(auto, using(crate::proofs::Joining::joined), unfolding(crate::specs::Report::epoch_line))]
fn push_epoch(text: &mut Vec<u8>, epoch: u32, sum: Sum) -> Result<(), AllocError>
    ensures { OnOk result (text.new.items ≡ text.old.items ++ spec.epoch_line (epoch, sum)) }
{
    push_named(text, b"epoch ", epoch as u128)?;
    push_sum(text, sum)?;
    push_text(text, b"\n")
}

/// What those of each epoch cost.
pub(crate) fn push_epochs(text: &mut Vec<u8>, sums: &BTreeMap<u32, Sum>) -> Result<(), AllocError>
    ensures told { OnOk result (text.new.items ≡ text.old.items ++ flat_map spec.epoch_line sums.now.entries) }
    ensures ascending { IsOrdered nat_cmp sums.now }
{
    for (epoch, sum) in sums.iter() {
        push_epoch(text, *epoch, *sum)?;
    }
    Ok(())
}

/// What the violations of a kind cost, if it occurs.
#[tactic(auto, using(crate::proofs::Joining::joined), unfolding(crate::specs::Report::kind_text))]
fn push_kind(text: &mut Vec<u8>, kind: Kind, sum: Sum) -> Result<(), AllocError>
    ensures { OnOk result (text.new.items ≡ text.old.items ++ spec.kind_text kind sum) }
{
    if sum.count == 0 {
        return Ok(());
    }
    push_word(text, b"kind ", kind_name(kind).as_bytes())?;
    push_sum(text, sum)?;
    push_text(text, b"\n")
}

/// What the violations of each kind cost that occurs.
#[tactic(auto, using(crate::proofs::Joining::joined), unfolding(crate::specs::Report::kinds_text))]
pub(crate) fn push_kinds(text: &mut Vec<u8>, sums: SumsByKind) -> Result<(), AllocError>
    ensures { OnOk result (text.new.items ≡ text.old.items ++ spec.kinds_text sums) }
{
    push_kind(text, Kind::TrueSharing, sums.true_sharing)?;
    push_kind(text, Kind::SilentStore, sums.silent_store)?;
    push_kind(text, Kind::FalseSharing, sums.false_sharing)?;
    push_kind(text, Kind::FullBuffer, sums.full_buffer)?;
    push_kind(text, Kind::Unexplained, sums.unexplained)
}

/// The epochs of the loop. The label is in two parts, as the prover compares no literals of more than 12 bytes by itself.
#[tactic(auto, using(crate::proofs::Joining::joined), unfolding(crate::specs::Report::epochs_text))]
fn push_epochs_total(text: &mut Vec<u8>, epochs: u32) -> Result<(), AllocError>
    ensures { OnOk result (text.new.items ≡ text.old.items ++ spec.epochs_text epochs) }
{
    push_text(text, b"total")?;
    push_named(text, b" epochs ", epochs as u128)
}

/// The epochs of the loop, those that committed, and what the attempts executed that did.
#[tactic(auto, using(crate::proofs::Joining::joined), unfolding(crate::specs::Report::committed_text))]
fn push_committed(
    text: &mut Vec<u8>,
    epochs: u32,
    committed: u32,
    useful: u128,
) -> Result<(), AllocError>
    ensures { OnOk result (text.new.items ≡ text.old.items ++ spec.committed_text epochs committed useful) }
{
    push_epochs_total(text, epochs)?;
    push_named(text, b" committed ", committed as u128)?;
    push_named(text, b" useful ", useful)
}

/// The epochs of the loop, those that committed, what all violations cost, and how the attempts ended.
#[tactic(auto, using(crate::proofs::Joining::joined), unfolding(crate::specs::Report::total_text))]
pub(crate) fn push_total(
    text: &mut Vec<u8>,
    epochs: u32,
    committed: u32,
    sum: Sum,
    ends: &Ends,
) -> Result<(), AllocError>
    ensures { OnOk result (text.new.items ≡ text.old.items ++ spec.total_text epochs committed sum ends.now.ended.items ends.now.running.items) }
{
    push_committed(text, epochs, committed, useful(ends))?;
    push_sum(text, sum)?;
    push_rest(text, ends)?;
    push_text(text, b"\n")
}
