//! The lines of attempts that were cancelled and of those that go on, and what the total says of attempts.
ghost use Rattle.std.specs.Prelude.{◌≡◌, ◌++◌, IfOk, OnOk};
ghost use Rattle.std.specs.List.{flat_map};
ghost use Rattle.conflict_findings.specs.Tallies.{done_in};
ghost use Rattle.conflict_text.specs.Ends as spec;

use crate::words::{push_named, push_text};
use conflict_findings::{Ended, Ending, Ends, Running, Tally, tally_as, tally_running};
use conflicts::Runner;
use std::alloc::{AllocError, Global};

/// Whose attempt it is, and which run of its epoch.
#[tactic(auto, using(crate::proofs::Joining::joined), unfolding(crate::specs::Ends::runner_text))]
pub(crate) fn push_runner(
    text: &mut Vec<u8>,
    label: &[u8],
    runner: Runner,
    attempt: usize,
) -> Result<(), AllocError>
    ensures { OnOk result (text.new.items ≡ text.old.items ++ spec.runner_text label.now runner attempt) }
{
    push_named(text, label, runner.epoch as u128)?;
    push_named(text, b" try ", attempt as u128)?;
    push_named(text, b" core ", runner.core as u128)
}

/// The line of an attempt that was cancelled.
#[tactic(auto, using(crate::proofs::Joining::joined), unfolding(crate::specs::Ends::cancel_line))]
fn push_cancelled(text: &mut Vec<u8>, e: Ended) -> Result<(), AllocError>
    ensures { OnOk result (text.new.items ≡ text.old.items ++ spec.cancel_line e) }
{
    push_named(text, b"cancel ", e.place as u128)?;
    push_runner(text, b" epoch ", e.runner, e.attempt)?;
    push_named(text, b" lost ", e.done as u128)?;
    push_named(text, b" by ", e.by.epoch as u128)?;
    push_named(text, b" core ", e.by.core as u128)?;
    push_text(text, b"\n")
}

/// The line of an attempt that ended, if it was cancelled.
fn push_ended(text: &mut Vec<u8>, e: Ended) -> Result<(), AllocError>
    ensures { OnOk result (text.new.items ≡ text.old.items ++ spec.ended_line e) }
{
    match e.ending {
        Ending::Cancelled => push_cancelled(text, e),
        Ending::Committed | Ending::Violated => Ok(()),
    }
}

/// The lines of those that were cancelled.
fn push_all_ended(text: &mut Vec<u8>, ended: &[Ended]) -> Result<(), AllocError>
    ensures { OnOk result (text.new.items ≡ text.old.items ++ flat_map spec.ended_line ended.now) }
{
    for e in ended {
        push_ended(text, *e)?;
    }
    Ok(())
}

/// The line of an attempt that goes on.
#[tactic(auto, using(crate::proofs::Joining::joined), unfolding(crate::specs::Ends::open_line))]
fn push_open(text: &mut Vec<u8>, running: Running) -> Result<(), AllocError>
    ensures { OnOk result (text.new.items ≡ text.old.items ++ spec.open_line running) }
{
    push_runner(text, b"open epoch ", running.runner, running.attempt)?;
    push_named(text, b" done ", running.done as u128)?;
    push_text(text, b"\n")
}

/// The lines of those that go on.
fn push_all_open(text: &mut Vec<u8>, running: &[Running]) -> Result<(), AllocError>
    ensures { OnOk result (text.new.items ≡ text.old.items ++ flat_map spec.open_line running.now) }
{
    for attempt in running {
        push_open(text, *attempt)?;
    }
    Ok(())
}

/// The lines of attempts that were cancelled, in order, and of those that go on.
pub(crate) fn attempt_lines(alloc: Global, ends: &Ends) -> Result<Vec<u8>, AllocError>
    ensures { IfOk result (λ text. text.items ≡ spec.attempt_lines ends.now.ended.items ends.now.running.items) }
{
    let mut text = Vec::new(alloc);
    push_all_ended(&mut text, ends.ended.as_slice())?;
    push_all_open(&mut text, ends.running.as_slice())?;
    Ok(text)
}

/// What the attempts executed that committed.
pub(crate) fn useful(ends: &Ends) -> u128
    ensures { result ≡ done_in Ending.Committed ends.now.ended.items }
{
    tally_as(ends.ended.as_slice(), Ending::Committed).done
}

/// How many attempts, and what they executed.
#[tactic(auto, using(crate::proofs::Joining::joined), unfolding(crate::specs::Ends::tally_text))]
fn push_tally(text: &mut Vec<u8>, count: &[u8], done: &[u8], tally: Tally) -> Result<(), AllocError>
    ensures { OnOk result (text.new.items ≡ text.old.items ++ spec.tally_text count.now done.now tally) }
{
    push_named(text, count, tally.count as u128)?;
    push_named(text, done, tally.done)
}

/// The attempts that were cancelled, and those that go on.
#[tactic(auto, using(crate::proofs::Joining::joined), unfolding(crate::specs::Ends::rest_text))]
pub(crate) fn push_rest(text: &mut Vec<u8>, ends: &Ends) -> Result<(), AllocError>
    ensures { OnOk result (text.new.items ≡ text.old.items ++ spec.rest_text ends.now.ended.items ends.now.running.items) }
{
    let cancelled = tally_as(ends.ended.as_slice(), Ending::Cancelled);
    let running = tally_running(ends.running.as_slice());
    push_tally(text, b" cancelled ", b" dropped ", cancelled)?;
    push_tally(text, b" open ", b" unsettled ", running)
}
