//! The lines of all attempts, where they are wanted.
ghost use Rattle.std.specs.Prelude.{◌≡◌, ◌++◌, OnOk};
ghost use Rattle.std.specs.List.{flat_map};
ghost use Rattle.conflict_text.specs.AllAttempts as spec;
ghost use Rattle.conflict_text.specs.Why as why;

use crate::ends::push_runner;
use crate::words::{push_named, push_text, push_word};
use conflict_findings::{Attempt, AttemptEnd, Ends, Fate, attempts_in_order};
use spec_history::Entry;
use std::alloc::{AllocError, Global};

fn fate_name(fate: Fate) -> &'static str
    ensures { result.now ≡ spec.fate_name fate }
{
    match fate {
        Fate::Committed => "committed",
        Fate::Faulted => "faulted",
        Fate::Violated => "violated",
        Fate::Cancelled => "cancelled",
    }
}

/// What became of an attempt, or that it goes on.
#[tactic(auto, using(crate::proofs::Joining::joined), unfolding(crate::specs::AllAttempts::end_text))]
fn push_end(text: &mut Vec<u8>, end: Option<AttemptEnd>) -> Result<(), AllocError>
    ensures { OnOk result (text.new.items ≡ text.old.items ++ spec.end_text end) }
{
    let Some(end) = end else {
        return push_text(text, b" open");
    };
    push_word(text, b" ", fate_name(end.fate).as_bytes())?;
    push_named(text, b" ", end.place as u128)?;
    push_named(text, b" by ", end.by.epoch as u128)?;
    push_named(text, b" core ", end.by.core as u128)
}

/// The line of an attempt.
#[tactic(auto, using(crate::proofs::Joining::joined), unfolding(crate::specs::AllAttempts::attempt_line))]
fn push_attempt(text: &mut Vec<u8>, a: Attempt) -> Result<(), AllocError>
    ensures { OnOk result (text.new.items ≡ text.old.items ++ spec.attempt_line a) }
{
    push_named(text, b"attempt ", a.began as u128)?;
    push_runner(text, b" epoch ", a.runner, a.number)?;
    push_named(text, b" done ", a.done as u128)?;
    push_end(text, a.end)?;
    push_text(text, b"\n")
}

/// The lines of all of them.
fn push_all(text: &mut Vec<u8>, attempts: &[Attempt]) -> Result<(), AllocError>
    ensures { OnOk result (text.new.items ≡ text.old.items ++ flat_map spec.attempt_line attempts.now) }
{
    for attempt in attempts {
        push_attempt(text, *attempt)?;
    }
    Ok(())
}

/// The lines of all attempts of a history at the end of a text, where they are wanted.
pub(crate) fn push_wanted(
    alloc: Global,
    text: &mut Vec<u8>,
    wanted: bool,
    entries: &[Entry],
    ends: &Ends,
) -> Result<(), AllocError>
    ensures { OnOk result (why.AreToldBelow wanted entries.now ends.now.ended.items ends.now.running.items text.old.items text.new.items) }
{
    if !wanted {
        return Ok(());
    }
    let attempts = attempts_in_order(alloc, entries, ends)?;
    push_all(text, attempts.as_slice())
}
