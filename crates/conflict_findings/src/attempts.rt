//! All attempts of a history, in the order in which they began.

ghost use Rattle.std.specs.Prelude.{◌≡◌, ◌++◌, IfOk, OnOk, map};
ghost use Rattle.std.specs.List.Sorted.{IsPermutation, IsSorted};
ghost use Rattle.conflict_findings.specs.AllAttempts as spec;

use crate::ended::{Ended, Ending, Ends, Running};
use crate::finding::what_at;
use conflicts::{Runner, attempt_place};
use spec_history::{Entry, What};
use std::alloc::{AllocError, Global};

/// What became of an attempt that has ended.
#[derive(Clone, Copy, PartialEq, Eq)]
pub enum Fate {
    /// Its core committed it.
    Committed,
    /// It faulted, which commits what it had stored, and ends the loop.
    Faulted,
    /// It was violated.
    Violated,
    /// It was cancelled, and had not been violated before.
    Cancelled,
}

/// The end of an attempt.
#[derive(Clone, Copy, PartialEq, Eq)]
pub struct AttemptEnd {
    /// The place in the history, counted from 0, of the entry that ended it.
    pub place: usize,
    /// What became of it.
    pub fate: Fate,
    /// Whose entry it is, with the epoch that this core ran: itself, where it committed or faulted.
    pub by: Runner,
}

/// An attempt of a history.
#[derive(Clone, Copy, PartialEq, Eq)]
pub struct Attempt {
    /// The place in the history, counted from 0, of the start or restart that began it; 0 where none did, which is so of no attempt
    /// of a history that replays.
    pub began: usize,
    /// Whose it is, and at which epoch.
    pub runner: Runner,
    /// Which run of its epoch it is, counted from 1.
    pub number: usize,
    /// How many instructions it has executed, up to its next event; one that ended, until it learnt of its end.
    pub done: u64,
    /// Its end. None: it goes on after the history.
    pub end: Option<AttemptEnd>,
}

/// What became of an attempt that an entry ended so.
fn fate_of(ending: Ending, what: Option<What>) -> Fate
    ensures { result ≡ spec.fate_of ending what }
{
    match ending {
        Ending::Violated => Fate::Violated,
        Ending::Cancelled => Fate::Cancelled,
        Ending::Committed => match what {
            Some(What::Fault { .. }) => Fate::Faulted,
            _ => Fate::Committed,
        },
    }
}

/// Where the attempt began that a core runs before a place. It looks back to there.
fn began_at(entries: &[Entry], core: u32, before: usize) -> usize
    ensures { result ≡ spec.began_at entries.now core before }
{
    attempt_place(entries, core, before).unwrap_or(0)
}

impl Attempt {
    /// One that has ended.
    fn of_ended(entries: &[Entry], e: Ended) -> Attempt
        ensures { result ≡ spec.of_ended entries.now e }
    {
        Attempt {
            began: began_at(entries, e.runner.core, e.place),
            runner: e.runner,
            number: e.attempt,
            done: e.done,
            end: Some(AttemptEnd {
                place: e.place,
                fate: fate_of(e.ending, what_at(entries, Some(e.place))),
                by: e.by,
            }),
        }
    }

    /// One that goes on.
    fn of_running(entries: &[Entry], running: Running) -> Attempt
        ensures { result ≡ spec.of_running entries.now running }
    {
        Attempt {
            began: began_at(entries, running.runner.core, entries.len()),
            runner: running.runner,
            number: running.attempt,
            done: running.done,
            end: None,
        }
    }
}

/// Those that have ended, at the end of a list.
fn push_ended(
    attempts: &mut Vec<Attempt>,
    entries: &[Entry],
    ended: &[Ended],
) -> Result<(), AllocError>
    ensures { OnOk result (attempts.new.items ≡ attempts.old.items ++ map (spec.of_ended entries.now) ended.now) }
{
    for e in ended {
        attempts.push(Attempt::of_ended(entries, *e))?;
    }
    Ok(())
}

/// Those that go on, at the end of a list.
fn push_running(
    attempts: &mut Vec<Attempt>,
    entries: &[Entry],
    running: &[Running],
) -> Result<(), AllocError>
    ensures { OnOk result (attempts.new.items ≡ attempts.old.items ++ map (spec.of_running entries.now) running.now) }
{
    for attempt in running {
        attempts.push(Attempt::of_running(entries, *attempt))?;
    }
    Ok(())
}

/// Those that have ended, and those that go on.
fn gathered(alloc: Global, entries: &[Entry], ends: &Ends) -> Result<Vec<Attempt>, AllocError>
    ensures { IfOk result (λ attempts. attempts.items ≡ spec.attempts_of entries.now ends.now.ended.items ends.now.running.items) }
{
    let mut attempts = Vec::new(alloc);
    push_ended(&mut attempts, entries, ends.ended.as_slice())?;
    push_running(&mut attempts, entries, ends.running.as_slice())?;
    Ok(attempts)
}

/// Puts attempts in the order in which they began.
fn order_attempts(attempts: &mut Vec<Attempt>)
    ensures all { IsPermutation attempts.old.items attempts.new.items }
    ensures ordered { IsSorted spec.by_beginning attempts.new.items }
{
    attempts.sort_unstable_by_key(|a| a.began);
}

/// The attempts of a history that ended and those that go on, in the order in which they began. It takes the whole history and both
/// lists.
///
/// Of each attempt it looks back from its end to its beginning. No two attempts of a core overlap, so that is the length of the history,
/// times the number of cores, at most.
pub fn attempts_in_order(
    alloc: Global,
    entries: &[Entry],
    ends: &Ends,
) -> Result<Vec<Attempt>, AllocError>
    ensures { IfOk result (λ attempts. spec.AreAttempts entries.now ends.now.ended.items ends.now.running.items attempts.items) }
{
    let mut attempts = gathered(alloc, entries, ends)?;
    order_attempts(&mut attempts);
    Ok(attempts)
}
