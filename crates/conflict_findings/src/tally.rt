//! How many attempts ended alike, and how many instructions they had executed.

ghost use Rattle.std.specs.Prelude.{◌≡◌};
ghost use Rattle.conflict_findings.specs.Tallies as spec;

use crate::ended::{Ended, Ending, Running};

/// How many attempts there are, and how many instructions they executed in all.
#[derive(Clone, Copy)]
pub struct Tally {
    /// How many attempts.
    pub count: usize,
    /// How many instructions.
    pub done: u128,
}

/// An attempt ended so.
fn is_ended(ended: &Ended, ending: Ending) -> bool
    ensures { result ≡ spec.is_ended ending ended.now }
{
    matches!(
        (ended.ending, ending),
        (Ending::Committed, Ending::Committed)
            | (Ending::Violated, Ending::Violated)
            | (Ending::Cancelled, Ending::Cancelled)
    )
}

/// The attempts that ended so.
pub fn tally_as(ended: &[Ended], ending: Ending) -> Tally
    ensures { result ≡ spec.tally_in ending ended.now }
{
    let mut count = 0;
    let mut done = 0;
    for attempt in ended {
        if is_ended(attempt, ending) {
            count += 1;
            done += attempt.done as u128;
        }
    }
    Tally { count, done }
}

/// The attempts that go on.
pub fn tally_running(running: &[Running]) -> Tally
    ensures { result ≡ spec.tally_of_running running.now }
{
    let mut done = 0;
    for attempt in running {
        done += attempt.done as u128;
    }
    Tally {
        count: running.len(),
        done,
    }
}
