//! Whether an attempt has been violated, read from the entries.

ghost use Rattle.std.specs.Prelude.{◌≡◌};
ghost use Rattle.conflict_findings.specs.Violated as spec;
ghost use Rattle.spec_history.specs.Conflict.{entry_is};

use conflicts::{Runner, begins};
use spec_history::{Entry, What};

/// An epoch is violated at a place.
fn violates(entries: &[Entry], epoch: u32, place: usize) -> bool
    ensures { result ≡ entry_is entries.now place (spec.is_violation epoch) }
{
    match entries.get(place) {
        Some(entry) => match entry.what {
            What::Hurt(other) => epoch == other,
            _ => false,
        },
        None => false,
    }
}

/// The attempt that a core makes at its epoch before a place has been violated. It looks back to the violation or to the
/// beginning of the attempt.
pub(crate) fn is_violated(entries: &[Entry], runner: Runner, before: usize) -> bool
    ensures { result ≡ spec.is_violated entries.now runner.core runner.epoch before }
{
    for i in 0..before {
        let place = before - 1 - i;
        if begins(entries, runner.core, place) {
            return false;
        }
        if violates(entries, runner.epoch, place) {
            return true;
        }
    }
    false
}
