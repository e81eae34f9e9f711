//! Who was violated, and by what.

ghost use Rattle.std.specs.Prelude.{◌≡◌, ◌<◌, length, false, not, true, IfSome, MatchOption};
ghost use Rattle.spec_history.specs.Refusal.{any_below, is_at};
ghost use Rattle.spec_history.specs.View as view;
ghost use Rattle.spec_history.specs.Conflict.{entry_is};
ghost use Rattle.spec_history.specs.Conflict as spec;
ghost use Rattle.conflicts.specs.Attempts as attempts;

use spec_history::{Entry, Flat, What};

/// A core runs this epoch.
fn runs(flat: &Flat, core: u32, epoch: u32) -> bool
    ensures { result ≡ is_at epoch ((view.state_in flat.now).cores core) }
{
    flat.epoch(core) == Some(epoch)
}

/// The core that runs this epoch: of so many cores, the first.
pub fn core_at(flat: &Flat, cores: u32, epoch: u32) -> Option<u32>
    ensures first { result ≡ attempts.core_at cores (view.state_in flat.now) epoch }
    ensures there { MatchOption result (any_below cores (λ k. is_at epoch ((view.state_in flat.now).cores k)) ≡ false)
        (λ core. is_at epoch ((view.state_in flat.now).cores core) ≡ true) }
{
    for core in 0..cores {
        if runs(flat, core, epoch) {
            return Some(core);
        }
    }
    None
}

/// What a turn tells of other cores before it acts.
fn is_notice(what: What) -> bool
    ensures { result ≡ spec.is_notice what }
{
    matches!(what, What::Hurt(_) | What::Cancel(_))
}

/// What can violate a later epoch.
fn can_cause(what: What) -> bool
    ensures { result ≡ spec.can_cause what }
{
    match what {
        What::Load { .. }
        | What::Store { .. }
        | What::Publish
        | What::Commit
        | What::Fault { .. } => true,
        What::Start(_) | What::Hurt(_) | What::Cancel(_) | What::Restart => false,
    }
}

/// The first entry after a place that is no notice.
fn next_act(entries: &[Entry], place: usize) -> Option<usize>
    requires { place < length entries.now }
    ensures next { result ≡ spec.next_act entries.now place }
    ensures within { IfSome result (λ j. j < length entries.now) }
{
    for j in place + 1..entries.len() {
        if is_act(entries, j) {
            return Some(j);
        }
    }
    None
}

/// There is an entry at this place, and it is no notice.
fn is_act(entries: &[Entry], place: usize) -> bool
    ensures { result ≡ entry_is entries.now place (λ entry. not (spec.is_notice entry.what)) }
{
    match entries.get(place) {
        Some(entry) => !is_notice(entry.what),
        None => false,
    }
}

/// The cause of the violation that a core makes at a place.
pub(crate) fn cause_of(entries: &[Entry], place: usize, core: u32) -> Option<usize>
    requires { place < length entries.now }
    ensures cause { result ≡ spec.cause_of entries.now place core }
    ensures within { IfSome result (λ j. j < length entries.now) }
{
    let j = next_act(entries, place)?;
    let Entry { by, what } = *entries.get(j)?;
    if by == core && can_cause(what) {
        Some(j)
    } else {
        None
    }
}
