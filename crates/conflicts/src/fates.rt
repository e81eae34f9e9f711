//! What became of a violation.

ghost use Rattle.std.specs.Prelude.{◌≡◌, ◌&&◌, nat_lt};
ghost use Rattle.spec_history.specs.Conflict.{entry_is};
ghost use Rattle.conflicts.specs.Fates as spec;

use crate::explanation::{Explanation, Runner};
use crate::standing::Site;
use spec_history::{Entry, What};

/// What the entries after a violation are searched for.
#[derive(Clone, Copy)]
pub(crate) enum Sign {
    /// A core's attempt at its epoch is over: the epoch is violated or cancelled, or the core commits it.
    Over,
    /// A violated core's epoch is cancelled, or the core begins it again.
    Settled,
}

/// The epoch is cancelled.
fn cancels(epoch: u32, what: What) -> bool
    ensures { result ≡ spec.cancels epoch what }
{
    match what {
        What::Cancel(other) => other == epoch,
        _ => false,
    }
}

/// The epoch is violated or cancelled.
fn undoes(epoch: u32, what: What) -> bool
    ensures { result ≡ spec.undoes epoch what }
{
    match what {
        What::Hurt(other) | What::Cancel(other) => other == epoch,
        _ => false,
    }
}

/// The entry is the one that is searched for.
fn shows(sign: Sign, runner: Runner, entry: &Entry) -> bool
    ensures { result ≡ spec.shows sign runner entry.now }
{
    match sign {
        Sign::Over => {
            undoes(runner.epoch, entry.what)
                || entry.by == runner.core && matches!(entry.what, What::Commit)
        }
        Sign::Settled => {
            cancels(runner.epoch, entry.what)
                || entry.by == runner.core && matches!(entry.what, What::Restart)
        }
    }
}

/// The entry at a place stands after another place, and is searched for.
fn is_shown_at(entries: &[Entry], after: usize, sign: Sign, runner: Runner, place: usize) -> bool
    ensures { result ≡ (nat_lt after place && entry_is entries.now place (spec.shows sign runner)) }
{
    match entries.get(place) {
        Some(entry) => after < place && shows(sign, runner, entry),
        None => false,
    }
}

/// The first entry after a place that is searched for.
fn first_after(entries: &[Entry], place: usize, sign: Sign, runner: Runner) -> Option<usize>
    ensures { result ≡ spec.first_after entries.now place (spec.shows sign runner) }
{
    for j in place..entries.len() {
        if is_shown_at(entries, place, sign, runner, j) {
            return Some(j);
        }
    }
    None
}

impl Explanation {
    /// Over: the place of the entry after this violation that ends the causer's attempt: it violates or cancels its epoch, or
    /// commits it.
    ///
    /// It looks no further than that.
    pub fn over_at(&self, entries: &[Entry]) -> Option<usize>
        ensures { result ≡ spec.over_at entries.now self.now }
    {
        first_after(entries, self.place, Sign::Over, self.causer)
    }

    /// Moot: the place of the entry that cancels the victim's epoch, if its core does not begin it again before that.
    ///
    /// It looks no further than that or the new beginning.
    pub fn moot_at(&self, entries: &[Entry]) -> Option<usize>
        ensures { result ≡ spec.moot_at entries.now self.now }
    {
        let j = first_after(entries, self.place, Sign::Settled, self.victim)?;
        let entry = entries.get(j)?;
        if cancels(self.victim.epoch, entry.what) {
            Some(j)
        } else {
            None
        }
    }

    /// Stale: the blamed store stands before the blamed load, so that the value was there and could not be seen.
    pub fn is_stale(&self) -> bool
        ensures { result ≡ spec.is_stale_pair self.now.blame }
    {
        match self.blame {
            Some(pair) => pair.store < pair.load,
            None => false,
        }
    }

    /// Since: how many instructions were lost from the blamed load on, which a checkpoint before it would not have saved. It
    /// takes the sites of the history.
    pub fn since(&self, sites: &[Option<Site>]) -> Option<u64>
        ensures { result ≡ spec.since sites.now self.now }
    {
        let pair = self.blame?;
        let site = (*sites.get(pair.load)?)?;
        Some(self.lost.saturating_sub(u64::from(site.done)))
    }
}
