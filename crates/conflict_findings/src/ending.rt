//! Which attempt an entry ends.

ghost use Rattle.std.specs.Prelude.{◌≡◌, List, option_map};
ghost use Rattle.spec_history.specs.declared.entry.Entry.{Entry};
ghost use Rattle.spec_history.specs.View.{state_in};
ghost use Rattle.conflict_findings.specs.Ends as spec;
ghost use Rattle.conflict_findings.specs.Followed.{IsFollowedTo};
ghost use Rattle.conflict_findings.specs.Violated.{AreMarked};

use crate::ended::{Ended, Ending};
use crate::followed::Followed;
use crate::violated::is_violated;
use conflicts::{Runner, core_at};
use spec_history::{Entry, Flat, What};

/// A core with the epoch that it runs.
pub(crate) fn runner_at(flat: &Flat, core: u32) -> Option<Runner>
    ensures { result ≡ spec.runner_in (state_in flat.now) core }
{
    let epoch = flat.epoch(core)?;
    Some(Runner { core, epoch })
}

/// How many instructions the attempt of a core has executed, up to its next event.
pub(crate) fn done_at(flat: &Flat, core: u32) -> Option<u64>
    ensures { result ≡ option_map (spec.done_by flat.now.image) ((state_in flat.now).cores core) }
{
    let next = flat.next_event(core)?;
    let hart = next.now();
    Some(hart.done())
}

/// The attempt of a core, which ends so by an entry at a place.
fn ended_as(
    flat: &Flat,
    followed: &Followed,
    place: usize,
    ending: Ending,
    by: u32,
    core: u32,
) -> Option<Ended>
    ensures { (entries : List Entry) → IsFollowedTo entries place followed.now
        → result ≡ spec.ended_as flat.now.image entries (state_in flat.now) place ending by core }
{
    let by = runner_at(flat, by)?;
    let runner = runner_at(flat, core)?;
    let done = done_at(flat, core)?;
    Some(Ended {
        place,
        ending,
        by,
        runner,
        attempt: followed.attempt_number(core),
        done,
    })
}

/// The attempt of the core that runs this epoch, if it has not been violated before.
fn cancelled(
    flat: &Flat,
    cores: u32,
    entries: &[Entry],
    followed: &Followed,
    place: usize,
    by: u32,
    epoch: u32,
) -> Option<Ended>
    requires marked { AreMarked entries.now place (state_in flat.now).cores }
    requires followed { IsFollowedTo entries.now place followed.now }
    ensures { result ≡ spec.cancelled flat.now.image cores entries.now (state_in flat.now) place by epoch }
{
    let core = core_at(flat, cores, epoch)?;
    let runner = runner_at(flat, core)?;
    if is_violated(entries, runner, place) {
        return None;
    }
    ended_as(flat, followed, place, Ending::Cancelled, by, core)
}

/// The attempt that the entry at a place ends, if it ends one. It takes the machine before the entry, the whole history, and what is kept
/// of its attempts, of which the entries before the place are noted.
///
/// The entries before the place have to say which attempts are violated, as those do that the machine has replayed.
pub fn ended_by(
    flat: &Flat,
    cores: u32,
    entries: &[Entry],
    followed: &Followed,
    place: usize,
    entry: Entry,
) -> Option<Ended>
    requires marked { AreMarked entries.now place (state_in flat.now).cores }
    requires followed { IsFollowedTo entries.now place followed.now }
    ensures { result ≡ spec.ended_by flat.now.image cores entries.now (state_in flat.now) place entry.by entry.what }
{
    let by = entry.by;
    match entry.what {
        What::Hurt(epoch) => {
            let core = core_at(flat, cores, epoch)?;
            ended_as(flat, followed, place, Ending::Violated, by, core)
        }
        What::Cancel(epoch) => cancelled(flat, cores, entries, followed, place, by, epoch),
        What::Commit | What::Fault { .. } => {
            ended_as(flat, followed, place, Ending::Committed, by, by)
        }
        What::Start(_) | What::Load { .. } | What::Store { .. } | What::Restart | What::Publish =>
            None,
    }
}
