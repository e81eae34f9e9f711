//! Which attempts go on.

ghost use Rattle.std.specs.Prelude.{◌≡◌, ◌++◌, IfOk, OnOk, length, option_to_list};
ghost use Rattle.spec_history.specs.View.{state_in};
ghost use Rattle.conflict_findings.specs.Ends as spec;
ghost use Rattle.conflict_findings.specs.Followed.{IsFollowedTo};
ghost use Rattle.conflict_findings.specs.Violated.{AreMarked};

use crate::ended::Running;
use crate::ending::{done_at, runner_at};
use crate::followed::Followed;
use crate::violated::is_violated;
use rv32_exec::End;
use spec_history::{Entry, Flat};
use std::alloc::{AllocError, Global};

/// The loop ended by a fault of this epoch.
fn is_faulted(end: Option<End>, epoch: u32) -> bool
    ensures { result ≡ spec.is_faulted end epoch }
{
    match end {
        Some(End::Fault { epoch: other, .. }) => other == epoch,
        _ => false,
    }
}

/// The attempt of a core that goes on after the history, if there is one.
fn running_at(flat: &Flat, entries: &[Entry], followed: &Followed, core: u32) -> Option<Running>
    requires marked { AreMarked entries.now (length entries.now) (state_in flat.now).cores }
    requires followed { IsFollowedTo entries.now (length entries.now) followed.now }
    ensures { result ≡ spec.running_in flat.now.image entries.now (state_in flat.now) core }
{
    let runner = runner_at(flat, core)?;
    if is_violated(entries, runner, entries.len()) || is_faulted(flat.ended(), runner.epoch) {
        return None;
    }
    let done = done_at(flat, core)?;
    Some(Running {
        runner,
        attempt: followed.attempt_number(core),
        done,
    })
}

/// The list with an attempt at its end, if there is one.
fn keep(running: &mut Vec<Running>, found: Option<Running>) -> Result<(), AllocError>
    ensures { OnOk result (running.new.items ≡ running.old.items ++ option_to_list found) }
{
    if let Some(attempt) = found {
        running.push(attempt)?;
    }
    Ok(())
}

/// The attempts that go on after the history, in the order of the cores. It takes the machine after the history, and what is kept of its
/// attempts, of which all entries are noted.
///
/// The entries have to say which attempts are violated, as those do that the machine has replayed.
pub fn running_in(
    alloc: Global,
    flat: &Flat,
    cores: u32,
    entries: &[Entry],
    followed: &Followed,
) -> Result<Vec<Running>, AllocError>
    requires marked { AreMarked entries.now (length entries.now) (state_in flat.now).cores }
    requires followed { IsFollowedTo entries.now (length entries.now) followed.now }
    ensures { IfOk result (λ running. running.items ≡ spec.running_below flat.now.image entries.now (state_in flat.now) cores) }
{
    let mut running = Vec::new(alloc);
    for core in 0..cores {
        keep(&mut running, running_at(flat, entries, followed, core))?;
    }
    Ok(running)
}
