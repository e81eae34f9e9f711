//! The conflicts of a loop over bytes, each shown by a schedule over a plain store.
ghost use Rattle.std.specs.Prelude.{◌≡◌, ◌<◌, ◌≤◌, ◌+◌, IfOk};
ghost use Rattle.violations.specs.Rule.{IsCoreCount};
ghost use Rattle.homefree.specs.Room.{most_room};
ghost use Rattle.dependences.specs.Conflict.{ConflictInOrder};
ghost use Rattle.never_or_shown.specs.Ran.{IsRun};
ghost use Rattle.never_or_shown.specs.Shown.{ComesTo, IsConflictIn};

use crate::ahead::{Ahead, run_ahead};
use dependences::is_near;
use rv32_exec::{Image, NoMemory};
use std::alloc::Global;

/// How near epochs of the run in order depend on each other, and how many run.
#[derive(Clone, Copy)]
pub struct InOrder {
    /// The least distance at which an epoch depends on an earlier one over bytes, if any does.
    pub nearest: Option<u32>,
    /// An epoch that depends so near on an earlier one, where any does.
    pub later: u32,
    /// How many epochs run in order.
    pub epochs: u32,
}

/// Drives schedules over fresh plain stores up to one that violates an epoch.
///
/// Where two epochs conflict over bytes on so many cores, there is no other end than a violation, or a history that is full.
/// `NoMemory`: memory ran out.
pub fn show_conflict(
    alloc: Global,
    image: &Image,
    cores: u32,
    room: u32,
    ran: InOrder,
) -> Result<Ahead, NoMemory>
    requires cores { IsCoreCount image.now cores }
    requires least { 16 ≤ room }
    requires most { room ≤ most_room }
    requires ran { IsRun image.now ran }
    ensures { IfOk result (ComesTo (record { image = image.now; cores = cores; room = room }) (ConflictInOrder image.now cores)) }
{
    let (from, to) = laters(image, cores, ran);
    let mut full = None;
    for later in from..to {
        match run_ahead(alloc, image, cores, room, later)? {
            Ahead::Violated(book) => return Ok(Ahead::Violated(book)),
            Ahead::HistoryFull(book) => full = Some(book),
            Ahead::Unviolated => (),
        }
    }
    match full {
        Some(book) => Ok(Ahead::HistoryFull(book)),
        None => Ok(Ahead::Unviolated),
    }
}

/// The epochs of which one conflicts with an earlier one, where any does: from the first up to the one before the last.
fn laters(image: &Image, cores: u32, ran: InOrder) -> (u32, u32)
    requires cores { IsCoreCount image.now cores }
    requires ran { IsRun image.now ran }
    ensures { ConflictInOrder image.now cores → IsConflictIn image.now cores result.0 result.1 }
{
    let end = image.epochs();
    if is_near(cores, ran.nearest) {
        return (ran.later, ran.later.saturating_add(1));
    }
    let epochs = ran.epochs;
    (epochs, epochs.saturating_add(cores).min(end))
}
