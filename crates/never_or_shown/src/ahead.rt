//! A schedule in which the last epoch of a window runs ahead of those before it.
ghost use Rattle.std.specs.Prelude.{◌≡◌, ◌<◌, ◌≤◌, ◌+◌, ◌-◌, ℕ, true, false, Bool, IfOk, MatchResult};
ghost use Rattle.rv32_image.specs.Image.{LoadedImage};
ghost use Rattle.violations.specs.Rule.{IsCoreCount};
ghost use Rattle.homefree.specs.BookView.{IsOfSameLoop};
ghost use Rattle.homefree.specs.Room.{most_room};
ghost use Rattle.epoch_paths.specs.InOrder.{IsInOrder};
ghost use Rattle.dependences.specs.Conflict.{first_beside};
ghost use Rattle.never_or_shown.specs.Drives.{IsDrive, IsHalted};
ghost use Rattle.never_or_shown.specs.Shown.{ComesTo, IsConflictAt};
ghost use Rattle.never_or_shown.specs.Windows as spec;

use crate::drive::{Drive, Halt, run, turn};
use homefree::{Answer, Book};
use rv32_exec::{Image, NoMemory};
use std::alloc::Global;
use violations::{MAX_CORES, PlainStore};

/// What schedules over a plain store have come to.
#[derive(Drop)]
pub enum Ahead {
    /// One has made this history, and its last turn has violated an epoch.
    Violated(Book<PlainStore>),
    /// None has violated an epoch, and this history has no room for a turn.
    HistoryFull(Book<PlainStore>),
    /// None has violated an epoch, and each has had room.
    Unviolated,
}

/// Takes turns over a fresh plain store up to the first violation. The epochs before the window of this later one commit in order, on
/// core 0. Then the epochs of the window start, one on each core. The later one, which is the last of them, runs as far as it comes. At
/// last those before it run and commit in order.
///
/// Where the later epoch reads a byte from outside that an epoch before it in the window stores in order, there is no other end than a
/// violation or a full history. `NoMemory`: memory ran out.
pub fn run_ahead(
    alloc: Global,
    image: &Image,
    cores: u32,
    room: u32,
    later: u32,
) -> Result<Ahead, NoMemory>
    requires cores { IsCoreCount image.now cores }
    requires least { 16 ≤ room }
    requires most { room ≤ most_room }
    ensures { IfOk result (ComesTo (record { image = image.now; cores = cores; room = room }) (IsConflictAt image.now cores later)) }
{
    let (book, shares) = Book::new(alloc, image, cores, room)?;
    let held = [None; MAX_CORES];
    let mut drive = Drive { book, shares, held };
    let taken = take_turns(&mut drive, image, cores, later);
    let book = drive.book;
    match taken {
        Ok(()) => Ok(Ahead::Unviolated),
        Err(Halt::Violated) => Ok(Ahead::Violated(book)),
        Err(Halt::HistoryFull) => Ok(Ahead::HistoryFull(book)),
        Err(Halt::NoMemory) => Err(NoMemory),
    }
}

/// The turns of the schedule. Where they violate no epoch, the later one conflicts with none.
fn take_turns(drive: &mut Drive, image: &Image, cores: u32, later: u32) -> Result<(), Halt>
    requires drive { IsDrive drive.old }
    requires image { drive.old.book.image ≡ image.now }
    requires cores { drive.old.book.cores ≡ cores }
    requires least { 1 ≤ cores }
    requires begins { 0 < image.now.epochs → spec.IsReady drive.old.book 0 }
    ensures taken { MatchResult result (λ _. IsConflictAt image.now cores later → ⊥) (IsHalted drive.new) }
    ensures same { IsOfSameLoop drive.old.book drive.new.book }
{
    if image.epochs() <= later {
        return Ok(());
    }
    let first = later.saturating_sub(cores - 1);
    if !commit_before(drive, first)? {
        return Ok(());
    }
    let last = later - first;
    start_window(drive, last + 1)?;
    match run(drive, last)? {
        Answer::Again(_) => commit_window(drive, last),
        _ => Ok(()),
    }
}

/// Core 0 runs so many epochs up to their commits. False: one of them ends the loop.
fn commit_before(drive: &mut Drive, first: u32) -> Result<bool, Halt>
    requires drive { IsDrive drive.old }
    requires core { 0 < drive.old.book.cores }
    requires within { first < drive.old.book.image.epochs }
    requires begins { spec.IsReady drive.old.book 0 }
    ensures committed { MatchResult result (spec.HasCommittedBefore drive.old.book.image drive.new first) (IsHalted drive.new) }
    ensures same { IsOfSameLoop drive.old.book drive.new.book }
{
    for _epoch in 0..first {
        turn(drive, 0)?;
        match run(drive, 0)? {
            Answer::Left => (),
            _ => return Ok(false),
        }
    }
    Ok(true)
}

/// Each of so many cores starts the next epoch, in order.
fn start_window(drive: &mut Drive, window: u32) -> Result<(), Halt>
    requires drive { IsDrive drive.old }
    requires cores { window ≤ drive.old.book.cores }
    ensures started { MatchResult result (λ _. spec.HasStarted drive.old drive.new window) (IsHalted drive.new) }
    ensures same { IsOfSameLoop drive.old.book drive.new.book }
{
    for core in 0..window {
        turn(drive, core)?;
    }
    Ok(())
}

/// The cores below this one run their epochs up to their commits, in order, or up to the one that ends the loop.
fn commit_window(drive: &mut Drive, last: u32) -> Result<(), Halt>
    requires drive { IsDrive drive.old }
    requires cores { last < drive.old.book.cores }
    ensures committed { MatchResult result (λ _. spec.MeetsNone drive.old last) (IsHalted drive.new) }
    ensures same { IsOfSameLoop drive.old.book drive.new.book }
{
    for core in 0..last {
        match run(drive, core)? {
            Answer::Left => (),
            _ => return Ok(()),
        }
    }
    Ok(())
}
