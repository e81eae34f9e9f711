//! What one schedule makes, with what is printed above it.
ghost use Rattle.std.specs.Prelude.{◌≡◌, ◌<◌, ◌++◌, ℕ, All, List, Option, Ok, IfOk, IfErr};
ghost use Rattle.homefree.specs.LockView.{loop_of};
ghost use Rattle.turn_steps.specs.Writing.{IsWrittenBut};
ghost use Rattle.rv32_exec.specs.declared.sequential.End.{End};
ghost use Rattle.spec_history.specs.declared.entry.Entry.{Entry as HistoryEntry};
ghost use Rattle.replay_command.specs.declared.detail.Detail.TheVariants as Detail;
ghost use Rattle.all_schedules.specs.Made.{IsFault, IsMade, Makes, the_loop};
ghost use Rattle.replay_command.specs.Shown.{IsShown};
ghost use Rattle.replay_command.specs.Told as spec;

use crate::print::print_book;
use crate::replay::cause_of;
use all_schedules::{LoopOn, history_is_fixed};
use homefree::{Book, TurnFault};
use run_ledger::Shares;
use rv32_image::Image;
use std::alloc::Global;
use std::io::Write;
use trace_commands::{CommandStop, Outcome, write_whole};
use turn_steps::{ShownStore, drive_steps};
use violations::EpochStore;

/// Takes the turns of a schedule that makes a history, writes the text of each, and below a line `end` what they make. What makes a history
/// once makes it again, so it is that one.
pub(crate) fn tell_turns<S: ShownStore, W: Write>(
    alloc: Global,
    on: &LoopOn<'_>,
    schedule: &[u32],
    writer: &mut W,
) -> Outcome
    requires schedule { All (λ core. core < on.now.cores) schedule.now }
    ensures { (end : Option End) (history : List HistoryEntry) → Makes S.starts S.makes S.view S.waits (the_loop on.now) schedule.now (Ok end) history
        → spec.IsShownMade (spec.IsHead S.starts S.makes S.view S.waits S.changes Detail.Steps) (the_loop on.now) schedule.now history (W.contents writer.old) (W.contents writer.new) result }
{
    history_is_fixed::<S>();
    match step_schedule::<S, W>(alloc, on, schedule, writer) {
        Ok((book, rest, whole)) => show_told(alloc, on, &book, rest, whole, writer),
        Err(fault) => Outcome::Stopped(cause_of(fault)),
    }
}

/// Takes the turns of a schedule, writes the text of each, with a line `end` below them, and answers the history that they make, the rest
/// of the text, and whether all before it was written.
fn step_schedule<S: ShownStore, W: Write>(
    alloc: Global,
    on: &LoopOn<'_>,
    schedule: &[u32],
    writer: &mut W,
) -> Result<(Book<S>, Vec<u8>, bool), TurnFault>
    requires schedule { All (λ core. core < on.now.cores) schedule.now }
    ensures made { IfOk result (λ told. IsMade S.starts S.makes S.view S.waits (the_loop on.now) schedule.now told.0) }
    ensures head { IfOk result (λ told. spec.IsToldOf (spec.IsHead S.starts S.makes S.view S.waits S.changes Detail.Steps) (the_loop on.now) schedule.now told.0.history told.1.items told.2
        (W.contents writer.old) (W.contents writer.new)) }
    ensures fault { IfErr result (IsFault S.starts S.makes S.view S.waits (the_loop on.now) schedule.now) }
    ensures begun { IfErr result (λ _. spec.Leaves (spec.IsHead S.starts S.makes S.view S.waits S.changes Detail.Steps) (the_loop on.now) schedule.now (W.contents writer.old) (W.contents writer.new)) }
{
    let cores = on.cores;
    let room = on.room.entries();
    let made: Result<(Book<S>, Shares), _> = Book::new(alloc, on.image, cores, room);
    let Ok((mut book, mut shares)) = made else {
        return Err(TurnFault::NoMemory);
    };
    let stepped = drive_steps(
        alloc,
        &mut book,
        on.image,
        cores,
        schedule,
        &mut shares,
        writer,
    );
    book.look();
    let (mut text, whole) = match stepped {
        Ok(told) => told,
        Err(fault) => return Err(fault),
    };
    let Ok(()) = text.extend_from_slice(b"end\n") else {
        return Err(TurnFault::NoMemory);
    };
    Ok((book, text, whole))
}

/// Writes what is printed of a book below this rest of its head, before which all was written or not, and answers what the book came to.
pub(crate) fn show_told<S: EpochStore, W: Write>(
    alloc: Global,
    on: &LoopOn<'_>,
    book: &Book<S>,
    rest: Vec<u8>,
    whole: bool,
    writer: &mut W,
) -> Outcome
    requires same { loop_of book.now ≡ the_loop on.now }
    ensures { (first : Option (List ℕ)) (head : List ℕ) → IsWrittenBut rest.items whole first (W.contents writer.old) head
        → spec.IsShownBelow on.now.image.now on.now.cores book.now.history head first (W.contents writer.new) result }
{
    let Ok((outcome, below)) = print_book(alloc, on, book) else {
        return Outcome::Stopped(CommandStop::NoMemory);
    };
    let mut text = rest;
    let Ok(()) = text.extend_from_slice(below.as_slice()) else {
        return Outcome::Stopped(CommandStop::NoMemory);
    };
    if !whole {
        return Outcome::Stopped(CommandStop::Write);
    }
    if write_whole(writer, text.as_slice()) {
        outcome
    } else {
        Outcome::Stopped(CommandStop::Write)
    }
}
