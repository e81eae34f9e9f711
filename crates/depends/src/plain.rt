//! The line of a plain store: where epochs conflict, a schedule shows it.
ghost use Rattle.std.specs.Prelude.{◌≡◌, IfOk};
ghost use Rattle.homefree.specs.LockView.{loop_of};
ghost use Rattle.all_schedules.specs.Made.{the_loop};
ghost use Rattle.dependences.specs.Conflict.{ConflictInOrder};
ghost use Rattle.never_or_shown.specs.Violation.{HasViolation};
ghost use Rattle.never_or_shown.specs.Ran.{IsRun};
ghost use Rattle.depends.specs.Plain as spec;

use crate::least::least_over_bytes;
use crate::line::Line;
use crate::shown::show;
use all_schedules::{LoopOn, trace_is_made_again};
use homefree::Book;
use never_or_shown::{Ahead, InOrder, show_conflict};
use std::alloc::{AllocError, Global};
use violations::PlainStore;

/// What is told of the plain store, and up to so many cores.
///
/// `AllocError`: memory ran out.
pub fn line_over_plain(alloc: Global, on: &LoopOn<'_>, ran: InOrder) -> Result<Line, AllocError>
    requires { IsRun on.now.image.now ran }
    ensures { IfOk result (spec.IsPlainLine on.now.image.now on.now.cores on.now.room) }
{
    let cores = on.cores;
    match least_over_bytes(alloc, on.image, cores, ran.epochs, ran.nearest)? {
        Some(least) => {
            let on = LoopOn {
                image: on.image,
                cores: least.cores,
                room: on.room,
            };
            line_from_plain(alloc, &on, ran)
        }
        None => Ok(Line::Never),
    }
}

/// The line from so many cores on, on which epochs conflict.
fn line_from_plain(alloc: Global, on: &LoopOn<'_>, ran: InOrder) -> Result<Line, AllocError>
    requires ran { IsRun on.now.image.now ran }
    requires conflict { ConflictInOrder on.now.image.now on.now.cores }
    ensures { IfOk result (spec.IsPlainFrom on.now.image.now on.now.cores on.now.room) }
{
    let (cores, room) = (on.cores, on.room.entries());
    match show_conflict(alloc, on.image, cores, room, ran) {
        Ok(Ahead::Violated(book)) => line_of_violation(alloc, on, book),
        Ok(Ahead::HistoryFull(book)) => {
            trace_is_made_again(&book);
            Ok(Line::Open { cores })
        }
        Ok(Ahead::Unviolated) => Ok(Line::Open { cores }),
        Err(_) => Err(AllocError),
    }
}

/// The line of a history that has a violation.
fn line_of_violation(
    alloc: Global,
    on: &LoopOn<'_>,
    book: Book<PlainStore>,
) -> Result<Line, AllocError>
    requires same { loop_of book ≡ the_loop on.now }
    requires violation { HasViolation book.history }
    ensures { IfOk result (spec.IsPlainFrom on.now.image.now on.now.cores on.now.room) }
{
    let cores = on.cores;
    let (turns, shown) = show(alloc, on, book)?.unwrap();
    Ok(Line::From {
        cores,
        turns,
        shown,
    })
}
