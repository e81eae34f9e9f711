//! What is printed of the history that a schedule makes.
ghost use Rattle.std.specs.Prelude.{◌≡◌, IfOk};
ghost use Rattle.spec_history.specs.FlatState.{FlatState};
ghost use Rattle.homefree.specs.BookView.{ReplaysTo};
ghost use Rattle.homefree.specs.LockView.{loop_of};
ghost use Rattle.all_schedules.specs.Made.{the_loop};
ghost use Rattle.replay_command.specs.Shown as spec;

use all_schedules::LoopOn;
use homefree::Book;
use run_command::with_history;
use rv32_image::Image;
use std::alloc::{AllocError, Global};
use trace_commands::{Outcome, print_open_report, print_report};
use violations::EpochStore;

/// What a book came to, with all that is printed of it: the report, the counts and the trace.
///
/// `AllocError`: memory ran out.
pub fn print_book<S: EpochStore>(
    alloc: Global,
    on: &LoopOn<'_>,
    book: &Book<S>,
) -> Result<(Outcome, Vec<u8>), AllocError>
    requires same { loop_of book.now ≡ the_loop on.now }
    ensures { IfOk result (λ shown. spec.IsShown on.now.image.now on.now.cores book.now.history shown.0 shown.1.items) }
{
    book.look();
    let shown = report_of(alloc, on.image, book)?;
    let text = with_history(alloc, shown.1, on.cores, book.totals(), book.history())?;
    Ok((shown.0, text))
}

/// What a book came to, with the report of that.
fn report_of<S: EpochStore>(
    alloc: Global,
    image: &Image,
    book: &Book<S>,
) -> Result<(Outcome, Vec<u8>), AllocError>
    requires image { book.now.image ≡ image.now }
    ensures outcome { (s : FlatState) → ReplaysTo book.now s → IfOk result (λ shown. shown.0 ≡ spec.outcome_at s.end s.homefree) }
    ensures report { (s : FlatState) → ReplaysTo book.now s → IfOk result (λ shown. spec.IsReport image.now s s.end shown.1.items) }
{
    let bytes = book.committed_memory(alloc)?;
    match book.ended() {
        Some(end) => {
            let report = print_report(alloc, image, end, bytes.as_slice())?;
            Ok((Outcome::Reported(end), report))
        }
        None => {
            let homefree = book.homefree();
            let report = print_open_report(alloc, image, homefree, bytes.as_slice())?;
            Ok((Outcome::Open(homefree), report))
        }
    }
}
