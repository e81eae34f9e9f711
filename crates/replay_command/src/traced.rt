//! The replay of a trace: its schedule, driven again.
ghost use Rattle.std.specs.Prelude.{◌≡◌, ◌≤◌, ◌<◌, ℕ, All, List, Option, MatchOption, Ok, IfOk, IfErr, OnOk, length};
ghost use Rattle.trace_text.specs.TraceText.{longest_trace_text};
ghost use Rattle.rv32_exec.specs.declared.sequential.End.{End};
ghost use Rattle.all_schedules.specs.Made.{IsMade, Makes, the_loop};
ghost use Rattle.all_schedules.specs.MadeAgain.{PartAt};
ghost use Rattle.turn_steps.specs.Writing.{IsWrittenBut};
ghost use Rattle.replay_command.specs.Told.{IsHead};
ghost use Rattle.homefree.specs.Retraced as shown;
ghost use Rattle.replay_command.specs.Traced as spec;

use crate::core_count::CoreCount;
use crate::detail::Detail;
use crate::replay::cause_of;
use crate::settings::Settings;
use crate::told::{show_told, tell_turns};
use all_schedules::{LoopOn, drive_schedule, turns_of};
use homefree::Book;
use run_command::runnable;
use rv32_image::Image;
use spec_history::Entry;
use std::alloc::Global;
use std::io::Write;
use trace_commands::{CommandStop, Outcome, traced_in};
use trace_text::image_part;
use turn_steps::ShownStore;
use violations::EpochStore;

/// Whether a trace stands below the image of a text.
pub fn begins_trace(text: &[u8]) -> bool
    ensures { result ≡ spec.has_trace text.now }
{
    image_part(text).len() < text.len()
}

/// Takes the turns of a text's trace, and writes what they made where that is the trace. The cores, where some are said, have to be those
/// of the trace.
pub fn retrace<S: ShownStore, W: Write>(
    alloc: Global,
    detail: Detail,
    cores: Option<CoreCount>,
    settings: Settings,
    text: &[u8],
    writer: &mut W,
) -> Outcome
    requires short { length text.now ≤ longest_trace_text }
    ensures { spec.IsRetraceOutcome S.starts S.makes S.view S.waits (IsHead S.starts S.makes S.view S.waits S.changes detail) cores settings text.now (W.contents writer.old) (W.contents writer.new) result }
{
    let traced = match traced_in(alloc, text) {
        Ok(traced) => traced,
        Err(outcome) => return outcome,
    };
    if is_other(cores, traced.cores) {
        return Outcome::Usage;
    }
    let image = match runnable(traced.image, settings.asked, traced.cores) {
        Some(image) => image,
        None => return Outcome::Usage,
    };
    let entries = traced.entries.as_slice();
    let on = LoopOn {
        image: &image,
        cores: traced.cores,
        room: settings.room,
    };
    drive_trace::<S, W>(alloc, detail, &on, entries, writer)
}

/// Whether another number of cores is said than this one.
fn is_other(cores: Option<CoreCount>, number: u32) -> bool
    ensures { result ≡ spec.is_other cores number }
{
    match cores {
        Some(cores) => cores.count() != number,
        None => false,
    }
}

/// Takes the turns of a trace, and writes what they made where that is the trace. Where each of them is to be told, they are taken
/// twice, so that nothing is written where they make another history.
fn drive_trace<S: ShownStore, W: Write>(
    alloc: Global,
    detail: Detail,
    on: &LoopOn<'_>,
    entries: &[Entry],
    writer: &mut W,
) -> Outcome
    ensures { spec.IsTraceOutcome S.starts S.makes S.view S.waits (IsHead S.starts S.makes S.view S.waits S.changes detail) (the_loop on.now) entries.now (W.contents writer.old) (W.contents writer.new) result }
{
    let Ok(schedule) = turns_of(alloc, on.cores, entries) else {
        return Outcome::Stopped(CommandStop::NoMemory);
    };
    let turns = schedule.as_slice();
    match detail {
        Detail::Whole => match make_again::<S>(alloc, on, turns, entries) {
            Ok(book) => show_told(alloc, on, &book, Vec::new(alloc), true, writer),
            Err(outcome) => outcome,
        },
        Detail::Steps => match check_trace::<S>(alloc, on, turns, entries) {
            Ok(()) => tell_turns::<S, W>(alloc, on, turns, writer),
            Err(outcome) => outcome,
        },
    }
}

/// Takes the turns of a trace: they make its history again, or an Err says what keeps them from it.
fn make_again<S: ShownStore>(
    alloc: Global,
    on: &LoopOn<'_>,
    turns: &[u32],
    entries: &[Entry],
) -> Result<Book<S>, Outcome>
    requires schedule { All (λ core. core < on.now.cores) turns.now }
    requires turns { turns.now ≡ shown.turns_of on.now.cores entries.now }
    ensures made { IfOk result (λ book. IsMade S.starts S.makes S.view S.waits (the_loop on.now) turns.now book) }
    ensures same { IfOk result (λ book. book.history ≡ entries.now) }
    ensures other { IfErr result (spec.IsNotRetraced S.starts S.makes S.view S.waits (the_loop on.now) entries.now) }
{
    match drive_schedule::<S>(alloc, on, turns) {
        Ok(book) => match is_same(&book, entries) {
            Ok(()) => Ok(book),
            Err(outcome) => Err(outcome),
        },
        Err(fault) => Err(Outcome::Stopped(cause_of(fault))),
    }
}

/// Whether the turns of a trace make its history again: an Err says what keeps them from it.
fn check_trace<S: ShownStore>(
    alloc: Global,
    on: &LoopOn<'_>,
    turns: &[u32],
    entries: &[Entry],
) -> Result<(), Outcome>
    requires schedule { All (λ core. core < on.now.cores) turns.now }
    requires turns { turns.now ≡ shown.turns_of on.now.cores entries.now }
    ensures made { IfOk result (λ _. (end : Option End) × Makes S.starts S.makes S.view S.waits (the_loop on.now) turns.now (Ok end) entries.now) }
    ensures other { IfErr result (spec.IsNotRetraced S.starts S.makes S.view S.waits (the_loop on.now) entries.now) }
{
    match make_again::<S>(alloc, on, turns, entries) {
        Ok(_) => Ok(()),
        Err(outcome) => Err(outcome),
    }
}

/// Whether the history of a book is that of the entries: an Err says where it isn't.
fn is_same<S: EpochStore>(book: &Book<S>, entries: &[Entry]) -> Result<(), Outcome>
    ensures same { OnOk result (book.now.history ≡ entries.now) }
    ensures other { IfErr result (spec.IsNotSame book.now.history entries.now) }
{
    match parting(book.history(), entries) {
        None => Ok(()),
        Some(place) => Err(Outcome::Differs(place)),
    }
}

/// The place at which two histories part, counted from 0. None: they are the same.
fn parting(made: &[Entry], given: &[Entry]) -> Option<usize>
    ensures { MatchOption result (made.now ≡ given.now) (PartAt made.now given.now) }
{
    for place in 0..made.len() {
        if given.get(place) != Some(&made[place]) {
            return Some(place);
        }
    }
    if made.len() == given.len() {
        None
    } else {
        Some(made.len())
    }
}
