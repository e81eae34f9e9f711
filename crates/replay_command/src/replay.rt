//! The replay of a schedule or of a trace over any store, reader and writers.
ghost use Rattle.std.specs.Prelude.{◌≡◌, ◌≤◌, ◌<◌, ◌+◌, All, MatchResult, IfOk, IfErr, IfSome, length};
ghost use Rattle.rv32_image.specs.Input.{TakesAtMost};
ghost use Rattle.rv32_image.specs.Reading.{ForText};
ghost use Rattle.trace_text.specs.TraceText.{longest_trace_text};
ghost use Rattle.trace_commands.specs.Outcome.{Conclusion};
ghost use Rattle.all_schedules.specs.Made.{AreMade, IsFault, the_loop};
ghost use Rattle.replay_command.specs.Traced.{has_trace};
ghost use Rattle.replay_command.specs.Replay as spec;
ghost use Rattle.replay_command.specs.Told.{IsHead};

use crate::core_count::CoreCount;
use crate::detail::Detail;
use crate::settings::Settings;
use crate::told::{show_told, tell_turns};
use crate::traced::{begins_trace, retrace};
use crate::turns::read_turns;
use all_schedules::{LoopOn, drive_schedule};
use homefree::TurnFault;
use run_command::runnable;
use rv32_image::{Image, image_of, parts_of, read_input};
use std::alloc::Global;
use std::io::{Read, Write};
use trace_commands::{CommandStop, Outcome};
use trace_text::{LONGEST_TRACE_TEXT, TraceFault};
use turn_steps::ShownStore;

/// Replays what the reader gives below its image: the schedule of a trace, or that of lines of turns for so many cores. Takes its turns over a
/// fresh store, on one thread, and writes what they make, the counts and the trace; above it, where that is asked for, each turn, as it is
/// taken, and a line `end`. The cores are at least 1; where none are said, the trace says how many.
///
/// The status is 0 where the loop is done or exited, or the schedule was used up before; 1 where an epoch faulted; 2 where the image, the
/// machine, the number of cores, the trace or the lines of turns are refused; 3 where the history is full, memory ran out or a write failed; 4 where the
/// turns of a trace make another history. With 2 to 4 one line on the error stream says which, and nothing was written; but after a
/// failed write a prefix, and where memory ran out while turns were told, the first of them.
pub fn do_replay<S: ShownStore, R: Read, W: Write, E: Write>(
    alloc: Global,
    detail: Detail,
    cores: Option<CoreCount>,
    settings: Settings,
    reader: &mut R,
    writer: &mut W,
    errors: &mut E,
) -> u8
    ensures outcome { ForText (R.remaining reader.old) (λ text.
        Conclusion (spec.IsReplayOutcome S.starts S.makes S.view S.waits (IsHead S.starts S.makes S.view S.waits S.changes detail) cores settings text (W.contents writer.old) (W.contents writer.new)) (E.contents errors.old) (E.contents errors.new) result) }
    ensures taken { TakesAtMost (R.remaining reader.old) (R.remaining reader.new) (longest_trace_text + 1) }
{
    replay_input::<S, R, W>(alloc, detail, cores, settings, reader, writer).conclude(errors)
}

/// Replays an input, all but its line on the error stream.
fn replay_input<S: ShownStore, R: Read, W: Write>(
    alloc: Global,
    detail: Detail,
    cores: Option<CoreCount>,
    settings: Settings,
    reader: &mut R,
    writer: &mut W,
) -> Outcome
    ensures outcome { ForText (R.remaining reader.old) (λ text.
        spec.IsReplayOutcome S.starts S.makes S.view S.waits (IsHead S.starts S.makes S.view S.waits S.changes detail) cores settings text (W.contents writer.old) (W.contents writer.new) result) }
    ensures taken { TakesAtMost (R.remaining reader.old) (R.remaining reader.new) (longest_trace_text + 1) }
{
    match read_input(alloc, reader, LONGEST_TRACE_TEXT) {
        Ok(text) => replay_text::<S, W>(alloc, detail, cores, settings, text.as_slice(), writer),
        Err(fault) => Outcome::of_turns_fault(TraceFault::from(fault)),
    }
}

/// Replays the trace or the lines of turns of a text.
fn replay_text<S: ShownStore, W: Write>(
    alloc: Global,
    detail: Detail,
    cores: Option<CoreCount>,
    settings: Settings,
    text: &[u8],
    writer: &mut W,
) -> Outcome
    requires short { length text.now ≤ longest_trace_text }
    ensures { spec.IsReplayOutcome S.starts S.makes S.view S.waits (IsHead S.starts S.makes S.view S.waits S.changes detail) cores settings text.now (W.contents writer.old) (W.contents writer.new) result }
{
    if begins_trace(text) {
        return retrace::<S, W>(alloc, detail, cores, settings, text, writer);
    }
    match cores {
        Some(cores) => replay_of::<S, W>(alloc, detail, cores, settings, text, writer),
        None => Outcome::Usage,
    }
}

/// Replays the lines of turns of a text.
fn replay_of<S: ShownStore, W: Write>(
    alloc: Global,
    detail: Detail,
    cores: CoreCount,
    settings: Settings,
    text: &[u8],
    writer: &mut W,
) -> Outcome
    requires short { length text.now ≤ longest_trace_text }
    ensures { spec.IsLinesOutcome S.starts S.makes S.view S.waits (IsHead S.starts S.makes S.view S.waits S.changes detail) cores settings text.now (W.contents writer.old) (W.contents writer.new) result }
{
    let parts = parts_of(text, b"turns ");
    let image = match image_of(alloc, parts.image) {
        Ok(image) => image,
        Err(fault) => return Outcome::of_fault(fault),
    };
    let count = cores.count();
    let image = match runnable(image, settings.asked, count) {
        Some(image) => image,
        None => return Outcome::Usage,
    };
    let schedule = match read_turns(alloc, count, parts.below) {
        Ok(schedule) => schedule,
        Err(fault) => return Outcome::of_turns_fault(fault),
    };
    let on = LoopOn {
        image: &image,
        cores: count,
        room: settings.room,
    };
    replay_turns::<S, W>(alloc, detail, &on, schedule.as_slice(), writer)
}

/// Takes the turns of a schedule, and writes what they made. Where each of them is to be told, they are taken twice, so that nothing is
/// written where they are refused.
fn replay_turns<S: ShownStore, W: Write>(
    alloc: Global,
    detail: Detail,
    on: &LoopOn<'_>,
    schedule: &[u32],
    writer: &mut W,
) -> Outcome
    requires schedule { All (λ core. core < on.now.cores) schedule.now }
    ensures { spec.IsTurnsOutcome S.starts S.makes S.view S.waits (IsHead S.starts S.makes S.view S.waits S.changes detail) (the_loop on.now) schedule.now (W.contents writer.old) (W.contents writer.new) result }
{
    match detail {
        Detail::Whole => match drive_schedule::<S>(alloc, on, schedule) {
            Ok(book) => show_told(alloc, on, &book, Vec::new(alloc), true, writer),
            Err(fault) => Outcome::Stopped(cause_of(fault)),
        },
        Detail::Steps => match check_turns::<S>(alloc, on, schedule) {
            Ok(()) => tell_turns::<S, W>(alloc, on, schedule, writer),
            Err(fault) => Outcome::Stopped(cause_of(fault)),
        },
    }
}

/// Takes the turns of a schedule, and answers whether they make a history.
fn check_turns<S: ShownStore>(
    alloc: Global,
    on: &LoopOn<'_>,
    schedule: &[u32],
) -> Result<(), TurnFault>
    requires schedule { All (λ core. core < on.now.cores) schedule.now }
    ensures made { IfOk result (λ _. AreMade S.starts S.makes S.view S.waits (the_loop on.now) schedule.now) }
    ensures fault { IfErr result (IsFault S.starts S.makes S.view S.waits (the_loop on.now) schedule.now) }
{
    match drive_schedule::<S>(alloc, on, schedule) {
        Ok(_) => Ok(()),
        Err(fault) => Err(fault),
    }
}

/// The cause that has the fault's name.
pub fn cause_of(fault: TurnFault) -> CommandStop
    ensures { result ≡ spec.cause_of fault }
{
    match fault {
        TurnFault::HistoryFull => CommandStop::HistoryFull,
        TurnFault::NoMemory => CommandStop::NoMemory,
    }
}
