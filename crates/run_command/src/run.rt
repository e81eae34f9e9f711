ghost use Rattle.std.specs.Prelude.{◌≡◌, ◌+◌, ◌≤◌, IfOk, IfErr};
ghost use Rattle.rv32_image.specs.ImageText.{longest_image_text};
ghost use Rattle.rv32_image.specs.Input.{TakesAtMost};
ghost use Rattle.rv32_image.specs.Reading.{ForText};
ghost use Rattle.rv32_exec.specs.Sequential.{sequential_result};
ghost use Rattle.violations.specs.Rule.{IsCoreCount};
ghost use Rattle.homefree.specs.Missed.{IsOfCaches};
ghost use Rattle.trace_commands.specs.Outcome.{Conclusion};
ghost use Rattle.run_command.specs.Run as spec;
ghost use Rattle.run_command.specs.Threads.{IsMachineOutcome, IsThreadsOutcome};

use crate::machine::runnable;
use crate::options::{RunAsked, RunOptions};
use crate::text::printed;
use core_threads::{Finished, Gate, Halted, RunFault, history_is_explained, run_cores};
use rv32_exec::{End, Image, read_image};
use spec_bus::CachedBus;
use std::alloc::{AllocError, Global};
use std::io::{Read, Write};
use std::sync::Wait;
use std::thread::Threads;
use trace_commands::{CommandStop, MachineAsked, Outcome, write_whole};
use violations::EpochStore;

/// `run`: `do_threads` over caches on a coherent bus, on the machine of the image's version.
pub fn do_run<G: Gate, T: Threads + Wait + Sync, R: Read, W: Write, E: Write>(
    rt: &T,
    alloc: Global,
    options: RunOptions,
    gate: &G,
    reader: &mut R,
    writer: &mut W,
    errors: &mut E,
) -> u8
    ensures outcome { ForText (R.remaining reader.old) (λ text.
        spec.RunAnswers options text (W.contents writer.old) (W.contents writer.new) (E.contents errors.old) (E.contents errors.new) result) }
    ensures taken { TakesAtMost (R.remaining reader.old) (R.remaining reader.new) (longest_image_text + 1) }
{
    let asked = RunAsked {
        machine: MachineAsked::NOTHING,
        options,
    };
    do_threads::<CachedBus, G, T, R, W, E>(rt, alloc, asked, gate, reader, writer, errors)
}

/// Runs the image that the reader gives, its epochs speculatively on a thread for each core, over a fresh store on the machine that is
/// asked for, and writes the report; with a trace, below it `counts LOADS STORES RESTARTS COMMITS` and the trace of the history. Each
/// core passes the gate before each of its turns.
///
/// The status is 0 where the loop is done or exited, 1 where an epoch faulted, 2 where the image is refused, or is good and its version
/// doesn't allow so many cores or there is no such machine for it, and 3 where the run was stopped, memory ran out or a write failed.
/// With 2 and 3 one line on the error stream says which. All that is written was made before the first byte: nothing was written where
/// the status is 2 or the run was stopped, and after a failed write a prefix was.
pub fn do_threads<S: EpochStore, G: Gate, T: Threads + Wait + Sync, R: Read, W: Write, E: Write>(
    rt: &T,
    alloc: Global,
    asked: RunAsked,
    gate: &G,
    reader: &mut R,
    writer: &mut W,
    errors: &mut E,
) -> u8
    ensures outcome { ForText (R.remaining reader.old) (λ text.
        Conclusion (IsThreadsOutcome (IsOfCaches S.view) asked.machine asked.options text (W.contents writer.old) (W.contents writer.new)) (E.contents errors.old) (E.contents errors.new) result) }
    ensures taken { TakesAtMost (R.remaining reader.old) (R.remaining reader.new) (longest_image_text + 1) }
{
    run_input::<S, G, T, R, W>(rt, alloc, asked, gate, reader, writer).conclude(errors)
}

/// Runs an input, all but its line on the error stream.
fn run_input<S: EpochStore, G: Gate, T: Threads + Wait + Sync, R: Read, W: Write>(
    rt: &T,
    alloc: Global,
    asked: RunAsked,
    gate: &G,
    reader: &mut R,
    writer: &mut W,
) -> Outcome
    ensures outcome { ForText (R.remaining reader.old) (λ text.
        IsThreadsOutcome (IsOfCaches S.view) asked.machine asked.options text (W.contents writer.old) (W.contents writer.new) result) }
    ensures taken { TakesAtMost (R.remaining reader.old) (R.remaining reader.new) (longest_image_text + 1) }
{
    match read_image(alloc, reader) {
        Ok(image) => run_image::<S, G, T, W>(rt, alloc, asked, gate, image, writer),
        Err(fault) => Outcome::of_fault(fault),
    }
}

fn run_image<S: EpochStore, G: Gate, T: Threads + Wait + Sync, W: Write>(
    rt: &T,
    alloc: Global,
    asked: RunAsked,
    gate: &G,
    image: Image,
    writer: &mut W,
) -> Outcome
    ensures { IsMachineOutcome (IsOfCaches S.view) asked.machine asked.options (W.contents writer.old) (W.contents writer.new) image result }
{
    let RunAsked { machine, options } = asked;
    match runnable(image, machine, options.cores) {
        Some(image) => run_runnable::<S, G, T, W>(rt, alloc, options, gate, &image, writer),
        None => Outcome::Usage,
    }
}

/// Runs an image on its own machine, on so many cores as its version allows.
fn run_runnable<S: EpochStore, G: Gate, T: Threads + Wait + Sync, W: Write>(
    rt: &T,
    alloc: Global,
    options: RunOptions,
    gate: &G,
    image: &Image,
    writer: &mut W,
) -> Outcome
    requires { IsCoreCount image.now options.cores }
    ensures { spec.IsRun (IsOfCaches S.view) image.now (spec.loop_asked image.now options) options.trace (W.contents writer.old) (W.contents writer.new) result }
{
    match run_and_print::<S, G, T>(rt, alloc, options, gate, image) {
        Ok((end, text)) => {
            if write_whole(writer, text.as_slice()) {
                Outcome::Reported(end)
            } else {
                Outcome::Stopped(CommandStop::Write)
            }
        }
        Err(cause) => Outcome::Stopped(cause),
    }
}

/// How the loop ends on so many cores, and all that is printed of the run.
fn run_and_print<S: EpochStore, G: Gate, T: Threads + Wait + Sync>(
    rt: &T,
    alloc: Global,
    options: RunOptions,
    gate: &G,
    image: &Image,
) -> Result<(End, Vec<u8>), CommandStop>
    requires { IsCoreCount image.now options.cores }
    ensures end { IfOk result (λ r. r.0 ≡ (sequential_result image.now).end) }
    ensures text { IfOk result (λ r. spec.IsPrinted (IsOfCaches S.view) image.now (spec.loop_asked image.now options) options.trace r.1.items) }
    ensures stopped { IfErr result (spec.IsStop (IsOfCaches S.view) (spec.loop_asked image.now options)) }
{
    let run: Result<Finished<S>, Halted<S>> = run_cores(
        rt,
        alloc,
        image,
        options.cores,
        options.room,
        gate,
    );
    match run {
        Ok(run) => {
            history_is_explained(&run.book);
            match printed(alloc, image, options, &run) {
                Ok(text) => Ok((run.end, text)),
                Err(AllocError) => Err(CommandStop::NoMemory),
            }
        }
        Err(run) => {
            match &run.book {
                Some(book) => history_is_explained(book),
                None => (),
            }
            Err(cause_of(run.fault))
        }
    }
}

/// The cause that has the fault's name.
fn cause_of(fault: RunFault) -> CommandStop
    ensures { result ≡ spec.cause_of fault }
{
    match fault {
        RunFault::HistoryFull => CommandStop::HistoryFull,
        RunFault::NoMemory => CommandStop::NoMemory,
        RunFault::NoThread => CommandStop::NoThread,
        RunFault::Spent => CommandStop::Spent,
        RunFault::Shut => CommandStop::Shut,
    }
}
