ghost use Rattle.std.specs.Prelude.{◌≤◌};
ghost use Rattle.rv32_image.specs.Reading.{ForText};
ghost use Rattle.trace_cli.specs.Work as spec;

use crate::words::{Request, WordsFault, request_of};
use core_threads::Gate;
use run_command::{RunOptions, do_run};
use std::alloc::Global;
use std::convert::AsStr;
use std::io::{Read, Write};
use std::sync::Wait;
use std::thread::Threads;
use trace_commands::{CommandStop, Outcome, do_audit, do_seq};

/// What the program is called with.
pub struct Invocation<'a, S> {
    /// The words of the command line, the first of which is the program's name.
    pub words: &'a [S],
    /// How many entries the history of a run may have.
    pub room: u32,
}

/// The whole program: does what the words ask for, the first of which is the program's name, and answers its status.
///
/// `seq` is `do_seq`, `run --cores N [--trace]` is `do_run` with this room and gate and 1 to 16 cores, and `audit` is `do_audit`. Any
/// other words are refused as `usage`, with status 2, and nothing is read or written. The room is 16 to 1,048,576 entries.
pub fn work<'a, S: AsStr, G: Gate, T: Threads + Wait + Sync, R: Read, W: Write, E: Write>(
    rt: &T,
    alloc: Global,
    called: Invocation<'a, S>,
    gate: &G,
    reader: &mut R,
    writer: &mut W,
    errors: &mut E,
) -> u8
    requires least { 16 ≤ called.room }
    requires most { called.room ≤ 1048576 }
    ensures { ForText (R.remaining reader.old) (λ text. spec.WorkAnswers called.entry.room text
        (record { old = R.remaining reader.old; new = R.remaining reader.new })
        (record { old = W.contents writer.old; new = W.contents writer.new })
        (record { old = E.contents errors.old; new = E.contents errors.new }) result) }
{
    let Invocation { words, room } = called;
    match request_of(alloc, words) {
        Ok(Request::Seq) => do_seq(alloc, reader, writer, errors),
        Ok(Request::Run { cores, trace }) => {
            let options = RunOptions { cores, room, trace };
            do_run(rt, alloc, options, gate, reader, writer, errors)
        }
        Ok(Request::Audit) => do_audit(alloc, reader, writer, errors),
        Err(WordsFault::Usage) => Outcome::Usage.conclude(errors),
        Err(WordsFault::NoMemory) => Outcome::Stopped(CommandStop::NoMemory).conclude(errors),
    }
}
