ghost use Rattle.std.specs.Prelude.{◌+◌, ◌++◌};
ghost use Rattle.rv32_image.specs.Input.{TakesAtMost};
ghost use Rattle.rv32_image.specs.Reading.{ForText};
ghost use Rattle.trace_text.specs.TraceText.{longest_trace_text};
ghost use Rattle.conflict_text.specs.Why as spec;

use crate::finding::report_of;
use spec_history::Illegal;
use std::alloc::Global;
use std::io::{Read, Write};
use trace_commands::{
    CommandStop, MachineAsked, Outcome, Traced, Verdict, read_traced, verdict_line, write_bytes,
    write_whole,
};

/// What `why` is asked for.
#[derive(Clone, Copy)]
pub struct WhyAsked {
    /// The machine of the run.
    pub machine: MachineAsked,
    /// Each attempt of the history has a line.
    pub attempts: bool,
}

/// `why`: replays the trace that the reader gives below its image on the flat machine, and writes the report of which conflicts
/// rolled back on the machine that is asked for, with a line for each attempt where that is asked for too. Where the trace is illegal, it
/// writes the line of an audit.
///
/// The status is 0 where the trace is legal, 4 where it is illegal, 2 where the image or the trace can't be read or the machine is
/// refused, and 3 where memory ran out or a write failed. In the last two cases one line on the error stream says which. Where anything
/// is refused, or memory ran out, nothing was written; after a failed write a prefix of the report or of that line was.
pub fn do_why<R: Read, W: Write, E: Write>(
    alloc: Global,
    asked: WhyAsked,
    reader: &mut R,
    writer: &mut W,
    errors: &mut E,
) -> u8
    ensures outcome { ForText (R.remaining reader.old) (λ text.
        spec.WhyAnswers asked text (W.contents writer.old) (W.contents writer.new) (E.contents errors.old) (E.contents errors.new) result) }
    ensures taken { TakesAtMost (R.remaining reader.old) (R.remaining reader.new) (longest_trace_text + 1) }
{
    run_why(alloc, asked, reader, writer).conclude(errors)
}

/// Runs `why`, all but its line on the error stream.
fn run_why<R: Read, W: Write>(
    alloc: Global,
    asked: WhyAsked,
    reader: &mut R,
    writer: &mut W,
) -> Outcome
    ensures outcome { ForText (R.remaining reader.old) (λ text. spec.IsWhyOutcome asked text (W.contents writer.old) (W.contents writer.new) result) }
    ensures taken { TakesAtMost (R.remaining reader.old) (R.remaining reader.new) (longest_trace_text + 1) }
{
    match read_traced(alloc, reader) {
        Ok(traced) => explain_on(alloc, asked, traced, writer),
        Err(outcome) => outcome,
    }
}

/// Explains a trace on the machine that is asked for.
fn explain_on<W: Write>(alloc: Global, asked: WhyAsked, traced: Traced, writer: &mut W) -> Outcome
    ensures { spec.IsOutcomeOn asked traced.image traced.cores traced.entries.items (W.contents writer.old) (W.contents writer.new) result }
{
    let Traced {
        image,
        cores,
        entries,
    } = traced;
    let Some(image) = asked.machine.on(image) else {
        return Outcome::Usage;
    };
    let traced = Traced {
        image,
        cores,
        entries,
    };
    explain_traced(alloc, asked.attempts, traced, writer)
}

/// Explains a trace on the machine of its image, with a line for each attempt where that is wanted.
fn explain_traced<W: Write>(alloc: Global, wanted: bool, traced: Traced, writer: &mut W) -> Outcome
    ensures { spec.IsTracedOutcome wanted traced.image traced.cores traced.entries.items (W.contents writer.old) (W.contents writer.new) result }
{
    let entries = traced.entries.len();
    match report_of(alloc, wanted, traced) {
        Ok(report) => {
            let verdict = Verdict::Legal {
                entries,
                homefree: report.homefree,
            };
            tell(
                verdict,
                report.violations.as_slice(),
                report.rest.as_slice(),
                writer,
            )
        }
        Err((_, Illegal::NoMemory)) => Outcome::Stopped(CommandStop::NoMemory),
        Err((place, refusal)) => {
            let verdict = Verdict::Illegal { place, refusal };
            tell(verdict, verdict_line(verdict).as_bytes(), b"", writer)
        }
    }
}

/// Writes what is told by a verdict, and the rest of it.
fn tell<W: Write>(verdict: Verdict, told: &[u8], rest: &[u8], writer: &mut W) -> Outcome
    ensures { spec.IsToldBy verdict (told.now ++ rest.now) (W.contents writer.old) (W.contents writer.new) result }
{
    if !write_bytes(writer, told) {
        return Outcome::Stopped(CommandStop::Write);
    }
    if !write_whole(writer, rest) {
        return Outcome::Stopped(CommandStop::Write);
    }
    Outcome::Audited(verdict)
}
