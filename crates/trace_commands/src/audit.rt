ghost use Rattle.std.specs.Prelude.{◌≡◌, ◌+◌, IfSome};
ghost use Rattle.rv32_image.specs.Input.{TakesAtMost};
ghost use Rattle.rv32_image.specs.Reading.{ForText};
ghost use Rattle.trace_text.specs.TraceText.{longest_trace_text};
ghost use Rattle.trace_commands.specs.Audit as spec;

use crate::outcome::{CommandStop, Outcome, Verdict};
use crate::traced::{Traced, read_traced};
use crate::write::write_whole;
use arrayvec::ArrayString;
use itoa::Buffer;
use rv32_exec::Image;
use spec_history::{Entry, Illegal, audit};
use std::alloc::Global;
use std::io::{Read, Write};

/// `audit`: replays the trace that the reader gives below its image on the flat machine, and writes the verdict: `legal` with the
/// number of entries and the homefree epoch after them, or `illegal` with the place of the first entry that is refused, counted
/// from 0, and its refusal.
///
/// The status is 0 where the trace is legal, 4 where it is illegal, 2 where the image or the trace can't be read, and 3
/// where memory ran out or a write failed. In the last two cases one line on the error stream says which. Where the image or the trace
/// is refused, or memory ran out, nothing was written; after a failed write a prefix of the verdict was.
pub fn do_audit<R: Read, W: Write, E: Write>(
    alloc: Global,
    reader: &mut R,
    writer: &mut W,
    errors: &mut E,
) -> u8
    ensures outcome { ForText (R.remaining reader.old) (λ text.
        spec.AuditAnswers text (W.contents writer.old) (W.contents writer.new) (E.contents errors.old) (E.contents errors.new) result) }
    ensures taken { TakesAtMost (R.remaining reader.old) (R.remaining reader.new) (longest_trace_text + 1) }
{
    run_audit(alloc, reader, writer).conclude(errors)
}

/// Runs `audit`, all but its line on the error stream.
fn run_audit<R: Read, W: Write>(alloc: Global, reader: &mut R, writer: &mut W) -> Outcome
    ensures outcome { ForText (R.remaining reader.old) (λ text. spec.IsAuditOutcome text (W.contents writer.old) (W.contents writer.new) result) }
    ensures taken { TakesAtMost (R.remaining reader.old) (R.remaining reader.new) (longest_trace_text + 1) }
{
    match read_traced(alloc, reader) {
        Ok(traced) => audit_traced(alloc, &traced, writer),
        Err(outcome) => outcome,
    }
}

fn audit_traced<W: Write>(alloc: Global, traced: &Traced, writer: &mut W) -> Outcome
    ensures { spec.IsTracedOutcome traced.now.image traced.now.cores traced.now.entries.items (W.contents writer.old) (W.contents writer.new) result }
{
    let Some(verdict) = verdict_of(
        alloc,
        &traced.image,
        traced.cores,
        traced.entries.as_slice(),
    ) else {
        return Outcome::Stopped(CommandStop::NoMemory);
    };
    if write_whole(writer, verdict_line(verdict).as_bytes()) {
        Outcome::Audited(verdict)
    } else {
        Outcome::Stopped(CommandStop::Write)
    }
}

/// The verdict on a history, or none where memory ran out.
pub fn verdict_of(alloc: Global, image: &Image, cores: u32, entries: &[Entry]) -> Option<Verdict>
    ensures { IfSome result (spec.IsVerdict image.now cores entries.now) }
{
    match audit(alloc, image, cores, entries) {
        Ok(flat) => Some(Verdict::Legal {
            entries: entries.len(),
            homefree: flat.homefree(),
        }),
        Err((_, Illegal::NoMemory)) => None,
        Err((place, refusal)) => Some(Verdict::Illegal { place, refusal }),
    }
}

/// The line of a verdict. It always fits, and takes no memory.
pub fn verdict_line(verdict: Verdict) -> ArrayString<64>
    ensures { result.bytes ≡ spec.verdict_line verdict }
{
    let mut line = ArrayString::new();
    let mut digits = Buffer::new();
    match verdict {
        Verdict::Legal { entries, homefree } => {
            line.push_str("legal ");
            line.push_str(digits.format(entries));
            line.push_str(" ");
            line.push_str(digits.format(homefree));
        }
        Verdict::Illegal { place, refusal } => {
            line.push_str("illegal ");
            line.push_str(digits.format(place));
            line.push_str(" ");
            line.push_str(refusal.name());
        }
    }
    line.push_str("\n");
    line
}
