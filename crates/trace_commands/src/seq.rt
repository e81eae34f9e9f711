ghost use Rattle.std.specs.Prelude.{◌≡◌, ◌+◌, IfOk};
ghost use Rattle.rv32_image.specs.ImageText.{longest_image_text};
ghost use Rattle.rv32_image.specs.Input.{TakesAtMost};
ghost use Rattle.rv32_image.specs.Reading.{ForText};
ghost use Rattle.rv32_exec.specs.Sequential.{sequential_result};
ghost use Rattle.trace_commands.specs.Report.{report_of};
ghost use Rattle.trace_commands.specs.Outcome as spec;

use crate::outcome::{CommandStop, Outcome};
use crate::report::print_report;
use crate::write::write_whole;
use rv32_exec::{End, Image, NoMemory, read_image, run_in_order};
use std::alloc::Global;
use std::io::{Read, Write};

/// `seq`: runs the image that the reader gives, its epochs in order, and writes the report.
///
/// The status is 0 where the loop is done or exited, 1 where an epoch faulted, 2 where the image is refused and 3 where memory
/// ran out or a write failed. In the last three cases one line on the error stream says which. Where memory ran out,
/// or the image is refused, nothing was written; after a failed write a prefix of the report was.
pub fn do_seq<R: Read, W: Write, E: Write>(
    alloc: Global,
    reader: &mut R,
    writer: &mut W,
    errors: &mut E,
) -> u8
    ensures outcome { ForText (R.remaining reader.old) (λ text.
        spec.SeqAnswers text (W.contents writer.old) (W.contents writer.new) (E.contents errors.old) (E.contents errors.new) result) }
    ensures taken { TakesAtMost (R.remaining reader.old) (R.remaining reader.new) (longest_image_text + 1) }
{
    run_seq(alloc, reader, writer).conclude(errors)
}

/// Runs `seq`, all but its line on the error stream.
pub fn run_seq<R: Read, W: Write>(alloc: Global, reader: &mut R, writer: &mut W) -> Outcome
    ensures outcome { ForText (R.remaining reader.old) (λ text. spec.IsSeqOutcome text (W.contents writer.old) (W.contents writer.new) result) }
    ensures taken { TakesAtMost (R.remaining reader.old) (R.remaining reader.new) (longest_image_text + 1) }
{
    match read_image(alloc, reader) {
        Ok(image) => run_image(alloc, &image, writer),
        Err(fault) => Outcome::of_fault(fault),
    }
}

fn run_image<W: Write>(alloc: Global, image: &Image, writer: &mut W) -> Outcome
    ensures { spec.IsImageOutcome image.now (W.contents writer.old) (W.contents writer.new) result }
{
    match seq_report(alloc, image) {
        Ok((end, text)) => {
            if write_whole(writer, text.as_slice()) {
                Outcome::Reported(end)
            } else {
                Outcome::Stopped(CommandStop::Write)
            }
        }
        Err(NoMemory) => Outcome::Stopped(CommandStop::NoMemory),
    }
}

/// How the loop ends when its epochs run in order, and the report of that.
fn seq_report(alloc: Global, image: &Image) -> Result<(End, Vec<u8>), NoMemory>
    ensures end { IfOk result (λ r. r.0 ≡ (sequential_result image.now).end) }
    ensures text { IfOk result (λ r. r.1.items ≡ report_of image.now (sequential_result image.now)) }
{
    let result = run_in_order(alloc, image)?;
    let end = result.end();
    let text = print_report(alloc, image, end, result.bytes())?;
    Ok((end, text))
}
