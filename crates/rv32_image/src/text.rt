ghost use Rattle.std.specs.Prelude.{◌≡◌, ◌≤◌, ◌+◌, length, Ok};
ghost use Rattle.rv32_image.specs.ImageText as spec;
ghost use Rattle.rv32_image.specs.Reading.{Answers, AnswersRead, ForText};
ghost use Rattle.rv32_image.specs.Input.{TakesAtMost};

use crate::draft::Draft;
use crate::fault::{ImageFault, ImageFaultKind, LONGEST_IMAGE_TEXT};
use crate::image::{Image, NoMemory};
use crate::input::read_input;
use crate::numbered::NumberedLines;
use std::alloc::Global;
use std::io::Read;

/// The image that a text says.
///
/// The fault is the first one in line order, and within a line the first of `Line`, `MissingOrRepeated`, `Hex`,
/// `Range` and `Place`. A text of more than 1,048,576 bytes is `TooLong`, and a line that is missing at the end is
/// `MissingOrRepeated`, both on line 0. `NoMemory`, on line 0, ends the reading where memory was refused.
#[tactic(auto, unfolding(crate::specs::ImageText::image_text))]
pub fn image_of(alloc: Global, text: &[u8]) -> Result<Image, ImageFault>
    ensures { Answers (λ image. image) result (spec.image_text text.now) }
{
    if text.len() > LONGEST_IMAGE_TEXT {
        return Err(ImageFault {
            line: 0,
            kind: ImageFaultKind::TooLong,
        });
    }
    read_lines(alloc, text)?.finish(alloc)
}

/// Reads an image text to the end of the input, and gives the image that it says.
///
/// The faults are those of `image_of`, and `Read`, on line 0, where a read failed or was interrupted. It takes at
/// most 1,048,577 bytes.
pub fn read_image<R: Read>(alloc: Global, reader: &mut R) -> Result<Image, ImageFault>
    ensures text { ForText (R.remaining reader.old) (λ text. AnswersRead result (spec.image_text text)) }
    ensures taken { TakesAtMost (R.remaining reader.old) (R.remaining reader.new) (spec.longest_image_text + 1) }
{
    let text = read_input(alloc, reader, LONGEST_IMAGE_TEXT)?;
    image_of(alloc, text.as_slice())
}

/// What the lines of a text say, up to the first that has a fault.
fn read_lines(alloc: Global, text: &[u8]) -> Result<Draft, ImageFault>
    requires { length text.now ≤ spec.longest_image_text }
    ensures { Answers (λ draft. draft) result (spec.lines_read 1 spec.blank (spec.pieces 10 text.now)) }
{
    let mut draft = Draft::blank(alloc);
    let mut lines = NumberedLines::of(text);
    while let Some((number, line)) = lines.next() {
        read_numbered(alloc, &mut draft, number as u32, line)?;
    }
    Ok(draft)
}

/// Reads one line, and says on which line a fault is; want of memory is no line's.
fn read_numbered(
    alloc: Global,
    draft: &mut Draft,
    number: u32,
    line: &[u8],
) -> Result<(), ImageFault>
    ensures { Answers (λ _. draft.new) result (spec.on_line number (spec.line_read draft.old line.now) Ok) }
{
    match draft.read_line(alloc, line) {
        Ok(()) => Ok(()),
        Err(ImageFaultKind::NoMemory) => Err(ImageFault::from(NoMemory)),
        Err(kind) => Err(ImageFault { line: number, kind }),
    }
}
