//! An image and other lines in one text.
ghost use Rattle.std.specs.Prelude.{◌≡◌, ◌≤◌, ◌+◌, length};
ghost use Rattle.rv32_image.specs.ImageText.{pieces};
ghost use Rattle.rv32_image.specs.Cutting.{pieces_after};
ghost use Rattle.rv32_image.specs.Parts as spec;

use crate::numbered::NumberedLines;
use crate::words::cut;

/// The image of a text, and the lines below it.
#[derive(Clone, Copy)]
pub struct TextParts<'a> {
    /// All above the lines below.
    pub image: &'a [u8],
    /// The lines below. Those of the image are counted too.
    pub below: NumberedLines<'a>,
}

/// The parts of a text: the lines below are the first that begins with the prefix and all after it. Without such a line the
/// whole text is the image.
pub fn parts_of<'a>(text: &'a [u8], prefix: &[u8]) -> TextParts<'a>
    ensures image { result.image.now ≡ spec.image_above prefix.now text.now }
    ensures number { result.below.number ≡ spec.lines_above prefix.now (pieces 10 text.now) + 1 }
    ensures below { pieces_after 10 result.below.rest ≡ spec.lines_below prefix.now (pieces 10 text.now) }
    ensures few { result.below.number + length (pieces_after 10 result.below.rest) ≤ length text.now + 2 }
{
    let mut start = 0;
    let mut lines = NumberedLines::of(text);
    while let Some((_, below)) = lines.ahead() {
        let (line, next) = cut(below, b'\n');
        if line.starts_with(prefix) {
            return TextParts {
                image: &text[..start],
                below: lines,
            };
        }
        start += line.len() + 1;
        lines.pass(next);
    }
    TextParts {
        image: text,
        below: lines,
    }
}
