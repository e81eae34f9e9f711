//! The lines of a text, with their numbers.
ghost use Rattle.std.specs.Prelude.{◌≡◌, ◌<◌, ◌+◌, ◌∷◌, [], ◌^◌, None, Some, IfNone, IfSome, drop, length};
ghost use Rattle.rv32_image.specs.ImageText as spec;
ghost use Rattle.rv32_image.specs.Cutting.{pieces_after};

use crate::words::cut;

/// Whether a line says nothing: it is empty, or begins with `#`.
pub fn is_remark(line: &[u8]) -> bool
    ensures { result ≡ spec.is_remark line.now }
{
    line.is_empty() || line[0] == b'#'
}

/// The lines of a text that are left to read.
#[derive(Clone, Copy)]
pub struct NumberedLines<'a> {
    /// The number of the first of them. Lines count from 1.
    pub number: usize,
    /// Their text. None: no line is left.
    pub rest: Option<&'a [u8]>,
}

impl<'a> NumberedLines<'a> {
    /// All lines of a text.
    pub fn of(text: &'a [u8]) -> NumberedLines<'a>
        ensures number { result.number ≡ 1 }
        ensures rest { result.rest ≡ Some text.entry }
    {
        NumberedLines {
            number: 1,
            rest: Some(text),
        }
    }

    /// The next line, remarks too, with its number.
    pub fn next(&mut self) -> Option<(usize, &'a [u8])>
        requires { self.old.number + length (pieces_after 10 self.old.rest) < 2 ^ 64 }
        ensures none { IfNone result (pieces_after 10 self.old.rest ≡ []) }
        ensures line { IfSome result (λ read. pieces_after 10 self.old.rest ≡ read.1.now ∷ pieces_after 10 self.new.rest) }
        ensures number { IfSome result (λ read. read.0 ≡ self.old.number) }
        ensures more { IfSome result (λ _. self.new.number ≡ self.old.number + 1) }
    {
        let (number, text) = self.ahead()?;
        let (line, below) = cut(text, b'\n');
        self.pass(below);
        Some((number, line))
    }

    /// The number of the next line, and the text from the beginning of that line on. A reader that finds the end of the line while it reads
    /// goes on by `pass`.
    pub fn ahead(&self) -> Option<(usize, &'a [u8])>
        ensures none { IfNone result (self.now.rest ≡ None) }
        ensures text { IfSome result (λ read. self.now.rest ≡ Some read.1) }
        ensures number { IfSome result (λ read. read.0 ≡ self.now.number) }
    {
        let text = self.rest?;
        Some((self.number, text))
    }

    /// Goes past the next line. It takes the lines below that line. None: there is none.
    pub fn pass(&mut self, below: Option<&'a [u8]>)
        requires below { pieces_after 10 below ≡ drop 1 (pieces_after 10 self.old.rest) }
        requires number { self.old.number + 1 < 2 ^ 64 }
        ensures rest { self.new.rest ≡ below.entry }
        ensures number { self.new.number ≡ self.old.number + 1 }
    {
        self.rest = below;
        self.number += 1;
    }
}
