ghost use Rattle.std.specs.Prelude.{◌≡◌, ◌≤◌, length};
ghost use Rattle.rv32_image.specs.Reading.{name_of};

use crate::image::NoMemory;
use crate::input::InputFault;
use thiserror::Error;

/// The bytes that an image text may have.
pub const LONGEST_IMAGE_TEXT: usize = 1_048_576;

/// Why an image text is refused: the line, counted from 1, or 0 where it is no line's fault; and what it is.
#[derive(Clone, Copy, Debug, PartialEq, Eq, Error)]
#[error("{line} {kind}")]
pub struct ImageFault {
    pub line: u32,
    pub kind: ImageFaultKind,
}

impl From<NoMemory> for ImageFault {
    ghost use Rattle.std.specs.Prelude.{◌≡◌};
    ghost use Rattle.rv32_image.specs.declared.fault.ImageFaultKind.TheVariants as kind;

    ghost from_gives = { λ _ fault. fault ≡ record { line = 0; kind = kind.NoMemory } };

    fn from(_: NoMemory) -> ImageFault {
        ImageFault {
            line: 0,
            kind: ImageFaultKind::NoMemory,
        }
    }
}

impl From<InputFault> for ImageFault {
    ghost use Rattle.std.specs.Prelude.{◌≡◌};
    ghost use Rattle.rv32_image.specs.Reading.{input_fault};

    ghost from_gives = { λ input fault. fault ≡ input_fault input };

    fn from(input: InputFault) -> ImageFault {
        let kind = match input {
            InputFault::TooLong => ImageFaultKind::TooLong,
            InputFault::Read => ImageFaultKind::Read,
            InputFault::NoMemory => ImageFaultKind::NoMemory,
        };
        ImageFault { line: 0, kind }
    }
}

impl ImageFault {
    /// The printed name of its kind.
    pub fn name(self) -> &'static str
        ensures name { result.now ≡ name_of self.kind }
        ensures short { length result.now ≤ 17 }
    {
        self.kind.name()
    }
}

/// What is wrong with an image text.
#[derive(Clone, Copy, Debug, PartialEq, Eq, Error)]
pub enum ImageFaultKind {
    /// No such word, another number of words, or a number that is not spelled as one.
    #[error("Line")]
    Line,
    /// A line that was there already, or that stands above one that it needs, or that is missing at the end (line 0).
    #[error("MissingOrRepeated")]
    MissingOrRepeated,
    /// A number, a register or a length of code outside the limits.
    #[error("Range")]
    Range,
    /// Bytes outside memory or in the code.
    #[error("Place")]
    Place,
    /// No hexadecimal digit, an odd number of them, or not eight where eight are asked.
    #[error("Hex")]
    Hex,
    /// More than 1,048,576 bytes (line 0).
    #[error("TooLong")]
    TooLong,
    /// The reader failed (line 0).
    #[error("Read")]
    Read,
    /// Memory ran out (line 0).
    #[error("NoMemory")]
    NoMemory,
}

impl ImageFaultKind {
    /// The printed name, which is the variant's.
    pub fn name(self) -> &'static str
        ensures name { result.now ≡ name_of self }
        ensures short { length result.now ≤ 17 }
    {
        match self {
            ImageFaultKind::Line => "Line",
            ImageFaultKind::MissingOrRepeated => "MissingOrRepeated",
            ImageFaultKind::Range => "Range",
            ImageFaultKind::Place => "Place",
            ImageFaultKind::Hex => "Hex",
            ImageFaultKind::TooLong => "TooLong",
            ImageFaultKind::Read => "Read",
            ImageFaultKind::NoMemory => "NoMemory",
        }
    }
}
