ghost use Rattle.std.specs.Prelude.{◌≡◌, ◌≤◌, length};
ghost use Rattle.trace_text.specs.Reading.{name_of};

use rv32_image::{InputFault, NoMemory};
use thiserror::Error;

/// The bytes that an image and a trace may have together.
pub const LONGEST_TRACE_TEXT: usize = 33_554_432;

/// Why a trace is refused: the line, counted from 1 over the image and the trace, or 0 where it is no line's fault; and what
/// it is.
#[derive(Clone, Copy, Debug, PartialEq, Eq, Error)]
#[error("{line} {kind}")]
pub struct TraceFault {
    pub line: u32,
    pub kind: TraceFaultKind,
}

impl From<InputFault> for TraceFault {
    ghost use Rattle.std.specs.Prelude.{◌≡◌};
    ghost use Rattle.trace_text.specs.Reading.{input_fault};

    ghost from_gives = { λ input fault. fault ≡ input_fault input };

    fn from(input: InputFault) -> TraceFault {
        let kind = match input {
            InputFault::TooLong => TraceFaultKind::TooLong,
            InputFault::Read => TraceFaultKind::Read,
            InputFault::NoMemory => TraceFaultKind::NoMemory,
        };
        TraceFault { line: 0, kind }
    }
}

impl TraceFault {
    /// The printed name of its kind.
    pub fn name(self) -> &'static str
        ensures name { result.now ≡ name_of self.kind }
        ensures short { length result.now ≤ 8 }
    {
        self.kind.name()
    }
}

/// What is wrong with a trace.
#[derive(Clone, Copy, Debug, PartialEq, Eq, Error)]
pub enum TraceFaultKind {
    /// No line begins with `trace` and a space (line 0), or the first that does has not one number of cores that the image's
    /// version allows.
    #[error("Head")]
    Head,
    /// No entry: another number of words, no such word, a number that is not spelled as one or is past 32 bits, or not eight
    /// hexadecimal digits.
    #[error("Line")]
    Line,
    /// More than 33,554,432 bytes (line 0).
    #[error("TooLong")]
    TooLong,
    /// The reader failed (line 0).
    #[error("Read")]
    Read,
    /// Memory ran out (line 0).
    #[error("NoMemory")]
    NoMemory,
}

impl TraceFaultKind {
    /// The printed name, which is the variant's.
    pub fn name(self) -> &'static str
        ensures name { result.now ≡ name_of self }
        ensures short { length result.now ≤ 8 }
    {
        match self {
            TraceFaultKind::Head => "Head",
            TraceFaultKind::Line => "Line",
            TraceFaultKind::TooLong => "TooLong",
            TraceFaultKind::Read => "Read",
            TraceFaultKind::NoMemory => "NoMemory",
        }
    }
}
