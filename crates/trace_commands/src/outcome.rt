ghost use Rattle.std.specs.Prelude.{◌≡◌, ◌≤◌, ◌++◌, [], MatchOption, codes, decimal, length};
ghost use Rattle.trace_commands.specs.Outcome as spec;

use crate::write::write_whole;
use arrayvec::ArrayString;
use itoa::Buffer;
use rv32_exec::{End, ImageFault, ImageFaultKind};
use spec_history::Illegal;
use std::io::Write;
use trace_text::{TraceFault, TraceFaultKind};

/// Why a command stopped before its end.
#[derive(Clone, Copy)]
pub enum CommandStop {
    /// A write or a flush of standard output failed.
    Write,
    /// Memory ran out.
    NoMemory,
    /// The history of a run has no room for another turn.
    HistoryFull,
    /// The thread of a core was refused.
    NoThread,
    /// All tickets of the lock of a run have been drawn.
    Spent,
    /// A gate was shut.
    Shut,
}

impl CommandStop {
    /// The printed name, which is the variant's.
    pub fn name(self) -> &'static str
        ensures name { result.now ≡ spec.cause_name self }
        ensures short { length result.now ≤ 16 }
    {
        match self {
            CommandStop::Write => "Write",
            CommandStop::NoMemory => "NoMemory",
            CommandStop::HistoryFull => "HistoryFull",
            CommandStop::NoThread => "NoThread",
            CommandStop::Spent => "Spent",
            CommandStop::Shut => "Shut",
        }
    }
}

/// What an audit found.
#[derive(Clone, Copy)]
pub enum Verdict {
    /// All entries are legal: how many there are, and the homefree epoch after them.
    Legal { entries: usize, homefree: u32 },
    /// The place of the first entry that the flat machine refuses, counted from 0, and its refusal.
    Illegal { place: usize, refusal: Illegal },
}

/// What a command came to.
#[derive(Clone, Copy)]
pub enum Outcome {
    /// The loop ran, and its report was written.
    Reported(End),
    /// The trace was audited, and the verdict was written.
    Audited(Verdict),
    /// The words are no command, or the image's version doesn't allow so many cores.
    Usage,
    /// The image was refused.
    BadImage(ImageFault),
    /// The trace was refused.
    BadTrace(TraceFault),
    /// A schedule was used up before the loop was over, and what it came to was written: the homefree epoch.
    Open(u32),
    /// The lines of turns were refused. They are read as a trace is, and have its faults.
    BadTurns(TraceFault),
    /// The schedule of a trace made another history: the first place, counted from 0, at which they differ.
    Differs(usize),
    /// The command stopped.
    Stopped(CommandStop),
}

impl Outcome {
    /// What an image that could not be read comes to: want of memory is no fault of the image.
    pub fn of_fault(fault: ImageFault) -> Outcome
        ensures { result ≡ spec.outcome_of_fault fault.kind fault }
    {
        match fault.kind {
            ImageFaultKind::NoMemory => Outcome::Stopped(CommandStop::NoMemory),
            _ => Outcome::BadImage(fault),
        }
    }

    /// What a trace that could not be read comes to: want of memory is no fault of the trace.
    pub fn of_trace_fault(fault: TraceFault) -> Outcome
        ensures { result ≡ spec.outcome_of_trace_fault fault.kind fault }
    {
        match fault.kind {
            TraceFaultKind::NoMemory => Outcome::Stopped(CommandStop::NoMemory),
            _ => Outcome::BadTrace(fault),
        }
    }

    /// What lines of turns that could not be read come to: want of memory is no fault of theirs.
    pub fn of_turns_fault(fault: TraceFault) -> Outcome
        ensures { result ≡ spec.outcome_of_turns_fault fault.kind fault }
    {
        if let TraceFaultKind::NoMemory = fault.kind {
            return Outcome::Stopped(CommandStop::NoMemory);
        }
        Outcome::BadTurns(fault)
    }

    /// The status: 0 done, exited, legal or open, 1 an epoch faulted, 2 refused, 3 stopped, 4 illegal or another history.
    pub fn status(self) -> u8
        ensures { result ≡ spec.status_of self }
    {
        match self {
            Outcome::Reported(End::Done(_) | End::Exit(_)) => 0,
            Outcome::Reported(End::Fault { .. }) => 1,
            Outcome::Audited(Verdict::Legal { .. }) => 0,
            Outcome::Audited(Verdict::Illegal { .. }) => 4,
            Outcome::Open(_) => 0,
            Outcome::Usage => 2,
            Outcome::BadImage(_) | Outcome::BadTrace(_) | Outcome::BadTurns(_) => 2,
            Outcome::Differs(_) => 4,
            Outcome::Stopped(_) => 3,
        }
    }

    /// The line on the error stream, or nothing. It always fits, and takes no memory.
    fn error_line(self) -> Option<ArrayString<64>>
        ensures { MatchOption result (spec.error_line self ≡ []) (λ line. line.bytes ≡ spec.error_line self) }
    {
        match self {
            Outcome::Reported(_) | Outcome::Audited(_) | Outcome::Open(_) => None,
            Outcome::Usage => Some(usage_line()),
            Outcome::BadImage(fault) => Some(refused_line("image ", fault.line, fault.name())),
            Outcome::BadTrace(fault) => Some(refused_line("trace ", fault.line, fault.name())),
            Outcome::BadTurns(fault) => Some(refused_line("turns ", fault.line, fault.name())),
            Outcome::Differs(place) => Some(differs_line(place)),
            Outcome::Stopped(cause) => Some(stopped_line(cause)),
        }
    }

    /// Writes the outcome's line to the error stream, and answers its status, which a failed write does not change.
    pub fn conclude<E: Write>(self, errors: &mut E) -> u8
        ensures status { result ≡ spec.status_of self }
        ensures line { spec.AppendsPrefix (E.contents errors.old) (E.contents errors.new) (spec.error_line self) }
    {
        if let Some(line) = self.error_line() {
            let _ = write_whole(errors, line.as_bytes());
        }
        self.status()
    }
}

fn usage_line() -> ArrayString<64>
    ensures { result.bytes ≡ codes "usage\n" }
{
    let mut line = ArrayString::new();
    line.push_str("usage\n");
    line
}

/// The line that tells a fault: whose it is, on which line, and its name.
fn refused_line(whose: &str, number: u32, name: &str) -> ArrayString<64>
    requires whose { length whose.now ≤ 6 }
    requires name { length name.now ≤ 17 }
    ensures { result.bytes ≡ whose.now ++ decimal number ++ codes " " ++ name.now ++ codes "\n" }
{
    let mut line = ArrayString::new();
    let mut digits = Buffer::new();
    line.push_str(whose);
    line.push_str(digits.format(number));
    line.push_str(" ");
    line.push_str(name);
    line.push_str("\n");
    line
}

fn differs_line(place: usize) -> ArrayString<64>
    ensures { result.bytes ≡ spec.differs_line place }
{
    let mut line = ArrayString::new();
    let mut digits = Buffer::new();
    line.push_str("differs ");
    line.push_str(digits.format(place));
    line.push_str("\n");
    line
}

fn stopped_line(cause: CommandStop) -> ArrayString<64>
    ensures { result.bytes ≡ spec.stopped_line cause }
{
    let mut line = ArrayString::new();
    line.push_str("stopped ");
    line.push_str(cause.name());
    line.push_str("\n");
    line
}
