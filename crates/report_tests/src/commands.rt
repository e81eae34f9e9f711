//! The commands `seq` and `audit`, and the program `why`: what no contract can say, which is that failed reads and writes end a command, tried once and not again.

use crate::reports::{ILLEGAL, WAITS, WAITS_TOLD};
use conflict_text::work;
use std::alloc::Global;
use std::io;
use std::io::{Error, ErrorKind, Read, Write};
use std::process::Abort;
use std::test::Fail;
use trace_commands::{do_audit, do_seq};

/// The image whose epochs add their numbers to one word.
const COUNTER: &str = "size 256\nepochs 4\nlimit 100\ncode 83220004b382a2002320500467800000\n";

const COUNTED: &str = "end done 4\nat 00000040 06000000000000000000000000000000\n";

const LEGAL: &str = "legal 9 2\n";

/// A command, with an input that it takes and what it answers.
#[derive(Clone, Copy)]
enum Which {
    Seq,
    Audit,
    Why,
    /// `why` of a trace that is illegal.
    WhyIllegal,
}

const ALL: [Which; 4] = [Which::Seq, Which::Audit, Which::Why, Which::WhyIllegal];

impl Which {
    fn input(self) -> &'static str {
        match self {
            Which::Seq => COUNTER,
            Which::Audit | Which::Why => WAITS,
            Which::WhyIllegal => ILLEGAL,
        }
    }

    fn answer(self) -> &'static str {
        match self {
            Which::Seq => COUNTED,
            Which::Audit => LEGAL,
            Which::Why => WAITS_TOLD,
            Which::WhyIllegal => "illegal 1 NotThere\n",
        }
    }

    fn status(self) -> u8 {
        match self {
            Which::Seq | Which::Audit | Which::Why => 0,
            Which::WhyIllegal => 4,
        }
    }

    fn read_failed(self) -> &'static str {
        match self {
            Which::Seq => "image 0 Read\n",
            Which::Audit | Which::Why | Which::WhyIllegal => "trace 0 Read\n",
        }
    }

    fn run<R: Read, W: Write, E: Write>(
        self,
        alloc: Global,
        reader: &mut R,
        writer: &mut W,
        errors: &mut E,
    ) -> u8 {
        match self {
            Which::Seq => do_seq(alloc, reader, writer, errors),
            Which::Audit => do_audit(alloc, reader, writer, errors),
            Which::Why | Which::WhyIllegal => work(alloc, &["why"], reader, writer, errors),
        }
    }
}

/// What a run of the program left: its status, and the texts on standard output and standard error.
#[derive(Drop)]
pub struct Ran {
    pub status: u8,
    pub output: Vec<u8>,
    pub errors: Vec<u8>,
}

impl Ran {
    pub fn is(&self, status: u8, output: &[u8], errors: &str) -> bool {
        self.status == status
            && self.output.as_slice() == output
            && self.errors.as_slice() == errors.as_bytes()
    }
}

/// Whether a command answers its input.
fn is_answered(alloc: Global, which: Which) -> bool {
    let mut reader = which.input().as_bytes();
    let mut output = Vec::new(alloc);
    let mut errors = Vec::new(alloc);
    let status = which.run(alloc, &mut reader, &mut output, &mut errors);
    let ran = Ran {
        status,
        output,
        errors,
    };
    ran.is(which.status(), which.answer().as_bytes(), "")
}

#[test]
fn each_command_answers(rt: HostRuntime) {
    for which in ALL {
        assert!(rt; is_answered(rt.alloc(), which));
    }
}

/// How often a stream fails where it does.
#[derive(Clone, Copy, PartialEq, Eq)]
enum Fails {
    Once,
    Always,
}

/// A reader that gives so many bytes of a text, three at a time, and fails then. Where it fails once, it goes on with what is
/// later, to its end.
#[derive(Drop)]
struct FailingReader<'a> {
    rest: &'a [u8],
    later: Option<&'a [u8]>,
    kind: ErrorKind,
    fails: Fails,
}

impl Read for FailingReader<'_> {
    fn read(&mut self, buf: &mut [u8]) -> io::Result<usize> {
        if self.rest.is_empty() {
            match (self.fails, self.later) {
                (Fails::Once, None) => return Ok(0),
                (Fails::Once, Some(later)) => {
                    self.rest = later;
                    self.later = None;
                }
                (Fails::Always, _) => (),
            }
            return Err(Error::from(self.kind));
        }
        let count = self.rest.len().min(buf.len()).min(3);
        let (now, later) = self.rest.split_at(count);
        buf[..count].copy_from_slice(now);
        self.rest = later;
        Ok(count)
    }
}

/// A writer that takes so many bytes, at most 7 a call, and fails then, or where it is flushed; it goes on where it fails
/// once.
#[derive(Drop)]
struct FailingWriter {
    taken: Vec<u8>,
    room: usize,
    stops: Stops,
    fails: Fails,
}

/// How a writer fails.
#[derive(Clone, Copy, PartialEq, Eq)]
enum Stops {
    Errs,
    Interrupted,
    TakesNone,
    Unflushed,
}

impl Write for FailingWriter {
    fn write(&mut self, buf: &[u8]) -> io::Result<usize> {
        let count = buf.len().min(7).min(self.room);
        if count == 0 && !buf.is_empty() {
            if self.fails == Fails::Once {
                self.room = usize::MAX;
            }
            return match self.stops {
                Stops::Errs => Err(Error::from(ErrorKind::BrokenPipe)),
                Stops::Interrupted => Err(Error::from(ErrorKind::Interrupted)),
                Stops::TakesNone | Stops::Unflushed => Ok(0),
            };
        }
        self.taken.extend_from_slice(&buf[..count])?;
        self.room -= count;
        Ok(count)
    }

    fn flush(&mut self) -> io::Result<()> {
        let stops = self.stops;
        if self.fails == Fails::Once {
            self.stops = Stops::Errs;
        }
        match stops {
            Stops::Unflushed => Err(Error::from(ErrorKind::BrokenPipe)),
            _ => Ok(()),
        }
    }
}

/// A read that fails ends the command, after each number of bytes.
fn stops_reading(rt: &impl Abort, alloc: Global, which: Which, kind: ErrorKind, fails: Fails) {
    for good in 0..=which.input().len() {
        let ran = run_from(alloc, which, good, kind, fails);
        assert!(rt; ran.is(2, b"", which.read_failed()), "{good}");
    }
}

/// A read that fails ends the command, also where a second one would give the rest of a good text.
#[test]
fn stops_at_a_failed_read(rt: HostRuntime) {
    for which in ALL {
        for fails in [Fails::Once, Fails::Always] {
            stops_reading(&rt, rt.alloc(), which, ErrorKind::BrokenPipe, fails);
            stops_reading(&rt, rt.alloc(), which, ErrorKind::Interrupted, fails);
        }
    }
}

/// A command on a reader that fails after so many bytes of its input.
fn run_from(alloc: Global, which: Which, good: usize, kind: ErrorKind, fails: Fails) -> Ran {
    let text = which.input().as_bytes();
    let (rest, later) = text.split_at(good.min(text.len()));
    let mut reader = FailingReader {
        rest,
        later: Some(later),
        kind,
        fails,
    };
    let mut output = Vec::new(alloc);
    let mut errors = Vec::new(alloc);
    let status = which.run(alloc, &mut reader, &mut output, &mut errors);
    Ran {
        status,
        output,
        errors,
    }
}

/// A write that fails ends the command, after each number of bytes.
fn stops_writing(rt: &impl Abort, alloc: Global, which: Which, stops: Stops, fails: Fails) {
    let answer = which.answer().as_bytes();
    for room in 0..answer.len() {
        let ran = run_into(alloc, which, room, stops, fails);
        assert!(rt; ran.is(3, &answer[..room], "stopped Write\n"), "{room}");
    }
}

/// Whether a command ends well where there is just room.
fn has_room(alloc: Global, which: Which, stops: Stops) -> bool {
    let answer = which.answer().as_bytes();
    run_into(alloc, which, answer.len(), stops, Fails::Always).is(which.status(), answer, "")
}

/// A write that fails ends the command, also where a second one would take the rest.
#[test]
fn stops_at_a_failed_write(rt: HostRuntime) {
    for which in ALL {
        for stops in [Stops::Errs, Stops::Interrupted, Stops::TakesNone] {
            stops_writing(&rt, rt.alloc(), which, stops, Fails::Once);
            stops_writing(&rt, rt.alloc(), which, stops, Fails::Always);
            assert!(rt; has_room(rt.alloc(), which, stops));
        }
    }
}

/// Whether a flush that fails ends the command.
fn is_unflushed(alloc: Global, which: Which, fails: Fails) -> bool {
    let answer = which.answer().as_bytes();
    run_into(alloc, which, answer.len(), Stops::Unflushed, fails).is(3, answer, "stopped Write\n")
}

/// A flush that fails ends the command, also where a second one would succeed.
#[test]
fn stops_at_a_failed_flush(rt: HostRuntime) {
    for which in ALL {
        assert!(rt; is_unflushed(rt.alloc(), which, Fails::Once));
        assert!(rt; is_unflushed(rt.alloc(), which, Fails::Always));
    }
}

/// A command's input into a writer with so much room.
fn run_into(alloc: Global, which: Which, room: usize, stops: Stops, fails: Fails) -> Ran {
    let mut reader = which.input().as_bytes();
    let mut writer = FailingWriter {
        taken: Vec::new(alloc),
        room,
        stops,
        fails,
    };
    let mut errors = Vec::new(alloc);
    let status = which.run(alloc, &mut reader, &mut writer, &mut errors);
    Ran {
        status,
        output: writer.taken,
        errors,
    }
}

/// An input is refused, and an error stream with each room takes the beginning of the line.
fn keeps_its_status(rt: &impl Abort, alloc: Global, which: Which, refused: &str, line: &str) {
    let line = line.as_bytes();
    for room in 0..line.len() {
        let ran = refuse_into(alloc, which, refused, room);
        assert!(rt;
            ran.status == 2 && ran.output.is_empty() && ran.errors.as_slice() == &line[..room],
            "{room}"
        );
    }
}

/// A failed write of the line on the error stream changes no status, and no output.
#[test]
fn keeps_its_status_without_an_error_stream(rt: HostRuntime) {
    keeps_its_status(&rt, rt.alloc(), Which::Seq, "size 24\n", "image 1 Range\n");
    keeps_its_status(&rt, rt.alloc(), Which::Audit, COUNTER, "trace 0 Head\n");
    keeps_its_status(&rt, rt.alloc(), Which::Why, COUNTER, "trace 0 Head\n");
}

/// An input into an error stream with so much room.
fn refuse_into(alloc: Global, which: Which, input: &str, room: usize) -> Ran {
    let mut reader = input.as_bytes();
    let mut output = Vec::new(alloc);
    let mut errors = FailingWriter {
        taken: Vec::new(alloc),
        room,
        stops: Stops::Errs,
        fails: Fails::Once,
    };
    let status = which.run(alloc, &mut reader, &mut output, &mut errors);
    Ran {
        status,
        output,
        errors: errors.taken,
    }
}

/// A text of so many bytes is refused with this line, and at most one byte past the limit is read.
fn is_read_so_far(rt: &impl Abort, alloc: Global, length: usize, line: &str) -> Result<(), Fail> {
    let text = vec![in alloc; b'x'; length]?;
    let mut reader = text.as_slice();
    let mut output = Vec::new(alloc);
    let mut errors = Vec::new(alloc);
    let status = do_seq(alloc, &mut reader, &mut output, &mut errors);
    assert!(rt;
        status == 2 && errors.as_slice() == line.as_bytes(),
        "{length}"
    );
    assert!(rt;
        reader.len() == length - length.min(LONGEST + 1),
        "{length}"
    );
    Ok(())
}

const LONGEST: usize = 1_048_576;

/// At most one byte past the limit is read.
#[test]
fn reads_no_further_than_it_must(rt: HostRuntime) -> Result<(), Fail> {
    is_read_so_far(&rt, rt.alloc(), LONGEST, "image 1 Line\n")?;
    is_read_so_far(&rt, rt.alloc(), LONGEST + 1, "image 0 TooLong\n")?;
    is_read_so_far(&rt, rt.alloc(), LONGEST + 5000, "image 0 TooLong\n")
}
