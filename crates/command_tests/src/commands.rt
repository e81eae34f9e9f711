//! Runs on threads, the command `run` among them: what no contract can say, which is that a run with room and memory comes to its end,
//! and which failures stop it.

use crate::words::{cell, is_row, number};
use core_threads::{Gate, Open, Shut};
use run_command::{RunAsked, RunOptions, do_run, do_threads, runnable};
use rv32_exec::{Arrived, read_image};
use spec_bus::CachedBus;
use std::alloc::Global;
use std::io;
use std::io::{Error, ErrorKind, Read, Write};
use std::process::Abort;
use std::sync::Wait;
use std::test::Fail;
use std::thread::Threads;
use trace_commands::{MachineAsked, store_named};
use violations::{EpochStore, PlainStore};

/// The image whose epochs add their numbers to one word.
const COUNTER: &str = "size 256\nepochs 4\nlimit 100\ncode 83220004b382a2002320500467800000\n";

const COUNTED: &str = "end done 4\nat 00000040 06000000000000000000000000000000\n";

/// The same of one epoch, with all that its run on one core prints.
const ONE: &str = "size 256\nepochs 1\nlimit 100\ncode 83220004b382a2002320500467800000\n";

const TRACED: &str =
    "end done 1\ncounts 1 1 0 1\ntrace 1\n0 start 0\n0 load 00000040 4 00000000\n0 store 00000040 4 00000000\n0 commit\n";

/// Each run with its cores, its room, whether it is traced, its image, its status, and the texts on standard output and standard error. A turn asks for 16 free entries, and the
/// four epochs make 16 entries on one core.
const RUNS: &str = "
4 | 4096 | not traced | COUNTER | 0 | COUNTED |
1 | 31 | not traced | COUNTER | 0 | COUNTED |
1 | 30 | not traced | COUNTER | 3 | | stopped HistoryFull
1 | 16 | traced | COUNTER | 3 | | stopped HistoryFull
1 | 64 | traced | ONE | 0 | TRACED |
9 | 64 | not traced | COUNTER | 2 | | usage
9 | 64 | not traced | SIZE | 2 | | image 1 Range
1 | 64 | not traced | | 2 | | image 0 MissingOrRepeated
";

/// The text that has this name in a row; an empty cell is no text.
fn text_of(name: &str) -> &'static str {
    match name {
        "COUNTER" => COUNTER,
        "ONE" => ONE,
        "SIZE" => "size 24\n",
        "COUNTED" => COUNTED,
        "TRACED" => TRACED,
        _ => "",
    }
}

/// These bytes are the line, or there are none where it is empty.
fn is_line(bytes: &[u8], line: &str) -> bool {
    match bytes.split_last() {
        Some((last, rest)) => *last == b'\n' && rest == line.as_bytes() && !line.is_empty(),
        None => line.is_empty(),
    }
}

/// The status of a run over a store on this machine.
fn ran_over<S: EpochStore, T: Threads + Wait + Sync>(
    rt: &T,
    alloc: Global,
    asked: RunAsked,
    mut reader: &[u8],
    writer: &mut Vec<u8>,
    errors: &mut Vec<u8>,
) -> u8 {
    do_threads::<S, Open, T, &[u8], Vec<u8>, Vec<u8>>(
        rt,
        alloc,
        asked,
        &Open,
        &mut reader,
        writer,
        errors,
    )
}

/// What a run came to is what its row says.
fn is_of_row<A: Abort>(rt: &A, line: &str, status: u8, printed: &[u8], told: &[u8]) {
    assert!(rt; u32::from(status) == number(cell(line, 4), 0), "{line}");
    assert!(rt; printed == text_of(cell(line, 5)).as_bytes(), "{line}");
    assert!(rt; is_line(told, cell(line, 6)), "{line}");
}

fn options_of<A: Abort>(rt: &A, line: &str) -> RunOptions {
    let cores = number(cell(line, 0), 0);
    let room = number(cell(line, 1), 0);
    assert!(rt; 1 <= cores && 16 <= room && room <= 1_048_576);
    RunOptions {
        cores,
        room,
        trace: cell(line, 2) == "traced",
    }
}

/// The run of a row answers as the row says.
fn answers<T: Abort + Threads + Wait + Sync>(rt: &T, alloc: Global, line: &str) {
    let mut reader = text_of(cell(line, 3)).as_bytes();
    let mut printed = Vec::new(alloc);
    let mut told = Vec::new(alloc);
    let status = do_run(
        rt,
        alloc,
        options_of(rt, line),
        &Open,
        &mut reader,
        &mut printed,
        &mut told,
    );
    is_of_row(rt, line, status, printed.as_slice(), told.as_slice());
}

/// So does that over another store.
fn answers_over<S: EpochStore, T: Abort + Threads + Wait + Sync>(
    rt: &T,
    alloc: Global,
    machine: MachineAsked,
    line: &str,
) {
    let mut printed = Vec::new(alloc);
    let mut told = Vec::new(alloc);
    let asked = RunAsked {
        machine,
        options: options_of(rt, line),
    };
    let status = ran_over::<S, T>(
        rt,
        alloc,
        asked,
        text_of(cell(line, 3)).as_bytes(),
        &mut printed,
        &mut told,
    );
    is_of_row(rt, line, status, printed.as_slice(), told.as_slice());
}

/// The machine that these words ask for.
fn asked(words: &str) -> MachineAsked {
    match store_named(words) {
        Some(store) => store.asked(),
        None => MachineAsked::NOTHING,
    }
}

#[test]
fn a_run_answers(rt: HostRuntime) {
    let large = asked("caches:sets=64,ways=4,buffer=16");
    for line in RUNS.split('\n') {
        if is_row(line) {
            answers(&rt, rt.alloc(), line);
            answers_over::<CachedBus, HostRuntime>(&rt, rt.alloc(), large, line);
            answers_over::<PlainStore, HostRuntime>(&rt, rt.alloc(), MachineAsked::NOTHING, line);
        }
    }
}

/// On so many cores and this machine, whether the loop can be run.
const RUNNABLE: &str = "
1 | caches | yes
8 | caches | yes
9 | caches | no
8 | caches:sets=64,ways=4,buffer=16 | yes
9 | caches:sets=64,ways=4,buffer=16 | no
8 | caches:line=64 | yes
1 | caches:line=48 | no
1 | caches:sets=3 | no
";

/// Whether the loop can be run on the machine of a row.
fn is_runnable(alloc: Global, line: &str) -> Result<bool, Fail> {
    let mut reader = COUNTER.as_bytes();
    let image = read_image(alloc, &mut reader)?;
    let on = runnable(image, asked(cell(line, 1)), number(cell(line, 0), 0).max(1));
    Ok(on.is_some())
}

#[test]
fn a_loop_is_runnable_on_some_machines(rt: HostRuntime) -> Result<(), Fail> {
    for line in RUNNABLE.split('\n') {
        if is_row(line) {
            let is_so = is_runnable(rt.alloc(), line)?;
            assert!(rt; is_so == (cell(line, 2) == "yes"), "{line}");
        }
    }
    Ok(())
}

/// A run that a gate, a reader or a writer stops, with the only line on standard error.
fn stops<G: Gate, T: Abort + Threads + Wait + Sync, R: Read, W: Write>(
    rt: &T,
    alloc: Global,
    cores: u32,
    gate: &G,
    reader: &mut R,
    writer: &mut W,
    line: &str,
) -> u8 {
    assert!(rt; 1 <= cores);
    let options = RunOptions {
        cores,
        room: 64,
        trace: true,
    };
    let mut told = Vec::new(alloc);
    let status = do_run(rt, alloc, options, gate, reader, writer, &mut told);
    assert!(rt; is_line(told.as_slice(), line));
    status
}

/// A gate that is always shut.
#[derive(Drop)]
struct Closed;

impl Gate for Closed {
    fn pass(&self, _core: u32, _turn: u64, _next: Option<&Arrived>) -> Result<(), Shut> {
        Err(Shut)
    }
}

#[test]
fn a_shut_gate_stops_a_run(rt: HostRuntime) {
    let mut reader = COUNTER.as_bytes();
    let mut printed = Vec::new(rt.alloc());
    let status = stops(
        &rt,
        rt.alloc(),
        2,
        &Closed,
        &mut reader,
        &mut printed,
        "stopped Shut",
    );
    assert!(rt; status == 3 && printed.is_empty());
}

/// A writer that takes so many bytes, at most 7 a call, and fails then.
#[derive(Drop)]
struct FailingWriter {
    taken: Vec<u8>,
    room: usize,
}

impl Write for FailingWriter {
    fn write(&mut self, buf: &[u8]) -> io::Result<usize> {
        let count = buf.len().min(7).min(self.room);
        if count == 0 && !buf.is_empty() {
            return Err(Error::from(ErrorKind::BrokenPipe));
        }
        self.taken.extend_from_slice(&buf[..count])?;
        self.room -= count;
        Ok(count)
    }

    fn flush(&mut self) -> io::Result<()> {
        Ok(())
    }
}

/// The writer takes a beginning of the trace, and fails then.
fn fails_to_write<T: Abort + Threads + Wait + Sync>(rt: &T, alloc: Global, room: usize) {
    let mut reader = ONE.as_bytes();
    let mut writer = FailingWriter {
        taken: Vec::new(alloc),
        room,
    };
    let status = stops(
        rt,
        alloc,
        1,
        &Open,
        &mut reader,
        &mut writer,
        "stopped Write",
    );
    assert!(rt; status == 3);
    assert!(rt;
        Some(writer.taken.as_slice()) == TRACED.as_bytes().get(..room),
        "{room}"
    );
}

#[test]
fn a_failed_write_stops_a_run(rt: HostRuntime) -> Result<(), Fail> {
    for room in 0..TRACED.len() {
        fails_to_write(&rt, rt.alloc(), room);
    }
    Ok(())
}

/// A reader that gives these bytes, at most 3 a call, and fails then.
#[derive(Drop)]
struct FailingReader<'a> {
    rest: &'a [u8],
}

impl Read for FailingReader<'_> {
    fn read(&mut self, buf: &mut [u8]) -> io::Result<usize> {
        if self.rest.is_empty() {
            return Err(Error::from(ErrorKind::Interrupted));
        }
        let count = self.rest.len().min(buf.len()).min(3);
        let (now, later) = self.rest.split_at(count);
        buf[..count].copy_from_slice(now);
        self.rest = later;
        Ok(count)
    }
}

/// The reader gives these bytes, and fails then.
fn fails_to_read<T: Abort + Threads + Wait + Sync>(rt: &T, alloc: Global, rest: &[u8]) {
    let mut reader = FailingReader { rest };
    let mut printed = Vec::new(alloc);
    let status = stops(
        rt,
        alloc,
        1,
        &Open,
        &mut reader,
        &mut printed,
        "image 0 Read",
    );
    assert!(rt; status == 2 && printed.is_empty());
}

#[test]
fn a_failed_read_stops_a_run(rt: HostRuntime) {
    for given in 0..=ONE.len() {
        fails_to_read(&rt, rt.alloc(), &ONE.as_bytes()[..given]);
    }
}
