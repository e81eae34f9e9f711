//! `replay`: a history that is full is told as such, and not as want of memory, which no contract can say; and what the words of a store
//! ask for.
ghost use Rattle.std.specs.Prelude.{◌≤◌};

use crate::words::{cell, is_row, number};
use all_schedules::Room;
use core_threads::Open;
use replay_command::{Invocation, work};
use std::alloc::Global;
use std::convert::AsStr;
use std::process::Abort;
use std::sync::Wait;
use std::test::Fail;
use std::thread::Threads;

/// An epoch that loads a word. On one core it makes an entry in each turn: its start, its load, its commit.
const LOAD: &str = "size 256\nepochs 1\nlimit 50\ncode 8322000467800000\n";

/// What is printed of it, below the turns.
const LOADED: &str =
    "end done 1\ncounts 1 0 0 1\ntrace 1\n0 start 0\n0 load 00000040 4 00000000\n0 commit\n";

/// The same with the turns of one core.
const LOADED_BY_TURNS: &str =
    "turns 0 0 0\nend done 1\ncounts 1 0 0 1\ntrace 1\n0 start 0\n0 load 00000040 4 00000000\n0 commit\n";

/// The image with its trace.
const LOAD_TRACED: &str =
    "size 256\nepochs 1\nlimit 50\ncode 8322000467800000\ntrace 1\n0 start 0\n0 load 00000040 4 00000000\n0 commit\n";

/// What `all` prints of the schedules of two turns.
const NONE_OVER: &str = "schedules 1\nover 0\nhistories 1\n";

const FULL: &str = "stopped HistoryFull\n";

/// An epoch that loads a word, and one 16 bytes on.
const TWO_LOADS: &str = "size 160\nepochs 1\nlimit 50\ncode 832200040323000567800000\n";

/// What the turns of one core print of it, where the cache has room for both lines, or the words are of one line.
const BOTH: &str =
    "turns 0 0 0 0\nend done 1\ncounts 2 0 0 1\ntrace 1\n0 start 0\n0 load 00000040 4 00000000\n0 load 00000050 4 00000000\n0 commit\n";

/// The same where it has room for one: the second load waits, and the core publishes.
const ONE_BY_ONE: &str =
    "turns 0 0 0 0\nend done 1\ncounts 2 0 0 1\ntrace 1\n0 start 0\n0 load 00000040 4 00000000\n0 publish\n0 load 00000050 4 00000000\n0 commit\n";

const USAGE: &str = "usage\n";

const NO_IMAGE: &str = "image 0 MissingOrRepeated\n";

/// The image with the trace of the run that publishes.
const TRACED: &str =
    "size 160\nepochs 1\nlimit 50\ncode 832200040323000567800000\ntrace 1\n0 start 0\n0 load 00000040 4 00000000\n0 publish\n0 load 00000050 4 00000000\n0 commit\n";

/// The image with the turns of either run.
const TURNS: &str = "size 160\nepochs 1\nlimit 50\ncode 832200040323000567800000\nturns 0 0 0 0\n";

/// What `all` prints of the one schedule of four turns.
const EVERY: &str =
    "schedules 1\nover 1\nhistories 1\nleast 0\nturns 0 0 0 0\nmost 0\nturns 0 0 0 0\nend done 1\n";

/// The text that has this name in a row; an empty cell is no text.
fn text_of(name: &str) -> &'static str {
    match name {
        "LOAD" => LOAD,
        "LOADED" => LOADED,
        "LOADED_BY_TURNS" => LOADED_BY_TURNS,
        "LOAD_TRACED" => LOAD_TRACED,
        "NONE_OVER" => NONE_OVER,
        "FULL" => FULL,
        _ => later_text_of(name),
    }
}

/// The same of the other texts.
fn later_text_of(name: &str) -> &'static str {
    match name {
        "TWO_LOADS" => TWO_LOADS,
        "BOTH" => below_turns(BOTH),
        "BOTH_BY_TURNS" => BOTH,
        "ONE_BY_ONE" => below_turns(ONE_BY_ONE),
        "ONE_BY_ONE_BY_TURNS" => ONE_BY_ONE,
        "TRACED" => TRACED,
        "TURNS" => TURNS,
        "EVERY" => EVERY,
        "USAGE" => USAGE,
        "NO_IMAGE" => NO_IMAGE,
        "DIFFERS" => "differs 2\n",
        _ => "",
    }
}

/// What a replay of turns prints: all of the run but its turns.
fn below_turns(printed: &'static str) -> &'static str {
    match printed.split_once('\n') {
        Some((_turns, below)) => below,
        None => "",
    }
}

/// The program's words, after its name; `EMPTY` is a word of no letters.
fn words_of<'a>(alloc: Global, text: &'a str) -> Result<Vec<&'a str>, Fail> {
    let mut words = Vec::new(alloc);
    words.push("replay")?;
    for word in text.split_whitespace() {
        words.push(if word == "EMPTY" { "" } else { word })?;
    }
    Ok(words)
}

/// A run of the program: what it is given, and what it comes to.
#[derive(Clone, Copy)]
struct Run<'a> {
    words: &'a str,
    input: &'static str,
    room: u32,
    status: u32,
    output: &'static str,
    errors: &'static str,
}

/// The status of the program, with these words, so much room and this input. It adds what it writes, and its line of an error.
fn status_of<S: AsStr, T: Threads + Wait + Sync>(
    rt: &T,
    alloc: Global,
    words: &[S],
    room: Room,
    input: &str,
    written: &mut Vec<u8>,
    told: &mut Vec<u8>,
) -> u8
    requires { room ≤ 1048576 }
{
    let mut reader = input.as_bytes();
    let called = Invocation { words, room };
    work(rt, alloc, called, &Open, &mut reader, written, told)
}

/// Whether the program, with these words and so much room, ends so.
fn ends<T: Abort + Threads + Wait + Sync>(rt: &T, alloc: Global, run: &Run) -> Result<bool, Fail> {
    let room = run.room;
    assert!(rt; 16 <= room && room <= 1_048_576);
    let words = words_of(alloc, run.words)?;
    let mut written = Vec::new(alloc);
    let mut told = Vec::new(alloc);
    let status = status_of(
        rt,
        alloc,
        words.as_slice(),
        Room::new(room),
        run.input,
        &mut written,
        &mut told,
    );
    Ok(
        u32::from(status) == run.status
            && written.as_slice() == run.output.as_bytes()
            && told.as_slice() == run.errors.as_bytes(),
    )
}

/// The run of a row.
fn run_of<'a>(row: &'a str) -> Run<'a> {
    Run {
        words: cell(row, 0),
        input: text_of(cell(row, 1)),
        room: number(cell(row, 2), 0),
        status: number(cell(row, 3), 0),
        output: text_of(cell(row, 4)),
        errors: text_of(cell(row, 5)),
    }
}

/// Each row of a table holds.
fn are_rows<T: Abort + Threads + Wait + Sync>(
    rt: &T,
    alloc: Global,
    rows: &str,
) -> Result<(), Fail> {
    for row in rows.split('\n') {
        if is_row(row) {
            assert!(rt; ends(rt, alloc, &run_of(row))?, "{row}");
        }
    }
    Ok(())
}

/// The program's words after its name, the input, the room, the status, and the texts on standard output and standard error. A turn asks for
/// 16 free entries, and the second finds what the first has left.
const ALL_FULL: &str = "
all plain 1 2 | LOAD | 17 | 0 | NONE_OVER |
all plain 1 2 | LOAD | 16 | 3 | | FULL
all caches 1 2 | LOAD | 17 | 0 | NONE_OVER |
all caches 1 2 | LOAD | 16 | 3 | | FULL
";

#[test]
fn all_tells_a_full_history(rt: HostRuntime) -> Result<(), Fail> {
    are_rows(&rt, rt.alloc(), ALL_FULL)
}

/// The third turn finds what the first two have left.
const OTHERS_FULL: &str = "
even plain 1 | LOAD | 18 | 0 | LOADED_BY_TURNS |
even plain 1 | LOAD | 17 | 3 | | FULL
seeded 1 plain 1 | LOAD | 18 | 0 | LOADED_BY_TURNS |
seeded 1 plain 1 | LOAD | 17 | 3 | | FULL
threads plain 1 | LOAD | 18 | 0 | LOADED |
threads plain 1 | LOAD | 17 | 3 | | FULL
even caches 1 | LOAD | 18 | 0 | LOADED_BY_TURNS |
even caches 1 | LOAD | 17 | 3 | | FULL
seeded 1 caches 1 | LOAD | 18 | 0 | LOADED_BY_TURNS |
seeded 1 caches 1 | LOAD | 17 | 3 | | FULL
threads caches 1 | LOAD | 18 | 0 | LOADED |
threads caches 1 | LOAD | 17 | 3 | | FULL
";

#[test]
fn other_schedules_tell_a_full_history(rt: HostRuntime) -> Result<(), Fail> {
    are_rows(&rt, rt.alloc(), OTHERS_FULL)
}

/// So does the third turn of a trace.
const TRACE_FULL: &str = "
plain | LOAD_TRACED | 18 | 0 | LOADED |
plain | LOAD_TRACED | 17 | 3 | | FULL
caches | LOAD_TRACED | 18 | 0 | LOADED |
caches | LOAD_TRACED | 17 | 3 | | FULL
";

#[test]
fn a_trace_tells_a_full_history(rt: HostRuntime) -> Result<(), Fail> {
    are_rows(&rt, rt.alloc(), TRACE_FULL)
}

/// The words of a store, and what a run over it prints. `no machine`: there is none, or memory, of 160 bytes, is no whole number of its lines.
const STORES: &str = "
plain | both
caches | both
caches:line=16,sets=4,ways=2,buffer=4 | both
caches:sets=1,ways=1 | one by one
caches:ways=1,sets=1 | one by one
caches:buffer=1,ways=1,line=16,sets=1 | one by one
caches:line=32,sets=1,ways=1,buffer=64 | both
caches:sets=1 | both
caches:ways=1 | both
caches:ways=16,sets=1024,buffer=64 | both
caches:line=64 | no machine
caches:line=24 | no machine
caches:line=4294967295 | no machine
caches:sets=0 | no machine
caches:sets=3 | no machine
caches:sets=2048 | no machine
caches:ways=0 | no machine
caches:ways=17 | no machine
caches:buffer=0 | no machine
caches:buffer=65 | no machine
Caches | no words
cache | no words
caches: | no words
caches:, | no words
caches:sets | no words
caches:sets= | no words
caches:=1 | no words
caches:set=1 | no words
caches:Sets=1 | no words
caches:sets=1, | no words
caches:,sets=1 | no words
caches:sets=1,,ways=1 | no words
caches:sets=1,sets=1 | no words
caches:ways=1,sets=1,ways=2 | no words
caches:sets=1=1 | no words
caches:sets=1:ways=1 | no words
caches:sets=01 | no words
caches:sets=+1 | no words
caches:sets=0x1 | no words
caches:line=4294967296 | no words
caches:line=4294967312 | no words
plain: | no words
plain:sets=1 | no words
:sets=1 | no words
";

/// Whether a run of these words and input, over 64 entries, ends so.
fn ends_so<T: Abort + Threads + Wait + Sync>(
    rt: &T,
    alloc: Global,
    words: &str,
    input: &'static str,
    status: u32,
    output: &'static str,
    errors: &'static str,
) -> Result<bool, Fail> {
    let run = Run {
        words,
        input,
        room: 64,
        status,
        output,
        errors,
    };
    ends(rt, alloc, &run)
}

/// Whether a run at even speed on one core over this store prints this text or is refused so, and one on a thread prints all of it but the
/// turns or is refused so.
fn both_end<T: Abort + Threads + Wait + Sync>(
    rt: &T,
    alloc: Global,
    store: &str,
    input: &'static str,
    status: u32,
    output: &'static str,
    errors: &'static str,
) -> Result<bool, Fail> {
    let even = format!(in alloc; "even {store} 1")?;
    let threads = format!(in alloc; "threads {store} 1")?;
    let below = below_turns(output);
    Ok(
        ends_so(rt, alloc, even.as_str(), input, status, output, errors)?
            && ends_so(rt, alloc, threads.as_str(), input, status, below, errors)?,
    )
}

/// Whether runs on one core, over the store of a row, print what the row says. Words are refused before an image is read, and a machine
/// afterwards.
fn prints_row<T: Abort + Threads + Wait + Sync>(
    rt: &T,
    alloc: Global,
    row: &str,
) -> Result<bool, Fail> {
    let store = cell(row, 0);
    match cell(row, 1) {
        "both" => both_end(rt, alloc, store, TWO_LOADS, 0, BOTH, ""),
        "one by one" => both_end(rt, alloc, store, TWO_LOADS, 0, ONE_BY_ONE, ""),
        "no machine" => Ok(
            both_end(rt, alloc, store, "", 2, "", NO_IMAGE)?
                && both_end(rt, alloc, store, TWO_LOADS, 2, "", USAGE)?,
        ),
        "no words" => both_end(rt, alloc, store, "", 2, "", USAGE),
        _ => Ok(false),
    }
}

#[test]
fn a_store_is_on_the_machine_of_its_words(rt: HostRuntime) -> Result<(), Fail> {
    for row in STORES.split('\n') {
        if is_row(row) {
            assert!(rt; prints_row(&rt, rt.alloc(), row)?, "{row}");
        }
    }
    Ok(())
}

/// A version of images has at most so many cores; the image's own refusal comes first, and that of words before either.
const CORES: &str = "
threads plain 9 | | 64 | 2 | | NO_IMAGE
threads plain 9 | LOAD | 64 | 2 | | USAGE
threads plain EMPTY | | 64 | 2 | | USAGE
threads plain 0 | | 64 | 2 | | USAGE
threads plain 17 | | 64 | 2 | | USAGE
threads plain 01 | | 64 | 2 | | USAGE
threads plain -1 | | 64 | 2 | | USAGE
threads plain | LOAD | 64 | 2 | | USAGE
threads plain 1 1 | LOAD | 64 | 2 | | USAGE
threads caches 9 | | 64 | 2 | | NO_IMAGE
threads caches 9 | LOAD | 64 | 2 | | USAGE
threads caches EMPTY | | 64 | 2 | | USAGE
threads caches 0 | | 64 | 2 | | USAGE
threads caches 17 | | 64 | 2 | | USAGE
threads caches 01 | | 64 | 2 | | USAGE
threads caches -1 | | 64 | 2 | | USAGE
threads caches | LOAD | 64 | 2 | | USAGE
threads caches 1 1 | LOAD | 64 | 2 | | USAGE
threads caches:sets=64,ways=4,buffer=16 9 | | 64 | 2 | | NO_IMAGE
threads caches:sets=64,ways=4,buffer=16 9 | LOAD | 64 | 2 | | USAGE
threads caches:sets=64,ways=4,buffer=16 EMPTY | | 64 | 2 | | USAGE
threads caches:sets=64,ways=4,buffer=16 0 | | 64 | 2 | | USAGE
threads caches:sets=64,ways=4,buffer=16 17 | | 64 | 2 | | USAGE
threads caches:sets=64,ways=4,buffer=16 01 | | 64 | 2 | | USAGE
threads caches:sets=64,ways=4,buffer=16 -1 | | 64 | 2 | | USAGE
threads caches:sets=64,ways=4,buffer=16 | LOAD | 64 | 2 | | USAGE
threads caches:sets=64,ways=4,buffer=16 1 1 | LOAD | 64 | 2 | | USAGE
threads | LOAD | 64 | 2 | | USAGE
";

#[test]
fn threads_take_as_many_cores_as_a_version_has(rt: HostRuntime) -> Result<(), Fail> {
    are_rows(&rt, rt.alloc(), CORES)
}

/// The last of four turns finds 16 free entries beside three, and none beside the four of the run that publishes.
const MACHINES: &str = "
caches:sets=1,ways=1 | TRACED | 64 | 0 | ONE_BY_ONE |
caches | TRACED | 64 | 4 | | DIFFERS
caches:sets=1,ways=1 1 | TURNS | 64 | 0 | ONE_BY_ONE |
caches 1 | TURNS | 64 | 0 | BOTH |
seeded 1 caches:sets=1,ways=1 1 | TWO_LOADS | 64 | 0 | ONE_BY_ONE_BY_TURNS |
all caches:sets=1,ways=1 1 4 | TWO_LOADS | 19 | 3 | | FULL
all caches 1 4 | TWO_LOADS | 19 | 0 | EVERY |
";

#[test]
fn each_command_is_on_the_machine_of_its_words(rt: HostRuntime) -> Result<(), Fail> {
    are_rows(&rt, rt.alloc(), MACHINES)
}
