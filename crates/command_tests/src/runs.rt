//! Runs whose loops are over.

use crate::gates::{After, Late, Meeting};
use crate::look::{is_in_order, look, run, word_at};
use crate::programs::{SUM_OF_FOUR, WORDS_OF_EIGHT, WORDS_OF_SIXTEEN, WORDS_OF_TWO, text_named};
use crate::words::{cell, end_of, is_row, number};
use core_threads::{Finished, Gate, Open};
use homefree::Book;
use rv32_exec::{End, Image, image_of};
use spec_bus::CachedBus;
use std::alloc::Global;
use std::process::Abort;
use std::sync::Wait;
use std::sync::atomic::{AtomicU64, Ordering};
use std::test::Fail;
use std::thread::Threads;
use violations::{EpochStore, PlainStore, Waiting};

/// A loop by the text of its image, and how many cores there are; how it ends, and the words from 64 on then.
#[derive(Clone, Copy)]
struct Known<'a> {
    text: &'a str,
    cores: u32,
    end: End,
    words: &'a str,
}

/// A run that ends so.
fn ends<S: EpochStore, G: Gate, R: Abort + Threads + Wait + Sync>(
    rt: &R,
    alloc: Global,
    known: &Known,
    room: u32,
    gate: &G,
) -> Result<(), Fail> {
    let image = image_of(alloc, known.text.as_bytes())?;
    match run::<S, G, R>(rt, alloc, &image, known.cores, room, gate) {
        Ok(run) => has_ended(rt, alloc, &run, &image, known),
        Err(run) => Err(run.fault.name().into()),
    }
}

/// The book has these words from 64 on.
fn has_words<S: EpochStore>(book: &Book<S>, words: &str) -> bool {
    let mut addr = 64_u32;
    for word in words.split_whitespace() {
        if word_at(book, addr) != Some(number(word, 0)) {
            return false;
        }
        addr = addr.wrapping_add(4);
    }
    true
}

/// The run has ended so, as the sequential loop does, with these words from 64 on and a legal history.
fn has_ended<S: EpochStore>(
    rt: &impl Abort,
    alloc: Global,
    run: &Finished<S>,
    image: &Image,
    known: &Known,
) -> Result<(), Fail> {
    let words = known.words;
    assert!(rt; run.end == known.end);
    assert!(rt; run.totals == run.counted && run.totals == run.book.totals());
    assert!(rt; has_words(&run.book, words), "{words}");
    look(rt, alloc, &run.book, image, known.cores)?;
    is_in_order(rt, alloc, &run.book, image, known.end)
}

/// Each loop with its image, how many cores there are, how it ends, and the words from 64 on then.
const LOOPS: &str = "
SUM_OF_FOUR | 4 | done 4 | 6 0
SUM_OF_FOUR | 1 | done 4 | 6 0
SUM_OF_THREE | 8 | done 3 | 3 0
SUM_OF_NONE | 2 | done 0 | 0 0
WORDS_OF_FOUR | 4 | done 4 | 0 1 2 3
SIGNAL | 2 | done 2 | 1 0
EXIT | 4 | exit 2 | 0 1 2 0
SUM_IN_VERSION_2 | 16 | done 4 | 6 0
FAULT | 2 | fault 0 7 4 | 4294967292 0
";

/// The loop of a row ends as the row says.
fn ends_as<S: EpochStore, R: Abort + Threads + Wait + Sync>(
    rt: &R,
    alloc: Global,
    line: &str,
) -> Result<(), Fail> {
    let known = Known {
        text: text_named(cell(line, 0)),
        cores: number(cell(line, 1), 0),
        end: end_of(cell(line, 2)),
        words: cell(line, 3),
    };
    ends::<S, Open, R>(rt, alloc, &known, 4096, &Open)
}

#[test]
fn loops_end_as_the_sequential_loop_does(rt: HostRuntime) -> Result<(), Fail> {
    for line in LOOPS.split('\n') {
        if is_row(line) {
            ends_as::<PlainStore, HostRuntime>(&rt, rt.alloc(), line)?;
            ends_as::<Waiting<PlainStore>, HostRuntime>(&rt, rt.alloc(), line)?;
        }
    }
    Ok(())
}

/// So many cores meet in the gate, each with a store at turn 1.
fn meet<S: EpochStore, R: Abort + Threads + Wait + Sync>(
    rt: &R,
    alloc: Global,
    text: &str,
    cores: u32,
) -> Result<(), Fail> {
    let gate = Meeting::new(cores);
    let known = Known {
        text,
        cores,
        end: End::Done(cores),
        words: "0 1",
    };
    ends::<S, Meeting, R>(rt, alloc, &known, 256, &gate)?;
    assert!(rt; gate.stores.load(Ordering::SeqCst) == cores as u64);
    Ok(())
}

/// All cores meet in the gate at their turns 0, 1 and 2, so each has a thread and the lock is free there; at turn 1 each hands in a
/// store, which it has come to before the gate.
#[test]
fn all_cores_meet_in_the_gate(rt: HostRuntime) -> Result<(), Fail> {
    meet::<PlainStore, HostRuntime>(&rt, rt.alloc(), WORDS_OF_TWO, 2)?;
    meet::<PlainStore, HostRuntime>(&rt, rt.alloc(), WORDS_OF_EIGHT, 8)?;
    meet::<PlainStore, HostRuntime>(&rt, rt.alloc(), WORDS_OF_SIXTEEN, 16)?;
    meet::<CachedBus, HostRuntime>(&rt, rt.alloc(), WORDS_OF_TWO, 2)?;
    meet::<CachedBus, HostRuntime>(&rt, rt.alloc(), WORDS_OF_EIGHT, 8)?;
    meet::<CachedBus, HostRuntime>(&rt, rt.alloc(), WORDS_OF_SIXTEEN, 16)
}

/// A core has made one of so many first entries.
fn is_among_the_first<S: EpochStore>(book: &Book<S>, count: u32, core: u32) -> bool {
    for entry in book.history().iter().take(count as usize) {
        if entry.by == core {
            return true;
        }
    }
    false
}

/// Each of so many cores has made one of as many first entries.
fn begin_in_turn<R: Abort + Threads + Wait + Sync>(
    rt: &R,
    alloc: Global,
    text: &str,
    cores: u32,
) -> Result<(), Fail> {
    let image = image_of(alloc, text.as_bytes())?;
    let gate = Late {
        counted: AtomicU64::new(0),
    };
    match run::<PlainStore, Late, R>(rt, alloc, &image, cores, 256, &gate) {
        Ok(whole) => {
            for core in 0..cores {
                assert!(rt; is_among_the_first(&whole.book, cores, core));
            }
            Ok(())
        }
        Err(_) => Err("it is halted".into()),
    }
}

/// No core has its second turn before each has had its first, though all but one are late: the book is free only when all have
/// drawn a ticket.
#[test]
fn each_core_begins_in_the_first_round(rt: HostRuntime) -> Result<(), Fail> {
    begin_in_turn(&rt, rt.alloc(), WORDS_OF_TWO, 2)?;
    begin_in_turn(&rt, rt.alloc(), SUM_OF_FOUR, 4)?;
    begin_in_turn(&rt, rt.alloc(), WORDS_OF_EIGHT, 8)?;
    begin_in_turn(&rt, rt.alloc(), WORDS_OF_SIXTEEN, 16)
}

/// A gate may hold cores back until another has had a turn: the book is free then after a while.
#[test]
fn a_core_that_waits_for_a_turn_of_another_is_not_waited_for(rt: HostRuntime) -> Result<(), Fail> {
    let gate = After {
        turns: AtomicU64::new(0),
    };
    let known = Known {
        text: WORDS_OF_TWO,
        cores: 2,
        end: End::Done(2),
        words: "0 1",
    };
    ends::<PlainStore, After, HostRuntime>(&rt, rt.alloc(), &known, 64, &gate)
}
