//! Runs that are stopped before their loops are over.

use crate::gates::ShutAt;
use crate::look::{look, run, word_at};
use crate::programs::{SUM_OF_FOUR, SUM_OF_HUNDRED};
use crate::words::prints;
use core_threads::{Gate, Halted, LoopEnd, Open, RunFault, Shut, core_loop};
use homefree::Book;
use rv32_exec::{End, Image, image_of};
use spec_bus::CachedBus;
use std::alloc::Global;
use std::process::Abort;
use std::sync::Wait;
use std::test::Fail;
use std::thread::Threads;
use ticket_lock::TicketLock;
use violations::{EpochStore, PlainStore};

/// A run that is halted for this fault, with a legal history.
fn halted<S: EpochStore, G: Gate, R: Abort + Threads + Wait + Sync>(
    rt: &R,
    alloc: Global,
    image: &Image,
    cores: u32,
    room: u32,
    gate: &G,
    fault: RunFault,
) -> Result<Halted<S>, Fail> {
    match run::<S, G, R>(rt, alloc, image, cores, room, gate) {
        Ok(_) => Err("it is over".into()),
        Err(run) => {
            assert!(rt; run.fault == fault);
            look_at(rt, alloc, &run, image, cores)?;
            Ok(run)
        }
    }
}

/// Looks at the book of a run that was halted.
fn look_at<S: EpochStore>(
    rt: &impl Abort,
    alloc: Global,
    run: &Halted<S>,
    image: &Image,
    cores: u32,
) -> Result<(), &'static str> {
    let book = run.book.as_ref().ok_or("no book")?;
    assert!(rt; run.counted == book.totals());
    look(rt, alloc, book, image, cores)
}

/// How many entries the run has, how many epochs have committed, and the word at 64.
fn reached<S: EpochStore>(run: &Halted<S>) -> Option<(usize, u32, u32)> {
    let book = run.book.as_ref()?;
    Some((book.len(), book.homefree(), word_at(book, 64)?))
}

/// Whether a run ends with its loop over.
fn is_over<S: EpochStore, G: Gate, R: Abort + Threads + Wait + Sync>(
    rt: &R,
    alloc: Global,
    image: &Image,
    cores: u32,
    room: u32,
    gate: &G,
) -> bool {
    run::<S, G, R>(rt, alloc, image, cores, room, gate).is_ok()
}

/// The gate shuts for the one core at this turn. It makes an entry a turn, and four for each epoch.
fn stops_at<S: EpochStore, R: Abort + Threads + Wait + Sync>(
    rt: &R,
    alloc: Global,
    image: &Image,
    turn: u32,
) -> Result<(), Fail> {
    let gate = ShutAt {
        core: 0,
        turn: turn as u64,
    };
    let run: Halted<S> = halted(rt, alloc, image, 1, 512, &gate, RunFault::Shut)?;
    let homefree = turn / 4;
    let sum = homefree.wrapping_mul(homefree.wrapping_sub(1)) / 2;
    assert_eq!(rt; reached(&run), Some((turn as usize, homefree, sum)));
    Ok(())
}

/// The gate that shuts at any turn, and the one that shuts after the last.
fn stops_at_any<S: EpochStore, R: Abort + Threads + Wait + Sync>(
    rt: &R,
    alloc: Global,
    image: &Image,
) -> Result<(), Fail> {
    for turn in 0..16 {
        stops_at::<S, R>(rt, alloc, image, turn)?;
    }
    let late = ShutAt { core: 0, turn: 16 };
    assert!(rt; is_over::<S, ShutAt, R>(rt, alloc, image, 1, 64, &late));
    Ok(())
}

#[test]
fn a_shut_gate_stops_the_run_at_any_turn(rt: HostRuntime) -> Result<(), Fail> {
    let image = image_of(rt.alloc(), SUM_OF_FOUR.as_bytes())?;
    stops_at_any::<PlainStore, HostRuntime>(&rt, rt.alloc(), &image)?;
    stops_at_any::<CachedBus, HostRuntime>(&rt, rt.alloc(), &image)
}

/// A core may have had more turns than a byte counts.
#[test]
fn a_shut_gate_stops_the_run_at_a_late_turn(rt: HostRuntime) -> Result<(), Fail> {
    let image = image_of(rt.alloc(), SUM_OF_HUNDRED.as_bytes())?;
    for turn in 255..301 {
        stops_at::<PlainStore, HostRuntime>(&rt, rt.alloc(), &image, turn)?;
    }
    stops_at::<CachedBus, HostRuntime>(&rt, rt.alloc(), &image, 300)
}

/// A run whose gate shuts for core 1 of four is over, or is halted for that with a legal history.
fn shuts_or_is_over<S: EpochStore, R: Abort + Threads + Wait + Sync>(
    rt: &R,
    alloc: Global,
    image: &Image,
    turn: u64,
) -> Result<(), Fail> {
    let gate = ShutAt { core: 1, turn };
    match run::<S, ShutAt, R>(rt, alloc, image, 4, 4096, &gate) {
        Ok(run) => look(rt, alloc, &run.book, image, 4)?,
        Err(run) => {
            assert_eq!(rt; run.fault, RunFault::Shut);
            look_at(rt, alloc, &run, image, 4)?;
        }
    }
    Ok(())
}

#[test]
fn a_gate_that_shuts_one_core_of_four_leaves_a_legal_history(rt: HostRuntime) -> Result<(), Fail> {
    let image = image_of(rt.alloc(), SUM_OF_FOUR.as_bytes())?;
    for turn in 0..21 {
        shuts_or_is_over::<PlainStore, HostRuntime>(&rt, rt.alloc(), &image, turn)?;
        shuts_or_is_over::<CachedBus, HostRuntime>(&rt, rt.alloc(), &image, turn)?;
    }
    Ok(())
}

/// The one core has room for so many entries, and as many epochs have committed then.
fn is_full<S: EpochStore, R: Abort + Threads + Wait + Sync>(
    rt: &R,
    alloc: Global,
    image: &Image,
    room: u32,
    entries: usize,
    homefree: u32,
    sum: u32,
) -> Result<(), Fail> {
    let run: Halted<S> = halted(rt, alloc, image, 1, room, &Open, RunFault::HistoryFull)?;
    assert_eq!(rt; reached(&run), Some((entries, homefree, sum)));
    Ok(())
}

/// A turn asks for 16 free entries, and the loop of four sums makes 16 entries.
fn stops_when_full<S: EpochStore, R: Abort + Threads + Wait + Sync>(
    rt: &R,
    alloc: Global,
    image: &Image,
) -> Result<(), Fail> {
    is_full::<S, R>(rt, alloc, image, 16, 1, 0, 0)?;
    is_full::<S, R>(rt, alloc, image, 20, 5, 1, 0)?;
    is_full::<S, R>(rt, alloc, image, 30, 15, 3, 3)?;
    assert!(rt; is_over::<S, Open, R>(rt, alloc, image, 1, 31, &Open));
    Ok(())
}

#[test]
fn a_full_history_stops_the_run(rt: HostRuntime) -> Result<(), Fail> {
    let image = image_of(rt.alloc(), SUM_OF_FOUR.as_bytes())?;
    stops_when_full::<PlainStore, HostRuntime>(&rt, rt.alloc(), &image)?;
    stops_when_full::<CachedBus, HostRuntime>(&rt, rt.alloc(), &image)
}

/// The book that the core leaves when it finds no ticket.
fn leaves<S: EpochStore, R: Abort + Threads + Wait + Sync>(
    rt: &R,
    alloc: Global,
    image: &Image,
) -> Result<Book<S>, Fail> {
    assert!(rt; image.version().limits().most_cores > 0);
    let (book, shares) = Book::<S>::new(alloc, image, 1, 64)?;
    let (lock, pass) = TicketLock::open_at(alloc, book, 1, (1 << 63) - 5)?;
    let (pass, shares, end) = core_loop(rt, &lock, pass, shares, image, &Open);
    assert!(rt; end == LoopEnd::Spent);
    let (book, _pass) = lock.close(pass);
    assert!(rt; shares.counts() == book.totals());
    Ok(book)
}

/// Five tickets are left, and then the core finds none.
fn ends_at_the_last<S: EpochStore, R: Abort + Threads + Wait + Sync>(
    rt: &R,
    alloc: Global,
    image: &Image,
) -> Result<(), Fail> {
    let book = leaves::<S, R>(rt, alloc, image)?;
    assert!(rt; book.len() == 5 && book.homefree() == 1);
    look(rt, alloc, &book, image, 1)?;
    Ok(())
}

#[test]
fn the_last_ticket_ends_the_turns(rt: HostRuntime) -> Result<(), Fail> {
    let image = image_of(rt.alloc(), SUM_OF_FOUR.as_bytes())?;
    ends_at_the_last::<PlainStore, HostRuntime>(&rt, rt.alloc(), &image)?;
    ends_at_the_last::<CachedBus, HostRuntime>(&rt, rt.alloc(), &image)
}

/// A run with two cores is over, or memory or a thread was refused; what there is of it is a legal history.
fn is_over_or_refused<S: EpochStore, R: Abort + Threads + Wait + Sync>(
    rt: &R,
    alloc: Global,
    image: &Image,
) -> Result<(), &'static str> {
    match run::<S, Open, R>(rt, alloc, image, 2, 64, &Open) {
        Ok(run) => {
            assert!(rt; run.end == End::Done(4));
            look_again(rt, alloc, &run.book, image)
        }
        Err(run) => {
            assert!(rt; matches!(run.fault, RunFault::NoMemory | RunFault::NoThread));
            match &run.book {
                Some(book) => look(rt, alloc, book, image, 2),
                None => Ok(()),
            }
        }
    }
}

/// Looks at a book again where memory was refused at the first look.
fn look_again<S: EpochStore>(
    rt: &impl Abort,
    alloc: Global,
    book: &Book<S>,
    image: &Image,
) -> Result<(), &'static str> {
    if look(rt, alloc, book, image, 2).is_ok() {
        return Ok(());
    }
    look(rt, alloc, book, image, 2)
}

/// It passes too where any one of its allocations fails, as by `rt try --test --fail-alloc N`.
#[test]
fn want_of_memory_halts_a_run(rt: HostRuntime) -> Result<(), Fail> {
    let mut made = image_of(rt.alloc(), SUM_OF_FOUR.as_bytes());
    if made.is_err() {
        made = image_of(rt.alloc(), SUM_OF_FOUR.as_bytes());
    }
    let image = made?;
    is_over_or_refused::<PlainStore, HostRuntime>(&rt, rt.alloc(), &image)?;
    is_over_or_refused::<CachedBus, HostRuntime>(&rt, rt.alloc(), &image)?;
    Ok(())
}

/// The fault has this name, and prints it.
fn is_named(rt: &impl Abort, alloc: Global, fault: RunFault, name: &str) -> Result<(), Fail> {
    assert!(rt; fault.name() == name && prints(alloc, fault, name)?);
    Ok(())
}

#[test]
fn names_are_printed(rt: HostRuntime) -> Result<(), Fail> {
    let alloc = rt.alloc();
    is_named(&rt, alloc, RunFault::HistoryFull, "HistoryFull")?;
    is_named(&rt, alloc, RunFault::NoMemory, "NoMemory")?;
    is_named(&rt, alloc, RunFault::NoThread, "NoThread")?;
    is_named(&rt, alloc, RunFault::Spent, "Spent")?;
    is_named(&rt, alloc, RunFault::Shut, "Shut")?;
    assert!(rt; Shut.name() == "Shut" && prints(alloc, Shut, "Shut")?);
    Ok(())
}
