//! What a run gives back, looked at from outside.

use core_threads::{Finished, Gate, Halted, run_cores};
use homefree::Book;
use rv32_exec::{End, Image, run_in_order};
use spec_history::{Flat, audit};
use std::alloc::Global;
use std::process::Abort;
use std::sync::Wait;
use std::test::Fail;
use std::thread::Threads;
use violations::EpochStore;

/// A run of so many cores.
pub fn run<S: EpochStore, G: Gate, R: Abort + Threads + Wait + Sync>(
    rt: &R,
    alloc: Global,
    image: &Image,
    cores: u32,
    room: u32,
    gate: &G,
) -> Result<Finished<S>, Halted<S>> {
    let most = image.version().limits().most_cores;
    assert!(rt; 1 <= cores && cores <= most);
    assert!(rt; 16 <= room && room <= 1_048_576);
    run_cores(rt, alloc, image, cores, room, gate)
}

/// The word at an address of committed memory.
pub fn word_at<S: EpochStore>(book: &Book<S>, addr: u32) -> Option<u32> {
    let mut bytes = [0; 4];
    for (place, byte) in bytes.iter_mut().enumerate() {
        *byte = book.committed(addr.wrapping_add(place as u32))?;
    }
    Some(u32::from_le_bytes(bytes))
}

/// A book and a machine have the same committed memory of so many bytes.
fn is_same_memory<S: EpochStore>(book: &Book<S>, flat: &Flat, size: u32) -> bool {
    for addr in 0..size {
        if book.committed(addr) != flat.committed(addr) {
            return false;
        }
    }
    true
}

/// The history is legal, and the one-thread machine after it has the book's homefree epoch, end and committed memory.
pub fn look<S: EpochStore>(
    rt: &impl Abort,
    alloc: Global,
    book: &Book<S>,
    image: &Image,
    cores: u32,
) -> Result<(), &'static str> {
    match audit(alloc, image, cores, book.history()) {
        Ok(flat) => {
            assert!(rt; book.homefree() == flat.homefree() && book.ended() == flat.ended());
            assert!(rt; is_same_memory(book, &flat, image.size()));
            Ok(())
        }
        Err(_) => Err("no memory, or an entry is illegal"),
    }
}

/// Committed memory is these bytes.
fn holds<S: EpochStore>(book: &Book<S>, bytes: &[u8]) -> bool {
    let mut addr = 0_u32;
    for byte in bytes {
        if book.committed(addr) != Some(*byte) {
            return false;
        }
        addr = addr.wrapping_add(1);
    }
    true
}

/// The book's loop has ended so, as the sequential loop does, with its memory.
pub fn is_in_order<S: EpochStore>(
    rt: &impl Abort,
    alloc: Global,
    book: &Book<S>,
    image: &Image,
    end: End,
) -> Result<(), Fail> {
    let whole = run_in_order(alloc, image)?;
    assert!(rt; whole.end() == end && book.ended() == Some(end));
    assert!(rt; holds(book, whole.bytes()));
    Ok(())
}
