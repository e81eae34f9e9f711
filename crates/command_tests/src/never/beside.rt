//! Whether epochs that cores can run beside each other conflict, also those past the loop's end.

use crate::never::words::{image_in, number_in};
use crate::words::{cell, is_row};
use dependences::{CacheConflict, conflict_over_caches, conflicts_over_bytes};
use rv32_exec::{Image, NoMemory};
use std::alloc::Global;
use std::process::Abort;
use std::test::Fail;

/// Loops, and the least number of cores, up to 8, on which two epochs of it conflict over bytes, and over lines of the caches. The
/// values of the first six are those of an independent program; the others are worked out by hand.
const ROWS: &str = "
# Four counters in turn.
size 256; epochs 16; limit 200; code 93753500370600001306060493952500b385c50003a605009306000013074000131515003345d50093861600e39ae6fe1305160023a0a50067800000 | 5 | 2
# The same, 64 bytes apart.
size 256; epochs 16; limit 200; code 93753500370600001306060493954500b385c50003a605009306000013074000131515003345d50093861600e39ae6fe1305160023a0a50067800000 | 5 | 5
# In lines of 32 bytes.
version 2; size 131072; epochs 4; limit 100; code 370302009312450033035300832303f0b383a300232073f067800000; at 0001ff10 0a | - | 2
# Each epoch loads a word and stores in the one before it.
size 256; epochs 7; limit 100; code 9312250003a3420423a0620467800000 | - | 2
# A word for each epoch, and the greatest of four.
size 128; epochs 12; limit 100; code 9377350093060007939727001315250013070004b387d7003307a70083a60700032707006374d7001387060023a0e70067800000; at 00000040 03000000080000000200000007000000; at 00000050 09000000010000000b00000004000000; at 00000060 05000000060000000a00000000000000 | 5 | 2
# Epochs past the exit that store and load a word, and none that commits stores it.
size 256; epochs 3; limit 100; exit; code 9302f5ff639402002320a0041303e5ff63140300832300041305100067800000 | - | 3
# lw x5, 64(x0); sw x5, 64(x0); addi x10, x0, 1; jalr x0, 0(x1): epoch 0 exits, and the next one reads what it stores.
size 256; epochs 16; limit 100; exit; code 83220004232050041305100067800000 | 2 | 2
# sw x10, 64(x0); lw x5, 64(x0); addi x10, x0, 1; jalr x0, 0(x1): epoch 0 exits, and each reads what it stores itself.
size 256; epochs 16; limit 100; exit; code 2320a004832200041305100067800000 | - | -
# Epoch 0 stores a word and exits, and of those past it epoch 2 loads that word.
size 256; epochs 16; limit 100; exit; code 9302e5ff639402000323000463160500232000041305100067800000 | 3 | 3
# The same, but that the loop has two epochs.
size 256; epochs 2; limit 100; exit; code 9302e5ff639402000323000463160500232000041305100067800000 | - | -
# lw x5, 64(x0); sw x5, 64(x0); a word that is no instruction: epoch 0 faults.
size 256; epochs 16; limit 100; code 832200042320500400000000 | 2 | 2
";

/// Whether it conflicts over bytes on so many cores. Where memory is refused it says so, and the next call is as if nothing had
/// been.
fn over_bytes(alloc: Global, image: &Image, cores: u32) -> Result<bool, NoMemory> {
    match conflicts_over_bytes(alloc, image, cores) {
        Ok(found) => Ok(found),
        Err(NoMemory) => conflicts_over_bytes(alloc, image, cores),
    }
}

/// What it conflicts in over caches.
fn over_caches(
    alloc: Global,
    image: &Image,
    cores: u32,
) -> Result<Option<CacheConflict>, NoMemory> {
    match conflict_over_caches(alloc, image, cores) {
        Ok(found) => Ok(found),
        Err(NoMemory) => conflict_over_caches(alloc, image, cores),
    }
}

/// Whether so many cores are no fewer than the least.
fn is_reached(least: Option<u32>, cores: u32) -> bool {
    match least {
        Some(number) => number <= cores,
        None => false,
    }
}

/// Whether a row's loop conflicts on so many cores where the row says.
fn is_beside(alloc: Global, image: &Image, row: &str, cores: u32) -> Result<bool, NoMemory> {
    let in_bytes = over_bytes(alloc, image, cores)?;
    let found = over_caches(alloc, image, cores)?;
    let is_line = matches!(found, Some(CacheConflict::Line { .. }));
    Ok(
        in_bytes == is_reached(number_in(row, 1), cores)
            && is_line == found.is_some()
            && is_line == is_reached(number_in(row, 2), cores),
    )
}

/// On each number of cores a row's loop conflicts or not.
fn are_beside(rt: &impl Abort, alloc: Global, row: &str) -> Result<(), Fail> {
    let image = image_in(alloc, cell(row, 0))?;
    for cores in 0..9 {
        assert!(rt; is_beside(alloc, &image, row, cores)?, "{cores} {row}");
    }
    Ok(())
}

#[test]
fn conflicts_begin_with_so_many_cores(rt: HostRuntime) -> Result<(), Fail> {
    for row in ROWS.split('\n') {
        if is_row(row) {
            are_beside(&rt, rt.alloc(), row)?;
        }
    }
    Ok(())
}

/// Loops that load nothing, and the least number of cores, up to 8, on which a buffer of 4 lines is too small for the shared ones, worked
/// out by hand.
const STORES: &str = "
# sw x0, 64(x0) and so on, each 16 bytes further: each epoch stores in the same four lines.
size 4096; epochs 8; limit 100; code 2320000423280004232000062328000667800000 | -
# In the same five.
size 4096; epochs 8; limit 100; code 232000042328000423200006232800062320000867800000 | 2
# slli x6, x10, 7; sw x0, 64(x6) and so on: in five of its own.
size 4096; epochs 8; limit 100; code 13137500232003042328030423200306232803062320030867800000 | -
# Epoch 2 stores in five, and epoch 0 in one of these, which alone the buffer has to take.
size 4096; epochs 8; limit 100; code 9302e5ff639c02002320000423280004232000062328000623200008631405002322000467800000 | -
# A line of all epochs, and four of each its own: of the five in which it stores its buffer has to take one.
size 256; epochs 2; limit 100; code 2320a0049312650023a8a20423a0a20623a8a20623a0a20867800000 | -
# Five lines of all epochs, and a buffer takes four.
size 256; epochs 2; limit 100; code 2320a0042328a0042320a0062328a0062320a00867800000 | 2
# Four lines of all epochs, and one of each its own.
size 256; epochs 2; limit 100; code 2320a0042328a0042320a0062328a0069312650023a0a20867800000 | -
# Epoch 1 stores in a line of epoch 0, and in four of epoch 2.
size 256; epochs 3; limit 100; code 13332500630403002320a004630a05002328a0042320a0062328a0062320a00867800000 | 2
# Epoch 0 stores in five lines, three of epoch 1 and two of epoch 2: no earlier one touches them.
size 256; epochs 3; limit 100; code 13332500630803002320a0042328a0042320a0069303f5ff638603002328a0062320a00867800000 | -
";

/// Whether a buffer is too small for a row's loop on so many cores where the row says.
fn is_too_small(alloc: Global, image: &Image, row: &str, cores: u32) -> Result<bool, NoMemory> {
    let found = over_caches(alloc, image, cores)?;
    let is_buffer = matches!(found, Some(CacheConflict::Buffer { .. }));
    Ok(is_buffer == found.is_some() && is_buffer == is_reached(number_in(row, 1), cores))
}

/// On each number of cores a buffer is too small for a row's loop or not.
fn are_too_small(rt: &impl Abort, alloc: Global, row: &str) -> Result<(), Fail> {
    let image = image_in(alloc, cell(row, 0))?;
    for cores in 0..9 {
        assert!(rt; is_too_small(alloc, &image, row, cores)?, "{cores} {row}");
    }
    Ok(())
}

#[test]
fn buffers_are_too_small_with_so_many_cores(rt: HostRuntime) -> Result<(), Fail> {
    for row in STORES.split('\n') {
        if is_row(row) {
            are_too_small(&rt, rt.alloc(), row)?;
        }
    }
    Ok(())
}
