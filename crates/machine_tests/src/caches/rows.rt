//! Worked rows of calls, and what comes of them.

use crate::caches::machines::machine_of;
use crate::caches::play::play;
use crate::words::is_row;
use rv32_image::{Image, NoMemory, image_of};
use spec_bus::CachedBus;
use std::alloc::Global;
use std::process::Abort;
use std::test::Fail;
use violations::EpochStore;

/// Four epochs and 256 bytes of memory.
const ONE: &str = "size 256\nepochs 4\nlimit 100\ncode 83220004b382a2002320500467800000\n";

/// The same, with lines of 32 bytes and buffers of 8 lines.
const TWO: &str =
    "version 2\nsize 256\nepochs 4\nlimit 100\ncode 83220004b382a2002320500467800000\n";

/// Version 2 with 512 bytes of memory.
const TWO_OF_512: &str =
    "version 2\nsize 512\nepochs 4\nlimit 100\ncode 83220004b382a2002320500467800000\n";

/// Version 2 with 1,024 bytes of memory.
const TWO_OF_1024: &str =
    "version 2\nsize 1024\nepochs 4\nlimit 100\ncode 83220004b382a2002320500467800000\n";

/// Cores 0 and 1 begin epochs 0 and 1.
const BEGUN: &str = "begin 0 0 | begin 1 1";

/// On a fresh bus of two cores come these calls, and then those of a row.
fn run_row(
    rt: &impl Abort,
    alloc: Global,
    image: &Image,
    first: &str,
    row: &str,
) -> Result<(), NoMemory> {
    assert!(rt; image.version().limits().most_cores >= 2);
    let mut bus = CachedBus::fresh(alloc, image, 2)?;
    play(rt, &mut bus, first);
    play(rt, &mut bus, row);
    Ok(())
}

/// The same for each row of a table.
fn run(rt: &impl Abort, alloc: Global, image: &str, first: &str, rows: &str) -> Result<(), Fail> {
    let image = image_of(alloc, image.as_bytes())?;
    for row in rows.split('\n') {
        if is_row(row) {
            run_row(rt, alloc, &image, first, row)?;
        }
    }
    Ok(())
}

/// A row of which the words before the colon are a machine, on which its calls come.
fn run_on_machine(rt: &impl Abort, alloc: Global, image: &str, row: &str) -> Result<(), Fail> {
    let (words, calls) = row.split_once(':').ok_or("no colon")?;
    let image = image_of(alloc, image.as_bytes())?;
    let other = image.with_machine(machine_of(words)).ok_or("no machine")?;
    run_row(rt, alloc, &other, BEGUN, calls)?;
    Ok(())
}

const LOADS_AND_STORES: &str = "
load 0 64 4 0 | store 1 64 4 1 | line 0 64 SpS r 0 | line 1 64 SpS . f | orb 1 64
load 1 64 4 0 | store 0 64 4 7 1 | line 1 64 I . 0 | line 0 64 SpE . f
store 0 64 1 255 | store 1 65 1 255 | line 0 64 SpS . 1 | line 1 64 SpS . 2 | orb 0 64 | orb 1 64
load 1 128 4 0 | store 1 80 4 5 | load 1 64 4 0 | store 0 64 4 7 1 | line 1 128 E . 0 | line 1 80 I . 0 | orb 1 | byte 80 0
load 0 64 4 0 | load 0 128 4 0 | load_waits 0 192 4 NoWay
store 0 64 1 255 | line 0 64 SpE . 1 | load 0 64 4 255 | line 0 64 SpE r 1
";

#[test]
fn loads_and_stores(rt: HostRuntime) -> Result<(), Fail> {
    run(&rt, rt.alloc(), ONE, BEGUN, LOADS_AND_STORES)
}

const PUBLISH_AND_STRAIGHT_ACCESSES: &str = "
store 0 64 4 7 | publish 0 | line 0 64 M . 0 | byte 64 7
# The line is stored alone, and written back when the third line of its set comes: the lower way gives way, both times.
publish 0 | straight_store 0 64 4 5 | line 0 64 M . 0 | byte 64 5 | straight_load 0 128 4 0 | straight_load 0 192 4 0 | \
    line 0 64 I . 0 | byte 64 5 | straight_load 0 64 4 5 | line 0 64 E . 0 | line 0 128 E . 0 | line 0 192 I . 0
# The loop exits at epoch 0: epoch 1 is cancelled.
store 0 64 4 0 | store 1 64 4 1 | publish 0 | cancel 1 | leave 0 | line 0 64 S . 0 | line 1 64 I . 0 | byte 64 0
store 1 64 4 9 | store 1 80 4 9 | store 1 96 4 9 | store 1 112 4 9 | store 1 128 4 9 | publish 0 | \
    straight_load 0 64 4 0 | straight_load 0 80 4 0 | straight_load 0 96 4 0 | straight_load 0 112 4 0 | orb 1 64 80 96 112 | \
    straight_load 0 128 4 0 1 | line 1 64 I . 0 | line 0 64 S . 0 | line 0 128 E . 0
store 0 64 4 7 | store 0 80 4 7 | store 1 68 4 9 | load 1 80 4 0 | publish 0 1 | \
    line 0 64 S . 0 | line 0 80 M . 0 | line 1 64 I . 0 | line 1 80 I . 0
store 1 64 4 9 | publish 0 | straight_store 0 64 4 5 | byte 64 5 | cancel 1 | line 1 64 I . 0 | leave 0
";

#[test]
fn publish_and_straight_accesses(rt: HostRuntime) -> Result<(), Fail> {
    run(&rt, rt.alloc(), ONE, BEGUN, PUBLISH_AND_STRAIGHT_ACCESSES)
}

#[test]
fn a_longer_line_is_violated_as_a_whole(rt: HostRuntime) -> Result<(), Fail> {
    run(
        &rt,
        rt.alloc(),
        TWO,
        BEGUN,
        "load 1 80 4 0 | store 0 64 4 7 1",
    )?;
    run(
        &rt,
        rt.alloc(),
        ONE,
        BEGUN,
        "load 1 80 4 0 | store 0 64 4 7",
    )
}

/// The words at 64 and 80, and those at 96 and 112, are of one line.
const WORDS_OF_A_LINE: &str = "
load 0 64 4 0 | load 0 80 4 0 | load 0 96 4 0 | load 0 112 4 0 | load 0 128 4 0 | \
    store 1 64 4 1 | store 1 80 4 1 | store 1 96 4 1 | store 1 112 4 1 | store 1 128 4 1 | \
    orb 1 64 96 128 | line 1 64 SpS . f000f | line 1 128 SpS . f
";

/// A cache of 8 lines is full when its buffer is: there is no way for a ninth line. All 8 are published in their order.
const BUFFERS_OF_8_LINES: &str = "
load 0 256 4 0 | load 0 288 4 0 | load 0 320 4 0 | load 0 352 4 0 | load 0 384 4 0 | load 0 416 4 0 | load 0 448 4 0 | load 0 480 4 0 | \
    store 1 480 4 9 | store 1 448 4 9 | store 1 416 4 9 | store 1 384 4 9 | \
    store 1 352 4 9 | store 1 320 4 9 | store 1 288 4 9 | store 1 256 4 9 | \
    orb 1 480 448 416 384 352 320 288 256 | store_waits 1 64 4 9 NoWay | load_waits 1 64 4 NoWay | \
    store 0 256 4 7 | orb 0 256 | publish 0 | line 0 256 S . 0 | line 0 288 S . 0 | byte 256 7 | leave 0 | \
    publish 1 | line 1 256 M . 0 | line 1 480 M . 0 | line 0 256 I . 0 | orb 1 | byte 256 9
";

#[test]
fn buffers_of_8_lines_of_32_bytes(rt: HostRuntime) -> Result<(), Fail> {
    run(&rt, rt.alloc(), TWO, BEGUN, WORDS_OF_A_LINE)?;
    run(&rt, rt.alloc(), TWO_OF_512, BEGUN, BUFFERS_OF_8_LINES)
}

/// Lines 64, 80, 96 and 112, stored by both cores: each buffer is full.
const FULL: &str = "begin 0 0 | begin 1 1 | \
    store 1 64 4 9 | store 1 80 4 9 | store 1 96 4 9 | store 1 112 4 9 | \
    store 0 64 4 7 | store 0 80 4 7 | store 0 96 4 7 | store 0 112 4 7 | \
    orb 0 64 80 96 112 | orb 1 64 80 96 112";

const FULL_BUFFERS: &str = "
# The line would have to enter the full buffer of the earlier core; a full buffer of the caller's own comes first.
store 0 128 4 7 | load_waits 1 128 4 OrbBusy | store_waits 1 128 4 9 OrbFull | line 0 128 SpE . f
# A later core with a full buffer gives way, and the core that stores is alone: it enters nothing.
store 1 128 4 9 | store 0 128 4 7 1 | line 0 128 SpE . f | orb 0 64 80 96 112 | orb 1
store 1 128 4 9 | load 0 128 4 0 1 | line 0 128 SpE r 0 | line 1 64 I . 0
";

#[test]
fn full_buffers(rt: HostRuntime) -> Result<(), Fail> {
    run(&rt, rt.alloc(), ONE, FULL, FULL_BUFFERS)
}

/// Bytes of a line, sets, ways and lines of a buffer before the calls: victims, full sets, full buffers and a publish of each machine.
const OTHER_MACHINES: &str = "
# One line: each line takes the place of the other, but for a marked one.
16 1 1 1: load 0 64 4 0 | load_waits 0 80 4 NoWay | store_waits 0 80 4 7 NoWay | line 0 64 SpE r 0 | store 0 64 4 7 | line 0 64 SpE r f
16 1 1 1: store 0 64 4 7 | publish 0 | line 0 64 M . 0 | straight_load 0 80 4 0 | line 0 64 I . 0 | line 0 80 E . 0 | byte 64 7
16 1 1 1: load 1 64 4 0 | store 0 64 4 7 1 | line 1 64 I . 0 | orb 0
16 1 1 1: store 0 64 4 7 | store 1 68 4 9 | orb 0 64 | orb 1 64 | line 0 64 SpS . f | line 1 64 SpS . f0 | publish 0 | \
    line 0 64 S . 0 | line 1 64 SpS . f0 | leave 0 | publish 1 | byte 64 7 | byte 68 9 | line 0 64 I . 0 | line 1 64 M . 0
# Lines of 32 bytes: 64, 128, 192 and 256 are of set 0, 96 and 160 of set 1. A third line of a set comes beside two others.
32 2 3 2: load 0 64 4 0 | load 0 128 4 0 | load 0 192 4 0 | load_waits 0 256 4 NoWay | load 0 96 4 0 | load 0 80 4 0
32 2 3 2: store 0 64 4 7 | publish 0 | straight_load 0 128 4 0 | straight_load 0 192 4 0 | line 0 64 M . 0 | \
    straight_load 0 256 4 0 | line 0 64 I . 0 | byte 64 7 | line 0 128 E . 0 | straight_load 0 0 1 131 | line 0 256 I . 0
# The buffer has room for two.
32 2 3 2: store 1 64 4 9 | store 1 96 4 9 | store 1 128 4 9 | store 0 64 4 7 | store 0 96 4 7 | orb 0 64 96 | orb 1 64 96 | \
    store 0 128 4 7 1 | line 0 128 SpE . f | orb 0 64 96 | orb 1
32 2 3 2: store 0 64 4 7 | store 0 96 4 7 | store 0 128 4 7 | store 1 64 4 9 | store 1 96 4 9 | store_waits 1 128 4 9 OrbFull | \
    load_waits 1 128 4 OrbBusy | load 1 160 4 0 | publish 0 | line 0 64 S . 0 | line 0 128 M . 0 | byte 128 7
# Lines of 64 bytes: 0 and 512 are of set 0, 448 and 960 of set 7.
64 8 1 16: store 0 508 4 7 | line 0 448 SpE . f000000000000000 | load_waits 0 960 4 NoWay | load 0 512 4 0 | load 0 900 4 0
64 8 1 16: store 0 480 4 7 | publish 0 | line 0 448 M . 0 | straight_load 0 960 4 0 | line 0 448 I . 0 | line 0 960 E . 0 | byte 480 7
64 8 1 16: load 1 80 4 0 | store 0 124 4 7 1 | line 1 64 I . 0 | line 0 64 SpE . f000000000000000
64 8 1 16: store 1 96 4 9 | store 1 188 4 9 | store 0 64 4 7 | store 0 128 4 7 | orb 1 64 128 | line 1 64 SpS . f00000000 | publish 0 | \
    line 0 64 S . 0 | line 1 64 SpS . f00000000 | leave 0 | publish 1 | byte 64 7 | byte 96 9 | byte 188 9 | orb 1
";

#[test]
fn other_machines(rt: HostRuntime) -> Result<(), Fail> {
    for row in OTHER_MACHINES.split('\n') {
        if is_row(row) {
            run_on_machine(&rt, rt.alloc(), TWO_OF_1024, row)?;
        }
    }
    Ok(())
}

const ORDER_OF_ENTRY: &str = "
# The line that was loaded entered first: its publish violates core 1, and both lines are M.
store 0 64 4 7 | store 0 80 4 7 | load 1 80 4 0 | store 1 68 4 9 | orb 0 80 64 | publish 0 1 | \
    line 0 64 M . 0 | line 0 80 M . 0 | line 1 64 I . 0
# The other copy goes, and the line stays SpS and in its buffer until the publish.
store 0 64 4 7 | store 1 64 4 9 | cancel 1 | line 0 64 SpS . f | orb 0 64 | publish 0 | line 0 64 M . 0 | byte 64 7
# The store removes the only other copy of a line that was just loaded.
load 0 64 4 0 | load 1 64 4 0 | line 0 64 SpS r 0 | store 0 64 4 7 1 | line 0 64 SpE r f | orb 0
";

#[test]
fn order_of_entry_and_copies_that_go(rt: HostRuntime) -> Result<(), Fail> {
    run(&rt, rt.alloc(), ONE, BEGUN, ORDER_OF_ENTRY)
}

/// It passes too where any one of its allocations fails, as by `rt try --test --fail-alloc N`.
#[test]
fn want_of_memory_makes_no_bus(rt: HostRuntime) -> Result<(), Fail> {
    let Ok(image) = image_of(rt.alloc(), TWO.as_bytes()).or_else(|_| image_of(
        rt.alloc(),
        TWO.as_bytes(),
    )) else {
        return Err(Fail::from("an image"));
    };
    let cores = image.version().limits().most_cores;
    let mut bus = match CachedBus::fresh(rt.alloc(), &image, cores) {
        Ok(bus) => bus,
        Err(NoMemory) => CachedBus::fresh(rt.alloc(), &image, cores)?,
    };
    assert!(rt; bus.cores() == 16 && bus.size() == 256);
    play(&rt, &mut bus, "begin 15 0 | store 15 64 4 7 | publish 15");
    Ok(())
}
