//! Worked rows of calls on other machines than those of the versions, on the caches and on the plain bus, with everything compared
//! after each.

use crate::buses::{
    image, is_any, is_same, machine_in, try_begin, try_cancel, try_leave, try_load, try_publish,
    try_store, try_straight_load, try_straight_store,
};
use crate::plain_bus::{Access, CORES, PlainBus, PlainStep};
use crate::words::{cell, is_row, number, word};
use spec_bus::CachedBus;
use std::alloc::Global;
use std::process::Abort;
use std::test::Fail;
use violations::{EpochStore, WaitCause};

/// Each line: bytes of a line, sets, ways and lines of a buffer; and calls on two cores, each with what it comes to before it. The memory
/// has 12 lines.
const ROWS: &str = "
# A full set of one line, which waits while it is marked, and is the victim once it is not
16 1 1 1 | done begin 0 0; done load 0 64 4; NoWay load 0 80 4; NoWay store 0 80 4 7; done store 0 64 4 7; done load 0 68 2
16 1 1 1 | done begin 0 0; done store 0 64 4 7; done publish 0; done straight_load 0 80 4; done straight_store 0 64 1 9; done straight_load 0 96 1; done leave 0
# Both cores store to the line: the buffers of one line are full, and each publish keeps the bytes of the other
16 1 1 1 | done begin 0 0; done begin 1 1; done store 0 64 4 7; done store 1 68 4 9; done publish 0; done leave 0; done publish 1; done leave 1
16 1 1 1 | done begin 0 0; done begin 1 1; done load 1 64 4; hurts store 0 64 4 7; done begin 1 1; done store 1 64 4 5; done load 0 65 1
# Three ways: the lines at 64, 128, 192 and 256 are of one set
32 2 3 2 | done begin 0 0; done load 0 64 4; done store 0 128 4 7; done load 0 192 4; NoWay load 0 256 4; done load 0 96 4; done load 0 80 4
32 2 3 2 | done begin 0 0; done store 0 64 4 7; done load 0 192 4; done publish 0; done straight_load 0 128 4; done straight_load 0 256 4; done straight_load 0 320 4; done straight_store 0 0 4 3
# The buffer of a later core is full, and it gives way; or that of the caller, or of an earlier core, which a later one waits for
32 2 3 2 | done begin 0 0; done begin 1 1; done store 1 64 4 9; done store 1 96 4 9; done store 1 128 4 9; done store 0 64 4 7; done store 0 96 4 7; hurts store 0 128 4 7
32 2 3 2 | done begin 0 0; done begin 1 1; done store 0 64 4 7; done store 0 96 4 7; done store 0 128 4 7; done store 1 68 4 9; done store 1 100 4 9; OrbFull store 1 132 4 9; OrbBusy load 1 128 4; done publish 0; done leave 0; done store 1 132 4 9; done publish 1
# One way: the lines at 64 and 576 are of one set; a byte above the 32nd of a line
64 8 1 16 | done begin 0 0; done store 0 124 4 7; NoWay load 0 576 4; done load 0 512 4; NoWay store 0 0 4 1; done publish 0; done straight_load 0 576 4; done straight_load 0 64 4
64 8 1 16 | done begin 0 0; done begin 1 1; done load 1 64 4; hurts store 0 127 1 7; done begin 1 1; done store 1 100 4 9; done store 0 96 4 5; done store 0 188 4 5; done load 1 191 1; hurts publish 0; done leave 0; done begin 1 1; done load 1 191 1
";

/// What a call that hurts these has come to.
fn word_of_hurt(hurt: &[bool; CORES]) -> &'static str {
    if is_any(hurt) { "hurts" } else { "done" }
}

/// What an access has come to.
fn word_of_step(step: &PlainStep) -> &'static str {
    match step {
        PlainStep::Done { hurt, .. } => word_of_hurt(hurt),
        PlainStep::Wait(WaitCause::NoWay) => "NoWay",
        PlainStep::Wait(WaitCause::OrbFull) => "OrbFull",
        PlainStep::Wait(WaitCause::OrbBusy) => "OrbBusy",
    }
}

/// An access of a row, on both. What it came to.
fn try_access(
    rt: &impl Abort,
    bus: &mut CachedBus,
    plain: &mut PlainBus,
    call: &str,
) -> &'static str {
    let access = Access {
        core: number(call, 2),
        addr: number(call, 3),
        width: number(call, 4),
    };
    let value = number(call, 5);
    match word(call, 1) {
        "load" => word_of_step(&try_load(rt, bus, plain, &access)),
        "store" => word_of_step(&try_store(rt, bus, plain, &access, value)),
        "straight_load" => {
            try_straight_load(rt, bus, plain, &access);
            "done"
        }
        "straight_store" => {
            try_straight_store(rt, bus, plain, &access, value);
            "done"
        }
        _ => "no call",
    }
}

/// A call of a row, on both. What it came to.
fn try_call(
    rt: &impl Abort,
    bus: &mut CachedBus,
    plain: &mut PlainBus,
    call: &str,
) -> &'static str {
    let core = number(call, 2);
    match word(call, 1) {
        "begin" => {
            try_begin(rt, bus, plain, core, number(call, 3));
            "done"
        }
        "publish" => word_of_hurt(&try_publish(rt, bus, plain, core)),
        "leave" => {
            try_leave(rt, bus, plain, core);
            "done"
        }
        "cancel" => {
            try_cancel(rt, bus, plain, core);
            "done"
        }
        _ => try_access(rt, bus, plain, call),
    }
}

/// The calls of a row.
fn try_row(rt: &impl Abort, alloc: Global, row: &str) -> Result<(), Fail> {
    let machine = machine_in(cell(row, 0));
    let image = image(alloc, machine, 12)?
        .with_machine(machine)
        .ok_or("no machine")?;
    assert!(rt; image.version().limits().most_cores >= 2);
    let mut bus = CachedBus::fresh(alloc, &image, 2)?;
    let mut plain = PlainBus::new(machine);
    plain.fill(image.bytes());
    for call in cell(row, 1).split(';') {
        let came_to = try_call(rt, &mut bus, &mut plain, call);
        assert!(rt; came_to == word(call, 0), "{call}: {came_to}");
        assert!(rt; is_same(alloc, &bus, &plain)?, "{call}");
    }
    Ok(())
}

#[test]
fn worked_rows_do_what_a_plain_bus_does_on_other_machines(rt: HostRuntime) -> Result<(), Fail> {
    for row in ROWS.split('\n') {
        if is_row(row) {
            try_row(&rt, rt.alloc(), row)?;
        }
    }
    Ok(())
}
