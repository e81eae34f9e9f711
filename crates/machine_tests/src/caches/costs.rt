//! What accesses and publishes cost, and the steps of a loop in order.
ghost use Rattle.std.specs.Prelude.{◌<◌, ◌≤◌};

use crate::caches::play::play;
use crate::words::{cell, is_row, number};
use rv32_image::{Image, image_of};
use spec_bus::CachedBus;
use std::alloc::Global;
use std::test::Fail;
use turn_costs::{Actions, Cost, Costs, MOST_COST, PricedStore, steps_in_order};
use violations::{EpochStore, PlainStore, Waiting};

/// Sixteen epochs and 512 bytes of memory, on caches of 4 sets of 2 ways, lines of 16 bytes and buffers of 4 lines.
const IMAGE: &str = "size 512\nepochs 16\nlimit 100\ncode 67800000\n";

/// Each line: calls on a fresh bus of two cores, of which the first runs epoch 0 and the second epoch 1. The costs were worked out by hand:
/// accesses by the state of the own copy, and what has to be written back before.
const ROWS: &str = "
# No copy: a miss, with nothing to write back
load_costs 0 64 1 0 0 | store_costs 0 64 1 0 0 | straight_load_costs 0 64 1 0 0 | straight_store_costs 0 64 1 0 0
# SpE: nothing, but for a straight store
load 0 64 4 0 | line 0 64 SpE r 0 | load_costs 0 64 0 0 0 | store_costs 0 64 0 0 0 | straight_load_costs 0 64 0 0 0 | \
    straight_store_costs 0 64 0 1 0 | load_costs 1 64 1 0 0
# SpS without own bytes: the others have to be told of a store
load 0 64 4 0 | load 1 64 4 0 | line 0 64 SpS r 0 | load_costs 0 64 0 0 0 | store_costs 0 64 0 1 0 | straight_store_costs 0 64 0 1 0
# SpS with own bytes: they were told, also of the line's other bytes
store 0 64 1 255 | store 1 65 1 255 | line 0 64 SpS . 1 | store_costs 0 64 0 0 0 | store_costs 0 72 0 0 0 | load_costs 0 64 0 0 0
# E: alone, but nobody was told that it speculates
publish 0 | straight_load 0 64 4 0 | line 0 64 E . 0 | load_costs 0 64 0 0 0 | store_costs 0 64 0 1 0 | straight_load_costs 0 64 0 0 0 | \
    straight_store_costs 0 64 0 0 0
# S
load 1 64 4 0 | publish 0 | straight_load 0 64 4 0 | line 0 64 S . 0 | load_costs 0 64 0 0 0 | store_costs 0 64 0 1 0 | \
    straight_load_costs 0 64 0 0 0 | straight_store_costs 0 64 0 1 0
# M: written back before its first mark, and for another core
publish 0 | straight_store 0 64 4 5 | line 0 64 M . 0 | straight_load_costs 0 64 0 0 0 | straight_store_costs 0 64 0 0 0 | \
    load_costs 0 64 0 0 1 | store_costs 0 64 0 1 1 | load_costs 1 64 1 0 1 | store_costs 1 64 1 0 1
publish 0 | straight_store 0 64 4 5 | leave 0 | begin 0 2 | load_costs 0 64 0 0 1 | load 0 64 4 5 | line 0 64 SpE r 0 | load_costs 0 64 0 0 0
# A miss in whose way an M line stands, and one of a line that another core has as M
publish 0 | straight_store 0 64 4 5 | straight_load_costs 0 128 1 0 0 | straight_store 0 128 4 6 | straight_load_costs 0 192 1 0 1 | \
    straight_load_costs 0 208 1 0 0
publish 0 | straight_store 0 192 4 7 | leave 0 | publish 1 | straight_store 1 64 4 5 | straight_store 1 128 4 6 | \
    straight_load_costs 1 192 1 0 2 | straight_store_costs 1 192 1 0 2 | straight_load_costs 1 208 1 0 0
# All ways of the set carry marks
load 0 64 4 0 | load 0 128 4 0 | load_costs 0 192 1 0 0 | load_waits 0 192 4 NoWay | store_waits 0 192 4 1 NoWay
# The lines of a publish: those of the buffer, and none that a core has alone
publish_costs 0 0 | store 0 64 4 7 | publish_costs 0 0 | load 1 64 4 0 | publish_costs 0 1 | load 0 80 4 0 | publish_costs 0 1
store 1 64 4 9 | store 1 80 4 9 | store 1 96 4 9 | store 1 112 4 9 | publish 0 | straight_load 0 64 4 0 | straight_load 0 80 4 0 | \
    straight_load 0 96 4 0 | publish_costs 1 3 | straight_load 0 112 4 0 | publish_costs 1 4 | publish_costs 0 0
";

#[test]
fn what_accesses_cost(rt: HostRuntime) -> Result<(), Fail> {
    let image = image_of(rt.alloc(), IMAGE.as_bytes())?;
    assert!(rt; image.version().limits().most_cores >= 2);
    for row in ROWS.split('\n') {
        if is_row(row) {
            let mut bus = CachedBus::fresh(rt.alloc(), &image, 2)?;
            play(&rt, &mut bus, "begin 0 0 | begin 1 1");
            play(&rt, &mut bus, row);
        }
    }
    Ok(())
}

/// A store of two cores or more, with the word at 64.
#[derive(Drop)]
struct Asked<'a, S: PricedStore> {
    store: &'a S,
    ghost cores: { 1 < (S.view store.now).shape.cores },
    ghost size: { 68 ≤ (S.view store.now).shape.size },
}

/// Whether an access of core 0 to the word at 64 would wait: a load, and a store.
fn waits<S: PricedStore>(asked: &Asked<S>) -> (bool, bool) {
    let store = asked.store;
    (store.load_waits(0, 64, 4), store.store_waits(0, 64, 4))
}

/// Whether nothing costs, and no access waits.
fn is_free<S: PricedStore>(asked: &Asked<S>) -> bool {
    let store = asked.store;
    let load = store.load_actions(0, false, 64);
    let stored = store.store_actions(1, true, 64);
    let lines = store.publish_lines(0);
    !load.needs_bus() && stored.messages() == 0 && lines == 0 && waits(asked) == (false, false)
}

/// Whether straight accesses of core 0 are misses, its publish asks for no line, and others wait.
fn costs_as_in_it<S: PricedStore>(asked: &Asked<S>) -> bool {
    let store = asked.store;
    let load = store.load_actions(0, true, 64);
    let stored = store.store_actions(0, true, 64);
    let lines = store.publish_lines(0);
    load.misses == 1 && stored.misses == 1 && lines == 0 && waits(asked) == (true, true)
}

/// Over a plain store nothing costs, and a store that waits costs what the one in it does.
#[test]
fn what_other_stores_cost(rt: HostRuntime) -> Result<(), Fail> {
    let image = image_of(rt.alloc(), IMAGE.as_bytes())?;
    assert!(rt; image.version().limits().most_cores >= 2 && image.size() >= 68);
    let plain = PlainStore::fresh(rt.alloc(), &image, 2)?;
    assert!(rt; is_free(&Asked { store: &plain }));
    let waiting: Waiting<CachedBus> = Waiting::fresh(rt.alloc(), &image, 2)?;
    assert!(rt; costs_as_in_it(&Asked { store: &waiting }));
    Ok(())
}

#[test]
fn what_actions_cost(rt: HostRuntime) -> Result<(), Fail> {
    assert!(rt; Cost::new(MOST_COST).is_some() && Cost::new(1_000_001).is_none());
    let costs = Costs::bus(Cost::new(7).ok_or("no cost")?);
    let actions = Actions {
        misses: 1,
        upgrades: 2,
        lines: 4,
        write_backs: 8,
        begins: 16,
        restarts: 32,
        commits: 64,
    };
    assert!(rt; actions.messages() == 15 && actions.needs_bus() && actions.come_in_order());
    assert!(rt; actions.memory_steps(&costs) == 21 && actions.handling_steps(&costs) == 812);
    assert!(rt; costs.hold.steps() == 0);
    Ok(())
}

/// Loops, whose lines stand between semicolons, and how many steps they take in order where nothing costs, where each miss and upgrade
/// costs 10, and where it costs 40: values of an independent program.
const LOOPS: &str = "
# Each epoch adds its number to one word: four instructions, and one miss in all.
size 256; epochs 4; limit 100; code 83220004b382a2002320500467800000 | 16 26 56
# It ends with a fault.
size 256; epochs 6; limit 100; code 832200046364550073001000131325002328030467800000; at 00000040 03000000 | 17 37 97
# It ends with an exit.
size 256; epochs 8; limit 100; code 9312250003a30208631883002320a00413051000678000001305000067800000; exit; reg 8 0000002a; at 00000080 0700000009000000150000000300000010000000; at 00000094 2a000000110000002a000000 | 31 61 151
size 256; epochs 14; limit 100; code 130715009307000493162500131727003387e700b386d7000327070083a606001305250013152500b387a7003307d70023a0e70067800000; at 00000040 00000000010000000000000000000000 | 196 236 356
";

/// The image whose lines stand between semicolons.
fn image_in(alloc: Global, lines: &str) -> Result<Image, Fail> {
    let mut text = String::new(alloc);
    for line in lines.split(';') {
        text.push_str(line.trim())?;
        text.push_str("\n")?;
    }
    Ok(image_of(alloc, text.as_bytes())?)
}

/// Whether a loop takes so many steps in order over caches, where each miss and upgrade costs so much, and so many over a plain store.
fn takes(alloc: Global, image: &Image, each: u32, caches: u32, plain: u32) -> Result<bool, Fail> {
    let costs = Costs::bus(Cost::new(each).ok_or("no cost")?);
    Ok(
        steps_in_order::<CachedBus>(alloc, image, &costs)? == u64::from(caches)
            && steps_in_order::<PlainStore>(alloc, image, &costs)? == u64::from(plain),
    )
}

/// Whether the loop of a row takes the steps of the row.
fn takes_as_said(alloc: Global, row: &str) -> Result<bool, Fail> {
    let image = image_in(alloc, cell(row, 0))?;
    let steps = cell(row, 1);
    let none = number(steps, 0);
    Ok(
        takes(alloc, &image, 0, none, none)?
            && takes(alloc, &image, 10, number(steps, 1), none)?
            && takes(alloc, &image, 40, number(steps, 2), none)?,
    )
}

#[test]
fn steps_of_loops_in_order(rt: HostRuntime) -> Result<(), Fail> {
    for row in LOOPS.split('\n') {
        if is_row(row) {
            assert!(rt; takes_as_said(rt.alloc(), row)?, "{row}");
        }
    }
    Ok(())
}
