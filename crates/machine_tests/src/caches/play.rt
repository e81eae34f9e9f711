//! Calls of a bus, one after the other, each with what it answers or shows, as a line of words. `|` stands between two calls.
//!
//! | Call | Says |
//! |---|---|
//! | `begin 0 1` | core 0 begins epoch 1 |
//! | `load 0 64 4 7 1` | core 0 loads the 4 bytes at 64, which are 7, and violates core 1; `straight_load` of a straight core |
//! | `store 0 64 4 7` | core 0 stores 7 to the 4 bytes at 64, and violates nobody; `straight_store` of a straight core |
//! | `load_waits 0 64 4 NoWay` | such a load waits, and why |
//! | `store_waits 0 64 4 7 OrbFull` | such a store waits, and why |
//! | `publish 0 1` | core 0 publishes, and violates core 1 |
//! | `leave 0`, `cancel 0` | the straight attempt of core 0 ends, or the one that isn't straight is given up |
//! | `line 0 64 SpS r f` | core 0's copy of the line at 64 is in this state, loaded, with these modified bytes |
//! | `orb 0 64 80` | core 0's buffer has these lines, in this order |
//! | `byte 64 7` | the committed byte at 64 is 7 |
//! | `store_costs 0 64 1 0 2` | a store of core 0 at 64 would be 1 miss, 0 upgrades and 2 lines written back; so of other accesses |
//! | `publish_costs 0 2` | the publish of core 0 would ask for 2 lines |

use crate::caches::checks::{is_listed, lies, may_begin, may_publish, runs};
use crate::caches::words::{mask_at, state};
use crate::words::{number, word};
use spec_bus::CachedBus;
use std::process::Abort;
use turn_costs::{Actions, PricedStore};
use violations::WaitCause::{NoWay, OrbBusy, OrbFull};
use violations::{CoreSet, EpochStore, Step, WaitCause};

/// Makes the calls of a row, and compares what they answer.
pub fn play(rt: &impl Abort, bus: &mut CachedBus, row: &str) {
    for call in row.split('|') {
        assert!(rt; is_played(bus, call), "{call} in {row}");
    }
}

/// Makes a call. Whether it may be made, and answers so.
fn is_played(bus: &mut CachedBus, call: &str) -> bool {
    match word(call, 0) {
        "begin" => is_begun(bus, call),
        "publish" => is_published(bus, call),
        "leave" => is_left(bus, call),
        "cancel" => is_cancelled(bus, call),
        "line" => is_line(bus, call),
        "orb" => is_orb(bus, call),
        "byte" => is_byte(bus, call),
        "publish_costs" => is_publish_foretold(bus, call),
        _ => is_cost_foretold(bus, call) || is_access(bus, call),
    }
}

/// The same of an access.
fn is_access(bus: &mut CachedBus, call: &str) -> bool {
    match word(call, 0) {
        "load" => !would_wait(bus, call) && is_done(load(bus, call), number(call, 4), call),
        "store" => !would_wait(bus, call) && is_done(store(bus, call), 0, call),
        "load_waits" => would_wait(bus, call) && is_waiting(load(bus, call), word(call, 4)),
        "store_waits" => would_wait(bus, call) && is_waiting(store(bus, call), word(call, 5)),
        "straight_load" => is_straight_load(bus, call),
        "straight_store" => is_straight_store(bus, call),
        _ => false,
    }
}

/// Whether it is said before a speculative access that it waits.
fn would_wait(bus: &CachedBus, call: &str) -> bool {
    let (core, addr, width) = (number(call, 1), number(call, 2), number(call, 3));
    if core >= bus.cores() {
        return false;
    }
    if !lies(bus, addr, width) {
        return false;
    }
    if word(call, 0).starts_with("load") {
        bus.load_waits(core, addr, width)
    } else {
        bus.store_waits(core, addr, width)
    }
}

/// What an access would do that costs. None: the call tells of no such access.
fn access_actions(bus: &CachedBus, call: &str) -> Option<Actions> {
    let (core, addr) = (number(call, 1), number(call, 2));
    if core >= bus.cores() {
        return None;
    }
    match word(call, 0) {
        "load_costs" => Some(bus.load_actions(core, false, addr)),
        "store_costs" => Some(bus.store_actions(core, false, addr)),
        "straight_load_costs" => Some(bus.load_actions(core, true, addr)),
        "straight_store_costs" => Some(bus.store_actions(core, true, addr)),
        _ => None,
    }
}

/// Whether an access would do so much that costs.
fn is_cost_foretold(bus: &CachedBus, call: &str) -> bool {
    access_actions(bus, call)
        == Some(Actions {
            misses: number(call, 3),
            upgrades: number(call, 4),
            lines: 0,
            write_backs: number(call, 5),
            begins: 0,
            restarts: 0,
            commits: 0,
        })
}

/// Whether a publish would ask for so many lines.
fn is_publish_foretold(bus: &CachedBus, call: &str) -> bool {
    let core = number(call, 1);
    if core >= bus.cores() {
        return false;
    }
    bus.publish_lines(core) == number(call, 2)
}

/// Whether these are the cores that a call names from a place on, and no others.
fn are(hurt: CoreSet, call: &str, from: usize) -> bool {
    let mut count = 0usize;
    for place in from..from.saturating_add(16) {
        if !word(call, place).is_empty() {
            if !hurt.has(number(call, place)) {
                return false;
            }
            count = count.wrapping_add(1);
        }
    }
    hurt.len() == count
}

fn is_begun(bus: &mut CachedBus, call: &str) -> bool {
    let (core, epoch) = (number(call, 1), number(call, 2));
    if !may_begin(bus, core, epoch) {
        return false;
    }
    bus.begin(core, epoch);
    true
}

fn is_published(bus: &mut CachedBus, call: &str) -> bool {
    let core = number(call, 1);
    if !may_publish(bus, core) {
        return false;
    }
    are(bus.publish(core), call, 2)
}

fn is_left(bus: &mut CachedBus, call: &str) -> bool {
    let core = number(call, 1);
    if !runs(bus, core, true) {
        return false;
    }
    bus.leave(core);
    true
}

fn is_cancelled(bus: &mut CachedBus, call: &str) -> bool {
    let core = number(call, 1);
    if !runs(bus, core, false) {
        return false;
    }
    bus.cancel(core);
    true
}

/// Whether the copy of a line is so.
fn is_line(bus: &CachedBus, call: &str) -> bool {
    let core = number(call, 1);
    if core >= bus.cores() {
        return false;
    }
    let line = bus.line_at(core, number(call, 2));
    Some(line.state) == state(word(call, 3))
        && line.loaded == (word(call, 4) == "r")
        && Some(line.bytes) == mask_at(call, 5)
}

/// Whether a buffer has these lines.
fn is_orb(bus: &CachedBus, call: &str) -> bool {
    let core = number(call, 1);
    if core >= bus.cores() {
        return false;
    }
    let orb = bus.orb_at(core);
    let mut count = 0usize;
    for i in 0..9 {
        if orb.at(i).unwrap_or(u32::MAX) != number(call, i + 2) {
            return false;
        }
        if let Some(line) = orb.at(i) {
            if !is_listed(bus, core, line) {
                return false;
            }
            count = count.wrapping_add(1);
        }
    }
    orb.len() == count
}

/// Whether a committed byte is so.
fn is_byte(bus: &CachedBus, call: &str) -> bool {
    let addr = number(call, 1);
    if addr >= bus.size() {
        return false;
    }
    u32::from(bus.committed_byte(addr)) == number(call, 2)
}

/// What a load answers. None: the core may not make it.
fn load(bus: &mut CachedBus, call: &str) -> Option<Step> {
    let (core, addr, width) = (number(call, 1), number(call, 2), number(call, 3));
    if !runs(bus, core, false) {
        return None;
    }
    if !lies(bus, addr, width) {
        return None;
    }
    Some(bus.load(core, addr, width))
}

/// What a store answers. None: the core may not make it.
fn store(bus: &mut CachedBus, call: &str) -> Option<Step> {
    let (core, addr, width) = (number(call, 1), number(call, 2), number(call, 3));
    if !runs(bus, core, false) {
        return None;
    }
    if !lies(bus, addr, width) {
        return None;
    }
    Some(bus.store(core, addr, width, number(call, 4)))
}

/// Whether an access was done, gave this value, and violated the cores that the call names.
fn is_done(step: Option<Step>, want: u32, call: &str) -> bool {
    match step {
        Some(Step::Done { value, hurt }) => value == want && are(hurt, call, 5),
        _ => false,
    }
}

/// Whether an access waits, for a cause of this name.
fn is_waiting(step: Option<Step>, name: &str) -> bool {
    match step {
        Some(Step::Wait(cause)) => Some(cause) == cause_of(name),
        _ => false,
    }
}

fn cause_of(name: &str) -> Option<WaitCause> {
    match name {
        "NoWay" => Some(NoWay),
        "OrbFull" => Some(OrbFull),
        "OrbBusy" => Some(OrbBusy),
        _ => None,
    }
}

fn is_straight_load(bus: &mut CachedBus, call: &str) -> bool {
    let (core, addr, width) = (number(call, 1), number(call, 2), number(call, 3));
    if !runs(bus, core, true) {
        return false;
    }
    if !lies(bus, addr, width) {
        return false;
    }
    let (loaded, hurt) = bus.straight_load(core, addr, width);
    loaded == number(call, 4) && are(hurt, call, 5)
}

fn is_straight_store(bus: &mut CachedBus, call: &str) -> bool {
    let (core, addr, width) = (number(call, 1), number(call, 2), number(call, 3));
    if !runs(bus, core, true) {
        return false;
    }
    if !lies(bus, addr, width) {
        return false;
    }
    are(
        bus.straight_store(core, addr, width, number(call, 4)),
        call,
        5,
    )
}
