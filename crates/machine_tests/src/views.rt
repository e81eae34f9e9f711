//! What the caches hold after worked schedules: copies of lines, and buffers.

ghost use Rattle.std.specs.Prelude.{◌≡◌, ◌<◌};

use crate::images::{image_named, read_image};
use crate::rows::{IMAGES, numbers_of};
use crate::walk::drive_new;
use crate::words::{cell, is_row, number, word};
use homefree::{Book, TurnFault};
use rv32_exec::End;
use spec_bus::CachedBus;
use spec_states::LineState;
use std::alloc::Global;
use std::process::Abort;
use std::test::Fail;

/// One a line: a name, the image, how many cores there are, the schedule, and what the caches hold after it: of a core and a line
/// its state, whether it was speculatively loaded, and its speculatively modified bytes; or a core's buffer.
const VIEWS: &str = "
a later core stores to a line that the homefree one has loaded | LOAD_FIRST | 2 | 0 1 0 1 | 0 line 64 SpS loaded 0; 1 line 64 SpS - 15; 1 orb 64; 0 orb
the same line once both have committed | LOAD_FIRST | 2 | 0 1 0 1 0 1 | 0 line 64 I - 0; 1 line 64 M - 0; 1 orb
stores to two bytes of a line | BYTES | 2 | 0 1 0 1 | 0 line 64 SpS - 1; 1 line 64 SpS - 2; 0 orb 64; 1 orb 64
a full buffer of its own | FIVE_LOADS_FIRST | 2 | 0 0 0 0 0 0 1 1 1 1 1 1 | 1 orb 64 80 96 112
a full buffer of an earlier core | FIVE_STORES_FIRST | 2 | 0 0 0 0 0 0 1 1 1 1 1 1 | 0 orb 64 80 96 112
longer lines fill no buffer | FIVE_LOADS_IN_VERSION_2 | 2 | 0 0 0 0 0 0 1 1 1 1 1 1 | 1 orb 64 96 128
";

/// The state that has this name.
fn state_named(name: &str) -> Option<LineState> {
    for (known, state) in [
        ("I", LineState::I),
        ("S", LineState::S),
        ("E", LineState::E),
        ("M", LineState::M),
        ("SpS", LineState::SpS),
        ("SpE", LineState::SpE),
    ] {
        if known == name {
            return Some(state);
        }
    }
    None
}

/// The copy of a line is as the words say.
fn is_line(bus: &CachedBus, words: &str) -> bool {
    let core = number(words, 0);
    if core >= bus.cores() {
        return false;
    }
    let line = bus.line_at(core, number(words, 2));
    Some(line.state) == state_named(word(words, 3))
        && line.loaded == (word(words, 4) == "loaded")
        && line.bytes == u64::from(number(words, 5))
}

/// A core's buffer has just these lines, in this order.
fn is_buffer(bus: &CachedBus, words: &str) -> bool {
    let core = number(words, 0);
    if core >= bus.cores() {
        return false;
    }
    let orb = bus.orb_at(core);
    for place in 0..9 {
        if orb.at(place).unwrap_or(u32::MAX) != number(words, place.saturating_add(2)) {
            return false;
        }
    }
    true
}

/// The caches hold what a row says.
fn is_held(bus: &CachedBus, views: &str) -> bool {
    for words in views.split(';') {
        let is_so = if word(words, 1) == "orb" {
            is_buffer(bus, words)
        } else {
            is_line(bus, words)
        };
        if !is_so {
            return false;
        }
    }
    true
}

/// A row, by `drive`.
fn try_line(rt: &impl Abort, alloc: Global, line: &str) -> Result<(), Fail> {
    let image = read_image(alloc, image_named(IMAGES, cell(line, 1)))?;
    let schedule = numbers_of(alloc, cell(line, 3))?;
    let driven: (Book<CachedBus>, Result<Option<End>, TurnFault>) = drive_new(
        rt,
        alloc,
        &image,
        number(cell(line, 2), 0),
        64,
        schedule.as_slice(),
    )?;
    assert!(rt; driven.1.is_ok() && is_held(driven.0.store(), cell(line, 4)));
    Ok(())
}

#[test]
fn the_caches_hold_what_worked_schedules_leave(rt: HostRuntime) -> Result<(), Fail> {
    for line in VIEWS.split('\n') {
        if is_row(line) {
            try_line(&rt, rt.alloc(), line)?;
        }
    }
    Ok(())
}
