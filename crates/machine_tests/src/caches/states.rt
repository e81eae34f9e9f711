//! What events make of copies of lines: each cell of the tables, with answers that were worked out by hand from the protocol, for
//! lines of 16, 32 and 64 bytes.
//!
//! A copy in a row: its state, `r` where the line was loaded, and which of its bytes are modified; `*` are those of a mask. What an event
//! makes of it: the copy, and `back` where the line is written to memory, `enters` where it enters its owner's buffer, `hurt` where
//! the owner's epoch is violated.

ghost use Rattle.std.specs.Prelude.{◌≡◌, ◌<◌, ◌%◌, true};
ghost use Rattle.memory_bytes.specs.Bytes.{IsWidth};

use crate::caches::words::{has_word, marks, mask_at, state};
use crate::words::{cell, is_row, number, word};
use spec_states::LineState::I;
use spec_states::{
    LineState, Marks, Next, Order, after_other_load, after_other_store, after_own_load,
    after_own_store, after_publish, after_violation, settled,
};
use std::process::Abort;

/// Masks of some bytes of a line of 16 bytes, of the upper half of a line of 32, and of the upper half of a line of 64.
const MASKS: [u64; 6] = [
    0x0000_0001,
    0x0000_8ff0,
    0x0001_0000,
    0x8000_0000,
    0x0000_0001_0000_0000,
    0x8000_0000_0000_0000,
];

/// The tables below.
#[derive(Clone, Copy)]
enum Rows {
    Messages,
    OwnLoads,
    OwnStores,
    Violations,
    OwnPublishes,
    States,
    Bytes,
}

impl Rows {
    fn text(self) -> &'static str {
        match self {
            Rows::Messages => MESSAGES,
            Rows::OwnLoads => OWN_LOADS,
            Rows::OwnStores => OWN_STORES,
            Rows::Violations => VIOLATIONS,
            Rows::OwnPublishes => OWN_PUBLISHES,
            Rows::States => STATES,
            Rows::Bytes => BYTES,
        }
    }

    /// Whether a row holds with this mask.
    fn hold(self, rt: &impl Abort, line: &str, mask: u64) -> Option<bool> {
        match self {
            Rows::Messages => is_by_messages(rt, line, mask),
            Rows::OwnLoads => is_own_load(rt, line),
            Rows::OwnStores => is_own_store(rt, line),
            Rows::Violations => is_violation(line, mask),
            Rows::OwnPublishes => is_publish(line, mask),
            Rows::States => is_state(line),
            Rows::Bytes => is_byte(rt, line),
        }
    }
}

/// Each row of a table holds, with each mask.
fn are_rows(rt: &impl Abort, rows: Rows) {
    for line in rows.text().split('\n') {
        for mask in MASKS {
            assert!(rt;
                !is_row(line) || rows.hold(rt, line, mask) == Some(true),
                "{line}"
            );
        }
    }
}

/// The state and the marks of a copy.
fn copy(cell: &str, mask: u64) -> Option<(LineState, Marks)> {
    Some((state(word(cell, 0))?, marks(cell, 1, mask)?))
}

/// Whether an event has made this of a copy.
fn is(next: Next, cell: &str, mask: u64) -> bool {
    copy(cell, mask) == Some((next.state, next.marks))
        && next.write_back == has_word(cell, "back")
        && next.enters == has_word(cell, "enters")
        && next.violated == has_word(cell, "hurt")
}

const MESSAGES: &str = "
# before      | load               | store, owner earlier | store, owner later | publish
I . 0   | I . 0          | I . 0          | I . 0          | I . 0
S . 0   | S . 0          | I . 0          | I . 0          | I . 0
E . 0   | S . 0          | I . 0          | I . 0          | I . 0
M . 0   | S . 0 back     | I . 0 back     | I . 0 back     | I . 0 back
SpS r 0 | SpS r 0        | SpS r 0        | I . 0 hurt     | I . 0 hurt
SpS r * | SpS r *        | SpS r *        | I . 0 hurt     | I . 0 hurt
SpS . * | SpS . *        | SpS . *        | SpS . *        | SpS . *
SpE r 0 | SpS r 0        | SpS r 0        | I . 0 hurt     | I . 0 hurt
SpE r * | SpS r * enters | SpS r * enters | I . 0 hurt     | I . 0 hurt
SpE . * | SpS . * enters | SpS . * enters | SpS . * enters | SpS . * enters
# the marks of these states are read as none
S r *   | S . 0          | I . 0          | I . 0          | I . 0
M . *   | S . 0 back     | I . 0 back     | I . 0 back     | I . 0 back
";

/// Whether a row of `MESSAGES` holds with this mask.
fn is_by_messages(rt: &impl Abort, line: &str, mask: u64) -> Option<bool> {
    let (state, marks) = copy(cell(line, 0), mask)?;
    assert!(rt; !state.is_speculative() || marks.loaded || marks.bytes != 0);
    Some(
        is(after_other_load(state, marks), cell(line, 1), mask)
            && is(
                after_other_store(state, marks, Order::Earlier),
                cell(line, 2),
                mask,
            )
            && is(
                after_other_store(state, marks, Order::Later),
                cell(line, 3),
                mask,
            )
            && is(after_publish(state, marks), cell(line, 4), mask),
    )
}

#[test]
fn messages_of_other_cores(rt: HostRuntime) {
    are_rows(&rt, Rows::Messages);
}

fn is_access(offset: u32, width: u32) -> bool
    ensures { result ≡ true → (offset < 64) × IsWidth width × (offset % width ≡ 0) }
{
    match width {
        1 => offset < 64,
        2 => offset < 64 && offset % 2 == 0,
        4 => offset < 64 && offset % 4 == 0,
        _ => false,
    }
}

/// A speculative access of a copy's owner.
#[derive(Clone, Copy)]
struct Access {
    state: LineState,
    marks: Marks,
    offset: u32,
    width: u32,
    /// Where no other copy remains.
    alone: bool,
}

/// The access of a row of `OWN_LOADS` or `OWN_STORES`.
fn access_of(line: &str) -> Option<Access> {
    let (state, marks) = copy(cell(line, 0), 0)?;
    Some(Access {
        state,
        marks,
        offset: number(cell(line, 1), 0),
        width: number(cell(line, 1), 1),
        alone: cell(line, 2) == "alone",
    })
}

const OWN_LOADS: &str = "
# state, marks, offset, width
I . 0          | 4 4  | alone | SpE r 0
I . 0          | 31 1 | with  | SpS r 0
I r f0         | 4 4  | alone | SpE r 0
S . 0          | 4 4  | alone | SpS r 0
S . f0         | 4 4  | with  | SpS r 0
E . 0          | 0 1  | alone | SpE r 0
E . 0          | 28 4 | with  | SpE r 0
M . 0          | 7 1  | alone | SpE r 0 back
M . 0          | 30 2 | with  | SpE r 0 back
SpS r 0        | 4 4  | alone | SpS r 0
# all bytes in the own mask: no change
SpS . f0       | 4 4  | with  | SpS . f0
SpS . f0       | 7 1  | alone | SpS . f0
SpS . c000     | 14 2 | with  | SpS . c000
SpS . 80000000 | 31 1 | with  | SpS . 80000000
SpE . f0000000 | 28 4 | alone | SpE . f0000000
SpE . f0000    | 18 2 | with  | SpE . f0000
SpS . 100000000        | 32 1 | with  | SpS . 100000000
SpE . f000000000000000 | 60 4 | alone | SpE . f000000000000000
# one byte outside it
SpS . 70       | 4 4  | with  | SpS r 70
SpS . e0       | 4 4  | with  | SpS r e0
SpS . 1        | 0 2  | with  | SpS r 1
SpE . 2        | 0 2  | alone | SpE r 2
SpE . 1        | 0 4  | alone | SpE r 1
SpE . b0000000 | 28 4 | alone | SpE r b0000000
SpS . 7000000000000000 | 60 4 | with  | SpS r 7000000000000000
# the same offset in the other half of the line
SpE . 1                | 32 1 | alone | SpE r 1
SpS . 100000000        | 0 1  | with  | SpS r 100000000
SpE . 1        | 16 1 | alone | SpE r 1
SpE . 10000    | 0 1  | alone | SpE r 10000
SpS r f0       | 4 4  | with  | SpS r f0
SpE r 0        | 4 4  | alone | SpE r 0
SpE r f0       | 8 4  | alone | SpE r f0
";

/// Whether a row of `OWN_LOADS` holds.
fn is_own_load(rt: &impl Abort, line: &str) -> Option<bool> {
    let own = access_of(line)?;
    assert!(rt; is_access(own.offset, own.width));
    let next = after_own_load(own.state, own.marks, own.offset, own.width, own.alone);
    Some(is(next, cell(line, 3), 0))
}

#[test]
fn own_loads(rt: HostRuntime) {
    are_rows(&rt, Rows::OwnLoads);
}

const OWN_STORES: &str = "
# state, marks, offset, width
I . 0       | 4 4  | alone | SpE . f0
I . 0       | 4 4  | with  | SpS . f0 enters
I r f0      | 0 1  | alone | SpE . 1
I . 0       | 28 4 | with  | SpS . f0000000 enters
S . 0       | 15 1 | alone | SpE . 8000
S . 0       | 16 1 | with  | SpS . 10000 enters
E . 0       | 14 2 | alone | SpE . c000
E . 0       | 1 1  | with  | SpS . 2 enters
M . 0       | 16 4 | alone | SpE . f0000 back
M . 0       | 4 4  | with  | SpS . f0 back enters
SpS r 0     | 4 4  | alone | SpE r f0
SpS r 0     | 31 1 | with  | SpS r 80000000 enters
SpS . f0    | 4 4  | alone | SpS . f0
SpS . f0    | 7 1  | with  | SpS . f0
SpS . f0    | 8 4  | alone | SpS . ff0
SpS . f0    | 10 2 | with  | SpS . cf0
SpS . f0    | 26 2 | with  | SpS . c0000f0
SpS r f0    | 9 1  | with  | SpS r 2f0
SpE r 0     | 4 4  | alone | SpE r f0
SpE . 1     | 1 1  | with  | SpE . 3
SpE . 1     | 16 1 | alone | SpE . 10001
SpE . 10000 | 0 2  | alone | SpE . 10003
SpE r f0    | 7 1  | alone | SpE r f0
I . 0       | 32 1 | with  | SpS . 100000000 enters
E . 0       | 60 4 | alone | SpE . f000000000000000
SpS . f0    | 63 1 | with  | SpS . 80000000000000f0
SpE . 1     | 32 1 | alone | SpE . 100000001
";

/// Whether a row of `OWN_STORES` holds.
fn is_own_store(rt: &impl Abort, line: &str) -> Option<bool> {
    let own = access_of(line)?;
    assert!(rt; is_access(own.offset, own.width));
    let next = after_own_store(own.state, own.marks, own.offset, own.width, own.alone);
    Some(is(next, cell(line, 3), 0))
}

#[test]
fn own_stores(rt: HostRuntime) {
    are_rows(&rt, Rows::OwnStores);
}

const VIOLATIONS: &str = "
# before | after
I . 0   | I . 0
S . 0   | S . 0
E . 0   | E . 0
M . 0   | M . 0
M . *   | M . 0
SpS r 0 | S . 0
SpS . * | I . 0
SpS r * | I . 0
SpE r 0 | E . 0
SpE . * | I . 0
SpE r * | I . 0
";

/// Whether a row of `VIOLATIONS` holds with this mask.
fn is_violation(line: &str, mask: u64) -> Option<bool> {
    let (state, marks) = copy(cell(line, 0), mask)?;
    Some(is(after_violation(state, marks), cell(line, 1), mask))
}

#[test]
fn violations(rt: HostRuntime) {
    are_rows(&rt, Rows::Violations);
}

const OWN_PUBLISHES: &str = "
# before  | alone      | with another copy
I . 0   | I . 0 | I . 0
S . 0   | S . 0 | S . 0
E . 0   | E . 0 | E . 0
M . 0   | M . 0 | M . 0
M . *   | M . 0 | M . 0
SpS r 0 | S . 0 | S . 0
SpS . * | M . 0 | S . 0 back
SpS r * | M . 0 | S . 0 back
SpE r 0 | E . 0 | E . 0
SpE . * | M . 0 | M . 0
SpE r * | M . 0 | M . 0
";

/// Whether a row of `OWN_PUBLISHES` holds with this mask.
fn is_publish(line: &str, mask: u64) -> Option<bool> {
    let (state, marks) = copy(cell(line, 0), mask)?;
    Some(
        is(settled(state, marks, true), cell(line, 1), mask)
            && is(settled(state, marks, false), cell(line, 2), mask),
    )
}

#[test]
fn own_publishes(rt: HostRuntime) {
    are_rows(&rt, Rows::OwnPublishes);
}

const STATES: &str = "
I
S valid
E valid exclusive
M valid exclusive modified
SpS valid speculative
SpE valid exclusive speculative
";

/// Whether a row of `STATES` holds: the state is what it says, and nothing else.
fn is_state(line: &str) -> Option<bool> {
    let state = state(word(line, 0))?;
    Some(
        state.is_valid() == has_word(line, "valid")
            && state.is_exclusive() == has_word(line, "exclusive")
            && state.is_speculative() == has_word(line, "speculative")
            && state.is_modified() == has_word(line, "modified"),
    )
}

/// A mask, an offset, and `own` where the byte there is modified.
const BYTES: &str = "
000000f0 3
000000f0 4 own
000000f0 7 own
000000f0 8
00008000 14
00008000 15 own
00008000 31
00010000 0
00010000 16 own
80000000 31 own
80000000 15
80000000 63
100000000 32 own
100000000 0
8000000000000000 63 own
8000000000000000 31
";

/// Whether a row of `BYTES` holds.
fn is_byte(rt: &impl Abort, line: &str) -> Option<bool> {
    let (bytes, offset) = (mask_at(line, 0)?, number(line, 1));
    assert!(rt; offset < 64);
    let marks = Marks {
        loaded: true,
        bytes,
    };
    Some(marks.has(offset) == has_word(line, "own"))
}

#[test]
fn states_and_masks(rt: HostRuntime) {
    are_rows(&rt, Rows::States);
    are_rows(&rt, Rows::Bytes);
}

#[test]
fn a_word_is_loaded_after_a_store_of_its_first_byte(rt: HostRuntime) {
    let first = after_own_store(I, Marks::NONE, 0, 1, true);
    assert!(rt; is(first, "SpE . 1", 0));
    let then = after_own_load(first.state, first.marks, 0, 4, true);
    assert!(rt; is(then, "SpE r 1", 0));
}
