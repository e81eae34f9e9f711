//! The calls of the cache of one core by hand, for lines of 16, 32 and 64 bytes.

ghost use Rattle.std.specs.Prelude.{◌≡◌, ◌≤◌, ℕ, true, IsTrue, slice_index};
ghost use Rattle.memory_bytes.specs.Bytes.{IsWidth};
ghost use Rattle.rv32_image.specs.Machine.{is_line_length};
ghost use Rattle.cache_lines.specs.Placed.{FitsLength};

use crate::caches::words::{index, marks, mask_at, state};
use crate::words::{cell, hex, is_row, number, word};
use cache_lines::{Cache, Line, WAYS};
use spec_states::LineState::{E, I, M, S, SpE, SpS};
use spec_states::{LONGEST_LINE, LineState, Marks};
use std::process::Abort;
use std::test::Fail;

const NONE: Marks = Marks::NONE;

/// Marks of a line that was not loaded, with these bytes modified.
const fn stored(bytes: u64) -> Marks {
    Marks {
        loaded: false,
        bytes,
    }
}

/// Marks of a line that was loaded, with these bytes modified.
const fn loaded(bytes: u64) -> Marks {
    Marks {
        loaded: true,
        bytes,
    }
}

const LOADED: Marks = Marks {
    loaded: true,
    bytes: 0,
};

/// Whether lines have so many bytes.
fn is_length(length: usize) -> bool
    ensures known { result ≡ true → IsTrue (is_line_length length) }
    ensures small { result ≡ true → length ≤ 64 }
{
    length == 16 || length == 32 || length == 64
}

/// Cells that count up from `from` to the line length, with 0 past it.
fn counted(from: u8, length: usize) -> [u8; LONGEST_LINE]
    requires { IsTrue (is_line_length length) }
    ensures { (x : ℕ) → length ≤ x → slice_index result x ≡ 0 }
{
    let mut cells = [0; LONGEST_LINE];
    for x in 0..length {
        cells[x] = from.wrapping_add(x as u8);
    }
    cells
}

/// A line for a cache that counts its cells.
fn counting_line(rt: &impl Abort, cache: &Cache, addr: u32, state: LineState, marks: Marks) -> Line
    ensures addr { result.addr ≡ addr }
    ensures fits { FitsLength cache.now.line_length result }
{
    let length = cache.line_length();
    assert!(rt;
        length == 64
            || length == 32 && marks.bytes < 0x1_0000_0000
            || length == 16 && marks.bytes < 0x1_0000
    );
    Line {
        addr,
        state,
        marks,
        cells: counted(0, length),
    }
}

/// Puts a line into a way, which no other way of its set has.
pub fn put(rt: &impl Abort, cache: &mut Cache, way: usize, line: (u32, LineState, Marks)) {
    let (addr, state, marks) = line;
    assert!(rt; way < cache.ways() && addr as usize % cache.line_length() == 0);
    let line = counting_line(rt, cache, addr, state, marks);
    match cache.find(addr) {
        Some(held) => {
            assert!(rt; held == way);
            cache.fill(way, line);
        }
        None => cache.fill(way, line),
    }
}

/// A cache of lines of `length` bytes with two lines in the set of `4 * length`: there in way 0, at `8 * length` in way 1.
fn pair(
    rt: &impl Abort,
    length: usize,
    first: (LineState, Marks),
    second: (LineState, Marks),
) -> Cache {
    assert!(rt; is_length(length));
    let mut cache = Cache::new(length);
    put(rt, &mut cache, 0, (4 * length as u32, first.0, first.1));
    put(rt, &mut cache, 1, (8 * length as u32, second.0, second.1));
    cache
}

/// Whether the line in this way of the set of `addr` has this state, these marks and these cells.
fn is_line(
    cache: &Cache,
    addr: u32,
    way: usize,
    state: LineState,
    marks: Marks,
    cells: [u8; LONGEST_LINE],
) -> bool {
    way < cache.ways()
        && *cache.line(addr, way)
            == Line {
                addr,
                state,
                marks,
                cells,
            }
}

/// The tables below.
#[derive(Clone, Copy)]
enum Rows {
    Victims,
    Numbers,
    Stores,
    Refreshes,
    RollBacks,
}

impl Rows {
    fn text(self) -> &'static str {
        match self {
            Rows::Victims => VICTIMS,
            Rows::Numbers => NUMBERS,
            Rows::Stores => STORES,
            Rows::Refreshes => REFRESHES,
            Rows::RollBacks => ROLL_BACKS,
        }
    }

    /// Whether a row holds, of lines of this length where it names none.
    fn hold(self, rt: &impl Abort, row: &str, length: usize) -> Option<bool> {
        match self {
            Rows::Victims => is_victim(rt, row, length),
            Rows::Numbers => is_number(rt, row),
            Rows::Stores => is_store(rt, row),
            Rows::Refreshes => is_refresh(rt, row),
            Rows::RollBacks => is_roll_back(rt, row, length),
        }
    }
}

/// Each row of a table holds, of lines of each length.
fn are_rows(rt: &impl Abort, rows: Rows) {
    for row in rows.text().split('\n') {
        for length in [16, 32, 64] {
            assert!(rt;
                !is_row(row) || rows.hold(rt, row, length) == Some(true),
                "{row}"
            );
        }
    }
}

const VICTIMS: &str = "
# way 0, way 1, the way that gives way
E I 1
I I 0
I E 0
SpS I 1
SpS S 1
M SpE 0
E E 0
SpS SpE -
";

/// The way that a word names, if it names one.
pub fn way(word: &str) -> Option<usize> {
    word.parse().ok()
}

/// Whether a row of `VICTIMS` holds.
fn is_victim(rt: &impl Abort, row: &str, length: usize) -> Option<bool> {
    let (first, second) = (state(word(row, 0))?, state(word(row, 1))?);
    assert!(rt; is_length(length));
    let unit = length as u32;
    let cache = pair(rt, length, (first, LOADED), (second, LOADED));
    let want = way(word(row, 2));
    Some(
        cache.victim(4 * unit) == want
            && cache.victim(12 * unit) == want
            && cache.victim(5 * unit) == Some(0),
    )
}

#[test]
fn victims(rt: HostRuntime) {
    are_rows(&rt, Rows::Victims);
}

/// Whether no line is found at an address, in whose set all ways are invalid.
fn is_empty_at(cache: &Cache, addr: u32) -> bool {
    for way in 0..cache.ways() {
        if cache.line(addr, way).state != I {
            return false;
        }
    }
    cache.find(addr).is_none()
}

/// Whether a new cache has lines of this length, and none.
fn is_new(length: usize) -> bool {
    if !is_length(length) {
        return false;
    }
    let cache = Cache::new(length);
    for addr in [0, 16, 32, 48, 64, 96, 128, 192] {
        if !is_empty_at(&cache, addr) {
            return false;
        }
    }
    cache.line_length() == length
}

#[test]
fn a_new_cache_is_empty(rt: HostRuntime) {
    assert!(rt; is_new(16));
    assert!(rt; is_new(32));
    assert!(rt; is_new(64));
}

/// Whether lines are found at these two addresses, in this way or in none.
fn are_found(cache: &Cache, first: (u32, Option<usize>), second: (u32, Option<usize>)) -> bool {
    cache.find(first.0) == first.1 && cache.find(second.0) == second.1
}

/// Whether lines are found at 4, 8 and 5 times the unit, and at no other address.
fn are_three_found(cache: &Cache, unit: u32) -> bool {
    if unit > 64 {
        return false;
    }
    are_found(cache, (4 * unit, Some(0)), (8 * unit, Some(1)))
        && are_found(cache, (5 * unit, Some(1)), (12 * unit, None))
        && are_found(cache, (0, None), (4 * unit + 4, None))
}

/// Lines of this length, which is the unit, are found by their addresses.
fn find_lines(rt: &impl Abort, length: usize, unit: u32) {
    assert!(rt; unit == 16 || unit == 32 || unit == 64);
    let mut cache = pair(rt, length, (S, NONE), (M, NONE));
    put(rt, &mut cache, 1, (5 * unit, E, NONE));
    assert!(rt; are_three_found(&cache, unit));
    // An invalid line takes the place of a copy, which is gone then.
    put(rt, &mut cache, 0, (4 * unit, I, NONE));
    assert!(rt; are_found(&cache, (4 * unit, None), (8 * unit, Some(1))));
    // A line of another address takes its place too.
    put(rt, &mut cache, 1, (12 * unit, E, NONE));
    assert!(rt; are_found(&cache, (8 * unit, None), (12 * unit, Some(1))));
}

#[test]
fn lines_are_found_by_their_addresses(rt: HostRuntime) {
    find_lines(&rt, 16, 16);
    find_lines(&rt, 32, 32);
    find_lines(&rt, 64, 64);
}

/// Whether the lines at two addresses, put into way 0 one after the other, are of one set: only the second is there then.
fn share_a_set(rt: &impl Abort, length: usize, first: u32, second: u32) -> bool {
    assert!(rt; is_length(length));
    let mut cache = Cache::new(length);
    put(rt, &mut cache, 0, (first, S, NONE));
    put(rt, &mut cache, 0, (second, S, NONE));
    assert!(rt; cache.find(second) == Some(0));
    cache.find(first).is_none()
}

#[test]
fn sets_go_by_the_line_length(rt: HostRuntime) {
    // Lines of 32 bytes at 64 and 128 stand in sets 2 and 0, lines of 64 bytes in sets 1 and 2, and lines of 16 bytes both in set 0.
    assert!(rt; share_a_set(&rt, 16, 64, 128));
    assert!(rt; !share_a_set(&rt, 32, 64, 128));
    assert!(rt; !share_a_set(&rt, 64, 64, 128));
    assert!(rt; share_a_set(&rt, 64, 64, 320));
}

const NUMBERS: &str = "
# offset, width, number
0 1 0
31 1 1f
6 2 706
30 2 1f1e
12 4 0f0e0d0c
28 4 1f1e1d1c
32 1 20
62 2 3f3e
63 1 3f
60 4 3f3e3d3c
";

/// Whether a row of `NUMBERS` holds, of a line of 64 bytes that counts its cells.
fn is_number(rt: &impl Abort, row: &str) -> Option<bool> {
    let (offset, width, want) = (number(row, 0), number(row, 1), hex(row, 2)?);
    assert!(rt;
        offset < 61 && width == 4 || offset < 63 && width == 2 || offset < 64 && width == 1
    );
    let line = counting_line(rt, &Cache::new(64), 64, S, NONE);
    Some(line.number_at(offset, width) == want)
}

#[test]
fn numbers_are_read_with_the_low_byte_first(rt: HostRuntime) -> Result<(), Fail> {
    are_rows(&rt, Rows::Numbers);
    let stored = Line {
        cells: with_bytes([0; LONGEST_LINE], 0, "ff").ok_or("a byte")?,
        ..Line::INVALID
    };
    assert!(rt; stored.number_at(0, 4) == 255);
    Ok(())
}

/// The cells, with these bytes from `offset` on.
fn with_bytes(cells: [u8; LONGEST_LINE], offset: usize, bytes: &str) -> Option<[u8; LONGEST_LINE]> {
    let mut with = cells;
    let mut x = offset;
    for byte in bytes.split_whitespace() {
        let cell = with.get_mut(x)?;
        *cell = u8::from_str_radix(byte, 16).ok()?;
        x = x.wrapping_add(1);
    }
    Some(with)
}

const STORES: &str = "
# length, offset, width, value | the bytes that change
16 7 1 123456ff | ff
16 4 2 1234abcd | cd ab
16 12 4 12345678 | 78 56 34 12
32 7 1 123456ff | ff
32 16 1 123456ff | ff
32 30 2 1234abcd | cd ab
32 12 4 12345678 | 78 56 34 12
32 28 4 12345678 | 78 56 34 12
64 32 1 123456ff | ff
64 62 2 1234abcd | cd ab
64 28 4 12345678 | 78 56 34 12
64 60 4 12345678 | 78 56 34 12
";

/// Whether a row of `STORES` holds.
fn is_store(rt: &impl Abort, row: &str) -> Option<bool> {
    let (length, offset) = (index(row, 0), number(row, 1));
    let (width, value) = (number(row, 2), hex(row, 3)?);
    assert!(rt; is_length(length));
    let addr = 4 * length as u32;
    let mut cache = pair(rt, length, (SpE, stored(0xf0)), (S, NONE));
    assert!(rt; offset < cache.line_length() as u32 && (width == 1 || width == 2 || width == 4));
    assert!(rt; offset % width == 0);
    cache.write_bytes(addr, 0, offset, width, value);
    let want = with_bytes(counted(0, length), offset as usize, cell(row, 1))?;
    Some(
        is_line(&cache, addr, 0, SpE, stored(0xf0), want)
            && is_line(&cache, 2 * addr, 1, S, NONE, counted(0, length)),
    )
}

#[test]
fn stores_write_the_low_bytes_first(rt: HostRuntime) {
    are_rows(&rt, Rows::Stores);
}

const REFRESHES: &str = "
# length, the mask, its first byte, and how many bytes it has
16 0 0 0
16 40 6 1
16 60 5 2
16 8000 15 1
16 ffff 0 16
32 40 6 1
32 10000 16 1
32 c0000000 30 2
32 ffffffff 0 32
64 80000000 31 1
64 100000000 32 1
64 c000000000000000 62 2
64 ffffffffffffffff 0 64
";

/// Cells of a line for a cache that count up from 100, but for so many from `first` on, which count up from `first`.
fn counted_but_for(cache: &Cache, first: usize, count: usize) -> [u8; LONGEST_LINE] {
    let mut cells = counted(100, cache.line_length());
    for x in 0..LONGEST_LINE {
        if first <= x && x - first < count {
            cells[x] = x as u8;
        }
    }
    cells
}

/// Whether a row of `REFRESHES` holds: the bytes of the mask stay, among those that are given from 100 on.
fn is_refresh(rt: &impl Abort, row: &str) -> Option<bool> {
    let (length, mask) = (index(row, 0), mask_at(row, 1)?);
    let (first, count) = (index(row, 2), index(row, 3));
    assert!(rt; is_length(length));
    let addr = 8 * length as u32;
    let cache = pair(rt, length, (S, NONE), (SpS, stored(mask)));
    assert!(rt; cache.ways() == WAYS);
    let refreshed = cache
        .line(addr, 1)
        .refreshed(&counted(100, cache.line_length()));
    Some(
        refreshed
            == Line {
                addr,
                state: SpS,
                marks: stored(mask),
                cells: counted_but_for(&cache, first, count),
            },
    )
}

#[test]
fn a_refresh_spares_own_bytes(rt: HostRuntime) {
    are_rows(&rt, Rows::Refreshes);
}

/// The states of the two ways of the set of `addr`, and whether either has marks.
fn states(rt: &impl Abort, cache: &Cache, addr: u32) -> ([LineState; 2], bool) {
    assert!(rt; cache.ways() == WAYS);
    let (first, second) = (cache.line(addr, 0), cache.line(addr, 1));
    (
        [first.state, second.state],
        first.marks != NONE || second.marks != NONE,
    )
}

const ROLL_BACKS: &str = "
# before | after a rollback | after a publish where no other core holds the line
I . 0 | I | I
S . 0 | S | S
E . 0 | E | E
M . 0 | M | M
SpS r 0 | S | S
SpS . 80 | I | M
SpE r 0 | E | E
SpE r 1 | I | M
";

/// A cache with lines of this state and these marks: one beside a line that was loaded, and one alone in its set.
fn twice(rt: &impl Abort, length: usize, state: LineState, marks: Marks) -> Cache {
    assert!(rt; is_length(length));
    let mut cache = pair(rt, length, (state, marks), (SpE, LOADED));
    put(rt, &mut cache, 1, (7 * length as u32, state, marks));
    cache
}

/// Whether each copy of the line has this state, the one beside it is E, and none has marks.
fn are_all(rt: &impl Abort, cache: &Cache, state: LineState) -> bool {
    let unit = cache.line_length() as u32;
    states(rt, cache, 4 * unit) == ([state, E], false)
        && states(rt, cache, 7 * unit) == ([I, state], false)
}

/// Whether a row of `ROLL_BACKS` holds.
fn is_roll_back(rt: &impl Abort, row: &str, length: usize) -> Option<bool> {
    let (before, marks) = (state(word(row, 0))?, marks(row, 1, 0)?);
    let (back, published) = (state(cell(row, 1))?, state(cell(row, 2))?);
    assert!(rt; is_length(length));
    let mut rolled_back = twice(rt, length, before, marks);
    rolled_back.roll_back_all();
    let mut settled = twice(rt, length, before, marks);
    settled.settle_all();
    Some(are_all(rt, &rolled_back, back) && are_all(rt, &settled, published))
}

#[test]
fn rollbacks_and_publishes_of_all_lines(rt: HostRuntime) {
    are_rows(&rt, Rows::RollBacks);
}
