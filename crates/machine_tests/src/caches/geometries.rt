//! Caches of other sets and ways than 4 of 2, by hand.

use crate::caches::lines::{put, way};
use crate::caches::words::{index, mask_at, state};
use crate::words::{is_row, number, word};
use cache_lines::Cache;
use spec_states::{LineState, Marks};
use std::process::Abort;
use std::test::Fail;

/// A line of this state, marked as loaded where it is speculative, with these bytes modified.
fn line(addr: u32, state: LineState, bytes: u64) -> (u32, LineState, Marks) {
    let marks = Marks {
        loaded: state.is_speculative(),
        bytes,
    };
    (addr, state, marks)
}

/// Puts a line into each way, one after another, each so many bytes on from the one before.
fn put_each(rt: &impl Abort, cache: &mut Cache, addr: u32, step: u32, state: LineState) {
    for way in 0..cache.ways() {
        let at = addr.wrapping_add(step.wrapping_mul(way as u32));
        put(rt, cache, way, line(at, state, 0));
    }
}

/// The state of the line in a way of the set of an address.
fn state_at(cache: &Cache, way: usize, addr: u32) -> Option<LineState> {
    if way >= cache.ways() {
        return None;
    }
    Some(cache.line(addr, way).state)
}

/// Makes the call of a row. Answers whether it gave what the row says.
fn does(rt: &impl Abort, cache: &mut Cache, row: &str) -> Option<bool> {
    match word(row, 0) {
        "fill" => {
            put(
                rt,
                cache,
                index(row, 1),
                line(
                    number(row, 2),
                    state(word(row, 3))?,
                    mask_at(row, 4).unwrap_or(0),
                ),
            );
            Some(true)
        }
        "each" => {
            put_each(
                rt,
                cache,
                number(row, 1),
                number(row, 2),
                state(word(row, 3))?,
            );
            Some(true)
        }
        "find" => Some(cache.find(number(row, 1)) == way(word(row, 2))),
        "victim" => Some(cache.victim(number(row, 1)) == way(word(row, 2))),
        "state" => Some(state_at(cache, index(row, 1), number(row, 2)) == state(word(row, 3))),
        "roll_back" => {
            cache.roll_back_all();
            Some(true)
        }
        "settle" => {
            cache.settle_all();
            Some(true)
        }
        _ => None,
    }
}

/// Makes the calls of a table, one after another.
fn play(rt: &impl Abort, mut cache: Cache, rows: &str) {
    for row in rows.split('\n') {
        assert!(rt;
            !is_row(row) || does(rt, &mut cache, row) == Some(true),
            "{row}"
        );
    }
}

const ONE_LINE: &str = "
# fill WAY ADDRESS STATE, find ADDRESS WAY, victim ADDRESS WAY: each address is of the one set
find 0 -
victim 0 0
fill 0 48 SpS
find 48 0
find 0 -
find 16 -
victim 16 -
fill 0 16 S
find 48 -
find 16 0
victim 0 0
";

#[test]
fn a_cache_of_one_line(rt: HostRuntime) -> Result<(), Fail> {
    let cache = Cache::with_geometry(rt.alloc(), 16, 1, 1)?;
    play(&rt, cache, ONE_LINE);
    Ok(())
}

const EIGHT_BY_FOUR: &str = "
# Lines of 32 bytes: those at multiples of 256 are of set 0. Way 2 is left invalid at first
fill 0 0 S
fill 1 256 SpS
fill 3 768 SpE
find 768 3
find 512 -
victim 1024 2
fill 2 512 SpS
victim 1024 0
fill 0 1024 SpS
find 0 -
find 1024 0
victim 0 -
# The lowest of two unmarked ways
fill 1 256 S
fill 3 768 E
victim 1280 1
fill 1 1280 SpE
find 256 -
victim 256 3
# Sets 1 and 7 are others
victim 288 0
fill 3 224 M
find 224 3
find 480 -
victim 480 0
# each ADDRESS STEP STATE: way 0 has the line at ADDRESS, way 1 that at ADDRESS + STEP, and so on
each 480 256 E
find 992 2
find 224 -
victim 224 0
";

#[test]
fn a_cache_of_eight_sets_of_four_ways(rt: HostRuntime) -> Result<(), Fail> {
    let cache = Cache::with_geometry(rt.alloc(), 32, 8, 4)?;
    play(&rt, cache, EIGHT_BY_FOUR);
    Ok(())
}

const TWO_BY_THREE: &str = "
# Lines of 64 bytes: those at multiples of 128 are of set 0, the others of set 1
fill 0 0 SpS
fill 1 128 SpE
find 64 -
find 128 1
victim 64 0
victim 256 2
fill 2 256 SpS
victim 384 -
find 32 -
# Three ways of the other set
each 64 128 S
find 320 2
victim 448 0
fill 0 448 SpE
victim 64 1
find 64 -
victim 384 -
fill 1 128 M
victim 384 1
";

#[test]
fn a_cache_of_two_sets_of_three_ways_of_the_longest_lines(rt: HostRuntime) -> Result<(), Fail> {
    let cache = Cache::with_geometry(rt.alloc(), 64, 2, 3)?;
    play(&rt, cache, TWO_BY_THREE);
    Ok(())
}

const MARKED: &str = "
# state WAY ADDRESS STATE: of 8 sets of 4 ways of lines of 64 bytes, where a word behind the state of a line is the mask of its modified bytes
fill 0 0 SpS
fill 1 512 SpE 8000000000000000
fill 0 64 SpS 100000000
fill 3 448 M
fill 2 960 S
roll_back
state 0 0 S
state 1 512 I
state 0 64 I
state 3 448 M
state 2 960 S
# A line that was marked gives way to one that isn't, and comes again in another way
fill 0 0 SpS 1
fill 1 512 SpE 1
fill 2 1024 SpE
fill 0 1536 E
fill 3 0 SpS
settle
state 0 1536 E
state 1 512 M
state 2 1024 E
state 3 0 S
# What is marked after a publish is rolled back, and the rest stays
fill 2 1024 SpE
fill 3 0 SpE f
roll_back
state 1 512 M
state 2 1024 E
state 3 0 I
find 0 -
settle
state 1 512 M
state 0 1536 E
";

#[test]
fn rollbacks_and_publishes_of_a_cache_in_memory(rt: HostRuntime) -> Result<(), Fail> {
    let cache = Cache::with_geometry(rt.alloc(), 64, 8, 4)?;
    play(&rt, cache, MARKED);
    Ok(())
}

const THE_LARGEST: &str = "
# Lines of 16 bytes: those at multiples of 16384 are of set 0. Set 1023 is that of 16368
fill 15 16368 S
find 16368 15
find 0 -
victim 32752 0
victim 0 0
each 0 16384 SpS
find 0 0
find 114688 7
find 245760 15
find 262144 -
victim 262144 -
fill 15 245760 S
victim 262144 15
fill 7 114688 E
victim 262144 7
fill 9 147456 I
find 147456 -
victim 262144 9
fill 9 262144 M
find 262144 9
victim 147456 7
find 16368 15
";

#[test]
fn the_largest_cache(rt: HostRuntime) -> Result<(), Fail> {
    let cache = Cache::with_geometry(rt.alloc(), 16, 1024, 16)?;
    play(&rt, cache, THE_LARGEST);
    Ok(())
}
