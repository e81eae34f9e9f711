//! The attempts of a history, and the accesses in them.

ghost use Rattle.std.specs.Prelude.{◌≡◌, ◌<◌, ◌≤◌, ℕ, Some, true};
ghost use Rattle.conflicts.specs.Attempts as spec;

use rv32_exec::Image;
use spec_history::{Entry, What};

/// A core begins an attempt at a place.
pub fn begins(entries: &[Entry], core: u32, place: usize) -> bool
    ensures { result ≡ spec.core_does entries.now core place spec.is_begin }
{
    match entries.get(place) {
        Some(entry) => entry.by == core && matches!(entry.what, What::Start(_) | What::Restart),
        None => false,
    }
}

/// A core starts an epoch at a place.
fn starts(entries: &[Entry], core: u32, place: usize) -> bool
    ensures { result ≡ spec.core_does entries.now core place spec.is_start }
{
    match entries.get(place) {
        Some(entry) => entry.by == core && matches!(entry.what, What::Start(_)),
        None => false,
    }
}

/// An access to so many bytes is one to this byte.
fn covers(first: u32, width: u32, addr: u32) -> bool
    ensures { result ≡ spec.covers first width addr }
{
    first <= addr && addr - first < width
}

/// What stands in an entry is a store to this byte.
fn is_store_to(what: What, addr: u32) -> bool
    ensures { result ≡ spec.stores_byte addr what }
{
    match what {
        What::Store {
            addr: first,
            width,
            ..
        } => covers(first, width, addr),
        _ => false,
    }
}

/// What stands in an entry is a load of this byte.
fn is_load_of(what: What, addr: u32) -> bool
    ensures { result ≡ spec.loads_byte addr what }
{
    match what {
        What::Load {
            addr: first,
            width,
            ..
        } => covers(first, width, addr),
        _ => false,
    }
}

/// A core stores to a byte at a place.
fn stores(entries: &[Entry], core: u32, place: usize, addr: u32) -> bool
    ensures { result ≡ spec.core_does entries.now core place (spec.stores_byte addr) }
{
    match entries.get(place) {
        Some(entry) => entry.by == core && is_store_to(entry.what, addr),
        None => false,
    }
}

/// A core loads a byte at a place.
fn loads(entries: &[Entry], core: u32, place: usize, addr: u32) -> bool
    ensures { result ≡ spec.core_does entries.now core place (spec.loads_byte addr) }
{
    match entries.get(place) {
        Some(entry) => entry.by == core && is_load_of(entry.what, addr),
        None => false,
    }
}

/// Where the attempt began that a core runs before a place.
pub fn attempt_place(entries: &[Entry], core: u32, before: usize) -> Option<usize>
    ensures { result ≡ spec.attempt_place entries.now core before }
{
    for i in 0..before {
        if begins(entries, core, before - 1 - i) {
            return Some(before - 1 - i);
        }
    }
    None
}

/// Which run of its epoch the attempt is that a core runs before a place, counted from 1. It looks back to the start of the
/// epoch.
pub fn attempt_number(entries: &[Entry], core: u32, before: usize) -> usize
    ensures { result ≡ spec.attempt_number entries.now core before }
{
    let mut again = 0;
    for i in 0..before {
        let place = before - 1 - i;
        if starts(entries, core, place) {
            return again + 1;
        }
        if begins(entries, core, place) {
            again += 1;
        }
    }
    1
}

/// The last store to a byte of the attempt that a core runs before a place.
pub(crate) fn last_store(entries: &[Entry], core: u32, before: usize, addr: u32) -> Option<usize>
    ensures { result ≡ spec.last_store entries.now core before addr }
{
    let start = attempt_place(entries, core, before)?;
    for i in 0..before {
        let place = before - 1 - i;
        if place <= start {
            return None;
        }
        if stores(entries, core, place, addr) {
            return Some(place);
        }
    }
    None
}

/// The entry at a place is a load of the attempt, which began at `start`, that reads this byte from outside.
pub fn reads_outside(entries: &[Entry], core: u32, start: usize, addr: u32, place: usize) -> bool
    ensures reads { (before : ℕ) → spec.attempt_place entries.now core before ≡ Some start → result ≡ spec.reads_outside entries.now core before addr place }
    ensures after { result ≡ true → start < place }
{
    start < place
        && loads(entries, core, place, addr)
        && last_store(entries, core, place, addr).is_none()
}

/// The first load that read a byte from outside, of the attempt that a core runs before a place, which began at `start`.
fn first_read_from(
    entries: &[Entry],
    core: u32,
    start: usize,
    before: usize,
    addr: u32,
) -> Option<usize>
    requires { spec.attempt_place entries.now core before ≡ Some start }
    ensures { result ≡ spec.first_read entries.now core before addr }
{
    for place in start..before {
        if reads_outside(entries, core, start, addr, place) {
            return Some(place);
        }
    }
    None
}

/// The first load that read a byte from outside, of the attempt that a core runs before a place.
pub(crate) fn first_read(entries: &[Entry], core: u32, before: usize, addr: u32) -> Option<usize>
    ensures { result ≡ spec.first_read entries.now core before addr }
{
    match attempt_place(entries, core, before) {
        Some(start) => first_read_from(entries, core, start, before, addr),
        None => None,
    }
}

/// The bytes of memory that a core loads at a place: from the first of these up to the second.
pub(crate) fn loaded_at(image: &Image, entries: &[Entry], core: u32, place: usize) -> (u32, u32)
    ensures within { result.1 ≤ image.now.size }
    ensures only { (a : ℕ) → result.0 ≤ a → a < result.1 → spec.core_does entries.now core place (spec.loads_byte a) ≡ true }
    ensures each { (a : ℕ) → spec.core_does entries.now core place (spec.loads_byte a) ≡ true → a < image.now.size → (result.0 ≤ a) × (a < result.1) }
{
    match entries.get(place) {
        Some(entry) if entry.by == core => match entry.what {
            What::Load { addr, width, .. } => (addr, image.size().min(addr.saturating_add(width))),
            _ => (0, 0),
        },
        _ => (0, 0),
    }
}

/// The bytes of memory to which a core stores at a place: from the first of these up to the second.
pub(crate) fn stored_at(image: &Image, entries: &[Entry], core: u32, place: usize) -> (u32, u32)
    ensures within { result.1 ≤ image.now.size }
    ensures only { (a : ℕ) → result.0 ≤ a → a < result.1 → spec.core_does entries.now core place (spec.stores_byte a) ≡ true }
    ensures each { (a : ℕ) → spec.core_does entries.now core place (spec.stores_byte a) ≡ true → a < image.now.size → (result.0 ≤ a) × (a < result.1) }
{
    match entries.get(place) {
        Some(entry) if entry.by == core => match entry.what {
            What::Store { addr, width, .. } => (addr, image.size().min(addr.saturating_add(width))),
            _ => (0, 0),
        },
        _ => (0, 0),
    }
}
