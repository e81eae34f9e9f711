//! The stores that an attempt has ahead of it, found once for all that is asked of it.

ghost use Rattle.std.specs.Prelude.{◌≡◌, ◌<◌, ◌≤◌, ◌+◌, ℕ, IfOk, List, OnOk, length, true, false};
ghost use Rattle.std.specs.Bool.{OnTrue};
ghost use Rattle.std.specs.List.Sorted.{IsPartitionPoint, IsSorted};
ghost use Rattle.spec_history.specs.declared.entry.Entry.{Entry};
ghost use Rattle.spec_history.specs.Searches.{IsNext};
ghost use Rattle.conflicts.specs.Ahead as spec;
ghost use Rattle.conflicts.specs.Attempts as attempts;

use crate::accesses::{begins, stored_at};
use rv32_exec::Image;
use spec_history::Entry;
use std::alloc::{AllocError, Global};
use std::collections::BTreeMap;

/// The bytes of memory to which a core stores after a place of the history and before it begins another attempt.
#[derive(Drop)]
pub struct Stores {
    /// The place after which the stores stand.
    pub after: usize,
    /// Where the core begins another attempt; the number of entries, where it doesn't.
    pub end: usize,
    /// The bytes, each with the place of the store, in ascending order.
    pub bytes: Vec<(u32, usize)>,
}

/// The first place after another at which a core begins an attempt; the number of entries, where there is none.
fn next_begin(entries: &[Entry], core: u32, after: usize) -> usize
    requires { after < length entries.now }
    ensures { IsNext (λ j. attempts.core_does entries.now core j attempts.is_begin) (after + 1) (length entries.now) result }
{
    for place in after + 1..entries.len() {
        if begins(entries, core, place) {
            return place;
        }
    }
    entries.len()
}

/// Adds the bytes of memory to which a core stores at a place.
fn push_stored(
    bytes: &mut Vec<(u32, usize)>,
    image: &Image,
    entries: &[Entry],
    core: u32,
    place: usize,
) -> Result<(), AllocError>
    ensures { OnOk result (spec.IsExtended image.now.size entries.now core place bytes.old.items bytes.new.items) }
{
    let (first, end) = stored_at(image, entries, core, place);
    for addr in first..end {
        bytes.push((addr, place))?;
    }
    Ok(())
}

/// The bytes of memory to which a core stores after a place and before it begins another attempt.
fn stores_after(
    alloc: Global,
    image: &Image,
    entries: &[Entry],
    core: u32,
    after: usize,
) -> Result<Stores, AllocError>
    requires { after < length entries.now }
    ensures { IfOk result (λ stores. (stores.after ≡ after) × spec.AreAhead image.now.size entries.now core stores) }
{
    let end = next_begin(entries, core, after);
    let mut bytes = Vec::new(alloc);
    for place in after + 1..end {
        push_stored(&mut bytes, image, entries, core, place)?;
    }
    bytes.sort_unstable();
    Ok(Stores { after, end, bytes })
}

impl Stores {
    /// How many of the bytes stand before a store to this byte after a place.
    fn count_before(&self, addr: u32, after: usize) -> usize
        ensures bound { result ≤ length self.now.bytes.items }
        ensures split { IsSorted spec.byte_order self.now.bytes.items → IsPartitionPoint (λ x. spec.is_before addr after x ≡ true)
            (λ x. spec.is_before addr after x ≡ false) self.now.bytes.items result }
    {
        self.bytes
            .partition_point(|x| x.0 < addr || x.0 == addr && x.1 <= after)
    }

    /// The place of the store with this index, if it is one to this byte.
    fn place_of(&self, index: usize, addr: u32) -> Option<usize>
        ensures { result ≡ spec.place_of self.now.bytes.items index addr }
    {
        match self.bytes.get(index) {
            Some(x) if x.0 == addr => Some(x.1),
            _ => None,
        }
    }

    /// The place of the first store to a byte after a place; `end`, where there is none.
    pub(crate) fn next(&self, addr: u32, after: usize) -> usize
        requires { after < self.now.end }
        ensures most { result ≤ self.now.end }
        ensures next { (size : ℕ) (entries : List Entry) (core : ℕ) → spec.AreAhead size entries core self.now → self.now.after ≤ after → addr < size
            → IsNext (λ j. attempts.core_does entries core j (attempts.stores_byte addr)) (after + 1) self.now.end result }
    {
        let index = self.count_before(addr, after);
        let place = self.place_of(index, addr);
        place.unwrap_or(self.end).min(self.end)
    }
}

/// For each core, the stores of the attempt that was asked for last.
#[derive(Drop)]
pub struct Ahead {
    /// By the number of the core.
    pub found: BTreeMap<u32, Stores>,
}

impl Ahead {
    /// Nothing yet.
    pub fn new(alloc: Global) -> Ahead
        ensures { (size : ℕ) (entries : List Entry) → spec.IsAhead size entries result }
    {
        Ahead {
            found: BTreeMap::new(alloc),
        }
    }

    /// The stores of a core after a place are there.
    fn has(&self, core: u32, after: usize) -> bool
        ensures { OnTrue result (spec.IsFound self.now core after) }
    {
        match self.found.get(&core) {
            Some(stores) => stores.after <= after && after < stores.end,
            None => false,
        }
    }

    /// Looks for the stores of a core after a place, where they aren't there yet: once an attempt, where it is asked in the order of the
    /// history.
    pub(crate) fn look(
        &mut self,
        alloc: Global,
        image: &Image,
        entries: &[Entry],
        core: u32,
        after: usize,
    ) -> Result<(), AllocError>
        requires within { after < length entries.now }
        requires known { spec.IsAhead image.now.size entries.now self.old }
        ensures found { OnOk result (spec.IsFound self.new core after) }
        ensures known { spec.IsAhead image.now.size entries.now self.new }
    {
        if self.has(core, after) {
            return Ok(());
        }
        let stores = stores_after(alloc, image, entries, core, after)?;
        self.found.insert(core, stores)?;
        Ok(())
    }
}
