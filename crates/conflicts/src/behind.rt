//! The bytes that an attempt has read and stored before a place, noted in one pass over the history.

ghost use Rattle.std.specs.Prelude.{◌≡◌, ◌<◌, ◌+◌, ◌^◌, ◌&&◌, ℕ, List, OnOk, is_none, false, true};
ghost use Rattle.std.specs.BTreeMap.{get};
ghost use Rattle.std.specs.Ordering.{nat_cmp};
ghost use Rattle.spec_history.specs.declared.entry.Entry.{Entry};
ghost use Rattle.conflicts.specs.Attempts as attempts;
ghost use Rattle.conflicts.specs.Behind as spec;

use crate::accesses::{begins, first_read, last_store, loaded_at, stored_at};
use rv32_exec::Image;
use spec_history::Entry;
use std::alloc::{AllocError, Global};
use std::collections::BTreeMap;

/// What the attempt of a core has accessed before a place of the history.
#[derive(Drop)]
pub struct Accesses {
    /// The place.
    pub place: usize,
    /// The core has begun an attempt.
    pub begun: bool,
    /// The bytes that it has read from outside, each with the place of the load that read it first.
    pub reads: BTreeMap<u32, usize>,
    /// The bytes that it has stored, each with the place of the last store to it.
    pub stores: BTreeMap<u32, usize>,
}

/// The byte was neither stored nor read.
fn is_new(reads: &BTreeMap<u32, usize>, stores: &BTreeMap<u32, usize>, addr: u32) -> bool
    ensures { result ≡ (is_none (get nat_cmp stores.now addr) && is_none (get nat_cmp reads.now addr)) }
{
    !stores.contains_key(&addr) && !reads.contains_key(&addr)
}

/// Notes a load at a place of the bytes from the first of these up to the second: it reads those that weren't stored before.
fn note_reads(
    reads: &mut BTreeMap<u32, usize>,
    stores: &BTreeMap<u32, usize>,
    first: u32,
    end: u32,
    place: usize,
) -> Result<(), AllocError>
    ensures { OnOk result ((a : ℕ) → get nat_cmp reads.new a
        ≡ spec.kept_first (spec.is_within first end a && is_none (get nat_cmp stores.now a)) (get nat_cmp reads.old a) place) }
{
    for addr in first..end {
        if is_new(reads, stores, addr) {
            reads.insert(addr, place)?;
        }
    }
    Ok(())
}

/// Notes a store at a place to the bytes from the first of these up to the second.
fn note_stores(
    stores: &mut BTreeMap<u32, usize>,
    first: u32,
    end: u32,
    place: usize,
) -> Result<(), AllocError>
    ensures { OnOk result ((a : ℕ) → get nat_cmp stores.new a
        ≡ spec.kept_last (spec.is_within first end a) (get nat_cmp stores.old a) place) }
{
    for addr in first..end {
        stores.insert(addr, place)?;
    }
    Ok(())
}

impl Accesses {
    /// Before the history.
    fn first(alloc: Global) -> Accesses
        ensures { (size : ℕ) (entries : List Entry) (core : ℕ) → spec.AreBehind size entries core result }
    {
        Accesses {
            place: 0,
            begun: false,
            reads: BTreeMap::new(alloc),
            stores: BTreeMap::new(alloc),
        }
    }

    /// Right after the core begins an attempt at a place.
    fn begun_at(alloc: Global, place: usize) -> Accesses
        requires { place + 1 < 2 ^ 64 }
        ensures known { (size : ℕ) (entries : List Entry) (core : ℕ) → attempts.core_does entries core place attempts.is_begin ≡ true
            → spec.AreBehind size entries core result }
        ensures place { result.place ≡ place + 1 }
    {
        Accesses {
            place: place + 1,
            begun: true,
            reads: BTreeMap::new(alloc),
            stores: BTreeMap::new(alloc),
        }
    }

    /// Notes the access of the core at the place, within its attempt, and goes one place further.
    fn note(&mut self, image: &Image, entries: &[Entry], core: u32) -> Result<(), AllocError>
        requires known { spec.AreBehind image.now.size entries.now core self.old }
        requires within { attempts.core_does entries.now core self.old.place attempts.is_begin ≡ false }
        requires room { self.old.place + 1 < 2 ^ 64 }
        ensures known { OnOk result (spec.AreBehind image.now.size entries.now core self.new) }
        ensures place { OnOk result (self.new.place ≡ self.old.place + 1) }
    {
        if !self.begun {
            self.place += 1;
            return Ok(());
        }
        let (first, end) = loaded_at(image, entries, core, self.place);
        note_reads(&mut self.reads, &self.stores, first, end, self.place)?;
        let (low, high) = stored_at(image, entries, core, self.place);
        note_stores(&mut self.stores, low, high, self.place)?;
        self.place += 1;
        Ok(())
    }

    /// Goes one place further.
    fn step(
        &mut self,
        alloc: Global,
        image: &Image,
        entries: &[Entry],
        core: u32,
    ) -> Result<(), AllocError>
        requires known { spec.AreBehind image.now.size entries.now core self.old }
        requires room { self.old.place + 1 < 2 ^ 64 }
        ensures known { OnOk result (spec.AreBehind image.now.size entries.now core self.new) }
        ensures place { OnOk result (self.new.place ≡ self.old.place + 1) }
    {
        if begins(entries, core, self.place) {
            *self = Accesses::begun_at(alloc, self.place);
            return Ok(());
        }
        self.note(image, entries, core)
    }

    /// Goes on to a later place.
    fn walk(
        &mut self,
        alloc: Global,
        image: &Image,
        entries: &[Entry],
        core: u32,
        place: usize,
    ) -> Result<(), AllocError>
        requires { spec.AreBehind image.now.size entries.now core self.old }
        ensures { OnOk result (spec.AreBehind image.now.size entries.now core self.new) }
    {
        while self.place < place {
            self.step(alloc, image, entries, core)?;
        }
        Ok(())
    }
}

/// For each core, what its attempt has accessed before the place that was asked for last.
#[derive(Drop)]
pub struct Behind {
    /// By the number of the core.
    pub found: BTreeMap<u32, Accesses>,
}

impl Behind {
    /// Nothing yet.
    pub fn new(alloc: Global) -> Behind
        ensures { (size : ℕ) (entries : List Entry) → spec.IsBehind size entries result }
    {
        Behind {
            found: BTreeMap::new(alloc),
        }
    }

    /// Takes out what is kept of a core, if it is of no later place than this; else it begins before the history.
    fn take(&mut self, alloc: Global, core: u32, place: usize) -> Accesses
        ensures taken { (size : ℕ) (entries : List Entry) → spec.IsBehind size entries self.old → spec.AreBehind size entries core result }
        ensures known { (size : ℕ) (entries : List Entry) → spec.IsBehind size entries self.old → spec.IsBehind size entries self.new }
    {
        match self.found.remove(&core) {
            Some(accesses) => {
                if accesses.place <= place {
                    return accesses;
                }
            }
            None => {}
        }
        Accesses::first(alloc)
    }

    /// Looks for what the attempt of a core has accessed before a place. It goes on from where it was asked last.
    pub(crate) fn look(
        &mut self,
        alloc: Global,
        image: &Image,
        entries: &[Entry],
        core: u32,
        place: usize,
    ) -> Result<(), AllocError>
        requires { spec.IsBehind image.now.size entries.now self.old }
        ensures { spec.IsBehind image.now.size entries.now self.new }
    {
        let mut accesses = self.take(alloc, core, place);
        accesses.walk(alloc, image, entries, core, place)?;
        self.found.insert(core, accesses)?;
        Ok(())
    }

    /// The first load that read a byte from outside, of the attempt that a core runs before a place. It is at hand where it was looked for,
    /// else it is searched for.
    pub fn first_read(
        &self,
        entries: &[Entry],
        core: u32,
        before: usize,
        addr: u32,
    ) -> Option<usize>
        ensures { (size : ℕ) → spec.IsBehind size entries.now self.now → addr < size → result ≡ attempts.first_read entries.now core before addr }
    {
        if let Some(accesses) = self.found.get(&core) {
            if accesses.place == before {
                return accesses.reads.get(&addr).copied();
            }
        }
        first_read(entries, core, before, addr)
    }

    /// The last store to a byte of the attempt that a core runs before a place. It is at hand where it was looked for, else it is searched
    /// for.
    pub fn last_store(
        &self,
        entries: &[Entry],
        core: u32,
        before: usize,
        addr: u32,
    ) -> Option<usize>
        ensures { (size : ℕ) → spec.IsBehind size entries.now self.now → addr < size → result ≡ attempts.last_store entries.now core before addr }
    {
        if let Some(accesses) = self.found.get(&core) {
            if accesses.place == before {
                return accesses.stores.get(&addr).copied();
            }
        }
        last_store(entries, core, before, addr)
    }
}
