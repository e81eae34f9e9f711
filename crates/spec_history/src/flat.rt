ghost use Rattle.std.specs.Prelude.{◌≡◌, ◌<◌, ℕ, IfOk, IfSome, MatchResult, Some, None, if◌then◌else◌, length, nat_lt, option_map, option_and_then, slice_index};
ghost use Rattle.memory_bytes.specs.Shadow.{IsAmong};
ghost use Rattle.spec_history.specs.FlatState.{first_state, arrival_of};
ghost use Rattle.spec_history.specs.Replay.{replay};
ghost use Rattle.spec_history.specs.View as spec;

use crate::entry::Entry;
use crate::illegal::Illegal;
use crate::machine::Machine;
use rv32_exec::{Arrived, End, Image, NoMemory};
use std::alloc::Global;
use std::marker::Model;

/// The flat machine: one thread's reading of a history of speculative epochs. It keeps committed memory, the homefree
/// epoch and, for each core, its epoch, its hart, the bytes that it has stored and those that it has read.
///
/// Contracts see the image, how many cores there are, and the state. Some history always leads to it.
#[derive(Drop)]
pub struct Flat {
    machine: Machine,
}

impl Model for Flat {
    ghost use Rattle.spec_history.specs.View.{FlatView};

    ghost Value = { FlatView };

    ghost use Rattle.spec_history.specs.FlatInside.{view_of, IsFlat};

    ghost view = { view_of };

    ghost invariant = { IsFlat };
}

impl Flat {
    /// The machine before anything has happened, with a copy of the image.
    ///
    /// `NoMemory`: there was no memory for it, and nothing was made.
    pub fn new(alloc: Global, image: &Image, cores: u32) -> Result<Flat, NoMemory>
        ensures image { IfOk result (λ flat. flat.image ≡ image.now) }
        ensures cores { IfOk result (λ flat. spec.cores_in flat ≡ cores) }
        ensures state { IfOk result (λ flat. spec.state_in flat ≡ first_state image.now) }
    {
        let machine = Machine::new(alloc, image, cores)?;
        Ok(Flat { machine })
    }

    /// Applies the next entry of the history.
    ///
    /// The refusals are tried in the order `Over`, `NotThere`, `NotNext`, `NotHomefree`, `WrongValue`, `HurtMissing`,
    /// `NotCancelled`, `NoMemory`, which only a load and a store can answer. After an Err the machine is unchanged.
    pub fn apply(&mut self, entry: Entry) -> Result<(), Illegal>
        ensures same { spec.IsSameMachine self.old self.new }
        ensures answer { MatchResult result (λ _. spec.IsApplied self.old self.new entry) (spec.IsRefused self.old self.new entry) }
    {
        if let Some(refusal) = self.machine.refusal(entry) {
            return Err(refusal);
        }
        if self.machine.prepare(entry.by, entry.what).is_err() {
            return Err(Illegal::NoMemory);
        }
        self.machine.perform(entry);
        Ok(())
    }

    /// The committed byte at an address, if it lies in memory.
    pub fn committed(&self, addr: u32) -> Option<u8>
        ensures { result ≡ (if nat_lt addr self.now.image.size then Some ((spec.state_in self.now).committed addr) else None) }
    {
        if addr < self.machine.image.size() {
            Some(self.machine.committed[addr as usize])
        } else {
            None
        }
    }

    /// The homefree epoch: the first that has not committed.
    pub fn homefree(&self) -> u32
        ensures { result ≡ (spec.state_in self.now).homefree }
    {
        self.machine.homefree
    }

    /// Its copy of the image.
    pub fn image(&self) -> &Image
        ensures { result.now ≡ self.now.image }
    {
        &self.machine.image
    }

    /// How many instructions of the homefree epoch are published.
    pub fn published(&self) -> u64
        ensures { result ≡ (spec.state_in self.now).published }
    {
        self.machine.published
    }

    /// The epoch that a core runs, hurt or not, if it runs one.
    pub fn epoch(&self, core: u32) -> Option<u32>
        ensures { result ≡ option_map (λ c. c.epoch) ((spec.state_in self.now).cores core) }
    {
        self.machine.core(core)?.epoch()
    }

    /// The next event of the epoch that a core runs: its hart at its last entry, the hart at that event, and the event.
    pub fn next_event(&self, core: u32) -> Option<Arrived>
        ensures { result ≡ option_map (λ c. arrival_of self.now.image c.hart) ((spec.state_in self.now).cores core) }
    {
        self.machine.core(core)?.next_event()
    }

    /// The byte at an address that a core has stored and not committed, if there is one.
    pub fn own(&self, core: u32, addr: u32) -> Option<u8>
        ensures { result ≡ option_and_then (λ c. c.own addr) ((spec.state_in self.now).cores core) }
    {
        self.machine.core(core)?.own_byte(addr)
    }

    /// The byte at an address that a core has read from outside its own, with the value read, if there is one.
    pub fn outside(&self, core: u32, addr: u32) -> Option<u8>
        ensures byte { result ≡ option_and_then (λ c. c.outside addr) ((spec.state_in self.now).cores core) }
        ensures within { IfSome result (λ _. addr < self.now.image.size) }
    {
        self.machine.core(core)?.outside_byte(addr)
    }

    /// Addresses in memory that have each at which a core has read a byte from outside its own, in no order.
    ///
    /// They are as many as the core has read so far, so that who asks for all need not go through memory.
    pub fn read_addresses(&self, core: u32) -> &[u32]
        ensures within { (place : ℕ) → place < length result.now → slice_index result.now place < self.now.image.size }
        ensures each { (a byte : ℕ) → option_and_then (λ c. c.outside a) ((spec.state_in self.now).cores core) ≡ Some byte → IsAmong a result.now }
    {
        match self.machine.core(core) {
            Some(core) => core.outside_addresses(),
            None => &[],
        }
    }

    /// Addresses in memory that have each at which a core has stored a byte and not committed it, in no order.
    ///
    /// They are as many as the core has stored so far.
    pub fn own_addresses(&self, core: u32) -> &[u32]
        ensures within { (place : ℕ) → place < length result.now → slice_index result.now place < self.now.image.size }
        ensures each { (a byte : ℕ) → option_and_then (λ c. c.own a) ((spec.state_in self.now).cores core) ≡ Some byte → IsAmong a result.now }
    {
        match self.machine.core(core) {
            Some(core) => core.own_addresses(),
            None => &[],
        }
    }

    /// How the loop ended, where it is over.
    pub fn ended(&self) -> Option<End>
        ensures { result ≡ (spec.state_in self.now).end }
    {
        self.machine.end
    }
}

/// Replays a history on a machine of so many cores, and answers the machine after it.
///
/// An Err has the place, counted from 0, of the first entry that is refused, and its refusal. `NoMemory` has the place at
/// which memory was refused, and the number of entries where there was none for the machine itself.
pub fn audit(
    alloc: Global,
    image: &Image,
    cores: u32,
    entries: &[Entry],
) -> Result<Flat, (usize, Illegal)>
    ensures image { IfOk result (λ flat. flat.image ≡ image.now) }
    ensures cores { IfOk result (λ flat. spec.cores_in flat ≡ cores) }
    ensures replay { MatchResult result (λ flat. replay image.now cores entries.now ≡ Some (spec.state_in flat))
        (λ fault. spec.IsAuditFault image.now cores entries.now fault.0 fault.1) }
{
    let Ok(mut flat) = Flat::new(alloc, image, cores) else {
        return Err((entries.len(), Illegal::NoMemory));
    };
    for (place, entry) in entries.iter().enumerate() {
        if let Err(illegal) = flat.apply(*entry) {
            return Err((place, illegal));
        }
    }
    Ok(flat)
}
