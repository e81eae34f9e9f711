ghost use Rattle.std.specs.Prelude.{◌≡◌, ◌<◌, ◌≤◌, ◌+◌, ◌^◌, ℕ, OnOk, IfSome, IsSome, None, Some, length, slice_index, option_map, option_and_then, nat_lt, not, is_some, ◌==◌};
ghost use Rattle.memory_bytes.specs.Bytes.{IsWidth, number_at};
ghost use Rattle.memory_bytes.specs.Maps.{over};
ghost use Rattle.memory_bytes.specs.Shadow.{byte_in, IsAmong};
ghost use Rattle.rv32_image.specs.Image.{LoadedImage};
ghost use Rattle.rv32_exec.specs.Arrival.{IsAtLoad, IsAtStore, after_loading};
ghost use Rattle.rv32_exec.specs.Hart.{stepped};
ghost use Rattle.rv32_exec.specs.NextEvent.{next_event};
ghost use Rattle.spec_history.specs.FlatState.{begun, arrival_of};
ghost use Rattle.spec_history.specs.Effect as effect;
ghost use Rattle.spec_history.specs.Refusal as refusal;
ghost use Rattle.spec_history.specs.Cores as spec;

use memory_bytes::ShadowBytes;
use rv32_exec::{Arrived, Image, NoMemory, Stop, advance, start};
use std::alloc::Global;

/// What a core runs: an epoch, its next event with the hart at its last one, whether it has published, and whether it was
/// violated.
#[derive(Clone, Copy)]
pub(crate) struct FlatAttempt {
    pub epoch: u32,
    pub next: Arrived,
    pub straight: bool,
    pub hurt: bool,
}

/// A core: what it runs, the bytes that it has stored and not committed, and those that it has read from outside.
#[derive(Drop)]
pub(crate) struct Core {
    pub attempt: Option<FlatAttempt>,
    pub own: ShadowBytes,
    pub outside: ShadowBytes,
}

impl Core {
    /// An idle core.
    pub(crate) fn new(alloc: Global) -> Core
        ensures idle { result.attempt ≡ None }
        ensures fit { (image : LoadedImage) → spec.IsCoreOf image result }
    {
        Core {
            attempt: None,
            own: ShadowBytes::new(alloc),
            outside: ShadowBytes::new(alloc),
        }
    }

    /// What it runs.
    pub(crate) fn attempt(&self) -> &FlatAttempt
        requires { IsSome self.now.attempt }
        ensures { self.now.attempt ≡ Some result.now }
    {
        self.attempt.as_ref().unwrap()
    }

    /// It runs no epoch.
    pub(crate) fn is_idle(&self) -> bool
        ensures { result ≡ not (is_some (spec.core_of self.now)) }
    {
        self.attempt.is_none()
    }

    /// It runs an epoch, and is not hurt.
    pub(crate) fn is_running(&self) -> bool
        ensures { result ≡ refusal.runs (spec.core_of self.now) }
    {
        match &self.attempt {
            Some(attempt) => !attempt.hurt,
            None => false,
        }
    }

    /// It runs an epoch, and is hurt.
    pub(crate) fn is_hurt(&self) -> bool
        ensures { result ≡ refusal.has (spec.core_of self.now) (λ c. c.hurt) }
    {
        match &self.attempt {
            Some(attempt) => attempt.hurt,
            None => false,
        }
    }

    /// It runs an earlier epoch than this one, and is not hurt.
    pub(crate) fn runs_before(&self, epoch: u32) -> bool
        ensures { result ≡ refusal.runs_and (spec.core_of self.now) (λ c. nat_lt c.epoch epoch) }
    {
        match &self.attempt {
            Some(attempt) => !attempt.hurt && attempt.epoch < epoch,
            None => false,
        }
    }

    /// It runs an epoch, and is neither hurt nor straight.
    pub(crate) fn can_publish(&self) -> bool
        ensures { result ≡ refusal.runs_and (spec.core_of self.now) (λ c. not c.straight) }
    {
        match &self.attempt {
            Some(attempt) => !attempt.hurt && !attempt.straight,
            None => false,
        }
    }

    /// It runs an epoch, and is straight.
    pub(crate) fn is_straight(&self) -> bool
        ensures { result ≡ refusal.has (spec.core_of self.now) (λ c. c.straight) }
    {
        match &self.attempt {
            Some(attempt) => attempt.straight,
            None => false,
        }
    }

    /// It runs this epoch.
    pub(crate) fn is_at(&self, epoch: u32) -> bool
        ensures { result ≡ refusal.is_at epoch (spec.core_of self.now) }
    {
        match &self.attempt {
            Some(attempt) => attempt.epoch == epoch,
            None => false,
        }
    }

    /// It runs this epoch, and can be hurt.
    pub(crate) fn can_be_hurt(&self, epoch: u32) -> bool
        ensures { result ≡ refusal.can_be_hurt epoch (spec.core_of self.now) }
    {
        match &self.attempt {
            Some(attempt) => !attempt.hurt && attempt.epoch == epoch && !attempt.straight,
            None => false,
        }
    }

    /// It runs an epoch, is not hurt, and has read this byte from outside.
    pub(crate) fn has_read(&self, addr: u32) -> bool
        ensures { result ≡ refusal.has_read (spec.core_of self.now) addr }
    {
        self.is_running() && self.outside.get(addr).is_some()
    }

    /// Where its epoch stops next.
    pub(crate) fn next_stop(&self) -> Option<Stop>
        ensures { (image : LoadedImage) → spec.IsCoreOf image self.now
            → result ≡ option_map (λ c. (next_event image c.hart).at) (spec.core_of self.now) }
    {
        match &self.attempt {
            Some(attempt) => Some(attempt.next.at()),
            None => None,
        }
    }

    /// The epoch that it runs, if it runs one.
    pub(crate) fn epoch(&self) -> Option<u32>
        ensures { result ≡ option_map (λ c. c.epoch) (spec.core_of self.now) }
    {
        match &self.attempt {
            Some(attempt) => Some(attempt.epoch),
            None => None,
        }
    }

    /// The next event of its epoch.
    pub(crate) fn next_event(&self) -> Option<Arrived>
        ensures { (image : LoadedImage) → spec.IsCoreOf image self.now
            → result ≡ option_map (λ c. arrival_of image c.hart) (spec.core_of self.now) }
    {
        match &self.attempt {
            Some(attempt) => Some(attempt.next),
            None => None,
        }
    }

    /// The byte at an address that it has stored and not committed, if there is one.
    pub(crate) fn own_byte(&self, addr: u32) -> Option<u8>
        ensures { result ≡ option_and_then (λ c. c.own addr) (spec.core_of self.now) }
    {
        match &self.attempt {
            Some(_) => self.own.get(addr),
            None => None,
        }
    }

    /// The byte at an address that it has read from outside its own, if there is one.
    pub(crate) fn outside_byte(&self, addr: u32) -> Option<u8>
        ensures byte { result ≡ option_and_then (λ c. c.outside addr) (spec.core_of self.now) }
        ensures within { (image : LoadedImage) → spec.IsCoreOf image self.now → IfSome result (λ _. addr < image.size) }
    {
        match &self.attempt {
            Some(_) => self.outside.get(addr),
            None => None,
        }
    }

    /// Addresses in memory that have each at which it has read a byte from outside its own.
    pub(crate) fn outside_addresses(&self) -> &[u32]
        ensures within { (image : LoadedImage) (place : ℕ) → spec.IsCoreOf image self.now → place < length result.now → slice_index result.now place < image.size }
        ensures each { (a byte : ℕ) → option_and_then (λ c. c.outside a) (spec.core_of self.now) ≡ Some byte → IsAmong a result.now }
    {
        self.outside.touched()
    }

    /// Addresses in memory that have each at which it has stored a byte and not committed it.
    pub(crate) fn own_addresses(&self) -> &[u32]
        ensures within { (image : LoadedImage) (place : ℕ) → spec.IsCoreOf image self.now → place < length result.now → slice_index result.now place < image.size }
        ensures each { (a byte : ℕ) → option_and_then (λ c. c.own a) (spec.core_of self.now) ≡ Some byte → IsAmong a result.now }
    {
        self.own.touched()
    }

    /// Its epoch ends, and the loop with it.
    pub(crate) fn exits(&self, image: &Image) -> bool
        requires { spec.IsCoreOf image.now self.now }
        ensures { result ≡ refusal.next_is image.now (spec.core_of self.now) (refusal.is_an_exit image.now) }
    {
        match &self.attempt {
            Some(attempt) => attempt.next.at() == Stop::Ended && attempt.next.now().exits(image),
            None => false,
        }
    }

    /// How many instructions of its epoch are published, where it is straight.
    pub(crate) fn published(&self) -> Option<u64>
        ensures { result ≡ spec.published_by (spec.core_of self.now) }
    {
        match &self.attempt {
            Some(attempt) if attempt.straight => Some(attempt.next.base().done()),
            _ => None,
        }
    }

    /// The number in `width` bytes that its epoch sees, little endian.
    pub(crate) fn number(&self, committed: &[u8], addr: u32, width: u32) -> u32
        requires width { IsWidth width }
        requires small { addr + width < 2 ^ 32 }
        requires committed { addr + width ≤ length committed.now }
        ensures number { result ≡ number_at (over (byte_in self.now.own.cells) (λ a. slice_index committed.now a)) addr width }
        ensures below { result < 256 ^ width }
    {
        self.own.number(committed, addr, width)
    }

    /// Makes room for the bytes that a load reads from outside.
    pub(crate) fn reserve_load(&mut self, addr: u32, width: u32) -> Result<(), NoMemory>
        requires { addr + width < 2 ^ 32 }
        ensures core { spec.core_of self.new ≡ spec.core_of self.old }
        ensures fit { (image : LoadedImage) → addr + width ≤ image.size → spec.IsCoreOf image self.old → spec.IsCoreOf image self.new }
        ensures room { OnOk result (spec.HasRoomFor addr width self.new.outside) }
    {
        self.outside.reserve(addr, width).map_err(|_| NoMemory)
    }

    /// Makes room for the bytes of a store.
    pub(crate) fn reserve_store(&mut self, addr: u32, width: u32) -> Result<(), NoMemory>
        requires { addr + width < 2 ^ 32 }
        ensures core { spec.core_of self.new ≡ spec.core_of self.old }
        ensures fit { (image : LoadedImage) → addr + width ≤ image.size → spec.IsCoreOf image self.old → spec.IsCoreOf image self.new }
        ensures room { OnOk result (spec.HasRoomFor addr width self.new.own) }
    {
        self.own.reserve(addr, width).map_err(|_| NoMemory)
    }

    /// Keeps no bytes.
    fn forget(&mut self)
        ensures attempt { self.new.attempt ≡ self.old.attempt }
        ensures own { (a : ℕ) → byte_in self.new.own.cells a ≡ None }
        ensures outside { (a : ℕ) → byte_in self.new.outside.cells a ≡ None }
        ensures own_long { length self.new.own.cells ≡ length self.old.own.cells }
        ensures outside_long { length self.new.outside.cells ≡ length self.old.outside.cells }
    {
        self.own.clear();
        self.outside.clear();
    }

    /// Begins an epoch.
    pub(crate) fn begin(&mut self, image: &Image, epoch: u32)
        ensures core { spec.core_of self.new ≡ Some (begun image.now epoch) }
        ensures fit { spec.IsCoreOf image.now self.old → spec.IsCoreOf image.now self.new }
    {
        self.forget();
        self.attempt = Some(FlatAttempt {
            epoch,
            next: advance(image, start(image, epoch)),
            straight: false,
            hurt: false,
        });
    }

    /// Makes the load at which its epoch stopped, and goes on.
    pub(crate) fn load(
        &mut self,
        image: &Image,
        committed: &[u8],
        addr: u32,
        width: u32,
        value: u32,
    )
        requires at { (t : FlatAttempt) → self.old.attempt ≡ Some t → IsAtLoad t.next.at value }
        requires small { addr + width < 2 ^ 32 }
        requires committed { addr + width ≤ length committed.now }
        requires room { spec.HasRoomFor addr width self.old.outside }
        ensures core { (t : FlatAttempt) → self.old.attempt ≡ Some t
            → spec.core_of self.new ≡ option_map (effect.after_load (λ a. slice_index committed.now a) addr width (after_loading t.next value)) (spec.core_of self.old) }
        ensures fit { spec.IsCoreOf image.now self.old → spec.IsCoreOf image.now self.new }
    {
        if let Some(attempt) = &mut self.attempt {
            attempt.next.advance_past_load(image, value);
            if !attempt.straight {
                self.outside.note(&self.own, committed, addr, width);
            }
        }
    }

    /// Makes the store at which its epoch stopped, and goes on.
    pub(crate) fn store(&mut self, image: &Image, addr: u32, width: u32, value: u32)
        requires at { (t : FlatAttempt) → self.old.attempt ≡ Some t → IsAtStore t.next.at }
        requires small { addr + width < 2 ^ 32 }
        requires room { spec.HasRoomFor addr width self.old.own }
        ensures core { (t : FlatAttempt) → self.old.attempt ≡ Some t
            → spec.core_of self.new ≡ option_map (effect.after_store addr width value (stepped t.next.now)) (spec.core_of self.old) }
        ensures fit { spec.IsCoreOf image.now self.old → spec.IsCoreOf image.now self.new }
    {
        if let Some(attempt) = &mut self.attempt {
            attempt.next.advance_past_store(image);
            if !attempt.straight {
                self.own.keep(addr, width, value);
            }
        }
    }

    /// Is hurt, where it runs this epoch.
    pub(crate) fn hurt_at(&mut self, epoch: u32)
        ensures core { spec.core_of self.new ≡ effect.hurt_at epoch (spec.core_of self.old) }
        ensures fit { (image : LoadedImage) → spec.IsCoreOf image self.old → spec.IsCoreOf image self.new }
    {
        if let Some(attempt) = &mut self.attempt {
            attempt.hurt = attempt.hurt || attempt.epoch == epoch;
        }
    }

    /// Is idle, where it runs this epoch.
    pub(crate) fn idle_at(&mut self, epoch: u32)
        ensures core { spec.core_of self.new ≡ effect.idle_at epoch (spec.core_of self.old) }
        ensures fit { (image : LoadedImage) → spec.IsCoreOf image self.old → spec.IsCoreOf image self.new }
    {
        if self.is_at(epoch) {
            self.attempt = None;
        }
    }

    /// Is straight from now on, and keeps no bytes.
    pub(crate) fn publish(&mut self)
        ensures core { spec.core_of self.new ≡ option_map effect.after_publish (spec.core_of self.old) }
        ensures fit { (image : LoadedImage) → spec.IsCoreOf image self.old → spec.IsCoreOf image self.new }
    {
        self.forget();
        if let Some(attempt) = &mut self.attempt {
            attempt.straight = true;
        }
    }

    /// Runs no epoch.
    pub(crate) fn leave(&mut self)
        ensures core { spec.core_of self.new ≡ None }
        ensures fit { (image : LoadedImage) → spec.IsCoreOf image self.old → spec.IsCoreOf image self.new }
    {
        self.attempt = None;
    }

    /// Commits its own bytes.
    pub(crate) fn commit(&self, committed: &mut Vec<u8>)
        requires { length self.now.own.cells ≤ length committed.old.items }
        ensures long { length committed.new.items ≡ length committed.old.items }
        ensures bytes { (a : ℕ) → slice_index committed.new.items a ≡ over (byte_in self.now.own.cells) (λ b. slice_index committed.old.items b) a }
    {
        self.own.commit(committed);
    }
}
