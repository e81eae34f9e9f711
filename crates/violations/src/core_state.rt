ghost use Rattle.std.specs.Prelude.{◌≡◌, ◌<◌, ◌≤◌, ◌+◌, ◌*◌, ◌^◌, ℕ, OnOk, Some, None, true, false, length, is_some, option_map, slice_index};
ghost use Rattle.memory_bytes.specs.Bytes.{IsWidth, number_at};
ghost use Rattle.memory_bytes.specs.Maps.{joined, over, read_outside};
ghost use Rattle.memory_bytes.specs.Shadow.{byte_in};
ghost use Rattle.violations.specs.CoreState as spec;
ghost use Rattle.violations.specs.View.{is_accessed};

use crate::attempt::Attempt;
use memory_bytes::ShadowBytes;
use rv32_image::NoMemory;
use std::alloc::Global;

/// What a plain store keeps of a core: its attempt, the bytes that it has stored, and those that it has loaded from outside.
#[derive(Drop)]
pub(crate) struct CoreState {
    pub attempt: Option<Attempt>,
    pub own: ShadowBytes,
    pub guarded: ShadowBytes,
}

impl CoreState {
    /// A core without an attempt. It takes no memory.
    pub fn new(alloc: Global) -> CoreState
        ensures idle { spec.IsIdle result }
        ensures within { (size : ℕ) → spec.IsWithin size result }
    {
        CoreState {
            attempt: None,
            own: ShadowBytes::new(alloc),
            guarded: ShadowBytes::new(alloc),
        }
    }

    /// Makes room for so many accesses to so many bytes of memory: for a cell for each byte, and for the places of the bytes that the
    /// accesses touch.
    pub fn reserve(&mut self, size: u32, accesses: u32) -> Result<(), NoMemory>
        requires least { 4 * accesses ≤ size }
        requires within { spec.IsWithin size self.old }
        ensures same { spec.IsSameState self.old self.new }
        ensures within { spec.IsWithin size self.new }
        ensures room { OnOk result (spec.HasRoom size accesses self.new) }
    {
        let bytes = 4 * accesses;
        if self.own.reserve(size - bytes, bytes).is_err() {
            return Err(NoMemory);
        }
        if self.guarded.reserve(size - bytes, bytes).is_err() {
            return Err(NoMemory);
        }
        Ok(())
    }

    /// Gives the number in `width` bytes that it sees, and guards those that it takes from outside.
    pub fn load(&mut self, committed: &[u8], addr: u32, width: u32) -> u32
        requires width { IsWidth width }
        requires small { length committed.now < 2 ^ 32 }
        requires within { addr + width ≤ length committed.now }
        requires room { spec.HasRoom (length committed.now) 1 self.old }
        ensures value { result ≡ number_at (over (byte_in self.old.own.cells) (λ a. slice_index committed.now a)) addr width }
        ensures below { result < 256 ^ width }
        ensures attempt { self.new.attempt ≡ self.old.attempt }
        ensures own { self.new.own ≡ self.old.own }
        ensures guards { (a : ℕ) → byte_in self.new.guarded.cells a ≡
            joined (read_outside addr width (byte_in self.old.own.cells) (λ b. slice_index committed.now b)) (byte_in self.old.guarded.cells) a }
        ensures within { (size : ℕ) → spec.IsWithin size self.old → spec.IsWithin size self.new }
        ensures room { (size n : ℕ) → spec.HasRoom size (n + 1) self.old → spec.HasRoom size n self.new }
    {
        let value = self.own.number(committed, addr, width);
        self.guarded.note(&self.own, committed, addr, width);
        value
    }

    /// Ends the attempt, and forgets its bytes.
    pub fn drop_attempt(&mut self)
        ensures idle { spec.IsIdle self.new }
        ensures within { (size : ℕ) → spec.IsWithin size self.old → spec.IsWithin size self.new }
        ensures room { (size n : ℕ) → spec.HasRoom size n self.old → spec.HasRoom size n self.new }
    {
        self.attempt = None;
        self.own.clear();
        self.guarded.clear();
    }

    /// Is straight from now on, and keeps no bytes.
    pub fn go_straight(&mut self)
        ensures attempt { self.new.attempt ≡ option_map spec.straightened self.old.attempt }
        ensures none { spec.KeepsNothing self.new }
        ensures within { (size : ℕ) → spec.IsWithin size self.old → spec.IsWithin size self.new }
        ensures room { (size n : ℕ) → spec.HasRoom size n self.old → spec.HasRoom size n self.new }
    {
        if let Some(attempt) = self.attempt {
            self.attempt = Some(Attempt {
                straight: true,
                ..attempt
            });
        }
        self.own.clear();
        self.guarded.clear();
    }

    /// It runs an attempt that guards some byte of these.
    pub fn guards_any(&self, own: &ShadowBytes) -> bool
        ensures found { result ≡ true → spec.GuardsOne (spec.bytes_in own.now.cells) self.now }
        ensures spared { result ≡ false → is_some self.now.attempt ≡ true → (a byte : ℕ) → byte_in own.now.cells a ≡ Some byte → byte_in self.now.guarded.cells a ≡ None }
    {
        if self.attempt.is_none() {
            return false;
        }
        for addr in own.touched() {
            if own.get(*addr).is_some() && self.guarded.get(*addr).is_some() {
                return true;
            }
        }
        false
    }

    /// It runs an attempt that guards some of so many bytes from an address on.
    pub fn guards_from(&self, addr: u32, width: u32) -> bool
        requires { addr + width < 2 ^ 32 }
        ensures found { result ≡ true → spec.GuardsOne (is_accessed addr width) self.now }
        ensures spared { result ≡ false → is_some self.now.attempt ≡ true → (i : ℕ) → i < width → byte_in self.now.guarded.cells (addr + i) ≡ None }
    {
        if self.attempt.is_none() {
            return false;
        }
        for i in 0..width {
            if self.guarded.get(addr + i).is_some() {
                return true;
            }
        }
        false
    }
}
