//! Which bytes of memory the epoch that runs has stored.
ghost use Rattle.std.specs.Prelude.{◌≡◌, ℕ, ◌+◌, ◌-◌, ◌%◌, ◌/◌, ◌<◌, ◌≤◌, ◌^◌, IfOk, true, false, length, slice_index};
ghost use Rattle.memory_bytes.specs.Bytes.{IsWidth};
ghost use Rattle.dependences.specs.KeptOwn as spec;

use crate::marks::Marks;
use epoch_paths::Epoch;
use rv32_exec::NoMemory;
use std::alloc::Global;
use std::marker::Model;

/// How many bytes a block has.
const BLOCK: u32 = 16;

/// Which bytes of memory the epoch that runs has stored, by blocks of 16 bytes. Of each: the last epoch that stored in it, and 1, or 0
/// for none; and which of its bytes that one has stored, the first by bit 0.
#[derive(Drop)]
pub(crate) struct OwnBytes {
    by: Marks,
    bits: Marks,
}

impl Model for OwnBytes {
    ghost use Rattle.dependences.specs.KeptOwn as spec;

    ghost Value = { spec.OwnBytes };

    ghost view = { λ o. record { by = o.by; bits = o.bits } };
}

impl OwnBytes {
    /// None, of a memory of so many bytes.
    ///
    /// `NoMemory`: there was no room for two words beside each block.
    pub(crate) fn none(alloc: Global, size: usize) -> Result<OwnBytes, NoMemory>
        requires small { size < 2 ^ 32 }
        ensures long { IfOk result (λ o. spec.AreLong o size) }
        ensures none { IfOk result (λ o. (block : ℕ) → slice_index o.by block ≡ 0) }
    {
        let blocks = size / 16 + 1;
        let by = Marks::none(alloc, blocks)?;
        let bits = Marks::none(alloc, blocks)?;
        Ok(OwnBytes { by, bits })
    }

    /// Whether this epoch, the last one that stored, has stored this byte.
    #[inline(always)]
    pub(crate) fn has(&self, epoch: Epoch, byte: u32) -> bool
        ensures is { result ≡ true → spec.HasStored self.now epoch byte }
        ensures not { result ≡ false → spec.HasStored self.now epoch byte → ⊥ }
    {
        let block = byte / BLOCK;
        if self.by.at(block) != epoch.note() {
            return false;
        }
        (self.bits.at(block) >> (byte % BLOCK)) % 2 == 1
    }

    /// Notes that this epoch stores these bytes.
    #[inline(always)]
    pub(crate) fn mark(&mut self, epoch: Epoch, addr: u32, width: u32)
        requires wide { IsWidth width }
        requires aligned { addr % width ≡ 0 }
        requires by { addr / 16 < length self.old.by }
        requires bits { addr / 16 < length self.old.bits }
        ensures { spec.AreOwned self.old self.new epoch addr width }
    {
        let block = addr / BLOCK;
        let before = self.before(epoch, block);
        self.by.put(block, epoch.note());
        self.bits.put(block, before | bits_of(addr % BLOCK, width));
    }

    /// Which bytes of a block this epoch has stored, if it was the last that stored there.
    #[inline(always)]
    fn before(&self, epoch: Epoch, block: u32) -> u32
        ensures { result ≡ spec.bits_before self.now epoch block }
    {
        if self.by.at(block) == epoch.note() {
            self.bits.at(block)
        } else {
            0
        }
    }
}

/// The bits of so many bytes, from this one of a block on.
#[inline(always)]
fn bits_of(first: u32, width: u32) -> u32
    requires { first + width ≤ 16 }
    ensures { result ≡ 2 ^ (first + width) - 2 ^ first }
{
    (1 << (first + width)) - (1 << first)
}
