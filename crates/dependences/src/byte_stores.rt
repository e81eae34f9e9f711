//! A store, and stores beside bytes.
ghost use Rattle.std.specs.Prelude.{◌≡◌, ℕ, ◌+◌, ◌<◌, ◌≤◌, IfOk, length, vec_capacity, true, false};
ghost use Rattle.dependences.specs.KeptStores as spec;
ghost use Rattle.dependences.specs.KeptBytes.{store_at};
ghost use Rattle.dependences.specs.KeptLast.{IsLast};

use epoch_paths::Epoch;
use rv32_exec::NoMemory;
use std::alloc::Global;
use std::marker::Model;

/// A store as it is kept: the number of its epoch and 1, or 0 for none; the instructions done there; and its pc.
#[derive(Clone, Copy)]
pub(crate) struct StoredBy {
    pub(crate) writer: u32,
    pub(crate) step: u32,
    pub(crate) pc: u32,
}

impl StoredBy {
    /// The store of an epoch at this pc, after so many instructions.
    #[inline(always)]
    pub(crate) fn new(epoch: Epoch, step: u32, pc: u32) -> StoredBy
        ensures is { result ≡ record { writer = epoch + 1; step = step; pc = pc } }
        ensures some { 0 < result.writer }
        ensures small { result.writer < 4294967295 }
    {
        StoredBy {
            writer: epoch.note(),
            step,
            pc,
        }
    }

    /// Whether it is that of an epoch before this one.
    #[inline(always)]
    pub(crate) fn is_before(self, epoch: Epoch) -> bool
        ensures is { result ≡ true → (0 < self.writer) × (self.writer ≤ epoch) }
        ensures not { result ≡ false → self.writer ≤ epoch → self.writer ≡ 0 }
    {
        self.writer.wrapping_sub(1) < epoch.number()
    }
}

/// No store.
pub(crate) const NO_STORE: StoredBy = StoredBy {
    writer: 0,
    step: 0,
    pc: 0,
};

/// A store beside each byte of memory, at first none. Contracts see the lists of their numbers.
///
/// They are made up to the highest byte that is stored, when it is, so memory is taken by what is touched.
#[derive(Drop)]
pub(crate) struct ByteStores {
    stores: Vec<StoredBy>,
    size: usize,
}

impl Model for ByteStores {
    ghost use Rattle.std.specs.Prelude.{vec_capacity};
    ghost use Rattle.dependences.specs.KeptStores.{Stores};
    ghost use Rattle.dependences.specs.KeptMarks.{HasRoom};
    ghost use Rattle.dependences.specs.KeptBytes.{numbers_of};

    ghost Value = { Stores };

    ghost view = { λ s. numbers_of s.stores.items s.size };

    ghost invariant = { λ s. HasRoom s.stores.items s.size (vec_capacity s.stores) };
}

impl ByteStores {
    /// None, of so many bytes.
    ///
    /// `NoMemory`: there was no room for them.
    pub(crate) fn none(alloc: Global, size: usize) -> Result<ByteStores, NoMemory>
        ensures long { IfOk result (λ s. spec.AreLong s size) }
    {
        let stores = Vec::with_capacity(alloc, size)?;
        Ok(ByteStores { stores, size })
    }

    /// The store beside a byte.
    #[inline(always)]
    pub(crate) fn at(&self, byte: u32) -> StoredBy
        ensures { IsLast self.now byte result }
    {
        match self.stores.get(byte as usize) {
            Some(by) => *by,
            None => NO_STORE,
        }
    }

    /// Keeps a store beside a byte.
    #[inline(always)]
    pub(crate) fn put(&mut self, byte: u32, by: StoredBy)
        requires { byte < length self.old.writers }
        ensures { spec.AreMarked self.old self.new byte 1 by.writer by.step by.pc }
    {
        let at = byte as usize;
        reach(&mut self.stores, at, self.size);
        self.stores[at] = by;
    }
}

/// How many stores are made at a time, at least.
const STEP: usize = 512;

/// Makes stores up to this byte, of so many for which there is room.
#[inline(always)]
pub(crate) fn reach(stores: &mut Vec<StoredBy>, at: usize, size: usize)
    requires at { at < size }
    requires room { size ≤ vec_capacity stores.old }
    requires within { length stores.old.items ≤ size }
    ensures there { at < length stores.new.items }
    ensures within { length stores.new.items ≤ size }
    ensures same { (a : ℕ) → store_at stores.new.items a ≡ store_at stores.old.items a }
    ensures capacity { vec_capacity stores.old ≤ vec_capacity stores.new }
{
    if at >= stores.len() {
        lengthen(stores, at, size);
    }
}

/// Makes stores up to this byte, which is past them, and some more.
#[inline(never)]
fn lengthen(stores: &mut Vec<StoredBy>, at: usize, size: usize)
    requires past { length stores.old.items ≤ at }
    requires at { at < size }
    requires room { size ≤ vec_capacity stores.old }
    ensures there { at < length stores.new.items }
    ensures within { length stores.new.items ≤ size }
    ensures same { (a : ℕ) → store_at stores.new.items a ≡ store_at stores.old.items a }
    ensures capacity { vec_capacity stores.old ≤ vec_capacity stores.new }
{
    let more = size.min(at.saturating_add(STEP));
    stores.resize(more, NO_STORE).unwrap();
}
