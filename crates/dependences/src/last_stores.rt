//! The last store of each byte.
ghost use Rattle.std.specs.Prelude.{◌≡◌, ℕ, ◌+◌, ◌%◌, ◌<◌, ◌≤◌, ◌^◌, IfOk, length, slice_index};
ghost use Rattle.memory_bytes.specs.Bytes.{IsWidth};
ghost use Rattle.dependences.specs.KeptStores as spec;
ghost use Rattle.dependences.specs.KeptWords.{AreSpread, AreWords, IsBy, word_at, word_of};
ghost use Rattle.dependences.specs.KeptLast.{AreLast, IsLast, dependence_by};

use crate::byte_stores::{ByteStores, NO_STORE, StoredBy};
use crate::flow::Dependence;
use crate::word_stores::{Word, WordStores};
use epoch_paths::Epoch;
use rv32_exec::NoMemory;
use std::alloc::Global;
use std::marker::Model;

/// A byte of a load, and by what it was stored last.
#[derive(Clone, Copy)]
pub(crate) struct LastStore {
    pub(crate) byte: u32,
    pub(crate) by: StoredBy,
}

/// Of each byte the last store: the number of its epoch and 1, or 0 for none; the instructions done there; and its pc.
///
/// It is kept once for a word, where one store has stored all of the word last, and else beside each of its bytes.
#[derive(Drop)]
pub(crate) struct LastStores {
    words: WordStores,
    bytes: ByteStores,
}

impl Model for LastStores {
    ghost use Rattle.dependences.specs.KeptStores.{Stores};
    ghost use Rattle.dependences.specs.KeptWords.{AreWords, last_stores};

    ghost Value = { Stores };

    ghost view = { λ s. last_stores s.words s.bytes };

    ghost invariant = { λ s. AreWords s.words s.bytes };
}

impl LastStores {
    /// None, of so many bytes.
    ///
    /// `NoMemory`: there was no room for what is kept of them.
    pub(crate) fn none(alloc: Global, size: usize) -> Result<LastStores, NoMemory>
        requires { size % 4 ≡ 0 }
        ensures long { IfOk result (λ s. spec.AreLong s size) }
        ensures none { IfOk result (λ s. (a : ℕ) → slice_index s.writers a ≡ 0) }
    {
        let words = WordStores::none(alloc, size / 4)?;
        let bytes = ByteStores::none(alloc, size)?;
        Ok(LastStores { words, bytes })
    }

    /// By what the bytes of an aligned access were stored last; `Bytes` where it is of several and each has a store of its own.
    #[inline(always)]
    pub(crate) fn last_of(&self, addr: u32, width: u32) -> Word
        requires wide { IsWidth width }
        requires aligned { addr % width ≡ 0 }
        requires within { addr + width ≤ length self.now.writers }
        ensures { AreLast self.now addr width result }
    {
        match self.words.at(addr / 4) {
            Word::Bytes => {
                if width == 1 {
                    return Word::Whole(self.bytes.at(addr));
                }
                Word::Bytes
            }
            word => word,
        }
    }

    /// As what the word of an aligned access is kept.
    #[inline(always)]
    pub(crate) fn kept_at(&self, addr: u32, _width: u32) -> StoredBy
        requires wide { IsWidth _width }
        requires aligned { addr % _width ≡ 0 }
        requires within { addr + _width ≤ length self.now.writers }
        ensures { AreLast self.now addr _width (word_of result) }
    {
        self.words.kept_at(addr / 4)
    }

    /// Of the bytes of a load whose last writer is an epoch before this one, the first of the latest such epoch.
    pub(crate) fn nearest_byte(&self, epoch: Epoch, addr: u32, width: u32) -> Option<u32>
        requires small { length self.now.writers < 2 ^ 32 }
        requires within { addr + width ≤ length self.now.writers }
        ensures { spec.IsNearestByte self.now.writers epoch addr width result }
    {
        let mut nearest = None;
        let mut latest = 0;
        for byte in addr..addr + width {
            let writer = self.stored_by(byte).writer;
            if latest < writer && writer <= epoch.number() {
                latest = writer;
                nearest = Some(byte);
            }
        }
        nearest
    }

    /// Keeps an aligned store of these bytes by an epoch, at this pc, after so many instructions.
    #[inline(always)]
    pub(crate) fn mark(&mut self, addr: u32, width: u32, epoch: Epoch, step: u32, pc: u32)
        requires aligned { addr % width ≡ 0 }
        requires long { spec.AreLong self.old (length self.old.writers) }
        requires small { length self.old.writers < 2 ^ 32 }
        requires within { addr + width ≤ length self.old.writers }
        ensures { spec.AreMarked self.old self.new addr width (epoch + 1) step pc }
    {
        // Made in each branch, so that LLVM keeps those of words and bytes in registers.
        if width == 4 {
            let by = StoredBy::new(epoch, step, pc);
            self.words.put(addr / 4, Word::Whole(by));
        } else if width == 1 {
            let by = StoredBy::new(epoch, step, pc);
            self.mark_byte(addr, by);
        } else {
            let by = StoredBy::new(epoch, step, pc);
            self.mark_bytes(addr, width, by);
        }
    }

    /// Keeps this store beside this byte.
    #[inline(always)]
    fn mark_byte(&mut self, byte: u32, by: StoredBy)
        requires small { length self.old.writers < 2 ^ 32 }
        requires within { byte < length self.old.writers }
        ensures { spec.AreMarked self.old self.new byte 1 by.writer by.step by.pc }
    {
        spread(&mut self.words, &mut self.bytes, byte / 4);
        self.bytes.put(byte, by);
    }

    /// Keeps this store beside each of these bytes.
    #[inline(never)]
    fn mark_bytes(&mut self, addr: u32, width: u32, by: StoredBy)
        requires small { length self.old.writers < 2 ^ 32 }
        requires within { addr + width ≤ length self.old.writers }
        ensures { spec.AreMarked self.old self.new addr width by.writer by.step by.pc }
    {
        for i in 0..width {
            self.mark_byte(addr + i, by);
        }
    }

    /// By what a byte was stored last.
    #[inline(always)]
    pub(crate) fn stored_by(&self, byte: u32) -> StoredBy
        requires { byte < length self.now.writers }
        ensures { IsLast self.now byte result }
    {
        match self.words.at(byte / 4) {
            Word::Untouched => NO_STORE,
            Word::Whole(by) => by,
            Word::Bytes => self.bytes.at(byte),
        }
    }
}

impl LastStore {
    /// The dependence of an epoch's load at this pc, after so many instructions, by this byte.
    #[inline(always)]
    pub(crate) fn dependence(self, epoch: Epoch, pc: u32, step: u32) -> Dependence
        requires { 0 < self.by.writer }
        ensures { result ≡ dependence_by self epoch pc step }
    {
        Dependence {
            earlier: self.by.writer - 1,
            stored: self.by.step,
            store_pc: self.by.pc,
            later: epoch.number(),
            loaded: step,
            load_pc: pc,
            byte: self.byte,
        }
    }
}

/// Keeps the last store of a word beside each of its bytes, where that isn't so.
#[inline(always)]
fn spread(words: &mut WordStores, bytes: &mut ByteStores, word: u32)
    requires words { AreWords words.old bytes.old }
    requires small { length bytes.old.writers < 2 ^ 32 }
    requires within { word < length words.old }
    ensures kept { AreWords words.new bytes.new }
    ensures spread { AreSpread words.old bytes.old words.new bytes.new word }
{
    match words.at(word) {
        Word::Untouched => spread_one(words, bytes, word, NO_STORE),
        Word::Whole(by) => spread_one(words, bytes, word, by),
        Word::Bytes => {}
    }
}

/// Keeps the one last store of a word beside each of its bytes.
#[inline(never)]
fn spread_one(words: &mut WordStores, bytes: &mut ByteStores, word: u32, by: StoredBy)
    requires words { AreWords words.old bytes.old }
    requires small { length bytes.old.writers < 2 ^ 32 }
    requires within { word < length words.old }
    requires by { IsBy (word_at words.old word) by }
    ensures kept { AreWords words.new bytes.new }
    ensures spread { AreSpread words.old bytes.old words.new bytes.new word }
{
    words.put(word, Word::Bytes);
    for i in 0..4 {
        bytes.put(4 * word + i, by);
    }
}
