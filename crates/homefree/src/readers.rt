//! What can be read of a book.
ghost use Rattle.std.specs.Prelude.{◌≡◌, ℕ, IfOk, ◌<◌, length, Some, None, option_copied, option_map, slice_get, nat_lt, if◌then◌else◌};
ghost use Rattle.spec_history.specs.FlatState.{FlatState};
ghost use Rattle.violations.specs.View.{IsCommitted};
ghost use Rattle.homefree.specs.BookView.{ReplaysTo};
ghost use Rattle.homefree.specs.InStep.{InStep};
ghost use Rattle.homefree.specs.Kept.{kept_of};

use crate::answer::StopCause;
use crate::book::Book;
use crate::register::Running;
use run_ledger::Counts;
use rv32_exec::{End, Image};
use spec_history::Entry;
use std::alloc::{AllocError, Global};
use violations::EpochStore;

impl<S: EpochStore> Book<S> {
    /// The committed byte at an address, if it lies in memory.
    pub fn committed(&self, addr: u32) -> Option<u8>
        ensures { result ≡ (if nat_lt addr self.now.image.size then Some ((S.view self.now.store).committed addr) else None) }
    {
        if addr < self.inside.parts.register.image.size() {
            Some(self.inside.parts.store.committed_byte(addr))
        } else {
            None
        }
    }

    /// Committed memory, byte for byte from address 0 on; the store is of the image's size. It is taken whole.
    ///
    /// `AllocError`: memory ran out.
    pub fn committed_memory(&self, alloc: Global) -> Result<Vec<u8>, AllocError>
        ensures memory { IfOk result (λ bytes. IsCommitted (S.view self.now.store) bytes.items) }
        ensures size { (S.view self.now.store).shape.size ≡ self.now.image.size }
    {
        self.inside.parts.store.committed_memory(alloc)
    }

    /// The entry at a place of the history, counted from 0, if it is there.
    pub fn entry(&self, place: usize) -> Option<Entry>
        ensures { result ≡ slice_get self.now.history place }
    {
        self.inside.parts.register.history.get(place).copied()
    }

    /// The history: all entries, in order.
    pub fn history(&self) -> &[Entry]
        ensures { result.now ≡ self.now.history }
    {
        self.inside.parts.register.history.as_slice()
    }

    /// The store.
    pub fn store(&self) -> &S
        ensures { result.now ≡ self.now.store }
    {
        &self.inside.parts.store
    }

    /// How many entries the history has.
    pub fn len(&self) -> usize
        ensures { result ≡ length self.now.history }
    {
        self.inside.parts.register.history.len()
    }

    /// The homefree epoch: the first that has not committed.
    pub fn homefree(&self) -> u32
        ensures homefree { (s : FlatState) → ReplaysTo self.now s → result ≡ s.homefree }
        ensures step { InStep S.view self.now }
    {
        self.inside.parts.register.homefree
    }

    /// The epoch that an idle core begins next. None: none is left.
    pub fn next_epoch(&self) -> Option<u32>
        ensures { (s : FlatState) → ReplaysTo self.now s
            → result ≡ (if nat_lt s.next_epoch self.now.image.epochs then Some s.next_epoch else None) }
    {
        let register = &self.inside.parts.register;
        if register.next_epoch < register.image.epochs() {
            Some(register.next_epoch)
        } else {
            None
        }
    }

    /// What a core runs. None: it is idle.
    pub fn running(&self, core: u32) -> Option<&Running>
        requires { core < self.now.cores }
        ensures { (s : FlatState) → ReplaysTo self.now s → option_copied result ≡ option_map kept_of (s.cores core) }
    {
        self.inside.parts.register.running[core as usize].as_ref()
    }

    /// How the loop ended, where it is over.
    pub fn ended(&self) -> Option<End>
        ensures end { (s : FlatState) → ReplaysTo self.now s → result ≡ s.end }
        ensures step { InStep S.view self.now }
    {
        self.inside.parts.register.end
    }

    /// Why the book takes no more turns, where it was stopped.
    pub fn stopped(&self) -> Option<StopCause>
        ensures { result ≡ self.now.stopped }
    {
        self.inside.stopped
    }

    /// How many loads, stores, restarts and commits the history has.
    pub fn totals(&self) -> Counts
        ensures { result ≡ self.now.totals }
    {
        self.inside.parts.register.totals.counts()
    }

    /// The image of the loop.
    pub(crate) fn image(&self) -> &Image
        ensures { result.now ≡ self.now.image }
    {
        &self.inside.parts.register.image
    }
}
