//! What was shown of a loop: of its store, and of committed memory.
ghost use Rattle.std.specs.Prelude.{◌≡◌, ◌++◌, ℕ, IfOk, OnOk};
ghost use Rattle.violations.specs.Rule.{IsFresh};
ghost use Rattle.violations.specs.View.{StoreView};
ghost use Rattle.turn_steps.specs.Laws.{KeepsMemory};
ghost use Rattle.turn_steps.specs.Memory.{IsMemoryBut, ShowsMemory};
ghost use Rattle.turn_steps.specs.Rows.{at_changes, row_count};
ghost use Rattle.turn_steps.specs.Telling as spec;

use crate::entries::{add_stored_rows, has_commit};
use crate::memory::ShownMemory;
use crate::store::ShownStore;
use rv32_exec::Image;
use spec_history::Entry;
use std::alloc::{AllocError, Global};
use std::collections::BTreeSet;
use violations::EpochStore;

/// What was shown of a store and of its committed memory.
#[derive(Drop)]
pub(crate) struct ShownLoop<S: ShownStore> {
    pub store: S::Shown,
    pub memory: ShownMemory,
}

impl<S: ShownStore> ShownLoop<S> {
    /// What a fresh store of this image shows.
    pub fn of(
        alloc: Global,
        store: &S,
        image: &Image,
        cores: u32,
    ) -> Result<ShownLoop<S>, AllocError>
        requires { IsFresh image.now cores (S.view store.now) }
        ensures fits { IfOk result (λ shown. S.fits shown.store (S.view store.now).shape) }
        ensures shows { IfOk result (λ shown. S.shows shown.store store.now) }
        ensures memory { IfOk result (λ shown. ShowsMemory (S.view store.now) shown.memory) }
    {
        let memory = ShownMemory::new(alloc, image)?;
        Ok(ShownLoop {
            store: store.first_shown(alloc, image, cores)?,
            memory,
        })
    }

    /// Adds the text of what the store holds otherwise than was shown, after a turn of this core that added these entries.
    pub fn push_changes(
        &mut self,
        alloc: Global,
        text: &mut Vec<u8>,
        store: &S,
        core: u32,
        added: &[Entry],
    ) -> Result<(), AllocError>
        requires { spec.Fits S.view S.fits self.old.store self.old.memory store.now }
        ensures fits { OnOk result (S.fits self.new.store (S.view store.now).shape) }
        ensures text { (old : S) → spec.Leads S.view S.shows self.old.store self.old.memory core old store.now added.now
            → OnOk result (text.new.items ≡ text.old.items ++ S.changes (S.view store.now).shape.cores old store.now
            ++ at_changes (S.view old).committed (S.view store.now).committed (row_count (S.view old))) }
        ensures shows { (old : S) → spec.Leads S.view S.shows self.old.store self.old.memory core old store.now added.now → OnOk result (S.shows self.new.store store.now) }
        ensures memory { (old : S) → spec.Leads S.view S.shows self.old.store self.old.memory core old store.now added.now
            → OnOk result (ShowsMemory (S.view store.now) self.new.memory) }
    {
        let rows = changed_rows::<S>(alloc, &self.store, core, added)?;
        store.push_changes(alloc, text, &mut self.store, core, added)?;
        self.memory.push_changes(alloc, text, store, &rows)?;
        Ok(())
    }
}

/// The rows of committed memory that a turn of this core may have changed, which added these entries.
fn changed_rows<S: ShownStore>(
    alloc: Global,
    shown: &S::Shown,
    core: u32,
    added: &[Entry],
) -> Result<BTreeSet<u32>, AllocError>
    ensures { (old : S) (now : StoreView) → S.shows shown.now old → now.shape ≡ (S.view old).shape → KeepsMemory (S.view old) now core added.now
        → IfOk result (λ rows. IsMemoryBut rows (S.view old) now) }
{
    let mut rows = BTreeSet::new(alloc);
    add_stored_rows(added, &mut rows)?;
    if has_commit(added) {
        S::push_own_rows(shown, core, &mut rows)?;
        return Ok(rows);
    }
    Ok(rows)
}
