//! What the cores of a plain store keep.
ghost use Rattle.std.specs.Prelude.{◌≡◌, ◌≢◌, ◌++◌, ◌<◌, ℕ, IfOk, OnOk, length};
ghost use Rattle.violations.specs.Plain.{store_view};
ghost use Rattle.violations.specs.View.{StoreView, IsClear};
ghost use Rattle.turn_steps.specs.Kept.{IsKeptBut, ShowsKept};
ghost use Rattle.turn_steps.specs.KeptCores as spec;
ghost use Rattle.turn_steps.specs.Rows.{kept_changes, row_count};

use crate::entries::add_touched_rows;
use crate::kept::ShownKept;
use crate::store::ShownStore;
use rv32_exec::Image;
use spec_history::Entry;
use std::alloc::{AllocError, Global};
use std::collections::BTreeSet;
use violations::{Attempt, EpochStore, PlainStore};

/// What the cores of a plain store were shown to keep.
#[derive(Drop)]
pub struct ShownPlain {
    /// The bytes of memory.
    size: u32,
    /// Core by core.
    cores: Vec<ShownKept>,
}

impl ShownStore for PlainStore {
    ghost use Rattle.turn_steps.specs.KeptCores.{AreKept, IsOfStore, plain_changes};

    type Shown = ShownPlain;

    ghost fits = { λ shown shape. IsOfStore shown.size shown.cores.items shape };

    ghost shows = { λ shown v. AreKept shown.size shown.cores.items v };

    ghost changes = { plain_changes };

    fn changes_are_fixed() {}

    fn attempt_of(&self, core: u32) -> Option<Attempt> {
        self.attempt(core)
    }

    fn first_shown(
        &self,
        alloc: Global,
        image: &Image,
        cores: u32,
    ) -> Result<ShownPlain, AllocError> {
        self.look();
        let cores = no_rows(alloc, cores)?;
        Ok(ShownPlain {
            size: image.size(),
            cores,
        })
    }

    fn push_changes(
        &self,
        alloc: Global,
        text: &mut Vec<u8>,
        shown: &mut ShownPlain,
        _core: u32,
        added: &[Entry],
    ) -> Result<(), AllocError> {
        let mut rows = BTreeSet::new(alloc);
        add_touched_rows(added, &mut rows)?;
        for core in 0..shown.cores.len() {
            push_core(alloc, text, &mut shown.cores, self, core as u32, &rows)?;
        }
        Ok(())
    }

    fn push_own_rows(
        shown: &ShownPlain,
        core: u32,
        rows: &mut BTreeSet<u32>,
    ) -> Result<(), AllocError> {
        match shown.cores.get(core as usize) {
            Some(kept) => kept.push_own_rows(rows),
            None => Ok(()),
        }
    }
}

/// Nothing of each of so many cores.
fn no_rows(alloc: Global, cores: u32) -> Result<Vec<ShownKept>, AllocError>
    ensures long { IfOk result (λ shown. length shown.items ≡ cores) }
    ensures shows { IfOk result (λ shown. (v : StoreView) (k : ℕ) → k < cores → IsClear v k → ShowsKept v k (spec.kept_in shown.items k)) }
{
    let mut shown = Vec::new(alloc);
    for _ in 0..cores {
        shown.push(ShownKept::new(alloc))?;
    }
    Ok(shown)
}

/// Adds the text of what a core keeps otherwise than was shown. Where it is speculative, only these rows may be otherwise.
fn push_core(
    alloc: Global,
    text: &mut Vec<u8>,
    cores: &mut Vec<ShownKept>,
    store: &PlainStore,
    core: u32,
    rows: &BTreeSet<u32>,
) -> Result<(), AllocError>
    requires { core < length cores.old.items }
    ensures long { length cores.new.items ≡ length cores.old.items }
    ensures others { (k : ℕ) → k ≢ core → spec.kept_in cores.new.items k ≡ spec.kept_in cores.old.items k }
    ensures text { (old : StoreView) → ShowsKept old core (spec.kept_in cores.old.items core) → IsKeptBut rows.now old (store_view store.now) core
        → OnOk result (text.new.items ≡ text.old.items ++ kept_changes core old (store_view store.now) (row_count old)) }
    ensures shown { (old : StoreView) → ShowsKept old core (spec.kept_in cores.old.items core) → IsKeptBut rows.now old (store_view store.now) core
        → OnOk result (ShowsKept (store_view store.now) core (spec.kept_in cores.new.items core)) }
{
    let kept = &mut cores[core as usize];
    kept.push_changes(alloc, text, store, core, rows)
}
