//! Committed memory.
ghost use Rattle.std.specs.Prelude.{◌≡◌, ◌++◌, ◌+◌, ◌*◌, ◌<◌, ◌≤◌, ◌^◌, ◌≢◌, ℕ, IfOk, OnOk, length};
ghost use Rattle.violations.specs.Rule.{IsFresh};
ghost use Rattle.violations.specs.View.{StoreView};
ghost use Rattle.turn_steps.specs.Rows.{at_changes, row_count};
ghost use Rattle.turn_steps.specs.Memory as spec;
ghost use Rattle.turn_steps.specs.Passes.{inside};

use crate::committed_row::{committed_row, push_at_change, row_in};
use crate::rows::Row;
use rv32_image::Image;
use std::alloc::{AllocError, Global};
use std::collections::BTreeSet;
use std::marker::Model;
use violations::EpochStore;

/// What committed memory was shown to hold, row by row.
#[derive(Drop)]
pub struct ShownMemory {
    rows: Vec<[u8; 16]>,
}

impl Model for ShownMemory {
    ghost use Rattle.std.specs.Prelude.{ℕ, ◌≤◌, List, length};

    ghost Value = { List (List ℕ) };

    ghost view = { λ m. m.rows.items };

    ghost invariant = { λ m. length m.rows.items ≤ 65536 };
}

impl ShownMemory {
    /// The memory of an image, as a fresh store has it.
    ///
    /// `AllocError`: memory ran out.
    pub fn new(alloc: Global, image: &Image) -> Result<ShownMemory, AllocError>
        ensures { IfOk result (λ shown. (v : StoreView) (cores : ℕ) → IsFresh image.now cores v → spec.ShowsMemory v shown) }
    {
        let mut rows = Vec::new(alloc);
        for row in 0..image.size() / 16 {
            rows.push(row_in(image.bytes(), 16 * row))?;
        }
        Ok(ShownMemory { rows })
    }

    /// Adds the line of each row whose committed bytes aren't as they were shown, by address. Only these rows may be otherwise, and no others
    /// are looked at. Those past memory's end are left out.
    ///
    /// `AllocError`: memory ran out. Some of the text may be there.
    pub fn push_changes<S: EpochStore>(
        &mut self,
        alloc: Global,
        text: &mut Vec<u8>,
        store: &S,
        rows: &BTreeSet<u32>,
    ) -> Result<(), AllocError>
        requires size { length self.old ≡ row_count (S.view store.now) }
        ensures text { (old : StoreView) → spec.ShowsMemory old self.old → spec.IsMemoryBut rows.now old (S.view store.now)
            → OnOk result (text.new.items ≡ text.old.items ++ at_changes old.committed (S.view store.now).committed (row_count old)) }
        ensures shown { (old : StoreView) → spec.ShowsMemory old self.old → spec.IsMemoryBut rows.now old (S.view store.now)
            → OnOk result (spec.ShowsMemory (S.view store.now) self.new) }
    {
        for row in rows {
            self.push_row(alloc, text, store, *row)?;
        }
        Ok(())
    }

    /// Adds the line of a row, where its committed bytes aren't as they were shown. A row past memory's end is left out.
    fn push_row<S: EpochStore>(
        &mut self,
        alloc: Global,
        text: &mut Vec<u8>,
        store: &S,
        row: u32,
    ) -> Result<(), AllocError>
        requires size { length self.old ≡ row_count (S.view store.now) }
        ensures long { length self.new ≡ length self.old }
        ensures text { OnOk result (text.new.items ≡ text.old.items
            ++ inside (length self.old) (λ r. spec.at_change (S.view store.now).committed r (spec.shown_row self.old r)) row) }
        ensures row { OnOk result (row < length self.old → spec.shown_row self.new row ≡ spec.row_of (S.view store.now).committed row) }
        ensures others { (r : ℕ) → r ≢ row → spec.shown_row self.new r ≡ spec.shown_row self.old r }
    {
        if row as usize >= self.rows.len() {
            return Ok(());
        }
        let of = Row::new(row);
        let now = committed_row(store, of);
        push_at_change(alloc, text, of, &self.rows[row as usize], &now)?;
        self.rows[row as usize] = now;
        Ok(())
    }
}
