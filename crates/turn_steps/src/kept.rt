//! What a core of a plain store keeps.
ghost use Rattle.std.specs.Prelude.{◌≡◌, ◌++◌, ◌<◌, ◌≤◌, ◌||◌, ◌≢◌, ◌==◌, ℕ, Some, None, OnOk, not, true, false};
ghost use Rattle.std.specs.BTreeSet.{contains};
ghost use Rattle.std.specs.Ordering.{nat_cmp};
ghost use Rattle.violations.specs.Plain.{store_view};
ghost use Rattle.violations.specs.View.{StoreView, IsClear};
ghost use Rattle.turn_steps.specs.Rows.{kept_changes, row_count, text_below};
ghost use Rattle.turn_steps.specs.KeptRow.{kept_of, nothing};
ghost use Rattle.turn_steps.specs.Kept as spec;
ghost use Rattle.turn_steps.specs.Passes.{IsAllShown, IsRestShown, inside};

use crate::kept_row::{KeptRow, push_kept_change};
use crate::rows::RowCount;
use std::alloc::{AllocError, Global};
use std::collections::{BTreeMap, BTreeSet};
use std::marker::Model;
use violations::{Attempt, EpochStore, PlainStore};

/// What a core of a plain store was shown to keep, row by row. A row of which it keeps nothing takes no memory.
#[derive(Drop)]
pub struct ShownKept {
    rows: BTreeMap<u32, KeptRow>,
}

impl Model for ShownKept {
    ghost use Rattle.std.specs.Prelude.{ℕ, List};
    ghost use Rattle.turn_steps.specs.declared.kept_row.KeptRow.{KeptRow};

    ghost Value = { List (ℕ × KeptRow) };

    ghost view = { λ s. s.rows.entries };
}

impl ShownKept {
    /// Nothing was shown yet: the core keeps nothing.
    pub fn new(alloc: Global) -> ShownKept
        ensures { (v : StoreView) (core : ℕ) → IsClear v core → spec.ShowsKept v core result }
    {
        ShownKept {
            rows: BTreeMap::new(alloc),
        }
    }

    /// Adds the line of each row of which the core doesn't keep what was shown, by address. Where it is speculative, only these rows may be
    /// otherwise, and no others are looked at; else it keeps nothing, and all rows that were shown are looked at. Those past memory's end are
    /// left out.
    ///
    /// `AllocError`: memory ran out. Some of the text may be there.
    pub fn push_changes(
        &mut self,
        alloc: Global,
        text: &mut Vec<u8>,
        store: &PlainStore,
        core: u32,
        rows: &BTreeSet<u32>,
    ) -> Result<(), AllocError>
        ensures text { (old : StoreView) → spec.ShowsKept old core self.old → spec.IsKeptBut rows.now old (store_view store.now) core
            → OnOk result (text.new.items ≡ text.old.items ++ kept_changes core old (store_view store.now) (row_count old)) }
        ensures shown { (old : StoreView) → spec.ShowsKept old core self.old → spec.IsKeptBut rows.now old (store_view store.now) core
            → OnOk result (spec.ShowsKept (store_view store.now) core self.new) }
    {
        store.look();
        let count = RowCount::of(store.size());
        if is_speculative(store.attempt(core)) {
            return self.push_rows(alloc, text, store, core, count, rows);
        }
        self.push_ends(alloc, text, core, count)?;
        self.forget();
        Ok(())
    }

    /// Puts the rows of which the core was shown to have stored bytes beside those that are there.
    ///
    /// `AllocError`: memory ran out. Some of the rows may be there.
    pub fn push_own_rows(&self, rows: &mut BTreeSet<u32>) -> Result<(), AllocError>
        ensures kept { OnOk result ((row : ℕ) → contains nat_cmp rows.old row ≡ true → contains nat_cmp rows.new row ≡ true) }
        ensures own { (old : StoreView) (core : ℕ) → spec.ShowsKept old core self.now → OnOk result ((row : ℕ) → row < row_count old
            → contains nat_cmp rows.new row ≡ (contains nat_cmp rows.old row || spec.owns_in old core row)) }
    {
        self.push_owned(rows)
    }

    /// Adds the lines of these rows, where the core doesn't keep what was shown.
    fn push_rows(
        &mut self,
        alloc: Global,
        text: &mut Vec<u8>,
        store: &PlainStore,
        core: u32,
        count: RowCount,
        rows: &BTreeSet<u32>,
    ) -> Result<(), AllocError>
        ensures text { IsRestShown rows.now count (spec.row_at self.old) (kept_of (store_view store.now) core) → OnOk result
            (text.new.items ≡ text.old.items ++ text_below (λ row. spec.kept_change core (kept_of (store_view store.now) core) row (spec.row_at self.old row)) count) }
        ensures shown { IsRestShown rows.now count (spec.row_at self.old) (kept_of (store_view store.now) core)
            → OnOk result (IsAllShown count (spec.row_at self.new) (kept_of (store_view store.now) core)) }
    {
        for row in rows {
            self.push_row(alloc, text, store, core, count, *row)?;
        }
        Ok(())
    }

    /// Adds the line of the row of this number, where the core doesn't keep what was shown. A row past the first so many is left out.
    fn push_row(
        &mut self,
        alloc: Global,
        text: &mut Vec<u8>,
        store: &PlainStore,
        core: u32,
        count: RowCount,
        number: u32,
    ) -> Result<(), AllocError>
        ensures text { OnOk result (text.new.items ≡ text.old.items
            ++ inside count (λ r. spec.kept_change core (kept_of (store_view store.now) core) r (spec.row_at self.old r)) number) }
        ensures row { OnOk result (number < count → spec.row_at self.new number ≡ kept_of (store_view store.now) core number) }
        ensures others { (r : ℕ) → r ≢ number → spec.row_at self.new r ≡ spec.row_at self.old r }
    {
        let Some(row) = count.row(number) else {
            return Ok(());
        };
        let now = KeptRow::of(store, core, row);
        push_kept_change(alloc, text, core, row, &self.row(number), &now)?;
        self.show(number, now)
    }

    /// Adds the lines of the rows that were shown, of all of which the core now keeps nothing.
    fn push_ends(
        &self,
        alloc: Global,
        text: &mut Vec<u8>,
        core: u32,
        count: RowCount,
    ) -> Result<(), AllocError>
        ensures { OnOk result (text.new.items ≡ text.old.items ++ text_below (λ row. spec.kept_change core (λ _. nothing) row (spec.row_at self.now row)) count) }
    {
        for row in self.rows.keys() {
            self.push_end(alloc, text, core, count, *row)?;
        }
        Ok(())
    }

    /// Adds the line of the row of this number, of which the core now keeps nothing. A row past the first so many is left out.
    fn push_end(
        &self,
        alloc: Global,
        text: &mut Vec<u8>,
        core: u32,
        count: RowCount,
        number: u32,
    ) -> Result<(), AllocError>
        ensures { OnOk result (text.new.items ≡ text.old.items ++ inside count (λ r. spec.kept_change core (λ _. nothing) r (spec.row_at self.now r)) number) }
    {
        let Some(row) = count.row(number) else {
            return Ok(());
        };
        push_kept_change(
            alloc,
            text,
            core,
            row,
            &self.row(number),
            &KeptRow::nothing(),
        )
    }

    /// Puts the rows of which the core was shown to have stored bytes beside those that are there.
    fn push_owned(&self, rows: &mut BTreeSet<u32>) -> Result<(), AllocError>
        ensures { OnOk result ((r : ℕ) → contains nat_cmp rows.new r ≡ (contains nat_cmp rows.old r || not ((spec.row_at self.now r).own == 0))) }
    {
        for row in self.rows.keys() {
            if self.row(*row).own != 0 {
                rows.insert(*row)?;
            }
        }
        Ok(())
    }

    /// What was shown of a row.
    fn row(&self, row: u32) -> KeptRow
        ensures { result ≡ spec.row_at self.now row }
    {
        match self.rows.get(&row) {
            Some(kept) => *kept,
            None => KeptRow::nothing(),
        }
    }

    /// Notes what is shown of a row.
    fn show(&mut self, row: u32, now: KeptRow) -> Result<(), AllocError>
        ensures row { OnOk result (spec.row_at self.new row ≡ now) }
        ensures others { (r : ℕ) → r ≢ row → spec.row_at self.new r ≡ spec.row_at self.old r }
    {
        if now == KeptRow::nothing() {
            self.rows.remove(&row);
            return Ok(());
        }
        self.rows.insert(row, now)?;
        Ok(())
    }

    /// From now on nothing is shown.
    fn forget(&mut self)
        ensures { (r : ℕ) → spec.row_at self.new r ≡ nothing }
    {
        self.rows.clear();
    }
}

/// Whether a core runs an attempt that isn't straight.
fn is_speculative(attempt: Option<Attempt>) -> bool
    ensures { result ≡ spec.is_speculative attempt }
{
    attempt.is_some_and(|attempt| !attempt.straight)
}
