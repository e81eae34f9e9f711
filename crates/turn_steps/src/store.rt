//! Stores whose content can be shown.
ghost use Rattle.std.specs.Prelude.{◌≡◌, ◌++◌, ◌<◌, ◌/◌, ℕ, true, None, IfOk, OnOk, List};
ghost use Rattle.std.specs.BTreeSet.{contains};
ghost use Rattle.std.specs.Ordering.{nat_cmp};
ghost use Rattle.violations.specs.View.{Shape};
ghost use Rattle.violations.specs.Rule.{shape_of};
ghost use Rattle.turn_steps.specs.Fixed.{ChangesAreFixed};
ghost use Rattle.turn_steps.specs.Laws.{KeepsRows};
ghost use Rattle.turn_steps.specs.Rows.{row_count};

use rv32_exec::Image;
use spec_history::Entry;
use std::alloc::{AllocError, Global};
use std::collections::BTreeSet;
use violations::{Attempt, EpochStore};

/// A store that can show, as lines of text, what it holds for each core, and what of that isn't as it was shown any more.
pub trait ShownStore: EpochStore {
    /// What was shown of a store.
    type Shown: Drop;

    /// It is of a store of this shape.
    ghost fits: { Self.Shown → Shape → Type 0 };

    /// It is what this store holds.
    ghost shows: { Self.Shown → Self → Type 0 };

    /// The text of what so many cores hold otherwise in the second store than in the first.
    ghost changes: { ℕ → Self → Self → List ℕ };

    /// The law of the text: of stores that hold the same it is the same. This call does nothing, and its contract is the law.
    fn changes_are_fixed()
        ensures { ChangesAreFixed Self.alike changes };

    /// What a core runs.
    fn attempt_of(&self, core: u32) -> Option<Attempt>
        requires { core < (Self.view self.now).shape.cores }
        ensures { result ≡ (Self.view self.now).attempt core };

    /// What a store of this image holds, on so many cores that run nothing. It counts as shown.
    ///
    /// `AllocError`: memory ran out.
    fn first_shown(
        &self,
        alloc: Global,
        image: &Image,
        cores: u32,
    ) -> Result<Self::Shown, AllocError>
        requires shape { (Self.view self.now).shape ≡ shape_of image.now cores }
        requires idle { (k : ℕ) → (Self.view self.now).attempt k ≡ None }
        ensures fits { IfOk result (λ shown. fits shown (Self.view self.now).shape) }
        ensures shows { IfOk result (λ shown. shows shown self.now) };

    /// Adds the text of what the cores hold otherwise than was shown, after a turn of this core that added these entries. Then that
    /// was shown.
    ///
    /// `AllocError`: memory ran out. Some of the text may be there.
    fn push_changes(
        &self,
        alloc: Global,
        text: &mut Vec<u8>,
        shown: &mut Self::Shown,
        core: u32,
        added: &[Entry],
    ) -> Result<(), AllocError>
        requires { fits shown.old (Self.view self.now).shape }
        ensures fits { OnOk result (fits shown.new (Self.view self.now).shape) }
        ensures text { (old : Self) → shows shown.old old → KeepsRows (Self.view old) (Self.view self.now) core added.now
            → OnOk result (text.new.items ≡ text.old.items ++ changes (Self.view self.now).shape.cores old self.now) }
        ensures shows { (old : Self) → shows shown.old old → KeepsRows (Self.view old) (Self.view self.now) core added.now → OnOk result (shows shown.new self.now) };

    /// Puts into a set the rows of 16 bytes, counted from 0, in which the core has stored bytes, by what was shown; others may be with them.
    ///
    /// `AllocError`: memory ran out. Some of the rows may be there.
    fn push_own_rows(
        shown: &Self::Shown,
        core: u32,
        rows: &mut BTreeSet<u32>,
    ) -> Result<(), AllocError>
        ensures kept { OnOk result ((row : ℕ) → contains nat_cmp rows.old row ≡ true → contains nat_cmp rows.new row ≡ true) }
        ensures own { (old : Self) → shows shown.now old
            → OnOk result ((a : ℕ) → a / 16 < row_count (Self.view old) → (Self.view old).own core a ≡ true → contains nat_cmp rows.new (a / 16) ≡ true) };
}
