//! What limits have in common, and what runs take: each function does nothing, and its contract is the law.

ghost use Rattle.std.specs.Prelude.{ℕ, ◌≤◌};
ghost use Rattle.rv32_image.specs.Image.{LoadedImage};
ghost use Rattle.limits.specs.Bound.{IsBelowRuns, NeverWaits};
ghost use Rattle.limits.specs.HeldBound.{HasNoCaches, RestartsNever, TakesLimit};
ghost use Rattle.limits.specs.Limits.{IsLimit};

use crate::limit::Waits;
use turn_costs::PricedStore;
use violations::{EpochStore, PlainStore};

/// A load that waits for the store alone costs no more steps than one that waits for the commit, on the same cores.
pub fn forward_is_within_commit()
    ensures { (image : LoadedImage) (cores forward commit : ℕ) → IsLimit image Waits.Store cores forward → IsLimit image Waits.Commit cores commit
        → forward ≤ commit }
{}

/// Over any store, whatever loads are held and whatever turns cost: no run at even speed, from a book without entries to the end of the
/// loop, takes fewer steps than the limit on as many cores, where loads wait for stores.
pub fn forward_is_within_even<S: PricedStore>()
    ensures { IsBelowRuns Waits.Store S.makes S.view S.waits S.keeps }
{}

/// Over a store in which no access waits, no such run takes fewer steps than the limit where loads wait for commits.
pub fn commit_is_within_even<S: PricedStore>()
    ensures { NeverWaits S.waits → IsBelowRuns Waits.Commit S.makes S.view S.waits S.keeps }
{}

/// Over the plain store no run at even speed takes fewer steps than the limit where loads wait for commits.
pub fn commit_is_within_plain()
    ensures { IsBelowRuns Waits.Commit ⟦<PlainStore as EpochStore>⟧.makes ⟦<PlainStore as EpochStore>⟧.view ⟦<PlainStore as EpochStore>⟧.waits ⟦<PlainStore as PricedStore>⟧.keeps }
{
    commit_is_within_even::<PlainStore>();
}

/// Over a store without caches in which no access waits: a run in which each load waits for what earlier epochs store in order never
/// restarts, whatever turns cost.
pub fn held_run_never_restarts<S: PricedStore>()
    ensures { NeverWaits S.waits → HasNoCaches S.view → RestartsNever S.makes S.view S.waits S.keeps }
{}

/// Over such a store that run takes just the steps of the limit where loads wait for commits, where turns cost nothing.
pub fn held_run_takes_commit<S: PricedStore>()
    ensures { NeverWaits S.waits → HasNoCaches S.view → TakesLimit S.makes S.view S.waits S.keeps }
{}

/// Over the plain store a run in which each load waits for what earlier epochs store in order never restarts.
pub fn held_plain_run_never_restarts()
    ensures { RestartsNever ⟦<PlainStore as EpochStore>⟧.makes ⟦<PlainStore as EpochStore>⟧.view ⟦<PlainStore as EpochStore>⟧.waits ⟦<PlainStore as PricedStore>⟧.keeps }
{
    held_run_never_restarts::<PlainStore>();
}

/// Over the plain store that run takes just the steps of the limit where loads wait for commits, where turns cost nothing.
pub fn held_plain_run_takes_commit()
    ensures { TakesLimit ⟦<PlainStore as EpochStore>⟧.makes ⟦<PlainStore as EpochStore>⟧.view ⟦<PlainStore as EpochStore>⟧.waits ⟦<PlainStore as PricedStore>⟧.keeps }
{
    held_run_takes_commit::<PlainStore>();
}
