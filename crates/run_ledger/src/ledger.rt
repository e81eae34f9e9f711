//! Totals and shares. Contracts see each as its `Counts`.
ghost use Rattle.std.specs.Prelude.{◌≡◌, ◌+◌, ◌^◌, ◌<◌, ◌≤◌, ◌↔◌, IsOk, IfOk, codes};
ghost use Rattle.run_ledger.specs.Counts.{no_counts, sum_of, IsAtMost};

use crate::counts::Counts;
use std::marker::Model;
use thiserror::Error;

const NONE: Counts = Counts {
    loads: 0,
    stores: 0,
    restarts: 0,
    commits: 0,
};

/// What was counted in all.
#[derive(Drop)]
pub struct Totals {
    made: Counts,
}

impl Model for Totals {
    ghost use Rattle.run_ledger.specs.declared.counts.Counts.{Counts};

    ghost Value = { Counts };

    ghost view = { λ t. t.made };
}

/// The part of the totals that one holder counted. It is neither cloned nor copied, so that no count is shared out twice.
#[derive(Drop)]
pub struct Shares {
    held: Counts,
}

impl Model for Shares {
    ghost use Rattle.run_ledger.specs.declared.counts.Counts.{Counts};

    ghost Value = { Counts };

    ghost view = { λ s. s.held };
}

/// The shares do not sum to the totals.
#[derive(Clone, Copy, Debug, PartialEq, Eq, Error)]
#[error("the shares do not sum to the totals")]
pub struct Unequal;

impl Unequal {
    /// The printed name.
    pub fn name(self) -> &'static str
        ensures { result.now ≡ codes "Unequal" }
    {
        "Unequal"
    }
}

/// A ledger in which nothing is counted: the totals, and the shares that hold all of them.
pub fn open() -> (Totals, Shares)
    ensures totals { result.0 ≡ no_counts }
    ensures shares { result.1 ≡ no_counts }
{
    (Totals { made: NONE }, Shares { held: NONE })
}

/// Counts one load, in the totals and in these shares.
pub fn count_load(totals: &mut Totals, shares: &mut Shares)
    requires totals { totals.old.loads < 2 ^ 63 }
    requires shares { shares.old.loads < 2 ^ 63 }
    ensures totals { totals.new ≡ record totals.old { loads = totals.old.loads + 1 } }
    ensures shares { shares.new ≡ record shares.old { loads = shares.old.loads + 1 } }
{
    totals.made.loads += 1;
    shares.held.loads += 1;
}

/// Counts one store, in the totals and in these shares.
pub fn count_store(totals: &mut Totals, shares: &mut Shares)
    requires totals { totals.old.stores < 2 ^ 63 }
    requires shares { shares.old.stores < 2 ^ 63 }
    ensures totals { totals.new ≡ record totals.old { stores = totals.old.stores + 1 } }
    ensures shares { shares.new ≡ record shares.old { stores = shares.old.stores + 1 } }
{
    totals.made.stores += 1;
    shares.held.stores += 1;
}

/// Counts one restart, in the totals and in these shares.
pub fn count_restart(totals: &mut Totals, shares: &mut Shares)
    requires totals { totals.old.restarts < 2 ^ 63 }
    requires shares { shares.old.restarts < 2 ^ 63 }
    ensures totals { totals.new ≡ record totals.old { restarts = totals.old.restarts + 1 } }
    ensures shares { shares.new ≡ record shares.old { restarts = shares.old.restarts + 1 } }
{
    totals.made.restarts += 1;
    shares.held.restarts += 1;
}

/// Counts one commit, in the totals and in these shares.
pub fn count_commit(totals: &mut Totals, shares: &mut Shares)
    requires totals { totals.old.commits < 2 ^ 63 }
    requires shares { shares.old.commits < 2 ^ 63 }
    ensures totals { totals.new ≡ record totals.old { commits = totals.old.commits + 1 } }
    ensures shares { shares.new ≡ record shares.old { commits = shares.old.commits + 1 } }
{
    totals.made.commits += 1;
    shares.held.commits += 1;
}

impl Totals {
    /// What was counted so far.
    pub fn counts(&self) -> Counts
        ensures { result ≡ self.now }
    {
        self.made
    }
}

impl Shares {
    /// What these shares hold.
    pub fn counts(&self) -> Counts
        ensures { result ≡ self.now }
    {
        self.held
    }

    /// The same shares, and new ones that hold nothing.
    pub fn split(self) -> (Shares, Shares)
        ensures first { result.0 ≡ self }
        ensures second { result.1 ≡ no_counts }
    {
        (self, Shares { held: NONE })
    }
}

/// Shares that hold what both held.
pub fn gather(first: Shares, second: Shares) -> Shares
    requires { IsAtMost (2 ^ 63) (sum_of first second) }
    ensures { result ≡ sum_of first second }
{
    let (a, b) = (first.held, second.held);
    Shares {
        held: Counts {
            loads: a.loads + b.loads,
            stores: a.stores + b.stores,
            restarts: a.restarts + b.restarts,
            commits: a.commits + b.commits,
        },
    }
}

/// The counts, where these shares hold just what the totals hold.
pub fn agree(totals: &Totals, shares: &Shares) -> Result<Counts, Unequal>
    ensures equal { IsOk result ↔ (totals.now ≡ shares.now) }
    ensures counts { IfOk result (λ c. c ≡ totals.now) }
{
    if totals.made == shares.held {
        Ok(totals.made)
    } else {
        Err(Unequal)
    }
}
