//! Violations parted by kind.

ghost use Rattle.std.specs.Prelude.{◌≡◌, ◌++◌, ◌∷◌, [], List, OnOk};
ghost use Rattle.std.specs.BTreeMap.{get};
ghost use Rattle.std.specs.Ordering.{nat_cmp};
ghost use Rattle.conflict_findings.specs.declared.part.Part.TheVariants.{OfKind};
ghost use Rattle.conflict_findings.specs.declared.rollback.Rollback.{Rollback};
ghost use Rattle.conflict_findings.specs.Keys.{sum_or};
ghost use Rattle.conflict_findings.specs.Kinds as spec;
ghost use Rattle.conflict_findings.specs.PairSums.{kinds_in};
ghost use Rattle.conflict_findings.specs.Sums.{HasRoom, count_in};

use crate::keys::{Key, add_by};
use crate::part::Part;
use crate::rollback::Rollback;
use crate::sum::{Sum, sum_more};
use conflicts::Kind;
use std::alloc::{AllocError, Global};
use std::collections::BTreeMap;

/// How many violations of a part are of each kind. Unexplained ones have no pair and no line.
#[derive(Clone, Copy, PartialEq, Eq)]
pub struct CountsByKind {
    /// True sharing.
    pub true_sharing: u32,
    /// Silent stores.
    pub silent_store: u32,
    /// False sharing.
    pub false_sharing: u32,
    /// Full buffers.
    pub full_buffer: u32,
}

/// What the violations of each kind cost.
#[derive(Clone, Copy)]
pub struct SumsByKind {
    /// True sharing.
    pub true_sharing: Sum,
    /// Silent stores.
    pub silent_store: Sum,
    /// False sharing.
    pub false_sharing: Sum,
    /// Full buffers.
    pub full_buffer: Sum,
    /// Those without a cause.
    pub unexplained: Sum,
}

/// What the violations of each kind cost, for each line of the caches.
#[derive(Drop)]
pub struct LinesByKind {
    /// True sharing.
    pub true_sharing: BTreeMap<u32, Sum>,
    /// Silent stores.
    pub silent_store: BTreeMap<u32, Sum>,
    /// False sharing.
    pub false_sharing: BTreeMap<u32, Sum>,
    /// Full buffers.
    pub full_buffer: BTreeMap<u32, Sum>,
}

/// How many violations there are at a number.
fn count_at(sums: &BTreeMap<u32, Sum>, at: u32) -> u32
    ensures { result ≡ (sum_or (get nat_cmp sums.now at)).count }
{
    match sums.get(&at) {
        Some(sum) => sum.count,
        None => 0,
    }
}

impl CountsByKind {
    /// Of no violation.
    pub(crate) fn none() -> CountsByKind
        ensures { result ≡ kinds_in [] }
    {
        CountsByKind {
            true_sharing: 0,
            silent_store: 0,
            false_sharing: 0,
            full_buffer: 0,
        }
    }

    /// With one violation more.
    pub(crate) fn more(self, rollback: &Rollback) -> CountsByKind
        requires { (rollbacks : List Rollback) × (self ≡ kinds_in rollbacks) × HasRoom rollbacks rollback.now.lost }
        ensures { (rollbacks : List Rollback) → self ≡ kinds_in rollbacks → result ≡ kinds_in (rollbacks ++ rollback.now ∷ []) }
    {
        CountsByKind {
            true_sharing: count_more(self.true_sharing, Kind::TrueSharing, rollback),
            silent_store: count_more(self.silent_store, Kind::SilentStore, rollback),
            false_sharing: count_more(self.false_sharing, Kind::FalseSharing, rollback),
            full_buffer: count_more(self.full_buffer, Kind::FullBuffer, rollback),
        }
    }
}

/// How many violations are of a kind, with one violation more.
fn count_more(count: u32, kind: Kind, rollback: &Rollback) -> u32
    requires { (rollbacks : List Rollback) × (count ≡ count_in (OfKind kind) rollbacks) × HasRoom rollbacks rollback.now.lost }
    ensures { (rollbacks : List Rollback) → count ≡ count_in (OfKind kind) rollbacks
        → result ≡ count_in (OfKind kind) (rollbacks ++ rollback.now ∷ []) }
{
    count + Part::OfKind(kind).has(rollback) as u32
}

impl SumsByKind {
    /// Of no violation.
    pub(crate) fn none() -> SumsByKind
        ensures { result ≡ spec.sums_in [] }
    {
        SumsByKind {
            true_sharing: Sum::none(),
            silent_store: Sum::none(),
            false_sharing: Sum::none(),
            full_buffer: Sum::none(),
            unexplained: Sum::none(),
        }
    }

    /// With one violation more.
    pub(crate) fn more(self, rollback: &Rollback) -> SumsByKind
        requires { (rollbacks : List Rollback) × (self ≡ spec.sums_in rollbacks) × HasRoom rollbacks rollback.now.lost }
        ensures { (rollbacks : List Rollback) → self ≡ spec.sums_in rollbacks → result ≡ spec.sums_in (rollbacks ++ rollback.now ∷ []) }
    {
        SumsByKind {
            true_sharing: sum_more(self.true_sharing, Part::OfKind(Kind::TrueSharing), rollback),
            silent_store: sum_more(self.silent_store, Part::OfKind(Kind::SilentStore), rollback),
            false_sharing: sum_more(
                self.false_sharing,
                Part::OfKind(Kind::FalseSharing),
                rollback,
            ),
            full_buffer: sum_more(self.full_buffer, Part::OfKind(Kind::FullBuffer), rollback),
            unexplained: sum_more(self.unexplained, Part::OfKind(Kind::Unexplained), rollback),
        }
    }
}

impl LinesByKind {
    /// Of no violation.
    pub(crate) fn new(alloc: Global) -> LinesByKind
        ensures { spec.AreLines [] result }
    {
        LinesByKind {
            true_sharing: BTreeMap::new(alloc),
            silent_store: BTreeMap::new(alloc),
            false_sharing: BTreeMap::new(alloc),
            full_buffer: BTreeMap::new(alloc),
        }
    }

    /// Adds a violation to what those of its kind cost in its line, if it has a line.
    pub(crate) fn add(&mut self, rollback: &Rollback) -> Result<(), AllocError>
        requires { (rollbacks : List Rollback) × spec.AreLines rollbacks self.old × HasRoom rollbacks rollback.now.lost }
        ensures { OnOk result ((rollbacks : List Rollback) → spec.AreLines rollbacks self.old → spec.AreLines (rollbacks ++ rollback.now ∷ []) self.new) }
    {
        match rollback.kind {
            Kind::TrueSharing => add_by(&mut self.true_sharing, Key::Line, rollback),
            Kind::SilentStore => add_by(&mut self.silent_store, Key::Line, rollback),
            Kind::FalseSharing => add_by(&mut self.false_sharing, Key::Line, rollback),
            Kind::FullBuffer => add_by(&mut self.full_buffer, Key::Line, rollback),
            Kind::Unexplained => Ok(()),
        }
    }

    /// How many in a line there are of each kind.
    pub fn counts(&self, line: u32) -> CountsByKind
        ensures { result ≡ spec.counts_at self.now line }
    {
        CountsByKind {
            true_sharing: count_at(&self.true_sharing, line),
            silent_store: count_at(&self.silent_store, line),
            false_sharing: count_at(&self.false_sharing, line),
            full_buffer: count_at(&self.full_buffer, line),
        }
    }
}
