//! Parts of the violations of a history.

ghost use Rattle.std.specs.Prelude.{◌≡◌};
ghost use Rattle.conflict_findings.specs.Parts as spec;

use crate::rollback::{Pair, Rollback};
use conflicts::Kind;

/// Violations that have something in common.
#[derive(Clone, Copy)]
pub enum Part {
    /// All.
    Whole,
    /// Those of a kind.
    OfKind(Kind),
    /// Those at which two instructions met.
    OfPair(Pair),
    /// Those of which no two instructions are known.
    Unpaired,
    /// Those whose blamed store is the instruction at an address, or, for a full buffer, the access that asked.
    StoredAt(u32),
    /// Those whose blamed load is the instruction at an address, or, for a full buffer, the store that held.
    LoadedAt(u32),
    /// Those in the line of the caches that has this number.
    OfLine(u32),
    /// Those of an epoch.
    OfEpoch(u32),
}

fn is_kind(kind: Kind, other: Kind) -> bool
    ensures { result ≡ spec.is_kind kind other }
{
    match kind {
        Kind::TrueSharing => matches!(other, Kind::TrueSharing),
        Kind::SilentStore => matches!(other, Kind::SilentStore),
        Kind::FalseSharing => matches!(other, Kind::FalseSharing),
        Kind::FullBuffer => matches!(other, Kind::FullBuffer),
        Kind::Unexplained => matches!(other, Kind::Unexplained),
    }
}

/// They are the same instructions.
fn is_pair(pair: Pair, other: Pair) -> bool
    ensures { result ≡ spec.is_pair pair other }
{
    pair.store == other.store && pair.load == other.load
}

fn has_pair(found: Option<Pair>, wanted: Pair) -> bool
    ensures { result ≡ spec.has_pair found wanted }
{
    match found {
        Some(pair) => is_pair(pair, wanted),
        None => false,
    }
}

fn has_store(found: Option<Pair>, pc: u32) -> bool
    ensures { result ≡ spec.has_store found pc }
{
    match found {
        Some(pair) => pair.store == pc,
        None => false,
    }
}

fn has_load(found: Option<Pair>, pc: u32) -> bool
    ensures { result ≡ spec.has_load found pc }
{
    match found {
        Some(pair) => pair.load == pc,
        None => false,
    }
}

fn has_line(found: Option<u32>, wanted: u32) -> bool
    ensures { result ≡ spec.has_line found wanted }
{
    match found {
        Some(line) => line == wanted,
        None => false,
    }
}

impl Part {
    /// A violation belongs to it.
    pub fn has(self, rollback: &Rollback) -> bool
        ensures { result ≡ spec.belongs self rollback.now }
    {
        match self {
            Part::Whole => true,
            Part::OfKind(kind) => is_kind(rollback.kind, kind),
            Part::OfPair(pair) => has_pair(rollback.pair, pair),
            Part::Unpaired => rollback.pair.is_none(),
            Part::StoredAt(pc) => has_store(rollback.pair, pc),
            Part::LoadedAt(pc) => has_load(rollback.pair, pc),
            Part::OfLine(line) => has_line(rollback.line, line),
            Part::OfEpoch(epoch) => rollback.epoch == epoch,
        }
    }
}
