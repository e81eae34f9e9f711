//! What of each finding is summed.

ghost use Rattle.std.specs.Prelude.{◌≡◌};
ghost use Rattle.conflict_findings.specs.Rollbacks as spec;

use crate::finding::{Access, Finding};
use conflicts::{ByteRange, Kind};

/// Two instructions that met, by their addresses.
#[derive(Clone, Copy, PartialEq, Eq)]
pub struct Pair {
    /// The store that is blamed. For a full buffer: the access that asked for the line.
    pub store: u32,
    /// The load that is blamed. For a full buffer: the store that held the line.
    pub load: u32,
}

/// A violation, as it is summed. The fields stand in an order that leaves no gap between them.
#[derive(Clone, Copy)]
pub struct Rollback {
    /// How many instructions were lost.
    pub lost: u64,
    /// The instructions that met, if they are known.
    pub pair: Option<Pair>,
    /// The number of the line of the caches in which they met, if it is known: its address over the length of a line.
    pub line: Option<u32>,
    /// The bytes at which they met, if these are known; for a full buffer the line that was asked for.
    pub bytes: Option<ByteRange>,
    /// The violated epoch.
    pub epoch: u32,
    /// By how many epochs the victim stands after the causer: at least 1 of a violation that the flat machine accepts.
    pub distance: u32,
    /// What made it necessary, or not.
    pub kind: Kind,
    /// The blamed store stands before the blamed load.
    pub stale: bool,
    /// The causer's attempt was itself violated or cancelled.
    pub vain: bool,
    /// False sharing that came true: by an attempt that afterwards stores to a byte that the victim had read.
    pub came_true: bool,
}

/// The address of the instruction of an access, where both are known.
fn pc_of(access: Option<Access>) -> Option<u32>
    ensures { result ≡ spec.pc_of access }
{
    access?.pc
}

/// The instructions that met, where both are known.
fn pair_of(causer: Option<Access>, victim: Option<Access>) -> Option<Pair>
    ensures { result ≡ spec.pair_of causer victim }
{
    let store = pc_of(causer)?;
    let load = pc_of(victim)?;
    Some(Pair { store, load })
}

impl Finding {
    /// What of it is summed.
    pub fn rollback(&self) -> Rollback
        ensures { result ≡ spec.rollback_of self.now }
    {
        Rollback {
            kind: self.kind,
            epoch: self.victim.epoch,
            pair: pair_of(self.causer_access, self.victim_access),
            line: self.line,
            lost: self.lost,
            stale: self.stale,
            vain: self.undoing.is_some(),
            came_true: self.later.is_some(),
            distance: self.distance,
            bytes: self.bytes,
        }
    }
}
