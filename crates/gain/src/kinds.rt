//! How many violations of a history are of each kind.
ghost use Rattle.std.specs.Prelude.{◌≡◌, IfOk};
ghost use Rattle.gain.specs.Kinds as spec;

use conflicts::{Explanation, explain};
use rv32_exec::Image;
use spec_history::{Entry, Kind};
use std::alloc::{AllocError, Global};

/// How many violations are of each kind.
#[derive(Clone, Copy)]
pub struct Kinds {
    /// True sharing.
    pub true_sharing: u64,
    /// Silent stores.
    pub silent_store: u64,
    /// False sharing.
    pub false_sharing: u64,
    /// Full buffers.
    pub full_buffer: u64,
}

/// The kinds of the violations of a history that turns made.
///
/// `AllocError`: memory ran out.
pub fn kinds_of(
    alloc: Global,
    image: &Image,
    cores: u32,
    history: &[Entry],
) -> Result<Kinds, AllocError>
    ensures { IfOk result (spec.AreKinds image.now cores history.now) }
{
    match explain(alloc, image, cores, history) {
        Ok(explanations) => Ok(count_kinds(explanations.as_slice())),
        Err(_) => Err(AllocError),
    }
}

fn count_kinds(explanations: &[Explanation]) -> Kinds
    ensures { result ≡ spec.kinds_in explanations.now }
{
    Kinds {
        true_sharing: count_of(explanations, Kind::TrueSharing),
        silent_store: count_of(explanations, Kind::SilentStore),
        false_sharing: count_of(explanations, Kind::FalseSharing),
        full_buffer: count_of(explanations, Kind::FullBuffer),
    }
}

/// How many are of a kind.
fn count_of(explanations: &[Explanation], kind: Kind) -> u64
    ensures { result ≡ spec.count_of kind explanations.now }
{
    let mut count = 0;
    for explanation in explanations {
        count += is_kind(kind, explanation.kind) as u64;
    }
    count
}

fn is_kind(kind: Kind, other: Kind) -> bool
    ensures { result ≡ spec.is_kind kind other }
{
    match kind {
        Kind::TrueSharing => matches!(other, Kind::TrueSharing),
        Kind::SilentStore => matches!(other, Kind::SilentStore),
        Kind::FalseSharing => matches!(other, Kind::FalseSharing),
        Kind::FullBuffer => matches!(other, Kind::FullBuffer),
        Kind::Unexplained => matches!(other, Kind::Unexplained),
    }
}
