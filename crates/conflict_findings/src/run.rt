//! The run of a byte: its neighbours that met at the same two accesses.

ghost use Rattle.std.specs.Prelude.{◌≡◌, ◌<◌, ◌≤◌, ◌+◌, ◌++◌, ◌&&◌, ℕ, OnOk, option_to_list, true};
ghost use Rattle.spec_history.specs.Refusal.{any_below};
ghost use Rattle.spec_history.specs.declared.kind.Kind.TheVariants.{FalseSharing};
ghost use Rattle.conflicts.specs.Attempts as attempts;
ghost use Rattle.spec_history.specs.Conflict as conflict;
ghost use Rattle.conflicts.specs.Parties.{meeting_in};
ghost use Rattle.conflicts.specs.Violated.{violation_in};
ghost use Rattle.conflict_findings.specs.Runs as spec;

use conflicts::{Blame, BlamedByte, ByteRange, Kind, Parties, Scene, Violated};
use rv32_exec::Image;
use spec_history::Flat;
use std::alloc::AllocError;

/// Neighbouring bytes at which two epochs met, all of them first read by the same load, and given their value by the same store.
#[derive(Clone, Copy)]
pub struct Run {
    /// True sharing where the cause changes one of the bytes, a silent store where it writes them and changes none, false sharing
    /// where it writes their line alone.
    pub kind: Kind,
    /// The first load of the victim's attempt that read the bytes, by its place in the history.
    pub load: usize,
    /// The cause, if it is a store. Else the last store of the causer's attempt to the bytes; for false sharing, to the lowest byte
    /// of their line that the cause writes.
    pub store: usize,
    /// The bytes.
    pub bytes: ByteRange,
}

/// A violation whose runs are told, at its scene: of bytes that are written and were read, where it is taken for a silent store, and of
/// lines, where it is taken for false sharing.
#[derive(Clone, Copy)]
pub(crate) struct Told<'h> {
    pub violated: Violated,
    pub scene: Scene<'h>,
    /// The blamed pair.
    pub blame: Option<Blame>,
}

/// Where so many bytes end, in memory.
pub(crate) fn end_of(image: &Image, bytes: ByteRange) -> u32
    ensures within { result ≤ image.now.size }
    ensures inside { (a : ℕ) → a < result → a < bytes.first + bytes.length }
    ensures covered { (a : ℕ) → attempts.covers bytes.first bytes.length a ≡ true → a < image.now.size → a < result }
{
    image.size().min(bytes.first.saturating_add(bytes.length))
}

/// The list with a run at its end, if there is one.
pub(crate) fn keep(runs: &mut Vec<Run>, found: Option<Run>) -> Result<(), AllocError>
    ensures { OnOk result (runs.new.items ≡ runs.old.items ++ option_to_list found) }
{
    if let Some(run) = found {
        runs.push(run)?;
    }
    Ok(())
}

/// The violation, taken for false sharing.
pub(crate) fn beside(violated: Violated) -> Violated
    ensures { result ≡ record { parties = violated.parties; kind = FalseSharing; place = violated.place; cause = violated.cause } }
{
    Violated {
        kind: Kind::FalseSharing,
        ..violated
    }
}

/// The cause changes one of the bytes.
fn changes(parties: &Parties, flat: &Flat, bytes: ByteRange) -> bool
    ensures { result ≡ any_below flat.now.image.size
        (λ a. attempts.covers bytes.first bytes.length a && conflict.is_changed (meeting_in flat.now parties.now) a) }
{
    for addr in bytes.first..end_of(flat.image(), bytes) {
        if parties.is_changed(flat, addr) {
            return true;
        }
    }
    false
}

/// The run of a blamed byte.
fn run_with(blamed: &BlamedByte<'_>) -> Run
    ensures { result ≡ spec.run_with blamed.now.scene.flat.now.image blamed.now.scene.entries.now
        (violation_in blamed.now.scene.flat.now blamed.now.violated) blamed.now.load blamed.now.byte blamed.now.store }
{
    let Violated { parties, kind, .. } = blamed.violated;
    let bytes = blamed.range();
    let kind = if changes(&parties, blamed.scene.flat, bytes) {
        Kind::TrueSharing
    } else {
        kind
    };
    Run {
        kind,
        load: blamed.load,
        store: blamed.store,
        bytes,
    }
}

impl Told<'_> {
    /// The run of a byte that this load read first.
    pub(crate) fn run_of(&self, load: usize, addr: u32) -> Option<Run>
        requires { addr < self.now.scene.flat.now.image.size }
        ensures { result ≡ spec.run_of self.now.scene.flat.now.image self.now.scene.entries.now
            (violation_in self.now.scene.flat.now self.now.violated) load addr }
    {
        let Told {
            violated,
            scene,
            ..
        } = *self;
        let store = violated.store(&scene, addr)?;
        let blamed = BlamedByte {
            violated,
            scene,
            load,
            store,
            byte: addr,
        };
        Some(run_with(&blamed))
    }

    /// The blamed run begins at this byte.
    pub(crate) fn begins_blamed(&self, addr: u32) -> bool
        ensures { result ≡ spec.begins_blamed self.now.blame addr }
    {
        match self.blame {
            Some(pair) => pair.bytes.first == addr,
            None => false,
        }
    }
}
