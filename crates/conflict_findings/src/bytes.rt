//! The runs of bytes that the cause writes and the victim had read.

ghost use Rattle.std.specs.Prelude.{◌≡◌, ◌<◌, ◌≤◌, ◌+◌, ◌++◌, ◌^◌, ◌==◌, not, ℕ, IfOk, OnOk, None, option_to_list, if◌then◌else◌, true};
ghost use Rattle.spec_history.specs.declared.kind.Kind.TheVariants.{SilentStore};
ghost use Rattle.conflicts.specs.Attempts.{first_read};
ghost use Rattle.conflicts.specs.Parties.{meeting_in};
ghost use Rattle.conflicts.specs.Violated.{violation_in};
ghost use Rattle.conflict_findings.specs.Runs as spec;

use crate::run::{Run, Told, end_of, keep};
use conflicts::Scene;
use rv32_exec::Image;
use std::alloc::AllocError;

impl Told<'_> {
    /// The first load of the victim that read a byte from outside.
    pub(crate) fn read_at(&self, addr: u32) -> Option<usize>
        requires { addr < self.now.scene.flat.now.image.size }
        ensures { result ≡ first_read self.now.scene.entries.now self.now.violated.parties.victim self.now.violated.place addr }
    {
        let core = self.violated.parties.victim;
        let Scene {
            entries,
            behind,
            ..
        } = self.scene;
        behind.first_read(entries, core, self.violated.place, addr)
    }

    /// The run of a byte.
    fn run_at(&self, addr: u32) -> Option<Run>
        requires { addr < self.now.scene.flat.now.image.size }
        ensures { result ≡ spec.run_at self.now.scene.flat.now.image self.now.scene.entries.now
            (violation_in self.now.scene.flat.now self.now.violated) addr }
    {
        let load = self.read_at(addr)?;
        self.run_of(load, addr)
    }

    /// The run of a byte, if it begins there and isn't the blamed one.
    fn further(&self, run: Option<Run>, addr: u32) -> Option<Run>
        ensures { result ≡ (if not (spec.begins_blamed self.now.blame addr) then spec.only (λ r. r.bytes.first == addr) run else None) }
    {
        if self.begins_blamed(addr) {
            return None;
        }
        let run = run?;
        if run.bytes.first == addr {
            Some(run)
        } else {
            None
        }
    }

    /// Adds the run that begins at a byte to the end of a list, if there is a further one. Gives the first address above the byte that is not
    /// of its run: no other begins within.
    fn tell_at(&self, runs: &mut Vec<Run>, addr: u32) -> Result<u32, AllocError>
        requires kind { self.now.violated.kind ≡ SilentStore }
        requires within { addr < self.now.scene.flat.now.image.size }
        ensures told { OnOk result (runs.new.items ≡ runs.old.items ++ option_to_list (spec.shared_run self.now.scene.flat.now.image
            self.now.scene.entries.now self.now.blame (violation_in self.now.scene.flat.now self.now.violated) addr)) }
        ensures next { IfOk result (λ next. (addr < next) × (next ≤ self.now.scene.flat.now.image.size)) }
        ensures none { IfOk result (λ next. (j : ℕ) → addr < j → j < next → spec.shared_run self.now.scene.flat.now.image
            self.now.scene.entries.now self.now.blame (violation_in self.now.scene.flat.now self.now.violated) j ≡ None) }
    {
        let flat = self.scene.flat;
        let image = flat.image();
        let next = after_byte(image, addr);
        if !self.violated.parties.is_shared(flat, addr) {
            return Ok(next);
        }
        let run = self.run_at(addr);
        keep(runs, self.further(run, addr))?;
        Ok(end_after(image, run, addr))
    }

    /// The further runs of bytes, in ascending order, at the end of a list. It takes the bytes that the victim has read, in that order.
    pub(crate) fn push_shared(&self, runs: &mut Vec<Run>, read: &[u32]) -> Result<(), AllocError>
        requires read { spec.AreRead self.now.scene.flat.now.image.size (meeting_in self.now.scene.flat.now self.now.violated.parties).reads read.now }
        requires kind { self.now.violated.kind ≡ SilentStore }
        ensures { OnOk result (runs.new.items ≡ runs.old.items
            ++ spec.runs_below self.now.scene.flat.now.image.size (spec.shared_run self.now.scene.flat.now.image
            self.now.scene.entries.now self.now.blame (violation_in self.now.scene.flat.now self.now.violated))) }
    {
        let mut from = 0;
        for addr in read {
            if *addr >= from {
                from = self.tell_at(runs, *addr)?;
            }
        }
        Ok(())
    }
}

/// The address after a byte of memory.
fn after_byte(image: &Image, addr: u32) -> u32
    requires { addr < image.now.size }
    ensures after { result ≡ addr + 1 }
    ensures room { image.now.size < 2 ^ 32 }
{
    let size = image.size();
    size.min(addr + 1)
}

/// The first address above a byte that is not of its run.
fn end_after(image: &Image, run: Option<Run>, addr: u32) -> u32
    requires within { addr < image.now.size }
    requires room { image.now.size < 2 ^ 32 }
    ensures above { addr < result }
    ensures most { result ≤ image.now.size }
    ensures of_run { (a : ℕ) → addr < a → a < result → spec.is_below_end run a ≡ true }
{
    match run {
        Some(run) => end_of(image, run.bytes).max(addr + 1),
        None => addr + 1,
    }
}
