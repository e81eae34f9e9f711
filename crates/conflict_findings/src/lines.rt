//! The runs of lines of which the cause writes a byte and the victim had read one, but none is both.

ghost use Rattle.std.specs.Prelude.{◌≡◌, ◌<◌, ◌++◌, IfNone, IfSome, OnOk, None, Some};
ghost use Rattle.spec_history.specs.Conflict as conflict;
ghost use Rattle.conflicts.specs.Parties.{meeting_in};
ghost use Rattle.conflicts.specs.Violated.{violation_in};
ghost use Rattle.conflict_findings.specs.Runs as spec;

use crate::run::{Run, Told, keep};
use conflicts::{LineTest, line_bytes, line_number};
use std::alloc::AllocError;

impl Told<'_> {
    /// The line is falsely shared.
    fn is_falsely_shared(&self, line: u32) -> bool
        ensures { result ≡ spec.is_falsely_shared self.now.scene.flat.now.image (meeting_in self.now.scene.flat.now self.now.violated.parties) line }
    {
        let flat = self.scene.flat;
        let parties = self.violated.parties;
        parties.line_has(flat, LineTest::Read, line)
            && parties.line_has(flat, LineTest::Written, line)
            && !parties.line_has(flat, LineTest::Met, line)
    }

    /// The run that the first load of the line read.
    fn run_in(&self, line: u32) -> Option<Run>
        ensures { result ≡ spec.run_in self.now.scene.flat.now.image self.now.scene.entries.now
            (violation_in self.now.scene.flat.now self.now.violated) line }
    {
        let (load, addr) = self.first_in(line)?;
        self.run_of(load, addr)
    }

    /// The further run of a line.
    fn line_run(&self, line: u32) -> Option<Run>
        ensures { result ≡ spec.line_run self.now.scene.flat.now.image self.now.scene.entries.now self.now.blame
            (violation_in self.now.scene.flat.now self.now.violated) line }
    {
        if !self.is_falsely_shared(line) {
            return None;
        }
        let run = self.run_in(line)?;
        if self.begins_blamed(run.bytes.first) {
            None
        } else {
            Some(run)
        }
    }

    /// The further runs of lines, in ascending order, at the end of a list. It takes the lines that the victim has read of, in that order.
    pub(crate) fn push_lines(&self, runs: &mut Vec<Run>, lines: &[u32]) -> Result<(), AllocError>
        requires { spec.AreLinesRead self.now.scene.flat.now.image (meeting_in self.now.scene.flat.now self.now.violated.parties).reads lines.now }
        ensures { OnOk result (runs.new.items ≡ runs.old.items
            ++ spec.runs_below (conflict.line_count self.now.scene.flat.now.image) (spec.line_run self.now.scene.flat.now.image
            self.now.scene.entries.now self.now.blame (violation_in self.now.scene.flat.now self.now.violated))) }
    {
        let mut from = 0;
        for line in lines {
            if *line as u64 >= from {
                keep(runs, self.line_run(*line))?;
                from = *line as u64 + 1;
            }
        }
        Ok(())
    }

    /// The first load of the victim that read a byte from outside, if the byte lies in a line.
    fn read_in(&self, line: u32, addr: u32) -> Option<usize>
        requires { addr < self.now.scene.flat.now.image.size }
        ensures { result ≡ spec.read_in self.now.scene.flat.now.image self.now.scene.entries.now
            self.now.violated.parties.victim self.now.violated.place line addr }
    {
        if line_number(self.scene.flat.image(), addr) == line {
            self.read_at(addr)
        } else {
            None
        }
    }

    /// The first load of the victim that read a byte of a line from outside, and the lowest byte of the line that it read.
    fn first_in(&self, line: u32) -> Option<(usize, u32)>
        ensures none { IfNone result (spec.load_in self.now.scene.flat.now.image self.now.scene.entries.now
            self.now.violated.parties.victim self.now.violated.place line ≡ None) }
        ensures some { IfSome result (λ found. (spec.load_in self.now.scene.flat.now.image self.now.scene.entries.now
            self.now.violated.parties.victim self.now.violated.place line ≡ Some found.0)
            × (spec.byte_in self.now.scene.flat.now.image self.now.scene.entries.now
            self.now.violated.parties.victim self.now.violated.place line found.0 ≡ Some found.1)) }
        ensures within { IfSome result (λ found. found.1 < self.now.scene.flat.now.image.size) }
    {
        let bytes = line_bytes(self.scene.flat.image(), line);
        let mut first = None;
        for addr in bytes.first..bytes.first + bytes.length {
            let load = self.read_in(line, addr);
            first = earlier(first, load, addr);
        }
        first
    }
}

/// The earlier of two loads, the one that is known before the other, each with the byte that it read first.
fn earlier(known: Option<(usize, u32)>, load: Option<usize>, addr: u32) -> Option<(usize, u32)>
    ensures { result ≡ spec.earlier known load addr }
{
    match (known, load) {
        (known, None) => known,
        (None, Some(load)) => Some((load, addr)),
        (Some(first), Some(load)) => {
            if load < first.0 {
                Some((load, addr))
            } else {
                Some(first)
            }
        }
    }
}
