ghost use Rattle.std.specs.Prelude.{◌≡◌, ℕ, ◌<◌, IfOk, length, slice_index};
ghost use Rattle.dependences.specs.KeptLines as spec;

use crate::marks::Marks;
use epoch_paths::{Epoch, line_of};
use rv32_exec::NoMemory;
use rv32_image::Image;
use std::alloc::Global;
use std::marker::Model;

/// Of each line the last epoch that did something in it, and 1, and the last before that one. 0 for none.
#[derive(Drop)]
pub(crate) struct LastTwo {
    last: Marks,
    before: Marks,
}

impl Model for LastTwo {
    ghost use Rattle.dependences.specs.KeptLines as spec;

    ghost Value = { spec.LastTwo };

    ghost view = { λ s. record { last = s.last; before = s.before } };
}

impl LastTwo {
    /// None.
    pub(crate) fn none(alloc: Global, image: &Image) -> Result<LastTwo, NoMemory>
        ensures lines { IfOk result (λ s. spec.AreLines image.now s) }
        ensures last { IfOk result (λ s. (line : ℕ) → slice_index s.last line ≡ 0) }
    {
        let count = line_of(image, image.size()) as usize;
        let last = Marks::none(alloc, count)?;
        let before = Marks::none(alloc, count)?;
        Ok(LastTwo { last, before })
    }

    /// The last epoch that did so in a line, and 1, this one aside.
    #[inline(always)]
    pub(crate) fn other_before(&self, epoch: Epoch, line: u32) -> u32
        requires last { line < length self.now.last }
        requires before { line < length self.now.before }
        ensures { result ≡ spec.other_before self.now epoch line }
    {
        let last = self.last.at(line);
        if last == epoch.note() {
            self.before.at(line)
        } else {
            last
        }
    }

    /// The last epoch that did so in this line, and 1.
    pub(crate) fn last_in(&self, line: u32) -> u32
        requires { line < length self.now.last }
        ensures { result ≡ slice_index self.now.last line }
    {
        self.last.at(line)
    }

    /// The last before that one, and 1.
    pub(crate) fn before_in(&self, line: u32) -> u32
        requires { line < length self.now.before }
        ensures { result ≡ slice_index self.now.before line }
    {
        self.before.at(line)
    }

    /// Notes that this epoch, another than the last one that did so, does so in this line.
    #[inline(always)]
    pub(crate) fn follow(&mut self, epoch: Epoch, line: u32)
        requires last { line < length self.old.last }
        requires before { line < length self.old.before }
        ensures { self.new ≡ spec.followed self.old epoch line }
    {
        self.before.put(line, self.last.at(line));
        self.last.put(line, epoch.note());
    }

    /// Notes that this epoch does so in this line.
    #[inline(always)]
    pub(crate) fn note(&mut self, epoch: Epoch, line: u32)
        requires last { line < length self.old.last }
        requires before { line < length self.old.before }
        ensures { spec.IsLineNoted self.old self.new epoch line }
    {
        let last = self.last.at(line);
        if last != epoch.note() {
            self.before.put(line, last);
            self.last.put(line, epoch.note());
        }
    }
}
