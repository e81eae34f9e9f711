//! What is kept of the caches while epochs run.
ghost use Rattle.std.specs.Prelude.{◌≡◌, ℕ, ◌<◌, ◌^◌, IfOk, [], ◌∷◌};
ghost use Rattle.dependences.specs.KeptWatch as spec;

use crate::beside::first_beside;
use crate::caches::CacheConflict;
use crate::lines::Lines;
use crate::touches::Touches;
use epoch_paths::{Epoch, line_of};
use rv32_exec::{NoMemory, Notes};
use rv32_image::Image;
use std::alloc::Global;

/// What is kept of the lines of the caches, of as many cores, while epochs run.
#[derive(Drop)]
pub(crate) struct Watch {
    pub(crate) cores: u32,
    /// The epoch that runs.
    epoch: Epoch,
    lines: Lines,
    touches: Touches,
    /// The epoch has read a byte from outside in a line in which an epoch beside it has stored. Nothing is noted since.
    has_met: bool,
    /// The line at hand for loads, and 1, or 0 for none: there a load of the epoch changes nothing.
    quiet: u32,
    /// The line at hand for stores, and 1, or 0 for none: there a store of the epoch changes nothing.
    stored: u32,
}

impl Watch {
    /// Where no epoch has run.
    ///
    /// `NoMemory`: there was none for two words for each 16 bytes of the image, five for each line, and one for each epoch.
    pub(crate) fn none(alloc: Global, image: &Image, cores: u32) -> Result<Watch, NoMemory>
        ensures { IfOk result (λ watch. spec.IsWatchKept image.now cores watch 0) }
    {
        let lines = Lines::none(alloc, image)?;
        let touches = Touches::none(alloc, image)?;
        Ok(Watch {
            cores,
            epoch: Epoch::of(0),
            lines,
            touches,
            has_met: false,
            quiet: 0,
            stored: 0,
        })
    }

    /// Begins with an epoch: no line is at hand.
    pub(crate) fn begin(&mut self, epoch: u32)
        requires { epoch < 2 ^ 16 }
        ensures { self.new ≡ spec.begun self.old epoch }
    {
        self.epoch = Epoch::of(epoch);
        self.has_met = false;
        self.quiet = 0;
        self.stored = 0;
    }

    /// In what the epoch that has run conflicts with an earlier one.
    pub(crate) fn found(&self) -> Option<CacheConflict>
        ensures { result ≡ spec.found_by self.now }
    {
        let later = self.epoch.number();
        if self.has_met {
            Some(CacheConflict::Line { later })
        } else if self.touches.overflows() {
            Some(CacheConflict::Buffer { later })
        } else {
            None
        }
    }
}

impl Notes for Watch {
    ghost use Rattle.dependences.specs.KeptWatch.{AreAtHand, IsWatched};

    ghost right = { λ image watch h memory. IsWatched image watch h memory × AreAtHand watch };

    ghost fixed = { λ watch. watch.cores ∷ watch.epoch ∷ [] };

    fn others_need_no_note() {}

    #[inline(always)]
    fn load(&mut self, image: &Image, _pc: u32, _done: u64, addr: u32, width: u32) {
        if self.has_met {
            return;
        }
        let line = line_of(image, addr);
        if self.quiet == line + 1 {
            return;
        }
        let epoch = self.epoch.number();
        let first = first_beside(self.cores, epoch);
        let look = self.lines.look(image, line, self.epoch, first, addr, width);
        if look.meets {
            self.has_met = true;
            return;
        }
        self.touches.touch(image, self.cores, epoch, line);
        self.quiet = look.quiet;
    }

    #[inline(always)]
    fn store(&mut self, image: &Image, _pc: u32, _done: u64, addr: u32, width: u32) {
        if self.has_met {
            return;
        }
        let line = line_of(image, addr);
        if self.stored == line + 1 {
            return;
        }
        let epoch = self.epoch.number();
        let first = first_beside(self.cores, epoch);
        let alone = self
            .lines
            .store(image, line, self.epoch, first, addr, width);
        self.touches.touch(image, self.cores, epoch, line);
        self.touches.store(image, self.cores, epoch, line);
        self.stored = alone;
    }
}
