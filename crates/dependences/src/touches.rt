ghost use Rattle.std.specs.Prelude.{◌≡◌, ℕ, ◌+◌, ◌-◌, ◌<◌, ◌≤◌, ◌^◌, IfOk, length, slice_index};
ghost use Rattle.spec_history.specs.Conflict.{line_count};
ghost use Rattle.dependences.specs.KeptTouches as spec;

use crate::beside::first_beside;
use crate::last_two::LastTwo;
use crate::marks::Marks;
use epoch_paths::{Epoch, line_of};
use rv32_exec::NoMemory;
use rv32_image::Image;
use std::alloc::Global;
use std::marker::Model;

/// Who touched each line last; of each line the last epoch that stored in it, and 1, or 0 for none; of each epoch how many shared
/// lines it stores in, 0 where no earlier epoch touches one of these; and whether one of these counts is above what a buffer takes.
#[derive(Drop)]
pub(crate) struct Touches {
    two: LastTwo,
    stored: Marks,
    counts: Marks,
    full: bool,
}

impl Model for Touches {
    ghost use Rattle.dependences.specs.KeptTouches as spec;

    ghost Value = { spec.Touched };

    ghost view = { λ t. record { two = t.two; stored = t.stored; counts = t.counts; full = t.full } };
}

impl Touches {
    /// Where nobody has touched a line.
    pub(crate) fn none(alloc: Global, image: &Image) -> Result<Touches, NoMemory>
        ensures { IfOk result (λ t. (cores : ℕ) → spec.AreTouchesKept image.now cores 0 t) }
    {
        let count = line_of(image, image.size()) as usize;
        let stored = Marks::none(alloc, count)?;
        let epochs = image.epochs() as usize;
        let counts = Marks::none(alloc, epochs)?;
        let two = LastTwo::none(alloc, image)?;
        Ok(Touches {
            two,
            stored,
            counts,
            full: false,
        })
    }

    /// Notes that this epoch touches this line.
    #[inline(always)]
    pub(crate) fn touch(&mut self, image: &Image, cores: u32, epoch: u32, line: u32)
        requires epoch { epoch < image.now.epochs }
        requires within { line < line_count image.now }
        requires long { spec.AreTouches image.now self.old }
        requires last { slice_index self.old.two.last line ≤ epoch + 1 }
        ensures { self.new ≡ spec.after_touch self.old image.now.machine.buffer_lines cores epoch line }
    {
        let limit = image.machine().buffer_lines;
        self.touch_in(limit, cores, epoch, line);
    }

    /// Notes that this epoch stores in this line, which it touches.
    #[inline(always)]
    pub(crate) fn store(&mut self, image: &Image, cores: u32, epoch: u32, line: u32)
        requires epoch { epoch < image.now.epochs }
        requires within { line < line_count image.now }
        requires long { spec.AreTouches image.now self.old }
        ensures { self.new ≡ spec.after_store self.old image.now.machine.buffer_lines cores epoch line }
    {
        let limit = image.machine().buffer_lines;
        self.store_in(limit, cores, epoch, line);
    }

    /// Notes that this epoch touches this line: where the last one before it stores in the line and is near, the line is shared.
    #[inline(always)]
    fn touch_in(&mut self, limit: u32, cores: u32, epoch: u32, line: u32)
        requires inside { spec.IsInside self.old epoch line }
        requires last { slice_index self.old.two.last line ≤ epoch + 1 }
        ensures { self.new ≡ spec.after_touch self.old limit cores epoch line }
    {
        let last = self.two.last_in(line);
        if last == epoch + 1 {
            return;
        }
        if self.is_shared_now(cores, epoch, line) {
            self.count(limit, last - 1);
        }
        self.two.follow(Epoch::of(epoch), line);
    }

    /// Whether a touch by this epoch makes the line a shared one of the last epoch that touched it.
    fn is_shared_now(&self, cores: u32, epoch: u32, line: u32) -> bool
        requires inside { spec.IsInside self.now epoch line }
        requires last { slice_index self.now.two.last line ≤ epoch + 1 }
        ensures { result ≡ spec.is_shared_now self.now cores epoch line }
    {
        let last = self.two.last_in(line);
        last > first_beside(cores, epoch)
            && self.stored.at(line) == last
            && self.two.before_in(line) <= first_beside(cores, last - 1)
            && self.counts.at(last - 1) > 0
    }

    /// Notes that this epoch stores in this line: where one beside it has touched the line before, it is shared.
    #[inline(always)]
    fn store_in(&mut self, limit: u32, cores: u32, epoch: u32, line: u32)
        requires inside { spec.IsInside self.old epoch line }
        ensures { self.new ≡ spec.after_store self.old limit cores epoch line }
    {
        if self.stored.at(line) == epoch + 1 {
            return;
        }
        self.stored.put(line, epoch + 1);
        if self.two.before_in(line) > first_beside(cores, epoch) {
            self.count(limit, epoch);
        }
    }

    /// Counts a shared line more for this epoch.
    fn count(&mut self, limit: u32, epoch: u32)
        requires within { epoch < length self.old.counts }
        requires few { slice_index self.old.counts epoch < 2 ^ 32 - 1 }
        ensures { self.new ≡ spec.counted self.old limit epoch }
    {
        let count = self.counts.at(epoch) + 1;
        self.counts.put(epoch, count);
        if count > limit {
            self.full = true;
        }
    }

    /// Whether an epoch has stored in more shared lines than its buffer takes.
    pub(crate) fn overflows(&self) -> bool
        ensures { result ≡ self.now.full }
    {
        self.full
    }
}
