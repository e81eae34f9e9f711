ghost use Rattle.std.specs.Prelude.{◌≡◌, ℕ, ◌+◌, ◌<◌, ◌≤◌, ◌^◌, IfOk, true, false, length, slice_index};
ghost use Rattle.rv32_image.specs.Image.{IsImage};
ghost use Rattle.spec_history.specs.Conflict.{line_count, line_number};
ghost use Rattle.dependences.specs.KeptOwn.{AreLong};
ghost use Rattle.dependences.specs.KeptLines as spec;

use crate::last_two::LastTwo;
use crate::own_bytes::OwnBytes;
use epoch_paths::Epoch;
use rv32_exec::NoMemory;
use rv32_image::Image;
use std::alloc::Global;
use std::marker::Model;

/// What a load meets: whether a byte that the epoch has not stored, in a line in which an epoch beside it has; and the line, and 1,
/// where no epoch beside it has stored there, else 0.
#[derive(Clone, Copy)]
pub(crate) struct Look {
    pub meets: bool,
    pub quiet: u32,
}

/// Which bytes the epoch that runs has stored; and the last that stored in each line.
#[derive(Drop)]
pub(crate) struct Lines {
    own: OwnBytes,
    two: LastTwo,
}

impl Model for Lines {
    ghost use Rattle.dependences.specs.KeptLines as spec;

    ghost Value = { spec.Lines };

    ghost view = { λ s. record { own = s.own; two = s.two } };
}

impl Lines {
    /// Where nobody has stored.
    pub(crate) fn none(alloc: Global, image: &Image) -> Result<Lines, NoMemory>
        ensures { IfOk result (λ s. (cores : ℕ) → spec.AreLinesKept image.now cores 0 s) }
    {
        let size = image.size() as usize;
        let own = OwnBytes::none(alloc, size)?;
        let two = LastTwo::none(alloc, image)?;
        Ok(Lines { own, two })
    }

    /// What a load of these bytes by this epoch meets, which lie in this line, where epochs from `first` on are beside it.
    #[inline(always)]
    pub(crate) fn look(
        &self,
        _image: &Image,
        line: u32,
        epoch: Epoch,
        first: u32,
        addr: u32,
        width: u32,
    ) -> Look
        requires small { line < 2 ^ 28 }
        requires limits { IsImage _image.now }
        requires line { line ≡ line_number _image.now addr }
        requires inside { line < line_count _image.now }
        requires access { spec.IsAllowed _image.now addr width }
        requires lines { spec.AreLines _image.now self.now.two }
        ensures found { result.meets ≡ true → spec.MeetsLine _image.now self.now epoch first addr width }
        ensures none { result.meets ≡ false → spec.MeetsLine _image.now self.now epoch first addr width → ⊥ }
        ensures quiet { (l : ℕ) → result.quiet ≡ l + 1 → (l ≡ line) × (spec.other_before self.now.two epoch l ≤ first) }
    {
        if self.two.other_before(epoch, line) <= first {
            return Look {
                meets: false,
                quiet: line + 1,
            };
        }
        for i in 0..width {
            if !self.own.has(epoch, addr + i) {
                return Look {
                    meets: true,
                    quiet: 0,
                };
            }
        }
        Look {
            meets: false,
            quiet: 0,
        }
    }

    /// Notes that this epoch stores these bytes, which lie in this line, where epochs from `first` on are beside it. Answers the line, and
    /// 1, where none of these has stored there, else 0.
    #[inline(always)]
    pub(crate) fn store(
        &mut self,
        _image: &Image,
        line: u32,
        epoch: Epoch,
        first: u32,
        addr: u32,
        width: u32,
    ) -> u32
        requires small { line < 2 ^ 28 }
        requires limits { IsImage _image.now }
        requires line { line ≡ line_number _image.now addr }
        requires inside { line < line_count _image.now }
        requires access { spec.IsAllowed _image.now addr width }
        requires own { AreLong self.old.own _image.now.size }
        requires lines { spec.AreLines _image.now self.old.two }
        ensures stored { spec.AreStored _image.now self.old self.new epoch first addr width }
        ensures noted { spec.IsLineNoted self.old.two self.new.two epoch line }
        ensures alone { (l : ℕ) → result ≡ l + 1 → (l ≡ line) × (spec.other_before self.new.two epoch line ≤ first) }
    {
        if self.two.other_before(epoch, line) <= first {
            self.two.note(epoch, line);
            return line + 1;
        }
        self.own.mark(epoch, addr, width);
        self.two.note(epoch, line);
        0
    }
}
