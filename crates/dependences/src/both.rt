//! One run that is noted twice.
ghost use Rattle.std.specs.Prelude.{◌++◌};

use rv32_exec::Notes;
use rv32_image::Image;

/// Two notes on one run: both are told of each load and store.
#[derive(Drop)]
pub(crate) struct Both<A: Notes + Drop, B: Notes + Drop> {
    pub(crate) first: A,
    pub(crate) second: B,
}

impl<A: Notes + Drop, B: Notes + Drop> Notes for Both<A, B> {
    ghost right = { λ image both h memory. A.right image both.first h memory × B.right image both.second h memory };

    ghost fixed = { λ both. A.fixed both.first ++ B.fixed both.second };

    fn others_need_no_note() {
        A::others_need_no_note();
        B::others_need_no_note();
    }

    #[inline(always)]
    fn load(&mut self, image: &Image, pc: u32, done: u64, addr: u32, width: u32) {
        self.first.load(image, pc, done, addr, width);
        self.second.load(image, pc, done, addr, width);
    }

    #[inline(always)]
    fn store(&mut self, image: &Image, pc: u32, done: u64, addr: u32, width: u32) {
        self.first.store(image, pc, done, addr, width);
        self.second.store(image, pc, done, addr, width);
    }
}
