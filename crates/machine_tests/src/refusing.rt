//! A store that is refused memory.
ghost use Rattle.std.specs.Prelude.{◌≡◌};

use rv32_exec::{Image, NoMemory};
use std::alloc::{AllocError, Global};
use violations::{CoreSet, EpochStore, Step};

/// A store that makes room twice, and says from then on that memory was refused.
#[derive(Drop)]
pub struct Refusing<S: EpochStore> {
    /// The store that does all other calls.
    pub store: S,
    /// How often it still makes room.
    pub grants: u32,
}

impl<S: EpochStore> EpochStore for Refusing<S> {
    ghost view = { λ r. S.view r.store };

    ghost waits = { λ r. S.waits r.store };

    ghost budget = { λ r. S.budget r.store };

    ghost makes = { λ r call r'. S.makes r.store call r'.store };

    ghost alike = { λ r r'. S.alike r.store r'.store };

    ghost starts = { λ image cores r. S.starts image cores r.store };

    fn fresh(alloc: Global, image: &Image, cores: u32) -> Result<Refusing<S>, NoMemory> {
        let store = S::fresh(alloc, image, cores)?;
        Ok(Refusing { store, grants: 2 })
    }

    fn calls_are_fixed() {
        S::calls_are_fixed();
    }

    fn look(&self) {
        self.store.look();
    }

    fn reserve(&mut self) -> Result<(), NoMemory> {
        self.store.reserve()?;
        if self.grants == 0 {
            return Err(NoMemory);
        }
        self.grants -= 1;
        Ok(())
    }

    fn begin(&mut self, core: u32, epoch: u32) {
        self.store.begin(core, epoch);
    }

    fn load(&mut self, core: u32, addr: u32, width: u32) -> Step {
        self.store.load(core, addr, width)
    }

    fn store(&mut self, core: u32, addr: u32, width: u32, value: u32) -> Step {
        self.store.store(core, addr, width, value)
    }

    fn publish(&mut self, core: u32) -> CoreSet {
        self.store.publish(core)
    }

    fn straight_load(&mut self, core: u32, addr: u32, width: u32) -> (u32, CoreSet) {
        self.store.straight_load(core, addr, width)
    }

    fn straight_store(&mut self, core: u32, addr: u32, width: u32, value: u32) -> CoreSet {
        self.store.straight_store(core, addr, width, value)
    }

    fn leave(&mut self, core: u32) {
        self.store.leave(core);
    }

    fn cancel(&mut self, core: u32) {
        self.store.cancel(core);
    }

    fn committed_byte(&self, addr: u32) -> u8 {
        self.store.committed_byte(addr)
    }

    fn committed_memory(&self, alloc: Global) -> Result<Vec<u8>, AllocError> {
        self.store.committed_memory(alloc)
    }
}
