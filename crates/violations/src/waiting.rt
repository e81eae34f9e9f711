ghost use Rattle.std.specs.Prelude.{◌≡◌, refl};

use crate::core_set::CoreSet;
use crate::step::{Step, WaitCause};
use crate::store::EpochStore;
use rv32_image::{Image, NoMemory};
use std::alloc::{AllocError, Global};

/// A store whose every speculative access waits, so that all accesses are straight ones of the homefree core. It is for tests
/// of what stands above a store.
#[derive(Drop)]
pub struct Waiting<S: EpochStore> {
    /// The store that does all other calls.
    pub store: S,
}

impl<S: EpochStore> EpochStore for Waiting<S> {
    ghost use Rattle.violations.specs.View.{always_waits};
    ghost use Rattle.violations.specs.Calls.{but_for_accesses};
    ghost use Rattle.violations.specs.declared.step.WaitCause.TheVariants.{NoWay};

    ghost view = { λ w. S.view w.store };

    ghost waits = { λ _. always_waits NoWay };

    ghost budget = { λ w. S.budget w.store };

    ghost makes = { λ w call w'. but_for_accesses call (S.makes w.store call w'.store) (w'.store ≡ w.store) };

    ghost alike = { λ w w'. S.alike w.store w'.store };

    ghost starts = { λ image cores w. S.starts image cores w.store };

    fn fresh(alloc: Global, image: &Image, cores: u32) -> Result<Waiting<S>, NoMemory> {
        let store = S::fresh(alloc, image, cores)?;
        Ok(Waiting { store })
    }

    fn calls_are_fixed() {
        S::calls_are_fixed();
    }

    fn look(&self) {
        self.store.look();
    }

    fn reserve(&mut self) -> Result<(), NoMemory> {
        self.store.reserve()
    }

    fn begin(&mut self, core: u32, epoch: u32) {
        self.store.begin(core, epoch);
    }

    fn load(&mut self, _core: u32, _addr: u32, _width: u32) -> Step {
        Step::Wait(WaitCause::NoWay)
    }

    fn store(&mut self, _core: u32, _addr: u32, _width: u32, _value: u32) -> Step {
        Step::Wait(WaitCause::NoWay)
    }

    fn publish(&mut self, core: u32) -> CoreSet {
        self.store.publish(core)
    }

    fn straight_load(&mut self, core: u32, addr: u32, width: u32) -> (u32, CoreSet) {
        self.store.straight_load(core, addr, width)
    }

    fn straight_store(&mut self, core: u32, addr: u32, width: u32, value: u32) -> CoreSet {
        self.store.straight_store(core, addr, width, value)
    }

    fn leave(&mut self, core: u32) {
        self.store.leave(core);
    }

    fn cancel(&mut self, core: u32) {
        self.store.cancel(core);
    }

    fn committed_byte(&self, addr: u32) -> u8 {
        self.store.committed_byte(addr)
    }

    fn committed_memory(&self, alloc: Global) -> Result<Vec<u8>, AllocError> {
        self.store.committed_memory(alloc)
    }
}
