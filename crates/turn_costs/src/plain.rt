//! A plain store has no lines, so that no access costs anything; nor does a wait.

use crate::actions::Actions;
use crate::store::PricedStore;
use violations::{PlainStore, Waiting};

impl PricedStore for PlainStore {
    ghost use Rattle.std.specs.Prelude.{ℕ};
    ghost use Rattle.turn_costs.specs.Prices.{no_prices};

    ghost prices = { λ _. no_prices };

    ghost keeps = { λ _. Unit {0} };

    fn prices_are_fixed() {}

    fn look_inside(&self) {}

    fn load_actions(&self, _core: u32, _straight: bool, _addr: u32) -> Actions {
        Actions::NONE
    }

    fn store_actions(&self, _core: u32, _straight: bool, _addr: u32) -> Actions {
        Actions::NONE
    }

    fn publish_lines(&self, _core: u32) -> u32 {
        0
    }

    fn load_waits(&self, _core: u32, _addr: u32, _width: u32) -> bool {
        false
    }

    fn store_waits(&self, _core: u32, _addr: u32, _width: u32) -> bool {
        false
    }
}

impl<S: PricedStore> PricedStore for Waiting<S> {
    ghost prices = { λ w. S.prices w.store };

    ghost keeps = { λ w. S.keeps w.store };

    fn prices_are_fixed() {
        S::prices_are_fixed();
    }

    fn look_inside(&self) {
        self.store.look_inside();
    }

    fn load_actions(&self, core: u32, straight: bool, addr: u32) -> Actions {
        self.store.load_actions(core, straight, addr)
    }

    fn store_actions(&self, core: u32, straight: bool, addr: u32) -> Actions {
        self.store.store_actions(core, straight, addr)
    }

    fn publish_lines(&self, core: u32) -> u32 {
        self.store.publish_lines(core)
    }

    fn load_waits(&self, _core: u32, _addr: u32, _width: u32) -> bool {
        true
    }

    fn store_waits(&self, _core: u32, _addr: u32, _width: u32) -> bool {
        true
    }
}
