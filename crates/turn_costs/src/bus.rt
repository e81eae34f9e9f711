//! What calls cost on the bus of the caches.
ghost use Rattle.std.specs.Prelude.{◌≡◌, ℕ};
ghost use Rattle.bus_states.specs.Straight.{stores_alone};
ghost use Rattle.spec_bus.specs.Cached as cached;
ghost use Rattle.turn_costs.specs.Accesses as spec;

use crate::actions::Actions;
use crate::store::PricedStore;
use spec_bus::CachedBus;
use violations::EpochStore;

/// One where it is so.
fn count_of(is: bool) -> u32
    ensures { result ≡ spec.count_of is }
{
    if is { 1 } else { 0 }
}

/// Whether core `k` is another one, and has the line in which this address lies as M.
fn is_modified_at(bus: &CachedBus, core: u32, k: u32, addr: u32) -> bool
    ensures { result ≡ spec.is_modified_at (cached.bus bus.now) core (cached.line_of bus.now addr) k }
{
    k != core && bus.line_at(k, addr).state.is_modified()
}

/// Whether another core has the line in which this address lies as M.
fn is_modified_elsewhere(bus: &CachedBus, core: u32, addr: u32) -> bool
    ensures { result ≡ spec.is_modified_elsewhere (cached.bus bus.now) core (cached.line_of bus.now addr) }
{
    for k in 0..bus.cores() {
        if is_modified_at(bus, core, k, addr) {
            return true;
        }
    }
    false
}

/// Whether the line that has to leave is M.
fn leaves_modified(bus: &CachedBus, core: u32, addr: u32) -> bool
    ensures { result ≡ spec.leaves_modified (cached.room bus.now core (cached.line_of bus.now addr)) }
{
    match bus.room_at(core, addr) {
        Some(state) => state.is_modified(),
        None => false,
    }
}

/// A miss.
fn miss_of(bus: &CachedBus, core: u32, addr: u32) -> Actions
    ensures { result ≡ spec.miss_of (cached.bus bus.now) core (cached.line_of bus.now addr)
        (cached.room bus.now core (cached.line_of bus.now addr)) }
{
    Actions {
        misses: 1,
        write_backs: count_of(leaves_modified(bus, core, addr))
            + count_of(is_modified_elsewhere(bus, core, addr)),
        ..Actions::NONE
    }
}

/// An access to the core's own copy, which tells the others or doesn't.
fn hit_of(bus: &CachedBus, straight: bool, tells: bool, core: u32, addr: u32) -> Actions
    ensures { result ≡ spec.hit_of (cached.bus bus.now) straight tells core (cached.line_of bus.now addr) }
{
    let modified = bus.line_at(core, addr).state.is_modified();
    Actions {
        upgrades: count_of(tells),
        write_backs: count_of(!straight && modified),
        ..Actions::NONE
    }
}

/// Whether a store has to tell the others.
fn store_tells(bus: &CachedBus, straight: bool, core: u32, addr: u32) -> bool
    ensures { result ≡ spec.store_tells (cached.bus bus.now) straight core (cached.line_of bus.now addr) }
{
    if straight {
        !bus.stores_alone(core, addr)
    } else {
        !bus.owns_line(core, addr)
    }
}

impl PricedStore for CachedBus {
    ghost use Rattle.spec_bus.specs.Laws.{IsPlacedCore};
    ghost use Rattle.turn_costs.specs.Prices.{bus_prices};

    ghost prices = { bus_prices };

    ghost keeps = { λ v. (k : ℕ) → IsPlacedCore v.cores k };

    fn prices_are_fixed() {}

    fn look_inside(&self) {
        self.look_caches();
    }

    fn load_actions(&self, core: u32, straight: bool, addr: u32) -> Actions {
        if self.line_at(core, addr).state.is_valid() {
            hit_of(self, straight, false, core, addr)
        } else {
            miss_of(self, core, addr)
        }
    }

    fn store_actions(&self, core: u32, straight: bool, addr: u32) -> Actions {
        if self.line_at(core, addr).state.is_valid() {
            let tells = store_tells(self, straight, core, addr);
            hit_of(self, straight, tells, core, addr)
        } else {
            miss_of(self, core, addr)
        }
    }

    fn publish_lines(&self, core: u32) -> u32 {
        if core >= self.cores() {
            return 0;
        }
        self.look();
        self.orb_at(core).len() as u32
    }

    fn load_waits(&self, core: u32, addr: u32, _width: u32) -> bool {
        self.load_wait(core, addr).is_some()
    }

    fn store_waits(&self, core: u32, addr: u32, width: u32) -> bool {
        self.store_wait(core, addr, width).is_some()
    }
}
