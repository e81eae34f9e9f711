//! Stores that say what their calls cost.
ghost use Rattle.std.specs.Prelude.{◌≡◌, ◌≤◌, ◌<◌, ℕ, is_some};
ghost use Rattle.violations.specs.View.{IsLoad};
ghost use Rattle.turn_costs.specs.Actions.{AreFew};
ghost use Rattle.turn_costs.specs.Prices.{Prices, PricesAreFixed, WaitsAreFixed};

use crate::actions::Actions;
use violations::EpochStore;

/// A store that says what each of its calls would do that costs, before it is made. No call here changes anything.
pub trait PricedStore: EpochStore {
    /// What the calls do that costs.
    ghost prices: { Self → Prices };

    /// What every store of the kind keeps, no view of which shows it.
    ghost keeps: { Self → Type 0 };

    /// The law of the prices: two stores that hold the same have the same, and of both the same accesses wait. This call does nothing,
    /// and its contract is the law.
    fn prices_are_fixed()
        ensures prices { PricesAreFixed keeps Self.alike prices }
        ensures waits { WaitsAreFixed keeps Self.alike Self.waits };

    /// What every store keeps: this call does nothing, and its contract is the law.
    fn look_inside(&self)
        ensures { keeps self.now };

    /// What a load of a core does that costs, a straight or a speculative one.
    fn load_actions(&self, core: u32, straight: bool, addr: u32) -> Actions
        ensures value { result ≡ (prices self.now).load straight core addr }
        ensures few { AreFew result };

    /// What a store of a core does that costs, a straight or a speculative one.
    fn store_actions(&self, core: u32, straight: bool, addr: u32) -> Actions
        ensures value { result ≡ (prices self.now).store straight core addr }
        ensures few { AreFew result };

    /// How many lines the publish of a core asks for.
    fn publish_lines(&self, core: u32) -> u32
        ensures value { result ≡ (prices self.now).lines core }
        ensures few { result ≤ 64 };

    /// Whether a speculative load of a core would wait.
    fn load_waits(&self, core: u32, addr: u32, width: u32) -> bool
        requires core { core < (Self.view self.now).shape.cores }
        requires access { IsLoad (Self.view self.now).shape addr width }
        ensures { result ≡ is_some ((Self.waits self.now).load core addr width) };

    /// Whether a speculative store of a core would wait.
    fn store_waits(&self, core: u32, addr: u32, width: u32) -> bool
        requires core { core < (Self.view self.now).shape.cores }
        requires access { IsLoad (Self.view self.now).shape addr width }
        ensures { result ≡ is_some ((Self.waits self.now).store core addr width) };
}
