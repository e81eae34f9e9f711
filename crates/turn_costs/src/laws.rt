//! The law of what turns do: the function does nothing of its own, and its contract is the law.
ghost use Rattle.turn_costs.specs.Fixed.{ActionsAreFixed};

use crate::store::PricedStore;

/// From two books that have the same history, and whose stores hold the same, the same turn of a core does the same that costs.
pub fn actions_are_fixed<S: PricedStore>()
    ensures { ActionsAreFixed S.keeps S.alike S.prices S.waits }
{
    S::prices_are_fixed();
}
