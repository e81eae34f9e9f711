//! The laws of runs at even speed: each function does nothing of its own, and its contract is the law.
ghost use Rattle.even_speed.specs.Fixed.{RunIsFixed};
ghost use Rattle.even_speed.specs.ZeroCosts.{ChangeNothing};
ghost use Rattle.turn_costs.specs.Costs.{bus_costs};

use homefree::turn_is_fixed;
use turn_costs::PricedStore;
use turn_costs::laws::actions_are_fixed;

/// From two books that have the same history, and whose stores hold the same, the run at even speed takes the same turns, makes the
/// same entries and comes to the same, where it isn't stopped.
pub fn run_is_fixed<S: PricedStore>()
    ensures { RunIsFixed S.makes S.alike S.view S.waits S.prices S.keeps }
{
    turn_is_fixed::<S>();
    actions_are_fixed::<S>();
}

/// Costs that are all 0 change nothing: from the start of a run the same turns, at the same times, lead to the same book and come to
/// the same, with these costs or without any. Where loads wait, what is told as queue at these costs is told as held without.
pub fn zero_costs_change_nothing<S: PricedStore>()
    ensures asked { ChangeNothing (bus_costs 0) S.makes S.view S.waits S.prices S.keeps }
    ensures unasked { ChangeNothing (bus_costs 0) S.makes S.view S.waits S.prices (λ store. Unit {0}) }
{}
