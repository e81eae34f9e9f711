//! What a turn costs, and when it begins.
ghost use Rattle.std.specs.Prelude.{◌≡◌, ◌≤◌, ◌<◌, ◌+◌, ◌^◌};
ghost use Rattle.turn_costs.specs.Actions.{AreFew};
ghost use Rattle.even_speed.specs.Account.{total};
ghost use Rattle.even_speed.specs.Pricing as spec;

use crate::account::{NOTHING_SPENT, Spent};
use homefree::Answer;
use turn_costs::{Actions, Costs};

/// What a turn costs its core, and what it needs.
#[derive(Clone, Copy)]
pub struct Price {
    /// It can't begin before the bus is free.
    pub needs_bus: bool,
    /// It commits or publishes, which one core does at a time.
    pub in_order: bool,
    /// How many steps its messages hold the bus.
    pub bus: u64,
    /// The steps that it costs, beside its own.
    pub spent: Spent,
}

/// That of a turn which costs nothing.
pub(crate) const NO_PRICE: Price = Price {
    needs_bus: false,
    in_order: false,
    bus: 0,
    spent: NOTHING_SPENT,
};

/// What these actions cost.
pub(crate) fn price_of(costs: &Costs, actions: &Actions) -> Price
    requires { AreFew actions.now }
    ensures price { result ≡ spec.price_of costs.now actions.now }
    ensures low { spec.IsLow result }
{
    Price {
        needs_bus: actions.needs_bus(),
        in_order: actions.come_in_order(),
        bus: actions.messages() * u64::from(costs.hold.steps()),
        spent: Spent {
            handling: actions.handling_steps(costs),
            memory: actions.memory_steps(costs),
            queue: 0,
        },
    }
}

/// When what turns need is free, in steps since the start of the run.
#[derive(Clone, Copy)]
pub struct Free {
    /// When the last turn began.
    pub began: u64,
    /// When the bus is free.
    pub bus: u64,
    /// When the next of the turns may begin that commit or publish.
    pub order: u64,
}

/// At the start of the run.
pub(crate) const ALL_FREE: Free = Free {
    began: 0,
    bus: 0,
    order: 0,
};

impl Free {
    /// When a turn of this price begins that is due at this time.
    pub(crate) fn begins(&self, price: &Price, due: u64) -> u64
        ensures { result ≡ spec.begins self.now price.now due }
    {
        let soonest = later(self.began, due);
        let over_bus = if_needed(price.needs_bus, self.bus, soonest);
        if_needed(price.in_order, self.order, over_bus)
    }

    /// What is free after a turn of this price that began at this time.
    pub(crate) fn after(&self, at: u64, price: &Price, answer: &Answer) -> Free
        requires bus { self.now.bus < 2 ^ 62 }
        requires at { at < 2 ^ 62 }
        requires low { spec.IsLow price.now }
        ensures { result ≡ spec.free_after self.now at price.now answer.now }
    {
        Free {
            began: at,
            bus: held_until(self.bus, at, price.bus),
            order: if_needed(
                price.in_order || leaves(answer),
                at + price.spent.total(),
                self.order,
            ),
        }
    }

    /// When a run is over whose last turn, of this price, began at this time: no commit goes on after it.
    pub(crate) fn over(&self, at: u64, price: &Price) -> u64
        requires at { at < 2 ^ 62 }
        requires order { self.now.order < 2 ^ 62 }
        requires low { spec.IsLow price.now }
        ensures { result ≡ spec.over_at self.now at price.now }
    {
        later(self.order, at + price.spent.total()) + 1
    }
}

/// The later of two times.
pub(crate) fn later(now: u64, due: u64) -> u64
    ensures { result ≡ spec.later now due }
{
    if now <= due { due } else { now }
}

/// A time, or that from which on something is free, where it is needed and that is later.
fn if_needed(needs: bool, free: u64, at: u64) -> u64
    ensures { result ≡ spec.if_needed needs free at }
{
    if needs { later(free, at) } else { at }
}

/// Up to when the bus is held that is free from this time on, where a turn that began at that time holds it so long.
fn held_until(bus: u64, at: u64, messages: u64) -> u64
    requires { spec.later bus at + messages < 2 ^ 64 }
    ensures { result ≡ spec.held_until bus at messages }
{
    if messages == 0 {
        bus
    } else {
        later(bus, at) + messages
    }
}

/// Whether an epoch has been left.
fn leaves(answer: &Answer) -> bool
    ensures { result ≡ spec.leaves answer.now }
{
    matches!(answer, Answer::Left | Answer::Over(_))
}
