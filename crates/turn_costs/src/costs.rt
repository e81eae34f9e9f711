//! How many steps each action costs.
ghost use Rattle.std.specs.Prelude.{◌≡◌, ◌≤◌, IfSome, IfNone, ◌<◌};
ghost use Rattle.turn_costs.specs.Costs as spec;

use std::marker::Model;

/// The most steps that an action may cost.
pub const MOST_COST: u32 = 1_000_000;

/// How many steps an action costs: at most `MOST_COST`. Contracts see it as that number.
#[derive(Clone, Copy)]
pub struct Cost {
    steps: u32,
}

impl Model for Cost {
    ghost use Rattle.std.specs.Prelude.{ℕ, ◌≤◌};

    ghost Value = { ℕ };

    ghost view = { λ c. c.steps };

    ghost invariant = { λ c. c.steps ≤ 1000000 };

    ghost inverse = { λ n. record { steps = n } };
}

impl Cost {
    /// A cost of so many steps. None: they are more than `MOST_COST`.
    pub fn new(steps: u32) -> Option<Cost>
        ensures some { IfSome result (λ cost. cost ≡ steps) }
        ensures none { IfNone result (MOST_COST < steps) }
    {
        if steps <= MOST_COST {
            Some(Cost { steps })
        } else {
            None
        }
    }

    /// The steps.
    pub fn steps(self) -> u32
        ensures value { result ≡ self }
        ensures within { result ≤ MOST_COST }
    {
        self.steps
    }
}

/// How many steps actions cost, beside the one that each turn takes.
#[derive(Clone, Copy)]
pub struct Costs {
    /// An access to a line of which the core has no copy.
    pub miss: Cost,
    /// A store of which the core has to tell the others, to a line that it holds.
    pub upgrade: Cost,
    /// The begin of an epoch.
    pub begin: Cost,
    /// The begin of an epoch that was violated.
    pub restart: Cost,
    /// A commit; also a fault or an exit.
    pub commit: Cost,
    /// A line that a publish asks for.
    pub line: Cost,
    /// How long each message holds the bus.
    pub hold: Cost,
}

impl Costs {
    /// Each action costs as much, and no message holds the bus.
    pub fn bus(each: Cost) -> Costs
        ensures { result ≡ spec.bus_costs each }
    {
        Costs {
            miss: each,
            upgrade: each,
            begin: each,
            restart: each,
            commit: each,
            line: each,
            hold: Cost { steps: 0 },
        }
    }
}
