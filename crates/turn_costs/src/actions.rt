//! What a turn does that costs.
ghost use Rattle.std.specs.Prelude.{◌≡◌, ◌≤◌, ◌<◌, ◌+◌, ◌*◌, ◌||◌, nat_lt};
ghost use Rattle.turn_costs.specs.Actions as spec;

use crate::costs::Costs;

/// How often a turn, or an access, does what costs.
#[derive(Clone, Copy, PartialEq, Eq)]
pub struct Actions {
    /// Accesses to a line of which the core has no copy.
    pub misses: u32,
    /// Stores of which the core has to tell the others, to a line that it holds.
    pub upgrades: u32,
    /// Lines that a publish asks for.
    pub lines: u32,
    /// Lines that are written to memory before an access.
    pub write_backs: u32,
    /// Epochs that begin.
    pub begins: u32,
    /// Epochs that begin again, since they were violated.
    pub restarts: u32,
    /// Commits, faults and exits of the homefree epoch.
    pub commits: u32,
}

impl Actions {
    /// Nothing that costs.
    pub(crate) const NONE: Actions = Actions {
        misses: 0,
        upgrades: 0,
        lines: 0,
        write_backs: 0,
        begins: 0,
        restarts: 0,
        commits: 0,
    };

    /// How many messages there are on the bus.
    pub fn messages(&self) -> u64
        ensures value { result ≡ spec.messages_of self.now }
        ensures few { spec.AreFew self.now → result ≤ 68 }
    {
        u64::from(self.misses)
            + u64::from(self.upgrades)
            + u64::from(self.lines)
            + u64::from(self.write_backs)
    }

    /// Whether a turn can't begin before the bus is free.
    pub fn needs_bus(&self) -> bool
        ensures { result ≡ spec.needs_bus self.now }
    {
        self.misses > 0 || self.upgrades > 0 || self.lines > 0
    }

    /// Whether a turn is one of those that come in order, one at a time: it commits or publishes.
    pub fn come_in_order(&self) -> bool
        ensures { result ≡ spec.come_in_order self.now }
    {
        self.commits > 0 || self.lines > 0
    }

    /// The steps that its accesses cost.
    pub fn memory_steps(&self, costs: &Costs) -> u64
        ensures value { result ≡ spec.memory_steps costs.now self.now }
        ensures few { spec.AreFew self.now → result ≤ 2000000 }
    {
        u64::from(self.misses) * u64::from(costs.miss.steps())
            + u64::from(self.upgrades) * u64::from(costs.upgrade.steps())
    }

    /// The steps that it costs to begin and to commit epochs.
    pub fn handling_steps(&self, costs: &Costs) -> u64
        ensures value { result ≡ spec.handling_steps costs.now self.now }
        ensures few { spec.AreFew self.now → result ≤ 67000000 }
    {
        u64::from(self.lines) * u64::from(costs.line.steps())
            + u64::from(self.begins) * u64::from(costs.begin.steps())
            + u64::from(self.restarts) * u64::from(costs.restart.steps())
            + u64::from(self.commits) * u64::from(costs.commit.steps())
    }
}
