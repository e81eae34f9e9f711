//! Where the steps of cores went.
ghost use Rattle.std.specs.Prelude.{◌≡◌, ◌≤◌, ◌<◌, ◌+◌, ◌^◌};
ghost use Rattle.even_speed.specs.Account as spec;

use homefree::Cause;

/// What an attempt's steps went to beside its instructions.
#[derive(Clone, Copy)]
pub struct Spent {
    /// To begin or commit its epoch: a step each, and what that costs.
    pub handling: u64,
    /// To what its accesses cost.
    pub memory: u64,
    /// Waiting for the bus, or for its turn among those that commit or publish.
    pub queue: u64,
}

/// None.
pub(crate) const NOTHING_SPENT: Spent = Spent {
    handling: 0,
    memory: 0,
    queue: 0,
};

impl Spent {
    /// All of them.
    pub fn total(&self) -> u64
        requires { spec.total self.now < 2 ^ 63 }
        ensures { result ≡ spec.total self.now }
    {
        self.handling + self.memory + self.queue
    }

    /// Both.
    pub(crate) fn and(&self, other: &Spent) -> Spent
        requires { spec.total self.now + spec.total other.now < 2 ^ 63 }
        ensures { result ≡ spec.both self.now other.now }
    {
        Spent {
            handling: self.handling + other.handling,
            memory: self.memory + other.memory,
            queue: self.queue + other.queue,
        }
    }
}

/// Steps of cores, by where they went.
#[derive(Clone, Copy)]
pub struct Account {
    /// Of attempts that committed, or faulted as the homefree epoch's: their instructions.
    pub busy: u64,
    /// And what they spent beside these.
    pub spent: Spent,
    /// Of attempts that were violated, up to their restart.
    pub lost: u64,
    /// Of attempts that were cancelled, or still ran when the loop was over.
    pub dropped: u64,
    /// Without an epoch.
    pub idle: u64,
    /// At a load that waited until the epoch was the homefree one, or was violated, and until its turn then.
    pub held: u64,
    /// Waiting at the end or fault of an epoch that wasn't the homefree one.
    pub not_homefree: u64,
    /// Waiting for a way of a line's set.
    pub no_way: u64,
    /// Waiting for a place in the own ownership required buffer.
    pub orb_full: u64,
    /// Waiting for a place in that of an earlier epoch's core.
    pub orb_busy: u64,
}

/// No steps.
pub(crate) fn no_steps() -> Account
    ensures { result ≡ spec.no_steps }
{
    Account {
        busy: 0,
        spent: NOTHING_SPENT,
        lost: 0,
        dropped: 0,
        idle: 0,
        held: 0,
        not_homefree: 0,
        no_way: 0,
        orb_full: 0,
        orb_busy: 0,
    }
}

impl Account {
    /// With so many steps more that were waited for this cause.
    pub(crate) fn with_waited(mut self, cause: Cause, steps: u64) -> Account
        requires { spec.steps_of self + steps < 2 ^ 63 }
        ensures { result ≡ spec.with_waited cause steps self }
    {
        match cause {
            Cause::NoEpoch => self.idle += steps,
            Cause::NotHomefree => self.not_homefree += steps,
            Cause::NoWay => self.no_way += steps,
            Cause::OrbFull => self.orb_full += steps,
            Cause::OrbBusy => self.orb_busy += steps,
        }
        self
    }

    /// With so many instructions more of attempts that committed, and what these spent beside them.
    pub(crate) fn with_useful(mut self, instructions: u64, spent: &Spent) -> Account
        requires { spec.steps_of self + instructions + spec.total spent.now < 2 ^ 63 }
        ensures { result ≡ spec.with_useful instructions spent.now self }
    {
        self.busy += instructions;
        self.spent = self.spent.and(spent);
        self
    }

    /// All steps of attempts that committed.
    pub fn useful(&self) -> u64
        requires { spec.steps_of self.now < 2 ^ 63 }
        ensures { result ≡ spec.useful_in self.now }
    {
        self.busy + self.spent.total()
    }

    /// All steps that were waited, those held aside.
    pub fn waiting(&self) -> u64
        requires { spec.steps_of self.now < 2 ^ 63 }
        ensures { result ≡ spec.waiting_of self.now }
    {
        self.not_homefree + self.no_way + self.orb_full + self.orb_busy
    }

    /// The steps of both.
    pub(crate) fn with(&self, other: &Account) -> Account
        requires own { spec.steps_of self.now < 2 ^ 62 }
        requires others { spec.steps_of other.now < 2 ^ 62 }
        ensures { result ≡ spec.sum_of self.now other.now }
    {
        Account {
            busy: self.busy + other.busy,
            spent: self.spent.and(&other.spent),
            lost: self.lost + other.lost,
            dropped: self.dropped + other.dropped,
            idle: self.idle + other.idle,
            held: self.held + other.held,
            not_homefree: self.not_homefree + other.not_homefree,
            no_way: self.no_way + other.no_way,
            orb_full: self.orb_full + other.orb_full,
            orb_busy: self.orb_busy + other.orb_busy,
        }
    }
}
