//! The clock of one core: when its next turn is due, and where its steps went.
ghost use Rattle.std.specs.Prelude.{◌≡◌, ◌≤◌, ◌<◌, ◌-◌, ◌+◌, ◌^◌};
ghost use Rattle.even_speed.specs.Account.{one_more, nothing_spent, steps_of, total};
ghost use Rattle.even_speed.specs.Clocks as spec;
ghost use Rattle.even_speed.specs.Kept.{IsSound, MayBeLate, MayPart, MayTurn, MayWake, told, used};

use crate::account::{Account, NOTHING_SPENT, Spent, no_steps};
use homefree::{Answer, Cause};

/// What a core comes to next.
#[derive(Clone, Copy)]
pub enum Next {
    /// A turn, at this time.
    Due(u64),
    /// It waits since this time, for this cause.
    Waits(u64, Cause),
    /// Nothing: no epoch is left for it.
    Gone,
}

/// The time of one core, in steps since the start of the run, and where its steps went.
#[derive(Clone, Copy)]
pub struct Clock {
    /// What comes next.
    pub next: Next,
    /// It runs an attempt, and otherwise has no epoch.
    pub runs: bool,
    /// When it began this attempt, or came to have no epoch.
    pub since: u64,
    /// How many steps it has waited since then.
    pub waited: u64,
    /// What its attempt has spent since then, beside its instructions.
    pub spent: Spent,
    /// Where its steps before went, and those that it has waited.
    pub account: Account,
}

/// A core at the start of the run.
pub(crate) fn first_clock() -> Clock
    ensures { result ≡ spec.first_clock }
{
    Clock {
        next: Next::Due(0),
        runs: false,
        since: 0,
        waited: 0,
        spent: NOTHING_SPENT,
        account: no_steps(),
    }
}

/// What an attempt has spent that has begun.
const ONE_STEP: Spent = Spent {
    handling: 1,
    memory: 0,
    queue: 0,
};

impl Clock {
    /// The time of its next turn, where one is due.
    pub(crate) fn due(&self) -> Option<u64>
        ensures { result ≡ spec.due_of self.now.next }
    {
        match self.next {
            Next::Due(at) => Some(at),
            _ => None,
        }
    }

    /// Its turn, which was due at this time, begins at that one: it was in a queue between them, or held.
    pub(crate) fn late(self, queues: bool, due: u64, at: u64) -> Clock
        requires { MayBeLate due at self }
        ensures { result ≡ spec.late queues due at self }
    {
        let steps = at - due;
        if queues {
            let mut spent = self.spent;
            spent.queue += steps;
            Clock {
                next: Next::Due(at),
                spent,
                ..self
            }
        } else {
            let mut account = self.account;
            account.held += steps;
            Clock {
                next: Next::Due(at),
                waited: self.waited + steps,
                account,
                ..self
            }
        }
    }

    /// From this time on it runs another attempt, which has spent this, or has no epoch.
    fn parted(self, at: u64, runs: bool, spent: Spent, account: Account) -> Clock
        ensures { result ≡ spec.parted at runs spent account self }
    {
        Clock {
            next: self.next,
            runs,
            since: at,
            waited: 0,
            spent,
            account,
        }
    }

    /// Its attempt spends this too.
    fn paid(self, spent: &Spent) -> Clock
        requires { total self.spent + total spent.now < 2 ^ 63 }
        ensures { result ≡ spec.paid spent.now self }
    {
        Clock {
            spent: self.spent.and(spent),
            ..self
        }
    }

    /// The attempt that it runs, if it runs one, is useful up to a time.
    fn ended(self, end: u64) -> Clock
        requires used { used self ≤ end }
        requires whole { steps_of self.account ≡ told self }
        requires end { end < 2 ^ 62 }
        ensures { result ≡ spec.ended end self }
    {
        let steps = end - self.since - self.waited;
        let mut account = self.account;
        if self.runs {
            account = account.with_useful(steps - self.spent.total(), &self.spent);
        } else {
            account.idle += steps;
        }
        self.parted(end, false, NOTHING_SPENT, account)
    }

    /// Its epoch is left by a turn at this time, which spends this and takes a step.
    fn left(self, at: u64, spent: &Spent) -> Clock
        requires turn { MayTurn at self }
        requires spent { total spent.now < 2 ^ 60 }
        ensures { result ≡ spec.left at spent.now self }
    {
        let all = spent.and(&ONE_STEP);
        self.paid(&all).ended(at + 1 + spent.total())
    }

    /// It begins an attempt at this time, where it ran none or was violated.
    fn begun(self, at: u64, restarted: bool) -> Clock
        requires { MayPart at self }
        ensures { result ≡ spec.begun at restarted self }
    {
        let steps = at - self.since - self.waited;
        let mut account = self.account;
        if !self.runs {
            account.idle += steps;
            self.parted(at, true, ONE_STEP, account)
        } else if restarted {
            account.lost += steps;
            self.parted(at, true, ONE_STEP, account)
        } else {
            self
        }
    }

    /// It does this next.
    fn going(self, next: Next) -> Clock
        ensures { result ≡ record self { next = next } }
    {
        Clock { next, ..self }
    }

    /// Its turn at this time, which spends this, was answered so, with or without a restart; what it goes on with executes so many instructions.
    pub(crate) fn answered(
        self,
        at: u64,
        restarted: bool,
        executed: u64,
        spent: &Spent,
        answer: &Answer,
    ) -> Clock
        requires turn { MayTurn at self }
        requires executed { executed < 2 ^ 61 }
        requires spent { total spent.now < 2 ^ 60 }
        ensures { result ≡ spec.answered at restarted executed spent.now answer.now self }
    {
        match answer {
            Answer::Go(_) => self
                .begun(at, restarted)
                .paid(spent)
                .going(Next::Due(at + 1 + spent.total() + executed)),
            Answer::Left => self
                .left(at, spent)
                .going(Next::Due(at + 1 + spent.total())),
            Answer::Again(Cause::NoEpoch) => self.going(Next::Gone),
            Answer::Again(cause) => self.going(Next::Waits(at, *cause)),
            Answer::Over(_) => self.left(at, spent).going(Next::Gone),
            Answer::Stopped(_) => self,
        }
    }

    /// It waits no more from this time on.
    pub(crate) fn woken(self, at: u64) -> Clock
        requires may { MayWake at self }
        requires at { at < 2 ^ 61 }
        ensures { result ≡ spec.woken at self }
    {
        match self.next {
            Next::Waits(since, cause) => Clock {
                next: Next::Due(at),
                runs: self.runs,
                since: self.since,
                waited: self.waited + (at - since),
                spent: self.spent,
                account: self.account.with_waited(cause, at - since),
            },
            _ => self,
        }
    }

    /// What still runs at this time is dropped.
    fn dropped(self, end: u64) -> Clock
        requires { MayPart end self }
        ensures { result ≡ spec.dropped end self }
    {
        let steps = end - self.since - self.waited;
        let mut account = self.account;
        if self.runs {
            account.dropped += steps;
        } else {
            account.idle += steps;
        }
        self.parted(end, false, NOTHING_SPENT, account)
    }

    /// Where all its steps went, where the run is over at this time, which comes after that of the last turn.
    pub(crate) fn closed(self, end: u64) -> Account
        requires sound { IsSound (end - 1) (end - 1) self }
        requires least { 1 ≤ end }
        requires end { end < 2 ^ 60 }
        ensures is { result ≡ (spec.closed end self).account }
        ensures whole { steps_of result ≡ end }
    {
        self.woken(end).dropped(end).account
    }
}
