//! Accesses of a core that isn't straight.
ghost use Rattle.std.specs.Prelude.{◌≡◌, ◌≢◌, ◌==◌, ◌&&◌, ℕ, Bool, false, is_some, Some, IsSome};
ghost use Rattle.homefree.specs.Takes.{Takes};
ghost use Rattle.homefree.specs.Arms.{Arrives, running_by};
ghost use Rattle.homefree.specs.Turned as turn;
ghost use Rattle.homefree.specs.Moves.{access_calls};
ghost use Rattle.violations.specs.Calls.{Leads};
ghost use Rattle.violations.specs.Calls as call;

use crate::answer::{Came, Cause};
use crate::parts::Parts;
use crate::register::Access;
use run_ledger::Shares;
use rv32_exec::{Arrived, Stop};
use violations::{Attempt, EpochStore, Step, WaitCause};

impl<S: EpochStore> Parts<S> {
    /// A load. Where the store waits, the homefree core goes straight, and any other has to come again.
    pub(crate) fn load(
        &mut self,
        shares: &mut Shares,
        core: u32,
        now: Attempt,
        arrived: &Arrived,
        addr: u32,
        width: u32,
    ) -> Came
        requires arrives { (signed : Bool) × (rd : ℕ) × Arrives self.old.register (S.view self.old.store) (S.budget self.old.store) shares.old core (running_by now arrived.now.base) arrived.now (Stop.Load addr width signed rd) }
        requires speculates { now.straight ≡ false }
        ensures takes { Takes S.view S.waits self.old self.new shares.old shares.new core (Some arrived.entry.now) result (Leads S.makes (access_calls false (is_some ((S.waits self.old.store).load core addr width) && (now.epoch == self.old.register.homefree)) core (call.Load core addr width) (call.StraightLoad core addr width))) }
        ensures still { now.epoch ≢ self.old.register.homefree → IsSome ((S.waits self.old.store).load core addr width) → self.new.store ≡ self.old.store }
    {
        match self.store.load(core, addr, width) {
            Step::Done { value, hurt } => {
                let access = Access { addr, width, value };
                self.register.load(shares, core, now, arrived, access, hurt);
                Came::Goes
            }
            Step::Wait(cause) => {
                if now.epoch == self.register.homefree {
                    self.straight_load(shares, core, now, arrived, addr, width)
                } else {
                    Came::Again(cause_of(cause))
                }
            }
        }
    }

    /// A store. Where the store of epochs waits, the homefree core goes straight, and any other has to come again.
    pub(crate) fn store(
        &mut self,
        shares: &mut Shares,
        core: u32,
        now: Attempt,
        arrived: &Arrived,
        access: Access,
    ) -> Came
        requires arrives { Arrives self.old.register (S.view self.old.store) (S.budget self.old.store) shares.old core (running_by now arrived.now.base) arrived.now (Stop.Store access.addr access.width access.value) }
        requires speculates { now.straight ≡ false }
        ensures takes { Takes S.view S.waits self.old self.new shares.old shares.new core (Some arrived.entry.now) result (Leads S.makes (access_calls false (is_some ((S.waits self.old.store).store core access.addr access.width) && (now.epoch == self.old.register.homefree)) core (call.Store core access.addr access.width access.value) (call.StraightStore core access.addr access.width access.value))) }
        ensures still { now.epoch ≢ self.old.register.homefree → IsSome ((S.waits self.old.store).store core access.addr access.width) → self.new.store ≡ self.old.store }
    {
        let Access { addr, width, value } = access;
        match self.store.store(core, addr, width, value) {
            Step::Done { value: _, hurt } => {
                self.register
                    .store(shares, core, now, arrived, access, hurt);
                Came::Goes
            }
            Step::Wait(cause) => {
                if now.epoch == self.register.homefree {
                    self.straight_store(shares, core, now, arrived, access)
                } else {
                    Came::Again(cause_of(cause))
                }
            }
        }
    }
}

/// Why the core has to come again.
fn cause_of(cause: WaitCause) -> Cause
    ensures { result ≡ turn.cause_of cause }
{
    match cause {
        WaitCause::NoWay => Cause::NoWay,
        WaitCause::OrbFull => Cause::OrbFull,
        WaitCause::OrbBusy => Cause::OrbBusy,
    }
}
