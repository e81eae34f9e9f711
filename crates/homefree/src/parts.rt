//! The book's register and store, which may be out of step within a turn: one method for each case of a turn.
ghost use Rattle.std.specs.Prelude.{◌≡◌, ◌∷◌, [], ◌<◌, ◌≤◌, ℕ, length, None, Some, true, false, option_copied};
ghost use Rattle.homefree.specs.Came.{answer_of};
ghost use Rattle.rv32_exec.specs.NextEvent.{next_event};
ghost use Rattle.homefree.specs.Acted.{Acted, MayNote, IfArrived};
ghost use Rattle.homefree.specs.Arms.{Arrives, MayBeginEpoch, running_by};
ghost use Rattle.homefree.specs.Kept.{Fits, running_at};
ghost use Rattle.homefree.specs.Moves.{HasToWait, Moves, TurnMoves, stop_calls, is_exit, start_calls};
ghost use Rattle.homefree.specs.Standing.{standing};
ghost use Rattle.homefree.specs.Takes.{Takes};
ghost use Rattle.violations.specs.Calls.{Leads};
ghost use Rattle.violations.specs.Calls as call;

use crate::answer::{Came, Cause};
use crate::register::{Access, Register, Running};
use run_ledger::Shares;
use rv32_exec::{Arrived, Stop};
use violations::{Attempt, EpochStore};

/// The register and the store.
#[derive(Drop)]
pub(crate) struct Parts<S: EpochStore> {
    /// The history, and where it has led.
    pub register: Register,
    /// The store of the cores' attempts.
    pub store: S,
}

impl<S: EpochStore> Parts<S> {
    /// A turn of a core, with the stop that it hands in, where the loop isn't over and there is room for the turn.
    pub(crate) fn turn(&mut self, shares: &mut Shares, core: u32, next: Option<&Arrived>) -> Came
        requires core { core < length self.old.register.running.items }
        requires budget { 4 ≤ S.budget self.old.store }
        requires notes { MayNote self.old.register shares.old }
        requires fits { Fits self.old.register (S.view self.old.store) }
        requires going { self.old.register.end ≡ None }
        requires next { IfArrived self.old.register.image (option_copied next) }
        ensures acted { Acted self.old.register self.new.register (S.waits self.old.store) (S.view self.old.store) (S.view self.new.store) shares.old shares.new core (option_copied next.entry) (answer_of self.new.register.running.items core result) }
        ensures moves { TurnMoves S.makes S.view (standing self.old.register (S.waits self.old.store) core (option_copied next.entry)) self.old.store self.new.store }
        ensures still { (now : Running) → running_at self.old.register.running.items core ≡ Some now → now.hurt ≡ false
            → HasToWait (S.waits self.old.store) self.old.register.homefree core now (next_event self.old.register.image now.hart).at → self.new.store ≡ self.old.store }
    {
        match &self.register.running[core as usize] {
            None => self.start(shares, core, next),
            Some(now) => {
                if now.hurt {
                    let now = *now;
                    self.restart(shares, core, &now, next)
                } else {
                    match next {
                        None => Came::Goes,
                        Some(arrived) => {
                            if *arrived.base() == now.hart {
                                let now = now.attempt();
                                self.run(shares, core, now, arrived)
                            } else {
                                Came::Goes
                            }
                        }
                    }
                }
            }
        }
    }

    /// A core that runs its epoch hands in its next event.
    fn run(&mut self, shares: &mut Shares, core: u32, now: Attempt, arrived: &Arrived) -> Came
        requires { Arrives self.old.register (S.view self.old.store) (S.budget self.old.store) shares.old core (running_by now arrived.now.base) arrived.now arrived.now.at }
        ensures takes { Takes S.view S.waits self.old self.new shares.old shares.new core (Some arrived.entry.now) result (Moves S.makes S.view (stop_calls self.old.register.image (S.waits self.old.store) self.old.register.homefree core (running_by now arrived.entry.now.base) arrived.entry.now.now arrived.entry.now.at)
            (is_exit self.old.register.image self.old.register.homefree (running_by now arrived.entry.now.base) arrived.entry.now.now arrived.entry.now.at) (length self.old.register.running.items) core) }
        ensures still { HasToWait (S.waits self.old.store) self.old.register.homefree core (running_by now arrived.entry.now.base) arrived.entry.now.at → self.new.store ≡ self.old.store }
    {
        let at = arrived.at();
        match at {
            Stop::Load {
                addr,
                width,
                signed: _,
                rd: _,
            } => {
                if now.straight {
                    self.straight_load(shares, core, now, arrived, addr, width)
                } else {
                    self.load(shares, core, now, arrived, addr, width)
                }
            }
            Stop::Store { addr, width, value } => {
                let access = Access { addr, width, value };
                if now.straight {
                    self.straight_store(shares, core, now, arrived, access)
                } else {
                    self.store(shares, core, now, arrived, access)
                }
            }
            Stop::Ended => self.finish(shares, core, now, arrived),
            Stop::Fault { cause, pc } => self.fault(shares, core, now, arrived, cause, pc),
        }
    }

    /// An idle core begins the next epoch, if one is left.
    pub(crate) fn start(&mut self, shares: &mut Shares, core: u32, next: Option<&Arrived>) -> Came
        requires budget { 1 ≤ S.budget self.old.store }
        requires may { MayBeginEpoch self.old.register (S.view self.old.store) shares.old core None }
        ensures { Takes S.view S.waits self.old self.new shares.old shares.new core (option_copied next.entry) result (Leads S.makes (start_calls self.old.register.image.epochs self.old.register.next_epoch core)) }
    {
        let _ = shares;
        let _ = next;
        let epoch = self.register.next_epoch;
        if epoch >= self.register.image.epochs() {
            return Came::Again(Cause::NoEpoch);
        }
        self.store.look();
        self.store.begin(core, epoch);
        self.register.start(core);
        Came::Goes
    }

    /// A core that was hurt begins its epoch again.
    pub(crate) fn restart(
        &mut self,
        shares: &mut Shares,
        core: u32,
        now: &Running,
        next: Option<&Arrived>,
    ) -> Came
        requires budget { 1 ≤ S.budget self.old.store }
        requires may { MayBeginEpoch self.old.register (S.view self.old.store) shares.old core (Some now.now) }
        requires hurt { now.now.hurt ≡ true }
        ensures { Takes S.view S.waits self.old self.new shares.old shares.new core (option_copied next.entry) result (Leads S.makes (call.Begin core now.entry.now.epoch ∷ [])) }
    {
        let _ = next;
        self.store.look();
        self.store.begin(core, now.epoch);
        self.register.restart(shares, core, now.epoch);
        Came::Goes
    }
}
