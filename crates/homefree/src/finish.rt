//! Epochs that have ended or faulted.
ghost use Rattle.std.specs.Prelude.{List, Option, ◌∷◌, [], ◌++◌, ◌≡◌, ◌≢◌, ◌+◌, ◌≤◌, ℕ, true, false, length, Some};
ghost use Rattle.rv32_exec.specs.Sequential as spec;
ghost use Rattle.homefree.specs.Came.{answer_of};
ghost use Rattle.homefree.specs.Takes.{Takes};
ghost use Rattle.homefree.specs.Arms.{Arrives, HomefreeArrives, MayGoStraight, Settled, running_by};
ghost use Rattle.homefree.specs.Turned as turn;
ghost use Rattle.homefree.specs.declared.register.Running.{Running};
ghost use Rattle.homefree.specs.Moves.{Moves, publish_calls, stop_calls, is_exit};
ghost use Rattle.violations.specs.Calls.{Leads};
ghost use Rattle.violations.specs.Calls as call;

use crate::answer::{Came, Cause};
use crate::attempts::cancel_attempts;
use crate::parts::Parts;
use run_ledger::Shares;
use rv32_exec::{Arrived, End, Stop};
use violations::{Attempt, EpochStore};

impl<S: EpochStore> Parts<S> {
    /// The end of an epoch: the homefree one commits, and any other core has to come again.
    pub(crate) fn finish(
        &mut self,
        shares: &mut Shares,
        core: u32,
        now: Attempt,
        arrived: &Arrived,
    ) -> Came
        requires { Arrives self.old.register (S.view self.old.store) (S.budget self.old.store) shares.old core (running_by now arrived.now.base) arrived.now Stop.Ended }
        ensures { Takes S.view S.waits self.old self.new shares.old shares.new core (Some arrived.entry.now) result (Moves S.makes S.view (stop_calls self.old.register.image (S.waits self.old.store) self.old.register.homefree core (running_by now arrived.entry.now.base) arrived.entry.now.now Stop.Ended)
            (is_exit self.old.register.image self.old.register.homefree (running_by now arrived.entry.now.base) arrived.entry.now.now Stop.Ended) (length self.old.register.running.items) core) }
    {
        if now.epoch != self.register.homefree {
            return Came::Again(Cause::NotHomefree);
        }
        if arrived.now().exits(&self.register.image) {
            self.exit(shares, core, now, arrived)
        } else {
            self.commit(shares, core, now, arrived)
        }
    }

    /// The homefree core publishes, unless it is straight, and notes whom that hurts.
    fn settle(&mut self, core: u32, now: Attempt, arrived: &Arrived)
        requires { MayGoStraight self.old.register (S.view self.old.store) (S.budget self.old.store) core (running_by now arrived.now.base) }
        ensures settled { Settled self.old.register self.new.register (S.view self.old.store) (S.view self.new.store) core (running_by now arrived.entry.now.base) }
        ensures moves { Leads S.makes (publish_calls now.straight core) self.old.store self.new.store }
        ensures budget { S.budget self.old.store ≤ S.budget self.new.store + 1 }
    {
        let _ = arrived;
        if now.straight {
            return;
        }
        let hurt = self.store.publish(core);
        self.register.hurt_all(core, hurt);
    }

    /// The homefree epoch commits, and is left.
    fn commit(&mut self, shares: &mut Shares, core: u32, now: Attempt, arrived: &Arrived) -> Came
        requires arrives { HomefreeArrives self.old.register (S.view self.old.store) (S.budget self.old.store) shares.old core (running_by now arrived.now.base) arrived.now Stop.Ended }
        requires stays { spec.exits self.old.register.image arrived.now.now ≡ false }
        ensures { Takes S.view S.waits self.old self.new shares.old shares.new core (Some arrived.entry.now) result (Leads S.makes (publish_calls now.straight core ++ call.Leave core ∷ [])) }
    {
        self.settle(core, now, arrived);
        self.register.commit(shares, core, now, arrived);
        self.store.leave(core);
        left_or_over(self.register.end)
    }

    /// The homefree epoch exits the loop: all other cores are cancelled, and it commits.
    fn exit(&mut self, shares: &mut Shares, core: u32, now: Attempt, arrived: &Arrived) -> Came
        requires arrives { HomefreeArrives self.old.register (S.view self.old.store) (S.budget self.old.store) shares.old core (running_by now arrived.now.base) arrived.now Stop.Ended }
        requires exits { spec.exits self.old.register.image arrived.now.now ≡ true }
        ensures { Takes S.view S.waits self.old self.new shares.old shares.new core (Some arrived.entry.now) result (Moves S.makes S.view (publish_calls now.straight core) true (length self.old.register.running.items) core) }
    {
        self.settle(core, now, arrived);
        cancel_attempts(&mut self.store, &self.register.running, core);
        self.register.cancel_all(core);
        self.register.commit(shares, core, now, arrived);
        self.store.leave(core);
        left_or_over(self.register.end)
    }

    /// A fault: where the homefree epoch faults the loop is over, and any other core has to come again.
    pub(crate) fn fault(
        &mut self,
        shares: &mut Shares,
        core: u32,
        now: Attempt,
        arrived: &Arrived,
        cause: u32,
        pc: u32,
    ) -> Came
        requires { Arrives self.old.register (S.view self.old.store) (S.budget self.old.store) shares.old core (running_by now arrived.now.base) arrived.now (Stop.Fault cause pc) }
        ensures { Takes S.view S.waits self.old self.new shares.old shares.new core (Some arrived.entry.now) result (Leads S.makes (stop_calls self.old.register.image (S.waits self.old.store) self.old.register.homefree core (running_by now arrived.entry.now.base) arrived.entry.now.now (Stop.Fault cause pc))) }
    {
        let _ = shares;
        let epoch = now.epoch;
        if epoch != self.register.homefree {
            return Came::Again(Cause::NotHomefree);
        }
        self.settle(core, now, arrived);
        self.register.fault(core, now, arrived, cause, pc);
        Came::Over(End::Fault { epoch, cause, pc })
    }
}

/// The answer after a commit.
fn left_or_over(end: Option<End>) -> Came
    ensures { (running : List (Option Running)) (core : ℕ) → answer_of running core result ≡ turn.left_or_over end }
{
    match end {
        Some(end) => Came::Over(end),
        None => Came::Left,
    }
}
