//! Accesses of the homefree core once it has published.
ghost use Rattle.std.specs.Prelude.{◌≡◌, ◌∷◌, [], ◌++◌, ◌+◌, ◌≤◌, ℕ, Bool, false, Some, IsSome};
ghost use Rattle.homefree.specs.Takes.{Takes};
ghost use Rattle.homefree.specs.Arms.{HomefreeArrives, MayGoStraight, WentStraight, running_by};
ghost use Rattle.homefree.specs.Moves.{publish_calls};
ghost use Rattle.violations.specs.Calls.{Leads};
ghost use Rattle.violations.specs.Calls as call;

use crate::answer::Came;
use crate::parts::Parts;
use crate::register::Access;
use run_ledger::Shares;
use rv32_exec::{Arrived, Stop};
use violations::{Attempt, EpochStore};

impl<S: EpochStore> Parts<S> {
    /// The homefree core publishes, unless it is straight. Answers what it runs then.
    fn go_straight(&mut self, core: u32, now: Attempt, arrived: &Arrived) -> Attempt
        requires { MayGoStraight self.old.register (S.view self.old.store) (S.budget self.old.store) core (running_by now arrived.now.base) }
        ensures straight { WentStraight self.old.register self.new.register (S.view self.old.store) (S.view self.new.store) core (running_by now arrived.entry.now.base) (running_by result arrived.entry.now.base) }
        ensures moves { Leads S.makes (publish_calls now.straight core) self.old.store self.new.store }
        ensures budget { S.budget self.old.store ≤ S.budget self.new.store + 1 }
    {
        let _ = arrived;
        if now.straight {
            return now;
        }
        let hurt = self.store.publish(core);
        self.store.look();
        self.register.publish(core, hurt);
        Attempt {
            straight: true,
            ..now
        }
    }

    /// A load of the homefree core, which publishes first unless it is straight: it isn't only where the store waits.
    pub(crate) fn straight_load(
        &mut self,
        shares: &mut Shares,
        core: u32,
        now: Attempt,
        arrived: &Arrived,
        addr: u32,
        width: u32,
    ) -> Came
        requires arrives { (signed : Bool) × (rd : ℕ) × HomefreeArrives self.old.register (S.view self.old.store) (S.budget self.old.store) shares.old core (running_by now arrived.now.base) arrived.now (Stop.Load addr width signed rd) }
        requires waits { now.straight ≡ false → IsSome ((S.waits self.old.store).load core addr width) }
        ensures { Takes S.view S.waits self.old self.new shares.old shares.new core (Some arrived.entry.now) result (Leads S.makes (publish_calls now.straight core ++ call.StraightLoad core addr width ∷ [])) }
    {
        let straight = self.go_straight(core, now, arrived);
        let (value, hurt) = self.store.straight_load(core, addr, width);
        self.store.look();
        let access = Access { addr, width, value };
        self.register
            .load(shares, core, straight, arrived, access, hurt);
        Came::Goes
    }

    /// A store of the homefree core, which publishes first unless it is straight: it isn't only where the store waits.
    pub(crate) fn straight_store(
        &mut self,
        shares: &mut Shares,
        core: u32,
        now: Attempt,
        arrived: &Arrived,
        access: Access,
    ) -> Came
        requires arrives { HomefreeArrives self.old.register (S.view self.old.store) (S.budget self.old.store) shares.old core (running_by now arrived.now.base) arrived.now (Stop.Store access.addr access.width access.value) }
        requires waits { now.straight ≡ false → IsSome ((S.waits self.old.store).store core access.addr access.width) }
        ensures { Takes S.view S.waits self.old self.new shares.old shares.new core (Some arrived.entry.now) result (Leads S.makes (publish_calls now.straight core ++ call.StraightStore core access.addr access.width access.value ∷ [])) }
    {
        let straight = self.go_straight(core, now, arrived);
        let Access { addr, width, value } = access;
        let hurt = self.store.straight_store(core, addr, width, value);
        self.store.look();
        self.register
            .store(shares, core, straight, arrived, access, hurt);
        Came::Goes
    }
}
