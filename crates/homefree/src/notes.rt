//! What the register notes of a core's own deeds: one entry each, counted by the ledger.
ghost use Rattle.std.specs.Prelude.{◌≡◌, ◌+◌, ◌<◌, ◌≤◌, ◌^◌, ◌++◌, ◌∷◌, [], ◌==◌, ℕ, Bool, true, false, length, vec_len, vec_capacity, Some, None, IsSome, if◌then◌else◌};
ghost use Rattle.rv32_image.specs.Image.{IsImage};
ghost use Rattle.rv32_exec.specs.Hart.{start_of, stepped};
ghost use Rattle.rv32_exec.specs.Arrival.{after_loading, IsAtLoad, IsAtStore};
ghost use Rattle.run_ledger.specs.declared.counts.Counts.{Counts};
ghost use Rattle.homefree.specs.Kept.{running_at};
ghost use Rattle.homefree.specs.Came.{answer_of};
ghost use Rattle.homefree.specs.Arms.{MayHurt, running_by};
ghost use Rattle.homefree.specs.AtStop.{IsAtStop};
ghost use Rattle.homefree.specs.Noted.{MayNoteOne, SetsRunning, hurts_noted};
ghost use Rattle.violations.specs.CoreSet.{is_in};
ghost use Rattle.homefree.specs.Steps.{Steps};
ghost use Rattle.spec_history.specs.FlatState as flat;
ghost use Rattle.homefree.specs.Hurts as spec;

use crate::answer::{Answer, Came};
use crate::register::{Access, Register, Running};
use run_ledger::{Shares, count_commit, count_load, count_restart, count_store};
use rv32_exec::{Arrived, End, Hart, Image, Stop, start};
use spec_history::{Entry, What};
use violations::{Attempt, CoreSet};

/// Adds an entry, where there is room for it.
pub(crate) fn note(history: &mut Vec<Entry>, by: u32, what: What)
    requires { vec_len history.old < vec_capacity history.old }
    ensures items { history.new.items ≡ history.old.items ++ spec.entry by what }
    ensures room { vec_capacity history.old ≤ vec_capacity history.new }
    ensures used { vec_len history.new ≡ vec_len history.old + 1 }
{
    match history.push(Entry { by, what }) {
        Ok(()) => (),
        Err(_) => unreachable!(),
    }
}

/// Sets what a core runs.
pub(crate) fn set_running(running: &mut Vec<Option<Running>>, core: u32, now: Option<Running>)
    requires { core < length running.old.items }
    ensures { SetsRunning running.old.items running.new.items core now }
{
    running[core as usize] = now;
}

/// Sets the hart of a core that runs an epoch to that after the load of this value at which it stopped.
pub(crate) fn set_loaded(
    running: &mut Vec<Option<Running>>,
    core: u32,
    arrived: &Arrived,
    value: u32,
)
    requires runs { IsSome (running_at running.old.items core) }
    requires value { IsAtLoad arrived.now.at value }
    ensures { (now : Running) → running_at running.old.items core ≡ Some now → SetsRunning running.old.items running.new.items core (Some (record now { hart = after_loading arrived.entry.now value })) }
{
    match &mut running[core as usize] {
        Some(now) => arrived.set_loaded(value, &mut now.hart),
        None => unreachable!(),
    }
}

/// Sets the hart of a core that runs an epoch to that after the store at which it stopped.
pub(crate) fn set_stored(running: &mut Vec<Option<Running>>, core: u32, arrived: &Arrived)
    requires runs { IsSome (running_at running.old.items core) }
    requires at { IsAtStore arrived.now.at }
    ensures { (now : Running) → running_at running.old.items core ≡ Some now → SetsRunning running.old.items running.new.items core (Some (record now { hart = stepped arrived.entry.now.now })) }
{
    match &mut running[core as usize] {
        Some(now) => arrived.set_stored(&mut now.hart),
        None => unreachable!(),
    }
}

/// Sets a core straight, where it runs an epoch.
fn set_straight(running: &mut Vec<Option<Running>>, core: u32)
    requires { core < length running.old.items }
    ensures { (now : Running) → running_at running.old.items core ≡ Some now → SetsRunning running.old.items running.new.items core (Some (record now { straight = true })) }
{
    if let Some(now) = &mut running[core as usize] {
        now.straight = true;
    }
}

impl Register {
    /// An idle core starts the next epoch.
    pub(crate) fn start(&mut self, core: u32)
        requires may { MayNoteOne self.old core None }
        requires image { IsImage self.old.image }
        requires left { self.old.next_epoch < self.old.image.epochs }
        ensures hart { answer_of self.new.running.items core Came.Goes ≡ Answer.Go (start_of self.old.image self.old.next_epoch) }
        ensures steps { (shares : Counts) → Steps self.old self.new shares shares (spec.entry core (What.Start self.old.next_epoch)) }
    {
        let epoch = self.next_epoch;
        note(&mut self.history, core, What::Start(epoch));
        let hart = start(&self.image, epoch);
        let now = Running {
            epoch,
            hart,
            straight: false,
            hurt: false,
        };
        set_running(&mut self.running, core, Some(now));
        self.next_epoch = epoch + 1;
    }

    /// A core that was hurt begins its epoch again.
    pub(crate) fn restart(&mut self, shares: &mut Shares, core: u32, epoch: u32)
        requires may { (now : Running) × MayNoteOne self.old core (Some now) × (now.epoch ≡ epoch) }
        requires totals { self.old.totals.restarts < 2 ^ 63 }
        requires shares { shares.old.restarts < 2 ^ 63 }
        ensures hart { answer_of self.new.running.items core Came.Goes ≡ Answer.Go (start_of self.old.image epoch) }
        ensures steps { Steps self.old self.new shares.old shares.new (spec.entry core What.Restart) }
    {
        note(&mut self.history, core, What::Restart);
        count_restart(&mut self.totals, shares);
        let hart = start(&self.image, epoch);
        let now = Running {
            epoch,
            hart,
            straight: false,
            hurt: false,
        };
        set_running(&mut self.running, core, Some(now));
    }

    /// The core's load hurts these others, and gives this value.
    pub(crate) fn load(
        &mut self,
        shares: &mut Shares,
        core: u32,
        now: Attempt,
        arrived: &Arrived,
        access: Access,
        hurt: CoreSet,
    )
        requires may { MayHurt self.old core (running_by now arrived.now.base) (is_in hurt) }
        requires totals { self.old.totals.loads < 2 ^ 63 }
        requires shares { shares.old.loads < 2 ^ 63 }
        requires at { IsAtStop self.old core (running_by now arrived.now.base) arrived.now arrived.now.at }
        requires value { IsAtLoad arrived.now.at access.value }
        ensures hart { answer_of self.new.running.items core Came.Goes ≡ Answer.Go (after_loading arrived.entry.now access.value) }
        ensures steps { Steps self.old self.new shares.old shares.new (hurts_noted core (is_in hurt) self.old.running.items (length self.old.running.items) ++ spec.entry core (What.Load access.addr access.width access.value)) }
    {
        let Access { addr, width, value } = access;
        self.hurt_all(core, hurt);
        note(&mut self.history, core, What::Load { addr, width, value });
        count_load(&mut self.totals, shares);
        set_loaded(&mut self.running, core, arrived, value);
    }

    /// The core's store hurts these others.
    pub(crate) fn store(
        &mut self,
        shares: &mut Shares,
        core: u32,
        now: Attempt,
        arrived: &Arrived,
        access: Access,
        hurt: CoreSet,
    )
        requires may { MayHurt self.old core (running_by now arrived.now.base) (is_in hurt) }
        requires totals { self.old.totals.stores < 2 ^ 63 }
        requires shares { shares.old.stores < 2 ^ 63 }
        requires at { IsAtStop self.old core (running_by now arrived.now.base) arrived.now (Stop.Store access.addr access.width access.value) }
        ensures hart { answer_of self.new.running.items core Came.Goes ≡ Answer.Go (stepped arrived.entry.now.now) }
        ensures steps { Steps self.old self.new shares.old shares.new (hurts_noted core (is_in hurt) self.old.running.items (length self.old.running.items) ++ spec.entry core (What.Store access.addr access.width access.value)) }
    {
        let Access { addr, width, value } = access;
        self.hurt_all(core, hurt);
        note(&mut self.history, core, What::Store { addr, width, value });
        count_store(&mut self.totals, shares);
        set_stored(&mut self.running, core, arrived);
    }

    /// The homefree core publishes, which hurts these others.
    pub(crate) fn publish(&mut self, core: u32, hurt: CoreSet)
        requires may { (now : Running) × MayHurt self.old core now (is_in hurt) }
        ensures steps { (shares : Counts) → Steps self.old self.new shares shares (hurts_noted core (is_in hurt) self.old.running.items (length self.old.running.items) ++ spec.entry core What.Publish) }
        ensures runs { (now : Running) → running_at self.old.running.items core ≡ Some now → running_at self.new.running.items core ≡ Some (record now { straight = true }) }
    {
        self.hurt_all(core, hurt);
        note(&mut self.history, core, What::Publish);
        set_straight(&mut self.running, core);
    }

    /// The homefree core's epoch has ended, and commits: the core is idle, and the next epoch is homefree. Where the epoch
    /// exits, or was the last, the loop is over.
    pub(crate) fn commit(&mut self, shares: &mut Shares, core: u32, now: Attempt, arrived: &Arrived)
        requires may { MayNoteOne self.old core (Some (running_by now arrived.now.base)) }
        requires totals { self.old.totals.commits < 2 ^ 63 }
        requires shares { shares.old.commits < 2 ^ 63 }
        requires homefree { self.old.homefree < 2 ^ 16 }
        requires at { IsAtStop self.old core (running_by now arrived.now.base) arrived.now Stop.Ended }
        ensures steps { Steps self.old self.new shares.old shares.new (spec.entry core What.Commit) }
        ensures end { self.new.end ≡ flat.end_after self.old.image arrived.entry.now.now self.old.homefree }
    {
        note(&mut self.history, core, What::Commit);
        count_commit(&mut self.totals, shares);
        set_running(&mut self.running, core, None);
        self.end = end_after(&self.image, arrived.now(), self.homefree);
        self.homefree += 1;
    }

    /// The homefree core's epoch has faulted: the loop is over.
    pub(crate) fn fault(&mut self, core: u32, now: Attempt, arrived: &Arrived, cause: u32, pc: u32)
        requires { MayNoteOne self.old core (Some (running_by now arrived.now.base)) }
        ensures steps { (shares : Counts) → Steps self.old self.new shares shares (spec.entry core (What.Fault cause pc)) }
        ensures end { self.new.end ≡ Some (End.Fault now.epoch cause pc) }
    {
        let _ = arrived;
        note(&mut self.history, core, What::Fault { cause, pc });
        self.end = Some(End::Fault {
            epoch: now.epoch,
            cause,
            pc,
        });
    }

    /// The core's turn hurts another one.
    pub(crate) fn hurt(&mut self, by: u32, core: u32, now: Running)
        requires { MayNoteOne self.old core (Some now) }
        ensures steps { (shares : Counts) → Steps self.old self.new shares shares (spec.entry by (What.Hurt now.epoch)) }
        ensures running { (k : ℕ) → running_at self.new.running.items k ≡ (if k == core then Some (record now { hurt = true }) else running_at self.old.running.items k) }
    {
        note(&mut self.history, by, What::Hurt(now.epoch));
        set_running(&mut self.running, core, Some(Running { hurt: true, ..now }));
    }

    /// The core's turn cancels another one, which is idle then.
    pub(crate) fn cancel(&mut self, by: u32, core: u32, now: Running)
        requires { MayNoteOne self.old core (Some now) }
        ensures steps { (shares : Counts) → Steps self.old self.new shares shares (spec.entry by (What.Cancel now.epoch)) }
        ensures running { (k : ℕ) → running_at self.new.running.items k ≡ (if k == core then None else running_at self.old.running.items k) }
    {
        note(&mut self.history, by, What::Cancel(now.epoch));
        set_running(&mut self.running, core, None);
    }
}

/// How the loop ended, where this epoch, which ended with this hart, was its last.
pub(crate) fn end_after(image: &Image, hart: Hart, epoch: u32) -> Option<End>
    requires { epoch < 2 ^ 16 }
    ensures { result ≡ flat.end_after image.now hart epoch }
{
    if hart.exits(image) {
        return Some(End::Exit(epoch));
    }
    if epoch + 1 == image.epochs() {
        Some(End::Done(epoch + 1))
    } else {
        None
    }
}
