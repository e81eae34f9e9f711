//! What a legal entry does.

ghost use Rattle.std.specs.Prelude.{◌<◌, ◌≤◌, ◌^◌};
ghost use Rattle.spec_history.specs.Effect as effect;

use crate::entry::{Entry, What};
use crate::machine::Machine;
use memory_bytes::write_number;
use rv32_exec::End;

impl Machine {
    ghost use Rattle.spec_history.specs.Machine as spec;

    /// Does what a legal entry does. There is room for it.
    pub(crate) fn perform(&mut self, entry: Entry)
        requires fit { spec.IsFit self.old }
        requires homefree { self.old.homefree ≤ 65535 }
        requires room { spec.HasRoomAt self.old entry.by entry.what }
        requires number { spec.IsNumber entry.what }
        requires legal { spec.IsLegal self.old entry.by entry.what }
        ensures { spec.Becomes self.old self.new (spec.after self.old entry.by entry.what) }
    {
        let Entry { by, what } = entry;
        match what {
            What::Start(epoch) => self.start(by, epoch),
            What::Load { addr, width, value } => self.load(by, addr, width, value),
            What::Store { addr, width, value } => self.store(by, addr, width, value),
            What::Hurt(epoch) => self.hurt(epoch),
            What::Cancel(epoch) => self.cancel(epoch),
            What::Restart => self.restart(by),
            What::Publish => self.publish(by),
            What::Commit => self.commit(by),
            What::Fault { cause, pc } => self.fault(by, cause, pc),
        }
    }

    /// The core begins an epoch.
    fn start(&mut self, by: u32, epoch: u32)
        requires fit { spec.IsFit self.old }
        requires legal { spec.IsLegal self.old by (What.Start epoch) }
        ensures { spec.Becomes self.old self.new (spec.after self.old by (What.Start epoch)) }
    {
        let core = &mut self.cores[by as usize];
        core.begin(&self.image, epoch);
        self.next_epoch += 1;
    }

    /// The core's epoch loads.
    fn load(&mut self, by: u32, addr: u32, width: u32, value: u32)
        requires fit { spec.IsFit self.old }
        requires room { spec.HasRoomAt self.old by (What.Load addr width value) }
        requires number { value < 256 ^ width }
        requires legal { spec.IsLegal self.old by (What.Load addr width value) }
        ensures { spec.Becomes self.old self.new (spec.after self.old by (What.Load addr width value)) }
    {
        let core = &mut self.cores[by as usize];
        core.load(&self.image, self.committed.as_slice(), addr, width, value);
        if let Some(done) = core.published() {
            self.published = done;
        }
    }

    /// The core's epoch stores.
    fn store(&mut self, by: u32, addr: u32, width: u32, value: u32)
        requires fit { spec.IsFit self.old }
        requires room { spec.HasRoomAt self.old by (What.Store addr width value) }
        requires legal { spec.IsLegal self.old by (What.Store addr width value) }
        ensures { spec.Becomes self.old self.new (spec.after self.old by (What.Store addr width value)) }
    {
        let core = &mut self.cores[by as usize];
        core.store(&self.image, addr, width, value);
        if let Some(done) = core.published() {
            self.published = done;
            write_number(&mut self.committed, addr as usize, width, value);
        }
    }

    /// The core that runs this epoch is hurt.
    fn hurt(&mut self, epoch: u32)
        requires { spec.IsFit self.old }
        ensures { spec.Becomes self.old self.new (record (spec.state_of self.old) { cores = λ k. effect.hurt_at epoch ((spec.state_of self.old).cores k) }) }
    {
        for core in self.cores.iter_mut() {
            core.hurt_at(epoch);
        }
    }

    /// The core that runs this epoch is idle.
    fn cancel(&mut self, epoch: u32)
        requires { spec.IsFit self.old }
        ensures { spec.Becomes self.old self.new (record (spec.state_of self.old) { cores = λ k. effect.idle_at epoch ((spec.state_of self.old).cores k) }) }
    {
        for core in self.cores.iter_mut() {
            core.idle_at(epoch);
        }
    }

    /// The core begins its epoch again.
    fn restart(&mut self, by: u32)
        requires fit { spec.IsFit self.old }
        requires legal { spec.IsLegal self.old by What.Restart }
        ensures { spec.Becomes self.old self.new (spec.after self.old by What.Restart) }
    {
        let core = &mut self.cores[by as usize];
        let epoch = core.attempt().epoch;
        core.begin(&self.image, epoch);
    }

    /// The core's epoch publishes.
    fn publish(&mut self, by: u32)
        requires fit { spec.IsFit self.old }
        requires legal { spec.IsLegal self.old by What.Publish }
        ensures { spec.Becomes self.old self.new (spec.after self.old by What.Publish) }
    {
        let core = &mut self.cores[by as usize];
        core.commit(&mut self.committed);
        core.publish();
        if let Some(done) = core.published() {
            self.published = done;
        }
    }

    /// The core's epoch commits, and the next one is homefree.
    fn commit(&mut self, by: u32)
        requires fit { spec.IsFit self.old }
        requires homefree { self.old.homefree ≤ 65535 }
        requires legal { spec.IsLegal self.old by What.Commit }
        ensures { spec.Becomes self.old self.new (spec.after self.old by What.Commit) }
    {
        let core = &mut self.cores[by as usize];
        let exits = core.exits(&self.image);
        core.commit(&mut self.committed);
        core.leave();
        let epoch = self.homefree;
        self.homefree = epoch + 1;
        self.published = 0;
        if exits {
            self.end = Some(End::Exit(epoch));
        } else if self.homefree == self.image.epochs() {
            self.end = Some(End::Done(self.homefree));
        }
    }

    /// The core's epoch faults, and the loop is over.
    fn fault(&mut self, by: u32, cause: u32, pc: u32)
        requires fit { spec.IsFit self.old }
        requires legal { spec.IsLegal self.old by (What.Fault cause pc) }
        ensures { spec.Becomes self.old self.new (spec.after self.old by (What.Fault cause pc)) }
    {
        let core = &self.cores[by as usize];
        let attempt = core.attempt();
        core.commit(&mut self.committed);
        self.published = attempt.next.now().done();
        self.end = Some(End::Fault {
            epoch: attempt.epoch,
            cause,
            pc,
        });
    }
}
