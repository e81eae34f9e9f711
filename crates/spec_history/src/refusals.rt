//! When an entry is refused.

ghost use Rattle.std.specs.Prelude.{◌≡◌, ◌<◌, ◌≤◌, ◌+◌, ◌==◌, ◌&&◌, ◌^◌, None, length, not, option_map, slice_index, true};
ghost use Rattle.memory_bytes.specs.Maps.{over, stored};
ghost use Rattle.memory_bytes.specs.Shadow.{byte_in};
ghost use Rattle.rv32_exec.specs.NextEvent.{next_event};
ghost use Rattle.spec_history.specs.Refusal as refusal;

use crate::cores::Core;
use crate::entry::{Entry, What};
use crate::illegal::Illegal;
use crate::machine::Machine;
use rv32_exec::Stop;

impl Machine {
    ghost use Rattle.spec_history.specs.Machine as spec;

    /// The refusal of an entry, or none.
    #[tactic(auto, unfolding(crate::specs::Refusal::refusal_of))]
    pub(crate) fn refusal(&self, entry: Entry) -> Option<Illegal>
        requires { spec.IsFit self.now }
        ensures refusal { result ≡ refusal.refusal_of self.now.image (spec.count_of_cores self.now) (spec.state_of self.now) entry }
        ensures within { result ≡ None → spec.IsInMemory self.now.image.size entry.what }
        ensures number { result ≡ None → spec.IsNumber entry.what }
    {
        let Entry { by, what } = entry;
        if self.end.is_some() {
            return Some(Illegal::Over);
        }
        if !self.is_there(by, what) {
            return Some(Illegal::NotThere);
        }
        if !self.is_next(by, what) {
            return Some(Illegal::NotNext);
        }
        if !self.is_homefree(by, what) {
            return Some(Illegal::NotHomefree);
        }
        if !self.is_value(by, what) {
            return Some(Illegal::WrongValue);
        }
        if self.misses_a_hurt(by, what) {
            return Some(Illegal::HurtMissing);
        }
        if self.misses_a_cancel(by, what) {
            return Some(Illegal::NotCancelled);
        }
        None
    }

    /// The core, and that of the epoch that is hurt or cancelled, is as the entry needs it.
    fn is_there(&self, by: u32, what: What) -> bool
        ensures { result ≡ refusal.is_there (spec.count_of_cores self.now) (spec.state_of self.now) by what }
    {
        let Some(core) = self.core(by) else {
            return false;
        };
        match what {
            What::Start(_) => core.is_idle(),
            What::Hurt(epoch) => core.runs_before(epoch) && self.can_hurt(epoch),
            What::Cancel(epoch) => core.runs_before(epoch) && self.is_run(epoch),
            What::Restart => core.is_hurt(),
            What::Publish => core.can_publish(),
            What::Load { .. } | What::Store { .. } | What::Commit | What::Fault { .. } =>
                core.is_running(),
        }
    }

    /// Some core runs this epoch, and can be hurt.
    fn can_hurt(&self, epoch: u32) -> bool
        ensures { result ≡ refusal.any_below (spec.count_of_cores self.now) (λ k. refusal.can_be_hurt epoch ((spec.state_of self.now).cores k)) }
    {
        for core in &self.cores {
            if core.can_be_hurt(epoch) {
                return true;
            }
        }
        false
    }

    /// Some core runs this epoch.
    fn is_run(&self, epoch: u32) -> bool
        ensures { result ≡ refusal.any_below (spec.count_of_cores self.now) (λ k. refusal.is_at epoch ((spec.state_of self.now).cores k)) }
    {
        for core in &self.cores {
            if core.is_at(epoch) {
                return true;
            }
        }
        false
    }

    /// It is the next epoch, or the next event of the core's epoch; a cancel goes before an exit.
    fn is_next(&self, by: u32, what: What) -> bool
        requires { spec.IsFit self.now }
        ensures { result ≡ refusal.is_next self.now.image (spec.state_of self.now) by what }
    {
        let at = self.next_stop(by);
        match what {
            What::Start(epoch) => epoch == self.next_epoch && epoch < self.image.epochs(),
            What::Hurt(_) | What::Restart | What::Publish => true,
            What::Load { addr, width, .. } => match at {
                Some(
                    Stop::Load {
                        addr: next,
                        width: bytes,
                        ..
                    },
                ) => next == addr && bytes == width,
                _ => false,
            },
            What::Store { addr, width, value } => at == Some(Stop::Store { addr, width, value }),
            What::Cancel(_) => self.is_at_an_exit(by),
            What::Commit => at == Some(Stop::Ended),
            What::Fault { cause, pc } => at == Some(Stop::Fault { cause, pc }),
        }
    }

    /// Where the core's epoch stops next.
    fn next_stop(&self, by: u32) -> Option<Stop>
        requires { spec.IsFit self.now }
        ensures { result ≡ option_map (λ c. (next_event self.now.image c.hart).at) ((spec.state_of self.now).cores by) }
    {
        self.core(by)?.next_stop()
    }

    /// The core's epoch ends, and the loop with it.
    fn is_at_an_exit(&self, by: u32) -> bool
        requires { spec.IsFit self.now }
        ensures { result ≡ refusal.next_is self.now.image ((spec.state_of self.now).cores by) (refusal.is_an_exit self.now.image) }
    {
        match self.core(by) {
            Some(core) => core.exits(&self.image),
            None => false,
        }
    }

    /// What only the homefree epoch may do is done by it.
    fn is_homefree(&self, by: u32, what: What) -> bool
        ensures { result ≡ refusal.is_homefree (spec.state_of self.now) by what }
    {
        match what {
            What::Cancel(_) | What::Publish | What::Commit | What::Fault { .. } => match self.core(
                by,
            ) {
                Some(core) => core.is_at(self.homefree),
                None => false,
            },
            _ => true,
        }
    }

    /// The load's value is what its epoch sees.
    fn is_value(&self, by: u32, what: What) -> bool
        requires fit { spec.IsFit self.now }
        requires within { spec.IsInMemory self.now.image.size what }
        ensures value { result ≡ refusal.is_value (spec.state_of self.now) by what }
        ensures number { result ≡ true → spec.IsNumber what }
    {
        let What::Load { addr, width, value } = what else {
            return true;
        };
        match self.core(by) {
            Some(core) => !core.is_idle()
                && core.number(self.committed.as_slice(), addr, width) == value,
            None => false,
        }
    }

    /// A committed byte would change that another core, which runs and is not hurt, has read from outside.
    fn misses_a_hurt(&self, by: u32, what: What) -> bool
        requires fit { spec.IsFit self.now }
        requires within { spec.IsInMemory self.now.image.size what }
        ensures { result ≡ refusal.misses_a_hurt self.now.image (spec.count_of_cores self.now) (spec.state_of self.now) (record { by = by; what = what }) }
    {
        let Some(core) = self.core(by) else {
            return false;
        };
        if core.is_idle() {
            return false;
        }
        match what {
            What::Publish | What::Commit | What::Fault { .. } => self.commit_misses(by, core),
            What::Store { addr, width, value } => core.is_straight()
                && self.store_misses(by, addr, width, value),
            What::Start(_) | What::Load { .. } | What::Hurt(_) | What::Cancel(_) | What::Restart =>
                false,
        }
    }

    /// Committing the core's own bytes would change a byte that another core that is not hurt has read.
    fn commit_misses(&self, by: u32, core: &Core) -> bool
        requires { length core.now.own.cells ≤ length self.now.committed.items }
        ensures { result ≡ refusal.changes_unseen (length self.now.committed.items) (spec.count_of_cores self.now) (spec.state_of self.now) by
            (over (byte_in core.now.own.cells) (λ a. slice_index self.now.committed.items a)) }
    {
        for addr in core.own.touched() {
            if let Some(byte) = core.own.get(*addr) {
                if self.change_is_missed(by, *addr, byte) {
                    return true;
                }
            }
        }
        false
    }

    /// Committing the bytes of a store would change a byte that another core that is not hurt has read.
    fn store_misses(&self, by: u32, addr: u32, width: u32, value: u32) -> bool
        requires within { addr + width ≤ length self.now.committed.items }
        requires small { addr + width < 2 ^ 32 }
        ensures { result ≡ refusal.changes_unseen (length self.now.committed.items) (spec.count_of_cores self.now) (spec.state_of self.now) by
            (over (stored addr width value) (λ a. slice_index self.now.committed.items a)) }
    {
        let mut rest = value;
        for i in 0..width {
            if self.change_is_missed(by, addr + i, (rest % 256) as u8) {
                return true;
            }
            rest /= 256;
        }
        false
    }

    /// The committed byte would change, and another core that is not hurt has read it.
    fn change_is_missed(&self, by: u32, addr: u32, byte: u8) -> bool
        requires { addr < length self.now.committed.items }
        ensures { result ≡ (not (byte == slice_index self.now.committed.items addr) && refusal.other_has_read (spec.count_of_cores self.now) (spec.state_of self.now) by addr) }
    {
        byte != self.committed[addr as usize] && self.other_has_read(by, addr)
    }

    /// Another core runs, is not hurt, and has read this byte from outside.
    fn other_has_read(&self, by: u32, addr: u32) -> bool
        ensures { result ≡ refusal.other_has_read (spec.count_of_cores self.now) (spec.state_of self.now) by addr }
    {
        for (k, core) in self.cores.iter().enumerate() {
            if k != by as usize && core.has_read(addr) {
                return true;
            }
        }
        false
    }

    /// The commit is that of an epoch that exits, and another core runs.
    fn misses_a_cancel(&self, by: u32, what: What) -> bool
        requires { spec.IsFit self.now }
        ensures { result ≡ refusal.misses_a_cancel self.now.image (spec.count_of_cores self.now) (spec.state_of self.now) by what }
    {
        match what {
            What::Commit => self.is_at_an_exit(by) && self.other_runs(by),
            _ => false,
        }
    }

    /// Another core runs an epoch.
    fn other_runs(&self, by: u32) -> bool
        ensures { result ≡ refusal.other_runs (spec.count_of_cores self.now) (spec.state_of self.now) by }
    {
        for (k, core) in self.cores.iter().enumerate() {
            if k != by as usize && !core.is_idle() {
                return true;
            }
        }
        false
    }
}
