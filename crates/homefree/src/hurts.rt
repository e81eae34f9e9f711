//! What the register notes of other cores: one entry for each, in order of core number.
ghost use Rattle.std.specs.Prelude.{◌≡◌, ◌+◌, ◌^◌, ◌++◌, ◌≤◌, ◌<◌, ◌≢◌, ℕ, length, vec_len, vec_capacity, true, false, Some, IsSome};
ghost use Rattle.run_ledger.specs.declared.counts.Counts.{Counts};
ghost use Rattle.violations.specs.CoreSet.{is_in};
ghost use Rattle.homefree.specs.Kept.{running_at};
ghost use Rattle.homefree.specs.Steps.{Steps};
ghost use Rattle.homefree.specs.Hurts as spec;
ghost use Rattle.homefree.specs.Noted.{epoch_in, hurts_noted, cancels_noted, cancel_noted};

use crate::register::Register;
use spec_history::What;
use violations::CoreSet;

impl Register {
    /// The core's turn hurts these others.
    pub(crate) fn hurt_all(&mut self, by: u32, hurt: CoreSet)
        requires few { length self.old.running.items ≤ 16 }
        requires room { vec_len self.old.history + length self.old.running.items ≤ vec_capacity self.old.history }
        requires runs { (k : ℕ) → is_in hurt k ≡ true → IsSome (running_at self.old.running.items k) }
        ensures steps { (shares : Counts) → Steps self.old self.new shares shares (hurts_noted by (is_in hurt) self.old.running.items (length self.old.running.items)) }
        ensures spared { (k : ℕ) → is_in hurt k ≡ false → running_at self.new.running.items k ≡ running_at self.old.running.items k }
    {
        let count = self.running.len() as u32;
        for k in 0..count {
            if hurt.has(k) {
                self.hurt_at(by, k);
            }
        }
    }

    /// The core's turn hurts this other one.
    fn hurt_at(&mut self, by: u32, core: u32)
        requires core { core < length self.old.running.items }
        requires room { vec_len self.old.history < vec_capacity self.old.history }
        requires runs { IsSome (running_at self.old.running.items core) }
        ensures steps { (shares : Counts) → Steps self.old self.new shares shares (spec.entry by (What.Hurt (epoch_in self.old.running.items core))) }
        ensures others { (k : ℕ) → k ≢ core → running_at self.new.running.items k ≡ running_at self.old.running.items k }
    {
        match self.running[core as usize] {
            None => unreachable!(),
            Some(now) => self.hurt(by, core, now),
        }
    }

    /// The core's turn cancels each other one that runs an epoch.
    pub(crate) fn cancel_all(&mut self, by: u32)
        requires few { length self.old.running.items ≤ 16 }
        requires room { vec_len self.old.history + length self.old.running.items ≤ vec_capacity self.old.history }
        ensures steps { (shares : Counts) → Steps self.old self.new shares shares (cancels_noted by self.old.running.items (length self.old.running.items)) }
        ensures own { running_at self.new.running.items by ≡ running_at self.old.running.items by }
    {
        let count = self.running.len() as u32;
        for k in 0..count {
            if k != by {
                self.cancel_at(by, k);
            }
        }
    }

    /// The core's turn cancels this other one, where it runs an epoch.
    fn cancel_at(&mut self, by: u32, core: u32)
        requires core { core < length self.old.running.items }
        requires room { vec_len self.old.history < vec_capacity self.old.history }
        ensures steps { (shares : Counts) → Steps self.old self.new shares shares (cancel_noted by self.old.running.items core) }
        ensures others { (k : ℕ) → k ≢ core → running_at self.new.running.items k ≡ running_at self.old.running.items k }
    {
        if let Some(now) = self.running[core as usize] {
            self.cancel(by, core, now);
        }
    }
}
