//! The clocks of all cores.
ghost use Rattle.std.specs.Prelude.{◌≡◌, ◌≤◌, ◌<◌, ◌-◌, ◌+◌, ◌*◌, ◌^◌, ◌==◌, ℕ, length, IfOk, Option, if◌then◌else◌};
ghost use Rattle.even_speed.specs.Account.{steps_of};
ghost use Rattle.even_speed.specs.Clocks as spec;
ghost use Rattle.even_speed.specs.Even.{queues_of};
ghost use Rattle.even_speed.specs.Kept.{AreClocks, IsSound, MayBeLate, MayWake};

use crate::account::{Account, no_steps};
use crate::clock::{Clock, first_clock};
use crate::pricing::Price;
use crate::terms::Terms;
use rv32_exec::NoMemory;
use std::alloc::Global;

/// Whose turn is next, and when.
#[derive(Clone, Copy)]
pub struct Turn {
    /// The core.
    pub core: u32,
    /// The time at which it was due.
    pub due: u64,
    /// The time at which it begins.
    pub at: u64,
    /// What it costs.
    pub price: Price,
}

/// The clocks of so many cores at the start of the run.
pub(crate) fn first_clocks(alloc: Global, cores: u32) -> Result<Vec<Clock>, NoMemory>
    ensures count { IfOk result (λ clocks. length clocks.items ≡ cores) }
    ensures first { IfOk result (λ clocks. (k : ℕ) → spec.clock_at clocks.items k ≡ spec.first_clock) }
{
    let mut clocks = Vec::new(alloc);
    for _ in 0..cores {
        if clocks.push(first_clock()).is_err() {
            return Err(NoMemory);
        }
    }
    Ok(clocks)
}

/// Sets the clock of a core.
pub(crate) fn set_clock(clocks: &mut Vec<Clock>, core: u32, clock: Clock)
    requires { core < length clocks.old.items }
    ensures { AreClocks clocks.old.items clocks.new.items (λ k. if k == core then clock else spec.clock_at clocks.old.items k) }
{
    clocks[core as usize] = clock;
}

/// The clock of a core.
pub(crate) fn clock_of(clocks: &Vec<Clock>, core: u32) -> Clock
    requires { core < length clocks.now.items }
    ensures { result ≡ spec.clock_at clocks.now.items core }
{
    clocks[core as usize]
}

/// The core that takes the turn was in a queue from when it was due until the turn begins, or was held.
pub(crate) fn be_late(clocks: &mut Vec<Clock>, terms: &Terms, turn: &Turn)
    requires core { turn.now.core < length clocks.old.items }
    requires may { MayBeLate turn.now.due turn.now.at (spec.clock_at clocks.old.items turn.now.core) }
    ensures { AreClocks clocks.old.items clocks.new.items (spec.late_clocks (queues_of terms.now) (spec.clock_at clocks.old.items) turn.now) }
{
    let clock = clock_of(clocks, turn.core).late(terms.is_queue(), turn.due, turn.at);
    set_clock(clocks, turn.core, clock);
}

/// Every core that waits is due at this time.
pub(crate) fn wake_all(clocks: &mut Vec<Clock>, at: u64)
    requires few { length clocks.old.items ≤ 16 }
    requires may { (k : ℕ) → k < length clocks.old.items → MayWake at (spec.clock_at clocks.old.items k) }
    requires at { at < 2 ^ 61 }
    ensures { AreClocks clocks.old.items clocks.new.items (λ k. spec.woken at (spec.clock_at clocks.old.items k)) }
{
    for core in 0..clocks.len() as u32 {
        let clock = clock_of(clocks, core).woken(at);
        set_clock(clocks, core, clock);
    }
}

/// Where the steps of all cores went, where the run is over at this time.
pub(crate) fn account_of(clocks: &Vec<Clock>, end: u64) -> Account
    requires few { length clocks.now.items ≤ 16 }
    requires least { 1 ≤ end }
    requires sound { (k : ℕ) → k < length clocks.now.items → IsSound (end - 1) (end - 1) (spec.clock_at clocks.now.items k) }
    requires end { end < 2 ^ 56 }
    ensures is { result ≡ spec.account_of end (spec.clock_at clocks.now.items) (length clocks.now.items) }
    ensures whole { steps_of result ≡ length clocks.now.items * end }
{
    let mut sum = no_steps();
    for core in 0..clocks.len() as u32 {
        sum = sum.with(&clock_of(clocks, core).closed(end));
    }
    sum
}
