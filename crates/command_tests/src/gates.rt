//! Gates for tests.

use core_threads::{Gate, Shut};
use rv32_exec::{Arrived, Stop};
use std::sync::atomic::{AtomicU64, Ordering};
use std::thread;

/// Shuts for one core at one turn.
#[derive(Drop)]
pub struct ShutAt {
    pub core: u32,
    pub turn: u64,
}

impl Gate for ShutAt {
    fn pass(&self, core: u32, turn: u64, _next: Option<&Arrived>) -> Result<(), Shut> {
        if core == self.core && turn == self.turn {
            Err(Shut)
        } else {
            Ok(())
        }
    }
}

/// How often a core looks for the others before the gate shuts.
const LOOKS: u64 = 100_000_000;

/// Lets no core pass its turns 0, 1 and 2 before every other core has come to pass the same turn. It shuts where a core comes to pass
/// one of them twice.
#[derive(Drop)]
pub struct Meeting {
    /// A bit for each core.
    cores: u64,
    /// The bits of the cores that have come to pass each turn.
    come: [AtomicU64; 3],
    /// How many cores had come to turn 1 with a store in hand when the first of them went on; 0 before.
    pub stores: AtomicU64,
    shown: AtomicU64,
}

impl Meeting {
    pub fn new(cores: u32) -> Meeting {
        Meeting {
            cores: bit_of(cores).wrapping_sub(1),
            come: [AtomicU64::new(0), AtomicU64::new(0), AtomicU64::new(0)],
            stores: AtomicU64::new(0),
            shown: AtomicU64::new(0),
        }
    }
}

/// The bit of a core.
fn bit_of(core: u32) -> u64 {
    1u64.wrapping_shl(core)
}

/// Whether a core hands in a store.
fn is_store(next: Option<&Arrived>) -> bool {
    match next {
        Some(arrived) => {
            let at = arrived.at();
            matches!(at, Stop::Store { .. })
        }
        None => false,
    }
}

impl Gate for Meeting {
    fn pass(&self, core: u32, turn: u64, next: Option<&Arrived>) -> Result<(), Shut> {
        if turn > 2 {
            return Ok(());
        }
        if turn == 1 && is_store(next) {
            self.shown.fetch_add(1, Ordering::SeqCst);
        }
        let come = &self.come[turn as usize];
        if come.fetch_or(bit_of(core), Ordering::SeqCst) & bit_of(core) != 0 {
            // Nobody has to wait for the others now.
            come.fetch_or(self.cores, Ordering::SeqCst);
            return Err(Shut);
        }
        for _ in 0..LOOKS {
            if come.load(Ordering::SeqCst) == self.cores {
                if turn == 1 {
                    self.stores
                        .fetch_max(self.shown.load(Ordering::SeqCst), Ordering::SeqCst);
                }
                return Ok(());
            }
            thread::yield_now();
        }
        Err(Shut)
    }
}

/// How long the late cores count before their first turn.
const STEPS: u64 = 200_000;

/// Lets each core but the first count for a while before its first turn.
#[derive(Drop)]
pub struct Late {
    pub counted: AtomicU64,
}

impl Gate for Late {
    fn pass(&self, core: u32, turn: u64, _next: Option<&Arrived>) -> Result<(), Shut> {
        if core > 0 && turn == 0 {
            for _ in 0..STEPS {
                self.counted.fetch_add(1, Ordering::SeqCst);
            }
        }
        Ok(())
    }
}

/// Holds each core but the first before its first turn, until the first has had one.
#[derive(Drop)]
pub struct After {
    pub turns: AtomicU64,
}

impl Gate for After {
    fn pass(&self, core: u32, turn: u64, _next: Option<&Arrived>) -> Result<(), Shut> {
        if core == 0 {
            self.turns.fetch_max(turn, Ordering::SeqCst);
            return Ok(());
        }
        for _ in 0..LOOKS {
            if self.turns.load(Ordering::SeqCst) > 0 {
                return Ok(());
            }
            thread::yield_now();
        }
        Err(Shut)
    }
}
