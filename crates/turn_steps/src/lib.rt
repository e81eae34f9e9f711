//! Turns as lines of text: what a core was answered, the entries of the turn, and what of all that a store holds isn't as it was before.
#![tactic(auto)]

mod bus;
mod caches;
mod changed;
mod committed_row;
mod cores;
mod entries;
mod kept;
mod kept_row;
mod laws;
mod loop_shown;
mod machine;
mod memory;
mod names;
mod orbs;
mod plain;
mod rows;
mod stepping;
mod store;
mod turns;
mod ways;
mod writing;

pub use bus::ShownBus;
pub use caches::ShownCore;
pub use cores::{push_attempt_change, push_attempt_changes, push_hart_change};
pub use entries::{add_stored_rows, add_touched_rows, has_commit};
pub use kept::ShownKept;
pub use laws::steps_are_fixed;
pub use machine::{KnownMachine, Layout, PlacedCaches};
pub use memory::ShownMemory;
pub use orbs::push_orb_change;
pub use plain::ShownPlain;
pub use stepping::drive_steps;
pub use store::ShownStore;
pub use turns::{push_entries, push_turn};
pub use ways::push_way_changes;
