//! What no schedule can roll back over caches, where buffers take the lines that are shared; and conflicts over a plain store, each
//! shown by a schedule.
#![tactic(auto)]

mod ahead;
mod drive;
pub mod laws;
mod shown;

pub use ahead::{Ahead, run_ahead};
pub use shown::{InOrder, show_conflict};
