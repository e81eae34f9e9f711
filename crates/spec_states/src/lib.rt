//! The states of a cache line under speculation, and what each event makes of a copy of a line: its owner's loads and
//! stores, the messages of other cores, a violation of its owner's epoch, its owner's publish.
#![tactic(auto)]

mod line;
mod next;
mod others;
mod own;

pub use line::{LONGEST_LINE, LineState, Marks};
pub use next::{Next, Order};
pub use others::{after_other_load, after_other_store, after_publish};
pub use own::{after_own_load, after_own_store, after_violation, settled};
