//! What can roll back at all: the dependences of the run in order, and the law that without a conflict nothing is violated.
#![tactic(auto)]

mod alone;
mod beside;
mod both;
mod byte_stores;
mod caches;
mod conflict;
mod ends;
mod flow;
mod last_stores;
mod last_two;
pub mod laws;
mod lines;
mod marks;
mod nearest;
mod over_caches;
mod own_bytes;
mod pairs;
mod touches;
mod watch;
mod word_stores;

pub use caches::{CacheConflict, conflict_over_caches};
pub use conflict::{conflicts_over_bytes, is_near, least_conflict_over_bytes};
pub use flow::{Dependence, RunInOrder, dependences_in_order, lengths_in_order, shown_in_order};
pub use nearest::nearest_dependence;
pub use over_caches::{RunOverCaches, shown_over_caches};
pub use pairs::PairSum;
