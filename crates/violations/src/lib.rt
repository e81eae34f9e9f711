//! The store of speculative epochs: what its calls promise, and a plain store that keeps the promise.
#![tactic(auto)]

mod attempt;
mod core_set;
mod core_state;
mod core_states;
mod plain;
mod step;
mod store;
mod waiting;

pub use attempt::Attempt;
pub use core_set::{CoreSet, MAX_CORES};
pub use plain::PlainStore;
pub use step::{Step, WaitCause};
pub use store::EpochStore;
pub use waiting::Waiting;
