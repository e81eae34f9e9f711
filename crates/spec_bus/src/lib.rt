//! The caches of all cores on one bus.
#![tactic(auto)]

mod attempts;
mod bus_core;
mod cached;
mod committed;
mod cores;
pub mod laws;
mod memory;
mod messages;
mod parts;
mod publish;
mod speculative;
mod straight;

pub use cached::{CachedBus, LineView};
