//! In how few steps cores can run a loop, where each load that depends on an earlier epoch waits only for what it needs.
#![tactic(auto)]

pub mod laws;
mod limit;
mod times;

pub use limit::{Limits, Waits, limits_in_order};
