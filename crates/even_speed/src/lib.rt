//! The run of a loop at even speed: one schedule of turns, exactly defined, and where the steps of its cores went.
#![tactic(auto)]

mod account;
mod choice;
mod clock;
mod clocks;
mod grain;
mod holds;
mod laws;
mod owns;
mod pricing;
mod run;
mod seats;
mod terms;

pub use account::{Account, Spent};
pub use clock::{Clock, Next};
pub use clocks::Turn;
pub use grain::Grain;
pub use holds::Holds;
pub use laws::{run_is_fixed, zero_costs_change_nothing};
pub use pricing::{Free, Price};
pub use run::{Ran, drive_evenly};
pub use terms::Terms;
