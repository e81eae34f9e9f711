//! What a turn does that costs steps, on a machine where misses, messages and speculation have their price.
#![tactic(auto)]

mod actions;
mod bus;
mod costs;
pub mod laws;
mod order;
mod plain;
mod store;
mod turn;

pub use actions::Actions;
pub use costs::{Cost, Costs, MOST_COST};
pub use order::steps_in_order;
pub use store::PricedStore;
pub use turn::actions_of;
