//! The path of an epoch, which is its run alone over a memory; the run in order; and where epochs store in order.
#![tactic(auto)]

mod epoch;
mod lines;
mod pieces;
mod stores;

pub use epoch::Epoch;
pub use lines::line_of;
pub use pieces::Pieces;
pub use stores::stores_in_order;
