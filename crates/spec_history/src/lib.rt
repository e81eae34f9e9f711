//! The flat machine: a second, one-thread reading of every history, which knows nothing of lines, masks, buffers or
//! locks.
#![tactic(auto)]

mod cores;
mod effects;
mod entry;
mod flat;
mod illegal;
mod kind;
pub mod laws;
mod machine;
mod refusals;

pub use entry::{Entry, What};
pub use flat::{Flat, audit};
pub use illegal::Illegal;
pub use kind::Kind;
