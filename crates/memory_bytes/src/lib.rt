//! Numbers in the bytes of memory, and bytes kept beside it: what an epoch has stored and not committed, or what it has read.
#![tactic(auto)]

mod numbers;
mod shadow;

pub use numbers::{low_bytes, read_number, write_number};
pub use shadow::ShadowBytes;
