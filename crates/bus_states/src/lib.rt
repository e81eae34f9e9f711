//! The cores of a bus and its memory: what a message of one core makes of the others' copies. `specs/` defines what each
//! call of the bus makes of it, and when the bus is coherent; `proofs/` has the laws.
#![tactic(auto)]

mod notice;

pub use notice::{Notice, answer};
