//! The report of which conflicts rolled back, as text, and the command that writes it.
#![tactic(auto)]

mod accesses;
mod attempts;
mod command;
mod ends;
mod finding;
mod further;
mod lines;
mod parts;
mod program;
mod report;
mod sums;
mod words;

pub use command::{WhyAsked, do_why};
pub use program::work;
