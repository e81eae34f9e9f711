//! The book: a history of speculative epochs, kept in step with what the cores run and with the store.
#![tactic(auto)]

mod answer;
mod attempts;
mod book;
mod fault;
mod finish;
mod hurts;
mod laws;
mod notes;
mod opening;
mod parts;
mod readers;
mod register;
mod schedule;
mod speculative;
mod straight;

pub use answer::{Answer, Cause, StopCause};
pub use book::{Book, Loop, MOST_ROOM};
pub use fault::TurnFault;
pub use laws::{drive_is_fixed, turn_is_fixed};
pub use register::Running;
pub use schedule::{drive, step};
