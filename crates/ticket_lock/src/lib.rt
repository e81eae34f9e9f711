//! A ticket lock whose passes prove what was done under it.
//!
//! A thread draws a ticket from the word `next`, waits until the word `serving` shows it, and gives the value back by
//! raising `serving`. What it knows of the value's past travels with its pass: the value that it is handed has a past
//! that begins with all that the pass has seen, and in which the pass has just its own entries.
#![tactic(auto)]

mod errors;
mod held;
mod kept;
mod lock;
mod pass;
mod places;
mod plays;
mod rule;
mod ticket;

pub use errors::{NoMemory, Spent};
pub use held::Held;
pub use kept::Kept;
pub use lock::TicketLock;
pub use pass::Pass;
