//! The text of a trace: printed from a history, and read back below the text of its image.
#![tactic(auto)]

mod digits;
mod entry;
mod fault;
mod front;
pub mod laws;
mod print;
mod read;

pub use digits::{push_hex, push_number};
pub use fault::{LONGEST_TRACE_TEXT, TraceFault, TraceFaultKind};
pub use print::{print_trace, push_entry};
pub use read::{image_part, read_trace};
