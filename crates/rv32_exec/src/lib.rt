//! The sequential machine: images, harts, and the loop's epochs run in order.
#![tactic(auto)]

mod access;
mod arrived;
mod hart;
mod instruction;
mod interpreter;
pub mod laws;
mod notes;
mod registers;
mod sequential;
mod stop;

pub use arrived::{Arrived, advance, loaded, stored};
pub use hart::{Hart, start};
pub use notes::Notes;
pub use rv32_image::{
    Image, ImageFault, ImageFaultKind, InputFault, LONGEST_IMAGE_TEXT, Limits, Machine, NoMemory,
    Version, image_of, read_image, read_input,
};
pub use sequential::{End, SeqEnd, run_in_order};
pub use stop::{
    EPOCH_END, FETCH_OUTSIDE_CODE, ILLEGAL_WORD, INSTRUCTION_LIMIT, LOAD_OUTSIDE_MEMORY,
    MISALIGNED_DATA, MISALIGNED_TARGET, STORE_OUTSIDE_DATA, SYSTEM_INSTRUCTION, Stop,
};
