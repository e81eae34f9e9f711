//! Images of loops: their parts, and their text.
#![tactic(auto)]

mod apart;
mod draft;
mod fault;
mod image;
mod input;
pub mod laws;
mod machine;
mod numbered;
mod parts;
mod text;
mod version;
mod words;

pub use apart::Apart;
pub use fault::{ImageFault, ImageFaultKind, LONGEST_IMAGE_TEXT};
pub use image::{Image, NoMemory};
pub use input::{InputFault, read_input};
pub use machine::Machine;
pub use numbered::{NumberedLines, is_remark};
pub use parts::{TextParts, parts_of};
pub use text::{image_of, read_image};
pub use version::{Limits, Version};
pub use words::{Words, cut, number_in, word_in, words_of};
