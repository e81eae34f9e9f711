//! The ownership required buffer of a core: the lines that its epoch has speculatively modified and that other cores may
//! hold, so that it has to ask for them when it commits (after Steffan, Colohan, Zhai and Mowry, "A Scalable Approach to
//! Thread-Level Speculation", ISCA 2000).
#![tactic(auto)]

mod buffer;

pub use buffer::{LARGEST_LIMIT, Orb, OrbFull};
