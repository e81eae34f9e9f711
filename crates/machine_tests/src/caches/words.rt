//! The words of a row that caches have: numbers, states and marks.

use crate::words::{number, word};
use spec_states::LineState::{E, I, M, S, SpE, SpS};
use spec_states::{LineState, Marks};

/// Whether a text has this word.
pub fn has_word(text: &str, wanted: &str) -> bool {
    for word in text.split_whitespace() {
        if word == wanted {
            return true;
        }
    }
    false
}

/// The same as a place, a length or a count.
pub fn index(text: &str, place: usize) -> usize {
    number(text, place) as usize
}

/// The mask of bytes at a place of a text, in hexadecimal. None: there is none.
pub fn mask_at(text: &str, place: usize) -> Option<u64> {
    u64::from_str_radix(word(text, place), 16).ok()
}

/// The state of this name.
pub fn state(word: &str) -> Option<LineState> {
    match word {
        "I" => Some(I),
        "S" => Some(S),
        "E" => Some(E),
        "M" => Some(M),
        "SpS" => Some(SpS),
        "SpE" => Some(SpE),
        _ => None,
    }
}

/// The marks at a place of a text: `r` where the line was loaded, and which of its bytes are modified. `*` is `mask`.
pub fn marks(text: &str, place: usize, mask: u64) -> Option<Marks> {
    Some(Marks {
        loaded: word(text, place) == "r",
        bytes: bytes_of(word(text, place.wrapping_add(1)), mask)?,
    })
}

/// Which bytes a word names.
fn bytes_of(word: &str, mask: u64) -> Option<u64> {
    if word == "*" {
        Some(mask)
    } else {
        mask_at(word, 0)
    }
}
