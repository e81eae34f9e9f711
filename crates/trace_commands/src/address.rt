//! Addresses, as words of a command line write them.
ghost use Rattle.std.specs.Prelude.{◌≡◌};
ghost use Rattle.std.specs.List.{list_all};
ghost use Rattle.trace_commands.specs.Addresses as spec;

use rv32_image::word_in;

/// The number that just eight hexadecimal digits write in lower case. None: the word is no such number.
#[tactic(auto, unfolding(crate::specs::Addresses::address_in))]
pub fn address_in(word: &[u8]) -> Option<u32>
    ensures { result ≡ spec.address_in word.now }
{
    if !are_lower_digits(word) {
        return None;
    }
    match word_in(word) {
        Ok(address) => Some(address),
        Err(_) => None,
    }
}

fn are_lower_digits(word: &[u8]) -> bool
    ensures { result ≡ list_all spec.is_lower_digit word.now }
{
    for b in word {
        if !is_lower_digit(*b) {
            return false;
        }
    }
    true
}

fn is_lower_digit(b: u8) -> bool
    ensures { result ≡ spec.is_lower_digit b }
{
    b.is_ascii_digit() || (b'a' <= b && b <= b'f')
}
