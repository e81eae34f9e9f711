//! Addresses of code, as words of a command line write them.
ghost use Rattle.std.specs.Prelude.{◌≡◌, ◌≤◌, IfOk, IfSome, IfNone, Some, None, length, map, unwrap_or};
ghost use Rattle.std.specs.List.{list_all};
ghost use Rattle.trace_commands.specs.Addresses.{address_in};
ghost use Rattle.replay_command.specs.Addresses as spec;
ghost use Rattle.replay_command.specs.Addresses.{wait_place, waits_in};

use std::alloc::{AllocError, Global};
use std::convert::AsStr;
use trace_commands::{address_in, first_word};

/// How many words stand before the first `--wait`.
pub fn wait_place<S: AsStr>(words: &[S]) -> usize
    ensures place { result ≡ wait_place (map S.text words.now) }
    ensures within { result ≤ length words.now }
{
    let mut place = 0;
    for word in words {
        if word.as_str() == "--wait" {
            return place;
        }
        place += 1;
    }
    place
}

/// The words of addresses that stand behind a word `--wait`; none, where there is no word at all. None: others stand there, or none.
pub fn wait_words<S: AsStr>(words: &[S]) -> Option<&[S]>
    ensures some { IfSome result (λ found. waits_in (map S.text words.now) ≡ Some (spec.addresses_of (map S.text found.now))) }
    ensures none { IfNone result (waits_in (map S.text words.now) ≡ None) }
{
    match first_word(words) {
        Some((_wait, others)) if are_addresses(others) => Some(others),
        Some(_) => None,
        None => Some(words),
    }
}

/// Whether these words are addresses, and there is one.
fn are_addresses<S: AsStr>(words: &[S]) -> bool
    ensures { result ≡ spec.are_addresses (map S.text words.now) }
{
    match first_word(words) {
        Some(_) => all_addresses(words),
        None => false,
    }
}

/// Whether each of these words is an address.
fn all_addresses<S: AsStr>(words: &[S]) -> bool
    ensures { result ≡ list_all spec.is_address (map S.text words.now) }
{
    for word in words {
        if address_in(word.as_str().as_bytes()).is_none() {
            return false;
        }
    }
    true
}

/// The addresses that these words write.
///
/// `AllocError`: memory ran out.
pub fn addresses_of<S: AsStr>(alloc: Global, words: &[S]) -> Result<Vec<u32>, AllocError>
    ensures { IfOk result (λ addresses. addresses.items ≡ spec.addresses_of (map S.text words.now)) }
{
    let mut addresses = Vec::new(alloc);
    for word in words {
        addresses.push(address_of(word.as_str()))?;
    }
    Ok(addresses)
}

/// The address that a word writes, or 0.
fn address_of(word: &str) -> u32
    ensures { result ≡ unwrap_or (address_in word.now) 0 }
{
    match address_in(word.as_bytes()) {
        Some(address) => address,
        None => 0,
    }
}
