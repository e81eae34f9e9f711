//! The words of a command line that names cores and stores.
ghost use Rattle.std.specs.Prelude.{◌≡◌, ◌≤◌, true, Some, None, IfNone, IfSome, map};
ghost use Rattle.std.specs.List.{list_all};
ghost use Rattle.trace_commands.specs.Stores as spec;

use crate::program::{first_word, number_up_to_16};
use crate::store::store_named;
use std::convert::AsStr;

/// How many cores the words `PROGRAM CORES STORE ..` ask for, 1 to 16, and the words of stores behind that. None: they are no such words.
#[tactic(auto, unfolding(crate::specs::Stores::stores_asked_in))]
pub fn stores_asked<S: AsStr>(words: &[S]) -> Option<(u32, &[S])>
    ensures asked { IfSome result (λ found. spec.stores_asked_in (map S.text words.now)
        ≡ Some (record { cores = found.0; stores = spec.or_both (map S.text found.1.now) })) }
    ensures cores { IfSome result (λ found. 1 ≤ found.0) }
    ensures stores { IfSome result (λ found. list_all spec.names_store (map S.text found.1.now) ≡ true) }
    ensures none { IfNone result (spec.stores_asked_in (map S.text words.now) ≡ None) }
{
    let (_program, words) = first_word(words)?;
    let (word, stores) = first_word(words)?;
    let cores = number_up_to_16(word)?;
    if !are_stores(stores) {
        return None;
    }
    Some((cores, stores))
}

/// Whether each of these words names a store.
fn are_stores<S: AsStr>(words: &[S]) -> bool
    ensures { result ≡ list_all spec.names_store (map S.text words.now) }
{
    for word in words {
        if store_named(word.as_str()).is_none() {
            return false;
        }
    }
    true
}
