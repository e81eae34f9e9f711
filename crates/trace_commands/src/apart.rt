//! The words `--apart ADDR:LENGTH:PIECE` of a command line, which are short for the key `apart` of its stores.
ghost use Rattle.std.specs.Prelude.{◌≡◌, ◌++◌, ◌≤◌, ℕ, List, IfOk, IfSome, IfNone, OnOk, length, map};
ghost use Rattle.std.specs.List.{list_any};
ghost use Rattle.std.specs.String.{string_bytes};
ghost use Rattle.trace_commands.specs.Apart as spec;

use crate::program::first_word;
use crate::store::{Store, apart_in, store_named};
use std::alloc::{AllocError, Global};
use std::convert::AsStr;

/// These words with `--apart ADDR:LENGTH:PIECE` spelled out: each of them that names a store of caches gets the key `apart` with that value. Where
/// none does, the two words become the store `caches:apart=ADDR:LENGTH:PIECE`. Without such two the words stay as they are.
///
/// `AllocError`: memory ran out.
#[tactic(auto, using(crate::proofs::Spelling::with_value, crate::proofs::Spelling::without_value))]
pub fn spelled<S: AsStr>(alloc: Global, words: &[S]) -> Result<Vec<String>, AllocError>
    ensures { IfOk result (λ told. map string_bytes told.items ≡ spec.spelled (map S.text words.now)) }
{
    let (before, behind) = words.split_at(apart_place(words));
    let mut told = Vec::new(alloc);
    match apart_behind(behind) {
        Some((apart, rest)) => push_spelled(alloc, &mut told, apart, before, rest)?,
        None => push_words(alloc, &mut told, words)?,
    }
    Ok(told)
}

/// How many words stand before the first `--apart`.
fn apart_place<S: AsStr>(words: &[S]) -> usize
    ensures place { result ≡ spec.apart_place (map S.text words.now) }
    ensures within { result ≤ length words.now }
{
    let mut place = 0;
    for word in words {
        if word.as_str() == "--apart" {
            return place;
        }
        place += 1;
    }
    place
}

/// What the second of these words says to lie apart, and the words behind it. None: it says nothing of that, or there are fewer words.
fn apart_behind<S: AsStr>(words: &[S]) -> Option<(&str, &[S])>
    ensures some { IfSome result (λ found. (before : List (List ℕ)) → spec.spelled_at before (map S.text words.now) ≡ spec.spelled_with found.0.now before (map S.text found.1.now)) }
    ensures none { IfNone result ((before : List (List ℕ)) → spec.spelled_at before (map S.text words.now) ≡ before ++ map S.text words.now) }
{
    let (_flag, words) = first_word(words)?;
    let (apart, rest) = first_word(words)?;
    if apart_in(apart.as_bytes()).is_some() {
        Some((apart, rest))
    } else {
        None
    }
}

/// Adds the words that stood before the two and behind them.
fn push_spelled<S: AsStr>(
    alloc: Global,
    told: &mut Vec<String>,
    apart: &str,
    before: &[S],
    rest: &[S],
) -> Result<(), AllocError>
    ensures { OnOk result (map string_bytes told.new.items
        ≡ map string_bytes told.old.items ++ spec.spelled_with apart.now (map S.text before.now) (map S.text rest.now)) }
{
    push_with_apart(alloc, told, apart, before)?;
    if !any_caches(before) && !any_caches(rest) {
        told.push(keyed(alloc, apart, "caches")?)?;
    }
    push_with_apart(alloc, told, apart, rest)
}

/// Whether one of these words names a store of caches.
fn any_caches<S: AsStr>(words: &[S]) -> bool
    ensures { result ≡ list_any spec.names_caches (map S.text words.now) }
{
    for word in words {
        if names_caches(word.as_str()) {
            return true;
        }
    }
    false
}

/// Whether the word names a store of caches.
fn names_caches(word: &str) -> bool
    ensures { result ≡ spec.names_caches word.now }
{
    match store_named(word) {
        Some(Store::Caches(_)) => true,
        Some(Store::Plain) | None => false,
    }
}

/// Adds these words, each that names a store of caches with the key.
fn push_with_apart<S: AsStr>(
    alloc: Global,
    told: &mut Vec<String>,
    apart: &str,
    words: &[S],
) -> Result<(), AllocError>
    ensures { OnOk result (map string_bytes told.new.items ≡ map string_bytes told.old.items ++ map (spec.with_apart apart.now) (map S.text words.now)) }
{
    for word in words {
        told.push(with_apart(alloc, apart, word.as_str())?)?;
    }
    Ok(())
}

/// The word, with the key where it names a store of caches.
fn with_apart(alloc: Global, apart: &str, word: &str) -> Result<String, AllocError>
    ensures { IfOk result (λ told. string_bytes told ≡ spec.with_apart apart.now word.now) }
{
    if names_caches(word) {
        keyed(alloc, apart, word)
    } else {
        String::from_str(alloc, word)
    }
}

/// The word of a store of caches, with the key.
#[tactic(auto, unfolding(crate::specs::Apart::keyed))]
fn keyed(alloc: Global, apart: &str, word: &str) -> Result<String, AllocError>
    ensures { IfOk result (λ told. string_bytes told ≡ spec.keyed apart.now word.now) }
{
    let key = if word == "caches" {
        ":apart="
    } else {
        ",apart="
    };
    let mut told = String::from_str(alloc, word)?;
    told.push_str(key)?;
    told.push_str(apart)?;
    Ok(told)
}

/// Adds these words as they are.
fn push_words<S: AsStr>(
    alloc: Global,
    told: &mut Vec<String>,
    words: &[S],
) -> Result<(), AllocError>
    ensures { OnOk result (map string_bytes told.new.items ≡ map string_bytes told.old.items ++ map S.text words.now) }
{
    for word in words {
        told.push(String::from_str(alloc, word.as_str())?)?;
    }
    Ok(())
}
