//! How many cores are asked for.
ghost use Rattle.std.specs.Prelude.{◌≡◌, true, IfSome, IfNone, Some, None, map};
ghost use Rattle.std.specs.List.{list_all};
ghost use Rattle.trace_commands.specs.Program.{IsUpTo16, number_up_to_16, only_up_to_16};
ghost use Rattle.trace_commands.specs.Stores.{names_store, or_both, stores_asked_in};

use std::convert::AsStr;
use std::marker::Model;
use trace_commands::{number_up_to_16, only_number};

/// How many cores are asked for, 1 to 16. Contracts see it as that number.
#[derive(Clone, Copy)]
pub struct CoreCount {
    count: u32,
}

impl Model for CoreCount {
    ghost use Rattle.std.specs.Prelude.{ℕ};
    ghost use Rattle.trace_commands.specs.Program.{IsUpTo16};

    ghost Value = { ℕ };

    ghost view = { λ c. c.count };

    ghost invariant = { λ c. IsUpTo16 c.count };

    ghost inverse = { λ n. record { count = n } };
}

impl CoreCount {
    /// So many cores.
    pub fn new(count: u32) -> CoreCount
        requires { IsUpTo16 count }
        ensures { result ≡ count }
    {
        CoreCount { count }
    }

    /// So many.
    pub fn count(self) -> u32
        ensures value { result ≡ self }
        ensures few { IsUpTo16 result }
    {
        self.count
    }
}

/// The number of cores that a word writes. None: another word.
pub(crate) fn cores_in(word: &str) -> Option<CoreCount>
    ensures { result ≡ number_up_to_16 word.now }
{
    let count = number_up_to_16(word)?;
    Some(CoreCount::new(count))
}

/// The number of cores that the only one of some words writes. None: another word, none, or more.
pub(crate) fn only_cores<S: AsStr>(words: &[S]) -> Option<CoreCount>
    ensures { result ≡ only_up_to_16 (map S.text words.now) }
{
    let count = only_number(words)?;
    Some(CoreCount::new(count))
}

/// How many cores the words `PROGRAM CORES STORE ..` ask for, and the words of stores behind that. None: they are no such words.
pub fn stores_asked<S: AsStr>(words: &[S]) -> Option<(CoreCount, &[S])>
    ensures asked { IfSome result (λ found. stores_asked_in (map S.text words.now)
        ≡ Some (record { cores = found.0; stores = or_both (map S.text found.1.now) })) }
    ensures stores { IfSome result (λ found. list_all names_store (map S.text found.1.now) ≡ true) }
    ensures none { IfNone result (stores_asked_in (map S.text words.now) ≡ None) }
{
    let (count, stores) = trace_commands::stores_asked(words)?;
    Some((CoreCount::new(count), stores))
}
