//! Words that name stores.
ghost use Rattle.std.specs.Prelude.{◌≡◌, true, map};
ghost use Rattle.std.specs.List.{list_all};
ghost use Rattle.trace_commands.specs.Stores.{names_store};

use std::alloc::AllocError;
use std::convert::AsStr;

/// Words of a command line, each of which names a store.
pub struct StoreWords<'a, S: AsStr> {
    /// The words.
    pub words: &'a [S],
    /// Each names a store.
    pub ghost named: { list_all names_store (map S.text words.now) ≡ true },
}

impl<S: AsStr> Clone for StoreWords<'_, S> {
    fn clone(&self) -> Result<Self, AllocError> {
        Ok(*self)
    }
}

impl<S: AsStr> Copy for StoreWords<'_, S> {}
