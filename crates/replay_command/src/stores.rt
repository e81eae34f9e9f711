//! What stores ask for: whether their machines can run an image, and the pieces of memory that tell which loads wait over them.
ghost use Rattle.std.specs.Prelude.{◌≡◌, true, IfOk, MatchResult, Some, map};
ghost use Rattle.std.specs.List.{list_all};
ghost use Rattle.trace_commands.specs.Stores.{names_store, store_named};
ghost use Rattle.run_command.specs.Runnable.{IsRunnable};
ghost use Rattle.replay_command.specs.Stores as spec;

use crate::core_count::CoreCount;
use epoch_paths::Pieces;
use run_command::runnable;
use rv32_image::Image;
use std::alloc::AllocError;
use std::convert::AsStr;
use trace_commands::{CommandStop, Outcome, Store, store_named};

/// Whether the machine of each store that these words name can run the image on so many cores.
///
/// `Usage`: one can't. `Stopped`: there are too many copies of the image, 2^63 - 1.
pub fn check_stores<S: AsStr>(image: &Image, cores: CoreCount, words: &[S]) -> Result<(), Outcome>
    requires stores { list_all names_store (map S.text words.now) ≡ true }
    ensures { MatchResult result (λ _. spec.RunsOnAll image.now cores (map S.text words.now))
        (spec.IsStop (spec.HasRefused image.now cores (map S.text words.now))) }
{
    for word in words {
        check_store(image, cores, word.as_str())?;
    }
    Ok(())
}

/// So of the store that this word names.
fn check_store(image: &Image, cores: CoreCount, word: &str) -> Result<(), Outcome>
    requires store { names_store word.now ≡ true }
    ensures { MatchResult result (λ _. spec.RunsOn image.now cores (store_named word.now))
        (spec.IsStop (spec.IsRefused image.now cores (store_named word.now))) }
{
    let Some(store) = store_named(word) else {
        unreachable!()
    };
    let Ok(image) = image.copy() else {
        return Err(Outcome::Stopped(CommandStop::NoMemory));
    };
    match runnable(image, store.asked(), cores.count()) {
        Some(_) => Ok(()),
        None => Err(Outcome::Usage),
    }
}

/// The store that a word names, and the loop on the machine that it asks for, which can run the image on so many cores.
///
/// `AllocError`: there are too many copies of the image, 2^63 - 1.
pub fn store_on(image: &Image, cores: CoreCount, word: &str) -> Result<(Store, Image), AllocError>
    requires { spec.RunsOn image.now cores (store_named word.now) }
    ensures store { IfOk result (λ found. store_named word.now ≡ Some found.0) }
    ensures image { IfOk result (λ found. found.1 ≡ spec.on_store found.0 image.now) }
    ensures can { IfOk result (λ found. IsRunnable found.1 cores) }
{
    let Some(store) = store_named(word) else {
        unreachable!()
    };
    let Ok(image) = image.copy() else {
        return Err(AllocError);
    };
    match store.asked().on(image) {
        Some(image) => Ok((store, image)),
        None => unreachable!(),
    }
}

/// The pieces of memory that tell over a store whether a load reads what another epoch stores.
pub fn pieces_of(store: Store) -> Pieces
    ensures { result ≡ spec.pieces_of store }
{
    match store {
        Store::Caches(_) => Pieces::Lines,
        Store::Plain => Pieces::Bytes,
    }
}
