//! The lines of all stores.
ghost use Rattle.std.specs.Prelude.{IfOk, OnOk, map};
ghost use Rattle.trace_commands.specs.Stores.{store_named};
ghost use Rattle.replay_command.specs.Stores.{RunsOn, RunsOnAll, pieces_of};
ghost use Rattle.gain.specs.Gains as spec;

use crate::even_lines::push_evens;
use crate::gains::Study;
use crate::lines::{Waiting, push_lines};
use crate::study_on::StudyOn;
use crate::text::shows_held;
use all_schedules::{LoopOn, holds_at, holds_in_order};
use even_speed::Terms;
use replay_command::{pieces_of, store_on};
use rv32_image::Image;
use spec_bus::CachedBus;
use std::alloc::{AllocError, Global};
use std::convert::AsStr;
use trace_commands::Store;
use violations::PlainStore;

/// Adds the lines of each store that these words name, whose machine can run the image on so many cores.
///
/// `AllocError`: memory ran out.
pub fn push_stores<S: AsStr>(
    alloc: Global,
    text: &mut Vec<u8>,
    image: &Image,
    study: &Study,
    addresses: &[u32],
    words: &[S],
) -> Result<(), AllocError>
    requires stores { RunsOnAll image.now study.now.cores (map S.text words.now) }
    ensures { OnOk result (spec.AddStores study.now addresses.now image.now (map S.text words.now) text.old.items text.new.items) }
{
    for word in words {
        push_store(alloc, text, image, study, addresses, word.as_str())?;
    }
    Ok(())
}

/// Adds the lines of the store that this word names.
fn push_store(
    alloc: Global,
    text: &mut Vec<u8>,
    image: &Image,
    study: &Study,
    addresses: &[u32],
    word: &str,
) -> Result<(), AllocError>
    requires store { RunsOn image.now study.now.cores (store_named word.now) }
    ensures { OnOk result (spec.AddStore study.now addresses.now image.now word.now (store_named word.now) text.old.items text.new.items) }
{
    let (store, image) = store_on(image, study.cores, word)?;
    let asked = StudyOn {
        image: &image,
        study,
        addresses,
    };
    push_lines_of(alloc, text, word.as_bytes(), &asked, store)
}

/// Adds the lines of this store, of the loop on its machine.
fn push_lines_of(
    alloc: Global,
    text: &mut Vec<u8>,
    word: &[u8],
    asked: &StudyOn<'_>,
    store: Store,
) -> Result<(), AllocError>
    ensures { OnOk result (spec.AddLinesOf asked.now.study.now asked.now.addresses.now asked.now.image.now store word.now text.old.items text.new.items) }
{
    let waiting = waiting_over(alloc, asked, store)?;
    push_runs(alloc, text, word, asked, store, &waiting)?;
    push_evens_of(alloc, text, word, asked, store)
}

/// Adds the lines of the runs over this store, on these terms.
fn push_runs(
    alloc: Global,
    text: &mut Vec<u8>,
    word: &[u8],
    asked: &StudyOn<'_>,
    store: Store,
    waiting: &Waiting,
) -> Result<(), AllocError>
    ensures { OnOk result (spec.AddWaiting waiting.now asked.now.image.now store asked.now.study.now.cores asked.now.study.now.room word.now text.old.items text.new.items) }
{
    let on = LoopOn {
        image: asked.image,
        cores: asked.study.cores.count(),
        room: asked.study.room,
    };
    match store {
        Store::Caches(_) => push_lines::<CachedBus>(alloc, text, word, &on, waiting),
        Store::Plain => push_lines::<PlainStore>(alloc, text, word, &on, waiting),
    }
}

/// Adds the lines of the costs up to which the loop gains over this store, where they are asked for.
fn push_evens_of(
    alloc: Global,
    text: &mut Vec<u8>,
    word: &[u8],
    asked: &StudyOn<'_>,
    store: Store,
) -> Result<(), AllocError>
    ensures { OnOk result (spec.AddEvensOf asked.now.study.now.even asked.now.study.now asked.now.addresses.now asked.now.image.now store word.now text.old.items text.new.items) }
{
    if !asked.study.even {
        return Ok(());
    }
    match store {
        Store::Caches(_) => push_evens::<CachedBus>(alloc, text, word, asked),
        Store::Plain => push_evens::<PlainStore>(alloc, text, word, asked),
    }
}

/// The loads at these addresses wait; and in the lines `held`, where they are asked for, those that read what earlier epochs store in order.
fn waiting_over(alloc: Global, asked: &StudyOn<'_>, store: Store) -> Result<Waiting, AllocError>
    ensures { IfOk result (spec.AreWaiting asked.now.image.now asked.now.addresses.now asked.now.study.now (pieces_of store)) }
{
    let held = held_over(alloc, asked, store)?;
    let terms = Terms {
        holds: holds_at(alloc, asked.addresses)?,
        queues: asked.addresses.is_empty(),
        costs: asked.study.costs,
    };
    let told = shows_held(asked.addresses);
    Ok(Waiting { terms, told, held })
}

/// Where lines `held` are asked for, the loads wait that read what earlier epochs store in order.
fn held_over(alloc: Global, asked: &StudyOn<'_>, store: Store) -> Result<Option<Terms>, AllocError>
    ensures { IfOk result (spec.AreHeld asked.now.image.now asked.now.study.now.held (pieces_of store) asked.now.study.now.costs) }
{
    if !asked.study.held {
        return Ok(None);
    }
    match holds_in_order(alloc, asked.image, pieces_of(store)) {
        Ok(holds) => Ok(Some(Terms {
            holds,
            queues: false,
            costs: asked.study.costs,
        })),
        Err(_) => Err(AllocError),
    }
}
