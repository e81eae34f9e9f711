//! All lines.
ghost use Rattle.std.specs.Prelude.{◌≡◌, true, IfOk, OnOk, List, map};
ghost use Rattle.trace_commands.specs.Stores.{nothing_asked, store_named};
ghost use Rattle.replay_command.specs.Stores.{RunsOn, RunsOnAll};
ghost use Rattle.dependences.specs.declared.flow.Dependence.{Dependence};
ghost use Rattle.dependences.specs.Summed.{AreSumsOf};
ghost use Rattle.depends.specs.Lines as spec;
ghost use Rattle.depends.specs.Ran.{IsSeen, IsSeenOn};

use crate::line::{Line, line_over_caches, push_line};
use crate::plain::line_over_plain;
use crate::ran::{OverCaches, Seen, ran_for};
use crate::rows::rows_of;
use crate::text::push_rows;
use all_schedules::{LoopOn, Room};
use dependences::PairSum;
use never_or_shown::InOrder;
use replay_command::{CoreCount, store_on};
use rv32_exec::Image;
use std::alloc::{AllocError, Global};
use std::collections::BTreeMap;
use std::convert::AsStr;
use trace_commands::{MachineAsked, Store};

/// The lines of the dependences, and then those of each store that these words name, whose machine can run the image on so many cores.
///
/// `AllocError`: memory ran out.
pub fn print_lines<S: AsStr>(
    alloc: Global,
    image: &Image,
    cores: CoreCount,
    stores: &[S],
    room: Room,
) -> Result<Vec<u8>, AllocError>
    requires stores { RunsOnAll image.now cores (map S.text stores.now) }
    ensures { IfOk result (λ text. spec.AreLines image.now cores room (map S.text stores.now) text.items) }
{
    let ran = ran_for(alloc, image, cores.count(), stores)?;
    let run = ran.run;
    let in_order = InOrder {
        nearest: run.nearest,
        later: run.later,
        epochs: run.lengths.len().min(image.epochs() as usize) as u32,
    };
    let seen = Seen {
        in_order,
        over_caches: ran.over_caches,
    };
    let mut text = print_rows(alloc, &run.sums, run.lengths.as_slice())?;
    push_stores(alloc, &mut text, image, cores, stores, room, seen)?;
    Ok(text)
}

/// A line for each pair of instructions that some dependences join, from their sums.
fn print_rows(
    alloc: Global,
    sums: &BTreeMap<(u32, u32), PairSum>,
    lengths: &[u64],
) -> Result<Vec<u8>, AllocError>
    ensures { IfOk result (λ text. (found : List Dependence) → AreSumsOf found sums.now → spec.AreRowLines found lengths.now text.items) }
{
    let rows = rows_of(alloc, sums)?;
    let mut text = Vec::new(alloc);
    push_rows(&mut text, lengths, rows.as_slice())?;
    Ok(text)
}

/// Adds the lines of each store that these words name.
fn push_stores<S: AsStr>(
    alloc: Global,
    text: &mut Vec<u8>,
    image: &Image,
    cores: CoreCount,
    words: &[S],
    room: Room,
    seen: Seen,
) -> Result<(), AllocError>
    requires stores { RunsOnAll image.now cores (map S.text words.now) }
    requires seen { IsSeen image.now cores seen }
    ensures { OnOk result (spec.AddStores image.now cores room (map S.text words.now) text.old.items text.new.items) }
{
    for word in words {
        push_store(alloc, text, image, cores, word.as_str(), room, seen)?;
    }
    Ok(())
}

/// Adds the lines of the store that this word names.
fn push_store(
    alloc: Global,
    text: &mut Vec<u8>,
    image: &Image,
    cores: CoreCount,
    word: &str,
    room: Room,
    seen: Seen,
) -> Result<(), AllocError>
    requires store { RunsOn image.now cores (store_named word.now) }
    requires seen { IsSeen image.now cores seen }
    ensures { OnOk result (spec.AddStore image.now cores room word.now (store_named word.now) text.old.items text.new.items) }
{
    let (store, on_machine) = store_on(image, cores, word)?;
    let over_caches = if asks_nothing(store.asked()) {
        seen.over_caches
    } else {
        OverCaches::Unseen
    };
    let on = LoopOn {
        image: &on_machine,
        cores: cores.count(),
        room,
    };
    let seen = Seen {
        over_caches,
        ..seen
    };
    let line = line_of(alloc, &on, store, seen)?;
    push_line(text, word, on.cores, &line)
}

/// Whether nothing is asked of the machine, so that it is the image's.
fn asks_nothing(asked: MachineAsked) -> bool
    ensures { result ≡ true → asked ≡ nothing_asked }
{
    match asked {
        MachineAsked {
            line_length: None,
            sets: None,
            ways: None,
            buffer_lines: None,
            apart: None,
        } => true,
        _ => false,
    }
}

/// What is told of a store, of the loop on its machine.
fn line_of(alloc: Global, on: &LoopOn<'_>, store: Store, seen: Seen) -> Result<Line, AllocError>
    requires seen { IsSeenOn on.now.image.now store on.now.cores seen }
    ensures { IfOk result (spec.IsLineOf on.now.image.now store on.now.cores on.now.room) }
{
    match store {
        Store::Caches(_) => line_over_caches(alloc, on, seen),
        Store::Plain => line_over_plain(alloc, on, seen.in_order),
    }
}
