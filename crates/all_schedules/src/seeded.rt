//! What the schedule makes that a seed draws.
ghost use Rattle.std.specs.Prelude.{IfOk, IfErr};
ghost use Rattle.all_schedules.specs.Made.{the_loop};
ghost use Rattle.all_schedules.specs.Drawn as spec;

use crate::drawing::drive_drawn;
use crate::loop_on::LoopOn;
use homefree::{Book, TurnFault};
use run_ledger::Shares;
use rv32_exec::Image;
use std::alloc::Global;
use violations::EpochStore;

/// A run whose turns were drawn.
#[derive(Drop)]
pub struct SeededRun<S: EpochStore> {
    /// The book with its history.
    pub book: Book<S>,
    /// Whose turns were taken, in order.
    pub schedule: Vec<u32>,
}

/// Runs a loop from an empty history on, over a fresh store, by turns that SplitMix64 draws from this seed, each core as likely as
/// another, up to the end of the loop, but at most 8,388,608 turns. The cores are at least 1.
///
/// `HistoryFull`: a turn found too few free entries. `NoMemory`: memory ran out.
pub fn run_seeded<S: EpochStore>(
    alloc: Global,
    on: &LoopOn<'_>,
    seed: u64,
) -> Result<SeededRun<S>, TurnFault>
    ensures made { IfOk result (λ run. spec.IsDrawnRun S.starts S.makes S.view S.waits (the_loop on.now) seed run.schedule.items run.book) }
    ensures fault { IfErr result (spec.IsDrawnFault S.starts S.makes S.view S.waits (the_loop on.now) seed) }
{
    let cores = on.cores;
    let room = on.room.entries();
    let made: Result<(Book<S>, Shares), _> = Book::new(alloc, on.image, cores, room);
    let Ok((mut book, mut shares)) = made else {
        return Err(TurnFault::NoMemory);
    };
    let mut schedule = Vec::new(alloc);
    let driven = drive_drawn(&mut book, on, seed, &mut schedule, &mut shares);
    book.look();
    match driven {
        Ok(_) => Ok(SeededRun { book, schedule }),
        Err(fault) => Err(fault),
    }
}
