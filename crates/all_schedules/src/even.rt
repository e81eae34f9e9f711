//! What the run at even speed makes.
ghost use Rattle.std.specs.Prelude.{IfOk, IfErr};
ghost use Rattle.even_speed.specs.Even.{pacing_of};
ghost use Rattle.all_schedules.specs.Made.{the_loop};
ghost use Rattle.all_schedules.specs.Evenly as spec;

use crate::loop_on::LoopOn;
use even_speed::{Ran, Terms, drive_evenly};
use homefree::{Book, TurnFault};
use run_ledger::Shares;
use rv32_exec::Image;
use std::alloc::Global;
use turn_costs::PricedStore;
use violations::EpochStore;

/// A run at even speed, up to the end of its loop.
#[derive(Drop)]
pub struct EvenRun<S: EpochStore> {
    /// The book with its history.
    pub book: Book<S>,
    /// Whose turns were taken, in order.
    pub schedule: Vec<u32>,
    /// What the run came to.
    pub ran: Ran,
}

/// Runs a loop at even speed, on these terms, from an empty history on, over a fresh store, up to its end. The cores are at least 1.
///
/// `HistoryFull`: a turn found too few free entries. `NoMemory`: memory ran out.
pub fn run_evenly<S: PricedStore>(
    alloc: Global,
    on: &LoopOn<'_>,
    terms: &Terms,
) -> Result<EvenRun<S>, TurnFault>
    ensures made { IfOk result (λ run. spec.IsEvenRun S.starts S.makes S.view S.waits S.keeps (pacing_of S.prices terms.now) (the_loop on.now) run.schedule.items run.ran run.book) }
    ensures fault { IfErr result (spec.IsEvenFault S.starts S.makes S.view S.waits S.keeps (pacing_of S.prices terms.now) (the_loop on.now)) }
{
    let cores = on.cores;
    let room = on.room.entries();
    let made: Result<(Book<S>, Shares), _> = Book::new(alloc, on.image, cores, room);
    let Ok((mut book, mut shares)) = made else {
        return Err(TurnFault::NoMemory);
    };
    let mut schedule = Vec::new(alloc);
    let driven = drive_evenly(
        alloc,
        &mut book,
        on.image,
        cores,
        terms,
        &mut schedule,
        &mut shares,
    );
    book.look();
    match driven {
        Ok(Some(ran)) => Ok(EvenRun {
            book,
            schedule,
            ran,
        }),
        Ok(None) => unreachable!(),
        Err(fault) => Err(fault),
    }
}
