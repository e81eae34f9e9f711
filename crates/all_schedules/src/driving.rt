//! What one schedule makes.
ghost use Rattle.std.specs.Prelude.{◌≡◌, ◌<◌, All, IfOk, IfErr};
ghost use Rattle.all_schedules.specs.Made as spec;

use crate::loop_on::LoopOn;
use homefree::{Book, TurnFault, drive};
use run_ledger::Shares;
use rv32_exec::Image;
use std::alloc::Global;
use violations::EpochStore;

/// Takes the turns of a schedule from an empty history on, over a fresh store, and answers the history that they make. The cores are at
/// least 1.
///
/// `HistoryFull`: a turn of it found too few free entries. `NoMemory`: memory ran out.
pub fn drive_schedule<S: EpochStore>(
    alloc: Global,
    on: &LoopOn<'_>,
    schedule: &[u32],
) -> Result<Book<S>, TurnFault>
    requires schedule { All (λ core. core < on.now.cores) schedule.now }
    ensures made { IfOk result (λ book. spec.IsMade S.starts S.makes S.view S.waits (spec.the_loop on.now) schedule.now book) }
    ensures fault { IfErr result (spec.IsFault S.starts S.makes S.view S.waits (spec.the_loop on.now) schedule.now) }
{
    let cores = on.cores;
    let room = on.room.entries();
    let made: Result<(Book<S>, Shares), _> = Book::new(alloc, on.image, cores, room);
    let Ok((mut book, mut shares)) = made else {
        return Err(TurnFault::NoMemory);
    };
    let driven = drive(&mut book, schedule, &mut shares);
    book.look();
    match driven {
        Ok(_) => Ok(book),
        Err(fault) => Err(fault),
    }
}
