//! Turns that a generator draws, on one thread.
ghost use Rattle.std.specs.Prelude.{◌≡◌, ◌≢◌, ◌≤◌, ◌<◌, ◌%◌, [], None, Err};
ghost use Rattle.rand_xoshiro.specs.SplitMix64.{mix_u64, next_state};
ghost use Rattle.homefree.specs.BookView.{IsOfSameLoop};
ghost use Rattle.homefree.specs.Counted.{IsNoMore};
ghost use Rattle.homefree.specs.Driven.{driver};
ghost use Rattle.all_schedules.specs.Drawn as spec;

use crate::loop_on::LoopOn;
use homefree::{Answer, Book, TurnFault, step};
use rand_core::SeedableRng;
use rand_core::utils::NextWord;
use rand_xoshiro::SplitMix64;
use run_ledger::Shares;
use rv32_exec::End;
use violations::{EpochStore, MAX_CORES};

/// The most turns that are drawn: no more than `replay` takes in lines of turns, which have at most 3 bytes for each.
const MOST_TURNS: u32 = 8_388_608;

/// Takes turns that the seed draws, up to the first that ends the loop, finds the book stopped or fails, but at most 8,388,608. It
/// writes whose turns it took into the schedule, which is empty before.
///
/// It answers the end of the loop; or None where the book was stopped, or the most turns were taken. A fault is that of the last turn;
/// `NoMemory` may also be that there was none for the schedule.
pub fn drive_drawn<S: EpochStore>(
    book: &mut Book<S>,
    on: &LoopOn<'_>,
    seed: u64,
    schedule: &mut Vec<u32>,
    shares: &mut Shares,
) -> Result<Option<End>, TurnFault>
    requires cores { book.old.cores ≡ on.now.cores }
    requires schedule { schedule.old.items ≡ [] }
    requires shares { IsNoMore shares.old book.old.totals }
    ensures drives { result ≢ Err TurnFault.NoMemory
        → spec.DrivesDrawn S.makes S.view S.waits on.now.cores seed (driver book.old shares.old) schedule.new.items result (driver book.new shares.new) }
    ensures same { IsOfSameLoop book.old book.new }
    ensures shares { IsNoMore shares.new book.new.totals }
{
    let mut generator = SplitMix64::seed_from_u64(seed);
    let mut held = [None; MAX_CORES];
    for _taken in 0..MOST_TURNS {
        let core = draw(&mut generator, on.cores);
        let Ok(()) = schedule.push(core) else {
            return Err(TurnFault::NoMemory);
        };
        let answer = step(book, &mut held, core, shares)?;
        match answer {
            Answer::Over(end) => return Ok(Some(end)),
            Answer::Stopped(_) => return Ok(None),
            _ => (),
        }
    }
    Ok(None)
}

/// The core whose turn is drawn next.
fn draw(generator: &mut SplitMix64, cores: u32) -> u32
    requires { 1 ≤ cores }
    ensures core { result ≡ (mix_u64 generator.old).0 % cores }
    ensures below { result < cores }
    ensures state { generator.new ≡ next_state generator.old }
{
    (generator.next_word() % u64::from(cores)) as u32
}
