//! What schedules come to together.
ghost use Rattle.std.specs.Prelude.{◌≡◌, ◌<◌, ◌^◌, All, IfOk, IfErr, OnOk};
ghost use Rattle.all_schedules.specs.Made as made_spec;
ghost use Rattle.all_schedules.specs.Schedules.{lists_of};
ghost use Rattle.replay_command.specs.Survey as spec;
ghost use Rattle.replay_command.specs.Adding as inside;

use all_schedules::{LoopOn, drive_schedule};
use homefree::{Book, TurnFault};
use rv32_exec::Image;
use std::alloc::{AllocError, Global};
use std::collections::BTreeSet;
use trace_text::print_trace;
use violations::EpochStore;

/// A schedule whose loop is over.
#[derive(Clone, Copy)]
pub struct Extreme {
    /// Its place in the list of schedules, counted from 0.
    pub place: usize,
    /// How many restarts it has.
    pub restarts: u64,
}

/// What schedules come to together.
#[derive(Drop)]
pub struct Survey {
    /// For how many schedules the loop is over.
    pub over: usize,
    /// The traces of the histories that they make, each once.
    pub traces: BTreeSet<Vec<u8>>,
    /// Of those that are over one with the fewest restarts.
    pub least: Option<Extreme>,
    /// Of those that are over one with the most restarts.
    pub most: Option<Extreme>,
}

/// Drives each of these schedules, and answers what they come to together. The cores are at least 1.
///
/// `HistoryFull`: a turn of one of them found too few free entries. `NoMemory`: memory ran out.
pub fn survey_schedules<S: EpochStore>(
    alloc: Global,
    on: &LoopOn<'_>,
    schedules: &[Vec<u32>],
) -> Result<Survey, TurnFault>
    requires schedules { All (All (λ core. core < on.now.cores)) (lists_of schedules.now) }
    ensures made { IfOk result (spec.Surveys S.starts S.makes S.view S.waits (made_spec.the_loop on.now) (lists_of schedules.now)) }
    ensures fault { IfErr result (spec.IsFaultOfOne S.starts S.makes S.view S.waits (made_spec.the_loop on.now) (lists_of schedules.now)) }
{
    let mut survey = Survey {
        over: 0,
        traces: BTreeSet::new(alloc),
        least: None,
        most: None,
    };
    for (place, schedule) in schedules.iter().enumerate() {
        let book: Book<S> = drive_schedule(alloc, on, schedule.as_slice())?;
        add_run(alloc, on.cores, place, &book, &mut survey)?;
    }
    Ok(survey)
}

/// Adds the history of a book, which the schedule at this place made.
fn add_run<S: EpochStore>(
    alloc: Global,
    cores: u32,
    place: usize,
    book: &Book<S>,
    survey: &mut Survey,
) -> Result<(), TurnFault>
    requires few { survey.old.over < 2 ^ 63 }
    ensures added { OnOk result (inside.AddsBook S.view cores place book.now survey.old survey.new) }
    ensures fault { IfErr result (λ fault. fault ≡ TurnFault.NoMemory) }
{
    book.look();
    let Ok(trace) = print_trace(alloc, cores, book.history()) else {
        return Err(TurnFault::NoMemory);
    };
    let is_over = book.ended().is_some();
    match survey.add(place, is_over, book.totals().restarts, trace) {
        Ok(()) => Ok(()),
        Err(AllocError) => Err(TurnFault::NoMemory),
    }
}

impl Survey {
    /// Adds a run, over or not, with so many restarts and this trace.
    fn add(
        &mut self,
        place: usize,
        is_over: bool,
        restarts: u64,
        trace: Vec<u8>,
    ) -> Result<(), AllocError>
        requires few { self.old.over < 2 ^ 63 }
        ensures { OnOk result (inside.Adds place is_over restarts trace.items self.old self.new) }
    {
        if is_over {
            let found = Extreme { place, restarts };
            self.over += 1;
            self.least = Some(lesser(self.least, found));
            self.most = Some(greater(self.most, found));
        }
        self.traces.insert(trace)?;
        Ok(())
    }
}

/// The one with fewer restarts; of two with as many, the older.
fn lesser(old: Option<Extreme>, found: Extreme) -> Extreme
    ensures { result ≡ inside.lesser old found }
{
    match old {
        Some(old) if old.restarts <= found.restarts => old,
        _ => found,
    }
}

/// The one with more restarts; of two with as many, the older.
fn greater(old: Option<Extreme>, found: Extreme) -> Extreme
    ensures { result ≡ inside.greater old found }
{
    match old {
        Some(old) if found.restarts <= old.restarts => old,
        _ => found,
    }
}
