//! What is measured of one run.
ghost use Rattle.std.specs.Prelude.{IfOk, IfSome};
ghost use Rattle.even_speed.specs.Even.{pacing_of};
ghost use Rattle.turn_costs.specs.Order.{kind_of};
ghost use Rattle.all_schedules.specs.Made.{the_loop};
ghost use Rattle.gain.specs.Measured as spec;

use crate::kinds::{Kinds, kinds_of};
use all_schedules::{EvenRun, LoopOn, run_evenly};
use even_speed::{Ran, Terms};
use homefree::TurnFault;
use rv32_exec::Image;
use std::alloc::{AllocError, Global};
use turn_costs::{Costs, PricedStore, steps_in_order};

/// What is told of a run whose loop is over.
#[derive(Clone, Copy)]
pub struct Measured {
    /// How long it took, and where the steps went.
    pub ran: Ran,
    /// How many restarts its history has.
    pub restarts: u64,
    /// How many violations of each kind.
    pub kinds: Kinds,
}

/// What the runs over a store are compared with.
#[derive(Clone, Copy)]
pub struct Base {
    /// The run on one core. None: its history was full.
    pub first: Option<Measured>,
    /// How many steps the loop takes in order on one core that doesn't speculate, where turns cost something.
    pub order: Option<u64>,
}

/// Runs the loop at even speed, on these terms, over a fresh store, and answers what is told of the run. None: its history was full before the loop
/// was over.
///
/// `AllocError`: memory ran out.
pub fn measure<S: PricedStore>(
    alloc: Global,
    on: &LoopOn<'_>,
    terms: &Terms,
) -> Result<Option<Measured>, AllocError>
    ensures is { IfOk result (spec.IsMeasured S.starts S.makes S.view S.waits S.keeps (pacing_of S.prices terms.now) (the_loop on.now)) }
    ensures few { IfOk result (λ told. IfSome told spec.HasFewSteps) }
{
    let run: EvenRun<S> = match run_evenly(alloc, on, terms) {
        Ok(run) => run,
        Err(TurnFault::HistoryFull) => return Ok(None),
        Err(TurnFault::NoMemory) => return Err(AllocError),
    };
    run.book.look();
    let cores = on.cores;
    let kinds = kinds_of(alloc, on.image, cores, run.book.history())?;
    Ok(Some(Measured {
        ran: run.ran,
        restarts: run.book.totals().restarts,
        kinds,
    }))
}

/// Where turns cost something, how many steps the loop takes in order on one core that doesn't speculate, over a store of its own.
///
/// `AllocError`: memory ran out.
pub fn order_of<S: PricedStore>(
    alloc: Global,
    image: &Image,
    costs: Option<Costs>,
) -> Result<Option<u64>, AllocError>
    ensures { IfOk result (spec.IsOrderOf S.starts (kind_of S.makes S.view S.prices) image.now costs) }
{
    let Some(costs) = costs else {
        return Ok(None);
    };
    match steps_in_order::<S>(alloc, image, &costs) {
        Ok(steps) => Ok(Some(steps)),
        Err(_) => Err(AllocError),
    }
}
