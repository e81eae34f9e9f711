//! The lines `even`: up to which cost a loop gains.
ghost use Rattle.std.specs.Prelude.{◌≡◌, ◌≤◌, ◌++◌, All, IfOk, OnOk};
ghost use Rattle.violations.specs.Rule.{IsCoreCount};
ghost use Rattle.all_schedules.specs.Made.{the_loop};
ghost use Rattle.gain.specs.Evens as spec;

use crate::gains::Study;
use crate::lines::more_counts;
use crate::measure::{Measured, measure};
use crate::study_on::StudyOn;
use crate::text::push_number;
use all_schedules::{LoopOn, holds_at};
use even_speed::Terms;
use std::alloc::{AllocError, Global};
use turn_costs::{Cost, Costs, PricedStore, steps_in_order};

/// The most steps of each action that are tried.
const MOST_TRIED: u32 = 60;

/// Adds for each of 1, 2, 4 and 8 cores that are fewer than these, and for these, the line of the most that each action may cost, up to 60
/// steps, for the loop to gain, where loads at these addresses wait.
///
/// `AllocError`: memory ran out.
pub fn push_evens<S: PricedStore>(
    alloc: Global,
    text: &mut Vec<u8>,
    store: &[u8],
    asked: &StudyOn<'_>,
) -> Result<(), AllocError>
    ensures { OnOk result (spec.AddEvens S.starts S.makes S.view S.waits S.prices S.keeps asked.now.addresses.now asked.now.study.now asked.now.image.now store.now text.old.items text.new.items) }
{
    push_even::<S>(alloc, text, store, asked, 1)?;
    let more = more_counts(alloc, asked.study.cores.count())?;
    push_each::<S>(alloc, text, store, asked, more.as_slice())
}

/// Adds the line of each of these numbers of cores.
fn push_each<S: PricedStore>(
    alloc: Global,
    text: &mut Vec<u8>,
    store: &[u8],
    asked: &StudyOn<'_>,
    counts: &[u32],
) -> Result<(), AllocError>
    requires counts { All (λ k. IsCoreCount asked.now.image.now k) counts.now }
    ensures { OnOk result (spec.AddEvenEach S.starts S.makes S.view S.waits S.prices S.keeps asked.now.addresses.now asked.now.study.now asked.now.image.now store.now counts.now text.old.items text.new.items) }
{
    for cores in counts {
        push_even::<S>(alloc, text, store, asked, *cores)?;
    }
    Ok(())
}

/// Adds the line of so many cores.
fn push_even<S: PricedStore>(
    alloc: Global,
    text: &mut Vec<u8>,
    store: &[u8],
    asked: &StudyOn<'_>,
    cores: u32,
) -> Result<(), AllocError>
    requires cores { IsCoreCount asked.now.image.now cores }
    ensures { OnOk result (spec.AddEven S.starts S.makes S.view S.waits S.prices S.keeps asked.now.addresses.now asked.now.study.now asked.now.image.now store.now cores text.old.items text.new.items) }
{
    let on = LoopOn {
        image: asked.image,
        cores,
        room: asked.study.room,
    };
    let at = even_at::<S>(alloc, &on, asked)?;
    push_line(text, store, cores, at)
}

#[tactic(auto, unfolding(crate::specs::Evens::even_line))]
fn push_line(
    text: &mut Vec<u8>,
    store: &[u8],
    cores: u32,
    at: Option<u32>,
) -> Result<(), AllocError>
    ensures { OnOk result (text.new.items ≡ text.old.items ++ spec.even_line store.now cores at) }
{
    text.extend_from_slice(b"even ")?;
    text.extend_from_slice(store)?;
    push_number(text, b" cores ", cores as u64)?;
    push_at(text, at)?;
    text.extend_from_slice(b"\n")
}

fn push_at(text: &mut Vec<u8>, at: Option<u32>) -> Result<(), AllocError>
    ensures { OnOk result (text.new.items ≡ text.old.items ++ spec.at_text at) }
{
    match at {
        Some(steps) => push_number(text, b" at ", steps as u64),
        None => text.extend_from_slice(b" at -"),
    }
}

/// The most that each action may cost for the loop to gain.
fn even_at<S: PricedStore>(
    alloc: Global,
    on: &LoopOn<'_>,
    asked: &StudyOn<'_>,
) -> Result<Option<u32>, AllocError>
    ensures { IfOk result (spec.IsEvenAt S.starts S.makes S.view S.waits S.prices S.keeps asked.now.addresses.now asked.now.study.now (the_loop on.now)) }
{
    for tried in 0..MOST_TRIED + 1 {
        let each = MOST_TRIED - tried;
        if gains_at::<S>(alloc, on, asked, each)? {
            return Ok(Some(each));
        }
    }
    Ok(None)
}

/// Whether the loop takes fewer steps than in order, where each action costs so much.
fn gains_at<S: PricedStore>(
    alloc: Global,
    on: &LoopOn<'_>,
    asked: &StudyOn<'_>,
    each: u32,
) -> Result<bool, AllocError>
    requires each { each ≤ 60 }
    ensures { IfOk result (spec.Compares S.starts S.makes S.view S.waits S.prices S.keeps asked.now.addresses.now (the_loop on.now) (spec.costs_at asked.now.study.now each)) }
{
    let costs = costs_at(asked.study, each);
    let terms = Terms {
        holds: holds_at(alloc, asked.addresses)?,
        queues: asked.addresses.is_empty(),
        costs: Some(costs),
    };
    let measured = measure::<S>(alloc, on, &terms)?;
    match steps_in_order::<S>(alloc, on.image, &costs) {
        Ok(order) => Ok(is_faster(&measured, order)),
        Err(_) => Err(AllocError),
    }
}

fn is_faster(measured: &Option<Measured>, order: u64) -> bool
    ensures { result ≡ spec.is_faster measured.now order }
{
    match measured {
        Some(run) => run.ran.steps < order,
        None => false,
    }
}

/// Each action costs so much, and each message holds the bus as long as is asked.
fn costs_at(study: &Study, each: u32) -> Costs
    requires { each ≤ 60 }
    ensures { result ≡ spec.costs_at study.now each }
{
    let bus = Costs::bus(Cost::new(each).unwrap());
    match study.costs {
        Some(costs) => Costs {
            hold: costs.hold,
            ..bus
        },
        None => bus,
    }
}
