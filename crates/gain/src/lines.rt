//! The lines of one store.
ghost use Rattle.std.specs.Prelude.{◌≡◌, ◌++◌, All, IfOk, IfSome, OnOk};
ghost use Rattle.violations.specs.Rule.{IsCoreCount};
ghost use Rattle.gain.specs.Measured.{HasFewSteps};
ghost use Rattle.gain.specs.Lines as spec;

use crate::measure::{Base, measure, order_of};
use crate::text::push_line;
use all_schedules::{LoopOn, Room};
use even_speed::Terms;
use rv32_exec::Image;
use std::alloc::{AllocError, Global};
use turn_costs::PricedStore;

/// On which terms the runs go.
#[derive(Drop)]
pub struct Waiting {
    /// Those of a store.
    pub terms: Terms,
    /// Whether it is told how long loads are held.
    pub told: bool,
    /// Those of the lines `held`, where there are such.
    pub held: Option<Terms>,
}

/// What the runs over one store have in common.
#[derive(Drop)]
struct Runs<'s> {
    /// What the store is called.
    store: &'s [u8],
    image: &'s Image,
    /// How many entries a history has room for.
    room: Room,
    /// What they are compared with.
    base: Base,
}

/// Adds a line for each of 1, 2, 4 and 8 cores that are fewer than these, and one for these, on these terms; and a line `held` below
/// each, where there are such.
///
/// `AllocError`: memory ran out.
pub fn push_lines<S: PricedStore>(
    alloc: Global,
    text: &mut Vec<u8>,
    store: &[u8],
    on: &LoopOn<'_>,
    waiting: &Waiting,
) -> Result<(), AllocError>
    ensures { OnOk result (spec.AddLines S.starts S.makes S.view S.waits S.prices S.keeps waiting.now on.now.image.now on.now.room store.now on.now.cores text.old.items text.new.items) }
{
    let image = on.image;
    let room = on.room;
    let one = LoopOn {
        image,
        cores: 1,
        room,
    };
    let first = measure::<S>(alloc, &one, &waiting.terms)?;
    let order = order_of::<S>(alloc, image, waiting.terms.costs)?;
    let base = Base { first, order };
    push_line(text, false, waiting.told, store, 1, &base, &base.first)?;
    let runs = Runs {
        store,
        image,
        room,
        base,
    };
    push_held::<S>(alloc, text, &runs, waiting, 1)?;
    let more = more_counts(alloc, on.cores)?;
    push_each::<S>(alloc, text, &runs, waiting, more.as_slice())
}

/// Adds the lines of each of these numbers of cores, beside that on one core.
fn push_each<S: PricedStore>(
    alloc: Global,
    text: &mut Vec<u8>,
    runs: &Runs<'_>,
    waiting: &Waiting,
    counts: &[u32],
) -> Result<(), AllocError>
    requires counts { All (λ k. IsCoreCount runs.now.image.now k) counts.now }
    requires first { IfSome runs.now.base.first HasFewSteps }
    ensures { OnOk result (spec.AddEach S.starts S.makes S.view S.waits S.prices S.keeps waiting.now runs.now.image.now runs.now.room runs.now.store.now runs.now.base counts.now text.old.items text.new.items) }
{
    let Runs {
        store,
        image,
        room,
        base,
    } = runs;
    for cores in counts {
        let on = LoopOn {
            image: *image,
            cores: *cores,
            room: *room,
        };
        let measured = measure::<S>(alloc, &on, &waiting.terms)?;
        push_line(text, false, waiting.told, store, *cores, base, &measured)?;
        push_held::<S>(alloc, text, runs, waiting, *cores)?;
    }
    Ok(())
}

/// Adds the line `held` of so many cores, where there are such.
fn push_held<S: PricedStore>(
    alloc: Global,
    text: &mut Vec<u8>,
    runs: &Runs<'_>,
    waiting: &Waiting,
    cores: u32,
) -> Result<(), AllocError>
    requires cores { IsCoreCount runs.now.image.now cores }
    requires first { IfSome runs.now.base.first HasFewSteps }
    ensures { OnOk result (spec.AddHeld S.starts S.makes S.view S.waits S.prices S.keeps waiting.now.held runs.now.image.now runs.now.room runs.now.store.now runs.now.base cores text.old.items text.new.items) }
{
    let Runs {
        store,
        image,
        room,
        base,
    } = runs;
    match &waiting.held {
        Some(terms) => {
            let on = LoopOn {
                image: *image,
                cores,
                room: *room,
            };
            let measured = measure::<S>(alloc, &on, terms)?;
            push_line(text, true, true, store, cores, base, &measured)
        }
        None => Ok(()),
    }
}

/// The numbers of cores below the first line.
pub fn more_counts(alloc: Global, cores: u32) -> Result<Vec<u32>, AllocError>
    ensures { IfOk result (λ counts. counts.items ≡ spec.more_counts cores) }
{
    let mut counts = Vec::new(alloc);
    push_if(&mut counts, 2 < cores, 2)?;
    push_if(&mut counts, 4 < cores, 4)?;
    push_if(&mut counts, 8 < cores, 8)?;
    push_if(&mut counts, 1 < cores, cores)?;
    Ok(counts)
}

fn push_if(counts: &mut Vec<u32>, wanted: bool, count: u32) -> Result<(), AllocError>
    ensures { OnOk result (counts.new.items ≡ counts.old.items ++ spec.count_if wanted count) }
{
    if wanted {
        counts.push(count)?;
    }
    Ok(())
}
