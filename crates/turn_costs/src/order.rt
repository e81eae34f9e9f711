//! How many steps the loop takes in order, on one core that doesn't speculate.
ghost use Rattle.std.specs.Prelude.{◌≡◌, ◌≤◌, ◌<◌, ◌+◌, ◌∷◌, [], IfOk, OnOk, true, None, Some};
ghost use Rattle.rv32_image.specs.Image.{IsImage};
ghost use Rattle.violations.specs.Calls as call;
ghost use Rattle.violations.specs.Calls.{Leads};
ghost use Rattle.violations.specs.Rule.{shape_of};
ghost use Rattle.violations.specs.View as view_spec;
ghost use Rattle.homefree.specs.Acted.{IfArrived};
ghost use Rattle.turn_costs.specs.Order as spec;

use crate::costs::Costs;
use crate::store::PricedStore;
use rv32_exec::laws::the_next_access_is_in_memory;
use rv32_exec::{Arrived, Hart, Image, NoMemory, Stop, advance, loaded, start, stored};
use std::alloc::Global;

/// How many steps the loop takes in order on one core, over a store of its own: one for each instruction, and what each access costs.
///
/// `NoMemory`: there was none for the store.
pub fn steps_in_order<S: PricedStore>(
    alloc: Global,
    image: &Image,
    costs: &Costs,
) -> Result<u64, NoMemory>
    ensures { IfOk result (λ steps. spec.IsOrder S.starts (spec.kind_of S.makes S.view S.prices) image.now costs.now steps) }
{
    let mut store: S = S::fresh(alloc, image, 1)?;
    let mut steps = 0;
    for epoch in 0..image.epochs() {
        let ran = run_epoch(image, costs, epoch, &mut store)?;
        steps += ran.steps;
        if !ran.goes_on {
            return Ok(steps);
        }
        leave(&mut store)?;
    }
    Ok(steps)
}

/// Core 0 leaves its epoch.
///
/// `NoMemory`: there was none for the store's calls.
fn leave<S: PricedStore>(store: &mut S) -> Result<(), NoMemory>
    requires runs { view_spec.Runs (S.view store.old) 0 true }
    ensures shape { (S.view store.new).shape ≡ (S.view store.old).shape }
    ensures idle { OnOk result ((S.view store.new).attempt 0 ≡ None) }
    ensures leads { OnOk result (Leads S.makes (call.Reserve ∷ call.Leave 0 ∷ []) store.old store.new) }
{
    store.reserve()?;
    store.leave(0);
    Ok(())
}

/// What an epoch came to.
#[derive(Drop)]
struct EpochRan {
    /// Its steps.
    steps: u64,
    /// The loop goes on after it.
    goes_on: bool,
}

/// Runs an epoch on core 0, which is idle before it and straight at its end.
///
/// `NoMemory`: there was none for the store's calls.
fn run_epoch<S: PricedStore>(
    image: &Image,
    costs: &Costs,
    epoch: u32,
    store: &mut S,
) -> Result<EpochRan, NoMemory>
    requires image { IsImage image.now }
    requires shape { (S.view store.old).shape ≡ shape_of image.now 1 }
    requires idle { (S.view store.old).attempt 0 ≡ None }
    ensures shape { (S.view store.new).shape ≡ (S.view store.old).shape }
    ensures runs { IfOk result (λ ran. view_spec.Runs (S.view store.new) 0 true) }
    ensures ran { IfOk result (λ ran. spec.RunsEpoch (spec.kind_of S.makes S.view S.prices) image.now costs.now epoch store.old ran.steps ran.goes_on store.new) }
    ensures few { IfOk result (λ ran. ran.steps ≤ 2000001000001) }
{
    begin_straight(epoch, store)?;
    let mut hart = start(image, epoch);
    let mut memory = 0;
    'accesses: loop {
        let arrived = advance(image, hart);
        match go_on(image, costs, &arrived, store)? {
            Some(gone) => {
                memory += gone.steps;
                hart = gone.hart;
            }
            None => {
                let now = arrived.now();
                return Ok(EpochRan {
                    steps: now.done() + memory,
                    goes_on: matches!(arrived.at(), Stop::Ended) && !now.exits(image),
                });
            }
        }
    }
}

/// Core 0 begins an epoch, and is straight at once.
///
/// `NoMemory`: there was none for the store's calls.
fn begin_straight<S: PricedStore>(epoch: u32, store: &mut S) -> Result<(), NoMemory>
    requires cores { (S.view store.old).shape.cores ≡ 1 }
    requires idle { (S.view store.old).attempt 0 ≡ None }
    ensures shape { (S.view store.new).shape ≡ (S.view store.old).shape }
    ensures runs { OnOk result (view_spec.Runs (S.view store.new) 0 true) }
    ensures leads { OnOk result (Leads S.makes (call.Reserve ∷ call.Begin 0 epoch ∷ call.Publish 0 ∷ []) store.old store.new) }
{
    store.reserve()?;
    store.look();
    store.begin(0, epoch);
    store.look();
    let _hurt = store.publish(0);
    Ok(())
}

/// Where an access led to.
#[derive(Drop)]
struct Gone {
    /// What it costs.
    steps: u64,
    /// The hart after it.
    hart: Hart,
}

/// Makes the access at which a hart has stopped, on core 0, which is straight. None: the hart is at its end or fault, and nothing has changed.
///
/// `NoMemory`: there was none for the store's calls.
fn go_on<S: PricedStore>(
    image: &Image,
    costs: &Costs,
    arrived: &Arrived,
    store: &mut S,
) -> Result<Option<Gone>, NoMemory>
    requires shape { (S.view store.old).shape ≡ shape_of image.now 1 }
    requires runs { view_spec.Runs (S.view store.old) 0 true }
    requires arrived { IfArrived image.now (Some arrived.now) }
    ensures shape { (S.view store.new).shape ≡ (S.view store.old).shape }
    ensures runs { view_spec.Runs (S.view store.new) 0 true }
    ensures gone { spec.IfGone result (λ gone. spec.Goes (spec.kind_of S.makes S.view S.prices) image.now costs.now
        arrived.entry.now.base store.old gone.steps gone.hart store.new) }
    ensures few { spec.IfGone result (λ gone. gone.steps ≤ 2000000) }
    ensures later { spec.IfGone result (λ gone. (arrived.entry.now.now.done < image.now.limit) × (gone.hart.done ≡ arrived.entry.now.now.done + 1)) }
    ensures last { result ≡ Ok None → spec.IsLast arrived.entry.now.at × (store.new ≡ store.old) }
{
    let _ = image;
    the_next_access_is_in_memory();
    match arrived.at() {
        Stop::Load { addr, width, .. } => {
            store.reserve()?;
            let steps = store.load_actions(0, true, addr).memory_steps(costs);
            let (value, _hurt) = store.straight_load(0, addr, width);
            let hart = loaded(arrived, value);
            Ok(Some(Gone { steps, hart }))
        }
        Stop::Store { addr, width, value } => {
            store.reserve()?;
            let steps = store.store_actions(0, true, addr).memory_steps(costs);
            let _hurt = store.straight_store(0, addr, width, value);
            let hart = stored(arrived);
            Ok(Some(Gone { steps, hart }))
        }
        Stop::Ended | Stop::Fault { .. } => Ok(None),
    }
}
