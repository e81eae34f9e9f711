//! Random calls on the caches and on the plain bus, with everything compared after each.
ghost use Rattle.std.specs.Prelude.{◌≡◌, ◌≢◌, ◌<◌, ◌≤◌, true, Some};
ghost use Rattle.violations.specs.View as view_spec;
ghost use Rattle.spec_bus.specs.Cached as spec;

use crate::plain_bus::{Access, CORES, PlainBus, PlainStep};
use crate::plain_core::{LINE, PLACES};
use crate::random::Random;
use crate::words::{cell, is_row, number};
use rv32_image::{Image, Machine, image_of};
use spec_bus::CachedBus;
use std::alloc::{AllocError, Global};
use std::process::Abort;
use std::test::Fail;
use violations::{Attempt, CoreSet, EpochStore, Step, WaitCause};

/// Some core is violated.
pub fn is_any(hurt: &[bool; CORES]) -> bool {
    *hurt != [false; CORES]
}

/// How often what has happened.
#[derive(Drop)]
struct Tally {
    done: u32,
    no_way: u32,
    orb_full: u32,
    orb_busy: u32,
    hurt: u32,
    publishes: u32,
    hurting_publishes: u32,
    straight: u32,
}

impl Tally {
    fn new() -> Tally {
        Tally {
            done: 0,
            no_way: 0,
            orb_full: 0,
            orb_busy: 0,
            hurt: 0,
            publishes: 0,
            hurting_publishes: 0,
            straight: 0,
        }
    }

    fn count(&mut self, step: &PlainStep) {
        let count = match step {
            PlainStep::Done { hurt, .. } => {
                if is_any(hurt) {
                    &mut self.hurt
                } else {
                    &mut self.done
                }
            }
            PlainStep::Wait(WaitCause::NoWay) => &mut self.no_way,
            PlainStep::Wait(WaitCause::OrbFull) => &mut self.orb_full,
            PlainStep::Wait(WaitCause::OrbBusy) => &mut self.orb_busy,
        };
        *count = count.wrapping_add(1);
    }

    /// Whether everything has happened at least as often as these words say, in the order above.
    fn is_at_least(&self, words: &str) -> bool {
        let counts = [
            self.done,
            self.no_way,
            self.orb_full,
            self.orb_busy,
            self.hurt,
            self.publishes,
            self.hurting_publishes,
            self.straight,
        ];
        for place in 0..8 {
            if counts[place] < number(words, place) {
                return false;
            }
        }
        true
    }
}

// ---- conditions of the calls

/// The access is aligned and lies in memory.
fn check_access(rt: &impl Abort, bus: &CachedBus, access: &Access)
    ensures { view_spec.IsLoad (spec.store_view bus.now).shape access.now.addr access.now.width }
{
    let width = access.width;
    assert!(rt; width == 1 || width == 2 || width == 4);
    assert!(rt; access.addr % width == 0);
    assert!(rt; width <= bus.size());
    assert!(rt; access.addr <= bus.size() - width);
}

/// The core runs an epoch, and is straight or is not.
fn check_runs(rt: &impl Abort, bus: &CachedBus, core: u32, straight: bool)
    ensures { view_spec.Runs (spec.store_view bus.now) core straight }
{
    assert!(rt; core < bus.cores());
    match bus.attempt(core) {
        Some(attempt) => assert!(rt; attempt.straight == straight),
        None => assert!(rt; false),
    }
}

/// A core runs neither this epoch nor, straight, a later one.
fn check_apart(rt: &impl Abort, bus: &CachedBus, k: u32, epoch: u32)
    requires { k < (spec.store_view bus.now).shape.cores }
    ensures apart { (x : Attempt) → (spec.store_view bus.now).attempt k ≡ Some x → x.epoch ≢ epoch }
    ensures straight { (x : Attempt) → (spec.store_view bus.now).attempt k ≡ Some x → x.straight ≡ true → x.epoch < epoch }
{
    if let Some(attempt) = bus.attempt(k) {
        assert!(rt; attempt.epoch != epoch);
        assert!(rt; !attempt.straight || attempt.epoch < epoch);
    }
}

/// What every store keeps holds of the bus.
fn look_at(bus: &CachedBus)
    ensures { view_spec.IsSettled (spec.store_view bus.now) }
{
    bus.look();
}

/// The core may begin the epoch.
fn check_begin(rt: &impl Abort, bus: &CachedBus, core: u32, epoch: u32)
    ensures { view_spec.MayBegin (spec.store_view bus.now) core epoch }
{
    look_at(bus);
    assert!(rt; core < bus.cores());
    let attempt = bus.attempt(core);
    assert!(rt; attempt.is_none());
    for k in 0..bus.cores() {
        check_apart(rt, bus, k, epoch);
    }
}

/// A core runs no epoch before this one.
fn check_not_before(rt: &impl Abort, bus: &CachedBus, k: u32, epoch: u32)
    requires there { k < (spec.store_view bus.now).shape.cores }
    ensures first { (x : Attempt) → (spec.store_view bus.now).attempt k ≡ Some x → epoch ≤ x.epoch }
    ensures there { k < (spec.store_view bus.now).shape.cores }
{
    if let Some(attempt) = bus.attempt(k) {
        assert!(rt; epoch <= attempt.epoch);
    }
}

/// The core, which runs this epoch, may publish.
fn check_publish(rt: &impl Abort, bus: &CachedBus, core: u32, epoch: u32)
    ensures { view_spec.MayPublish (spec.store_view bus.now) core }
{
    look_at(bus);
    assert!(rt; core < bus.cores());
    match bus.attempt(core) {
        Some(attempt) => assert!(rt; !attempt.straight && attempt.epoch == epoch),
        None => assert!(rt; false),
    }
    for k in 0..bus.cores() {
        check_not_before(rt, bus, k, epoch);
    }
}

// ---- what is compared

fn is_same_set(set: &CoreSet, want: &[bool; CORES]) -> bool {
    set.members == *want
}

fn is_same_step(step: &Step, want: &PlainStep) -> bool {
    match (step, want) {
        (
            Step::Done { value, hurt },
            PlainStep::Done {
                value: want,
                hurt: set,
            },
        ) => { *value == *want && is_same_set(hurt, set) }
        (Step::Wait(cause), PlainStep::Wait(want)) => *cause == *want,
        _ => false,
    }
}

/// The core has the same attempt and the same copies.
fn has_same_lines(bus: &CachedBus, plain: &PlainBus, core: u32) -> bool {
    if core >= bus.cores() || bus.attempt(core) != plain.attempt(core as usize) {
        return false;
    }
    for number in 0..12 {
        let addr = number * (plain.length() % 65);
        if addr < bus.size() {
            let copy = bus.line_at(core, addr);
            let want = plain.copy(core as usize, addr);
            if copy.state != want.state || copy.loaded != want.loaded || copy.bytes != want.bytes {
                return false;
            }
        }
    }
    true
}

/// The core has the same lines in its buffer, in the same order.
fn has_same_buffer(bus: &CachedBus, plain: &PlainBus, core: u32) -> bool {
    if core >= bus.cores() {
        return false;
    }
    for place in 0..PLACES + 1 {
        if bus.orb_at(core).at(place) != plain.entry(core as usize, place) {
            return false;
        }
    }
    true
}

/// The line at this address has these committed bytes, and so has its first byte alone.
fn has_same_bytes(bus: &CachedBus, committed: &[u8], plain: &PlainBus, addr: u32) -> bool {
    let line = plain.committed_line(addr);
    if addr < bus.size() && bus.committed_byte(addr) != line[0] {
        return false;
    }
    for place in 0..LINE {
        let byte = committed.get((addr as usize).wrapping_add(place));
        if (place as u32) < plain.length() && byte.is_some_and(|byte| *byte != line[place]) {
            return false;
        }
    }
    true
}

fn has_same_memory(bus: &CachedBus, committed: &[u8], plain: &PlainBus) -> bool {
    for number in 0..12 {
        if !has_same_bytes(bus, committed, plain, number * (plain.length() % 65)) {
            return false;
        }
    }
    true
}

pub fn is_same(alloc: Global, bus: &CachedBus, plain: &PlainBus) -> Result<bool, AllocError> {
    for core in 0..bus.cores() {
        if !has_same_lines(bus, plain, core) || !has_same_buffer(bus, plain, core) {
            return Ok(false);
        }
    }
    let committed = bus.committed_memory(alloc)?;
    Ok(has_same_memory(bus, committed.as_slice(), plain))
}

// ---- calls

pub fn try_begin(
    rt: &impl Abort,
    bus: &mut CachedBus,
    plain: &mut PlainBus,
    core: u32,
    epoch: u32,
) {
    if plain.may_begin(epoch) {
        check_begin(rt, bus, core, epoch);
        bus.begin(core, epoch);
        plain.begin(core as usize, epoch);
    }
}

pub fn try_load(
    rt: &impl Abort,
    bus: &mut CachedBus,
    plain: &mut PlainBus,
    access: &Access,
) -> PlainStep {
    check_access(rt, bus, access);
    check_runs(rt, bus, access.core, false);
    let step = bus.load(access.core, access.addr, access.width);
    let want = plain.load(access);
    assert!(rt; is_same_step(&step, &want));
    want
}

pub fn try_store(
    rt: &impl Abort,
    bus: &mut CachedBus,
    plain: &mut PlainBus,
    access: &Access,
    value: u32,
) -> PlainStep {
    check_access(rt, bus, access);
    check_runs(rt, bus, access.core, false);
    let step = bus.store(access.core, access.addr, access.width, value);
    let want = plain.store(access, value);
    assert!(rt; is_same_step(&step, &want));
    want
}

pub fn try_publish(
    rt: &impl Abort,
    bus: &mut CachedBus,
    plain: &mut PlainBus,
    core: u32,
) -> [bool; CORES] {
    let epoch = match plain.attempt(core as usize) {
        Some(attempt) => attempt.epoch,
        None => 0,
    };
    check_publish(rt, bus, core, epoch);
    let hurt = bus.publish(core);
    let want = plain.publish(core as usize);
    assert!(rt; is_same_set(&hurt, &want));
    want
}

pub fn try_straight_load(
    rt: &impl Abort,
    bus: &mut CachedBus,
    plain: &mut PlainBus,
    access: &Access,
) {
    check_access(rt, bus, access);
    check_runs(rt, bus, access.core, true);
    let step = bus.straight_load(access.core, access.addr, access.width);
    let want = plain.straight_load(access);
    assert!(rt; step.0 == want.0 && is_same_set(&step.1, &want.1));
}

pub fn try_straight_store(
    rt: &impl Abort,
    bus: &mut CachedBus,
    plain: &mut PlainBus,
    access: &Access,
    value: u32,
) {
    check_access(rt, bus, access);
    check_runs(rt, bus, access.core, true);
    let hurt = bus.straight_store(access.core, access.addr, access.width, value);
    let want = plain.straight_store(access, value);
    assert!(rt; is_same_set(&hurt, &want));
}

pub fn try_leave(rt: &impl Abort, bus: &mut CachedBus, plain: &mut PlainBus, core: u32) {
    check_runs(rt, bus, core, true);
    bus.leave(core);
    plain.leave(core as usize);
}

pub fn try_cancel(rt: &impl Abort, bus: &mut CachedBus, plain: &mut PlainBus, core: u32) {
    check_runs(rt, bus, core, false);
    bus.cancel(core);
    plain.cancel(core as usize);
}

/// An aligned access in memory, above the code.
fn access_of(random: &mut Random, core: u32, size: u32) -> Access {
    let width = 1 << random.below(3);
    let addr = match width {
        1 => random.below(size.saturating_sub(4).max(1)),
        2 => 2 * random.below((size.saturating_sub(4) / 2).max(1)),
        _ => 4 * random.below((size.saturating_sub(4) / 4).max(1)),
    };
    Access {
        core,
        addr: addr.wrapping_add(4),
        width,
    }
}

/// A call of a straight attempt.
fn call_straight(
    rt: &impl Abort,
    bus: &mut CachedBus,
    plain: &mut PlainBus,
    random: &mut Random,
    core: u32,
) {
    let access = access_of(random, core, bus.size());
    let value = random.number();
    match random.below(8) {
        0 => try_leave(rt, bus, plain, core),
        1..=3 => try_straight_load(rt, bus, plain, &access),
        _ => try_straight_store(rt, bus, plain, &access, value),
    }
}

/// A call of an attempt that isn't straight.
fn call_speculative(
    rt: &impl Abort,
    bus: &mut CachedBus,
    plain: &mut PlainBus,
    random: &mut Random,
    core: u32,
    tally: &mut Tally,
) {
    let access = access_of(random, core, bus.size());
    let value = random.number();
    match random.below(60) {
        0 => try_cancel(rt, bus, plain, core),
        1..=2 if plain.is_first(core as usize) => {
            let hurt = try_publish(rt, bus, plain, core);
            tally.publishes = tally.publishes.wrapping_add(1);
            if is_any(&hurt) {
                tally.hurting_publishes = tally.hurting_publishes.wrapping_add(1);
            }
        }
        3..=24 => tally.count(&try_load(rt, bus, plain, &access)),
        _ => tally.count(&try_store(rt, bus, plain, &access, value)),
    }
}

/// Some call of some core.
fn call(
    rt: &impl Abort,
    bus: &mut CachedBus,
    plain: &mut PlainBus,
    random: &mut Random,
    tally: &mut Tally,
) {
    let core = random.below(bus.cores().max(1));
    match plain.attempt(core as usize) {
        None => try_begin(rt, bus, plain, core, random.below(64)),
        Some(attempt) if attempt.straight => {
            tally.straight = tally.straight.wrapping_add(1);
            call_straight(rt, bus, plain, random, core);
        }
        Some(_) => call_speculative(rt, bus, plain, random, core, tally),
    }
}

/// The machine of version 1 or 2.
fn machine_of(second: bool) -> Machine {
    Machine {
        line_length: if second { 32 } else { 16 },
        sets: 4,
        ways: 2,
        buffer_lines: if second { 8 } else { 4 },
        apart: None,
    }
}

/// An image of so many lines of a machine, with some bytes: of version 1 where they have 16 bytes.
pub fn image(alloc: Global, machine: Machine, lines: u32) -> Result<Image, Fail> {
    let size = machine.line_length.wrapping_mul(lines % 13);
    let version = if machine.line_length == 16 { 1 } else { 2 };
    let bytes = "0123456789abcdeffedcba9876543210ffeeddccbbaa99887766554433221100";
    let text = format!(in alloc;
        "version {version}\nsize {size}\nepochs 1\nlimit 1\ncode 67800000\nat 00000008 {bytes}\n"
    )?;
    Ok(image_of(alloc, text.as_bytes())?)
}

/// Random calls on the caches of so many cores, with everything compared after each.
fn call_often(
    rt: &impl Abort,
    alloc: Global,
    image: &Image,
    machine: Machine,
    cores: u32,
    random: &mut Random,
    tally: &mut Tally,
) -> Result<(), Fail> {
    assert!(rt; 1 <= cores && cores <= image.version().limits().most_cores);
    let mut bus = CachedBus::fresh(alloc, image, cores)?;
    let mut plain = PlainBus::new(machine);
    plain.fill(image.bytes());
    for _ in 0..10 + random.below(60) {
        call(rt, &mut bus, &mut plain, random, tally);
        assert!(rt; is_same(alloc, &bus, &plain)?);
    }
    Ok(())
}

/// A random sequence of calls.
fn walk(
    rt: &impl Abort,
    alloc: Global,
    random: &mut Random,
    tally: &mut Tally,
) -> Result<(), Fail> {
    let second = random.below(2) == 1;
    let most = random.below(if second { 15 } else { 7 });
    let cores = 2 + random.below(most + 1);
    let machine = machine_of(second);
    let image = image(alloc, machine, 3 + random.below(10))?;
    call_often(rt, alloc, &image, machine, cores, random, tally)
}

/// So many random sequences, in which everything that can happen does.
fn walk_often(rt: &impl Abort, alloc: Global, seed: u64) -> Result<(), Fail> {
    let mut random = Random::new(seed);
    let mut tally = Tally::new();
    for _ in 0..500 {
        walk(rt, alloc, &mut random, &mut tally)?;
    }
    assert!(rt; tally.done > 10_000 && tally.hurt > 500);
    assert!(rt; tally.no_way > 200 && tally.orb_full > 30 && tally.orb_busy > 20);
    assert!(rt; tally.publishes > 100 && tally.hurting_publishes > 30 && tally.straight > 500);
    Ok(())
}

#[test]
fn random_calls_do_what_a_plain_bus_does_first(rt: HostRuntime) -> Result<(), Fail> {
    walk_often(&rt, rt.alloc(), 1)
}

#[test]
fn random_calls_do_what_a_plain_bus_does_second(rt: HostRuntime) -> Result<(), Fail> {
    walk_often(&rt, rt.alloc(), 2)
}

#[test]
fn random_calls_do_what_a_plain_bus_does_third(rt: HostRuntime) -> Result<(), Fail> {
    walk_often(&rt, rt.alloc(), 3)
}

#[test]
fn random_calls_do_what_a_plain_bus_does_fourth(rt: HostRuntime) -> Result<(), Fail> {
    walk_often(&rt, rt.alloc(), 4)
}

/// A core alone: nobody is there to be hurt, or to have a copy for whose sake a line would enter the buffer.
#[test]
fn random_calls_of_one_core_do_what_a_plain_bus_does(rt: HostRuntime) -> Result<(), Fail> {
    let mut random = Random::new(5);
    let mut tally = Tally::new();
    for turn in 0..200 {
        let machine = machine_of(turn % 2 == 1);
        let image = image(rt.alloc(), machine, 3 + random.below(10))?;
        call_often(&rt, rt.alloc(), &image, machine, 1, &mut random, &mut tally)?;
    }
    assert!(rt; tally.hurt == 0 && tally.hurting_publishes == 0);
    assert!(rt; tally.orb_full == 0 && tally.orb_busy == 0);
    assert!(rt; tally.done > 3_000 && tally.no_way > 50);
    assert!(rt; tally.publishes > 50 && tally.straight > 500);
    Ok(())
}

/// A random sequence of calls on the caches of another machine than that of the version.
fn walk_on(
    rt: &impl Abort,
    alloc: Global,
    machine: Machine,
    random: &mut Random,
    tally: &mut Tally,
) -> Result<(), Fail> {
    let cores = 2 + random.below(4);
    let image = image(alloc, machine, 3 + random.below(10))?;
    let image = image.with_machine(machine).ok_or("no machine")?;
    call_often(rt, alloc, &image, machine, cores, random, tally)
}

/// Bytes of a line, sets, ways and lines of a buffer, and the least numbers of what a `Tally` counts, in its order. A buffer that has as
/// much room as the cache is never full.
const MACHINES: &str = "
16 1 1 1  | 800 3000 0 0 15 40 0 200
32 2 3 2  | 3000 200 100 100 200 40 20 150
64 8 1 16 | 3000 150 0 0 100 50 15 150
";

/// The machine of four numbers.
pub fn machine_in(words: &str) -> Machine {
    Machine {
        line_length: number(words, 0),
        sets: number(words, 1),
        ways: number(words, 2),
        buffer_lines: number(words, 3),
        apart: None,
    }
}

/// Random sequences on the machine of a row, in which everything happens that can on that machine.
fn walk_row(rt: &impl Abort, alloc: Global, row: &str) -> Result<(), Fail> {
    let machine = machine_in(row);
    let mut random = Random::new(6);
    let mut tally = Tally::new();
    for _ in 0..300 {
        walk_on(rt, alloc, machine, &mut random, &mut tally)?;
    }
    assert!(rt; tally.is_at_least(cell(row, 1)), "{row}");
    Ok(())
}

#[test]
fn random_calls_do_what_a_plain_bus_does_on_other_machines(rt: HostRuntime) -> Result<(), Fail> {
    for row in MACHINES.split('\n') {
        if is_row(row) {
            walk_row(&rt, rt.alloc(), row)?;
        }
    }
    Ok(())
}
