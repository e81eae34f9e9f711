//! Tests of the conditions of calls.
ghost use Rattle.std.specs.Prelude.{◌≡◌, ◌<◌};
ghost use Rattle.spec_states.specs.Rows.{requires_ownership};
ghost use Rattle.violations.specs.View as view_spec;
ghost use Rattle.spec_bus.specs.Cached as spec;
ghost use Rattle.machine_tests.specs.Checked.{IfSo, IsApart, IsNotBefore};

use spec_bus::CachedBus;
use violations::EpochStore;

/// Whether a core runs an attempt that is straight, or one that isn't.
pub fn runs(bus: &CachedBus, core: u32, straight: bool) -> bool
    ensures { IfSo result (view_spec.Runs (spec.store_view bus.now) core straight) }
{
    if core >= bus.cores() {
        return false;
    }
    let Some(attempt) = bus.attempt(core) else {
        return false;
    };
    if attempt.straight != straight {
        return false;
    }
    true
}

/// Whether core `k` runs another epoch than this one, and no later one where it is straight.
fn is_apart(bus: &CachedBus, epoch: u32, k: u32) -> bool
    requires { k < (spec.bus bus.now).shape.cores }
    ensures { IfSo result (IsApart (spec.store_view bus.now) epoch k) }
{
    let Some(attempt) = bus.attempt(k) else {
        return true;
    };
    if attempt.epoch == epoch {
        return false;
    }
    if attempt.straight && attempt.epoch > epoch {
        return false;
    }
    true
}

/// Whether a core may begin an epoch.
pub fn may_begin(bus: &CachedBus, core: u32, epoch: u32) -> bool
    ensures { IfSo result (view_spec.MayBegin (spec.store_view bus.now) core epoch) }
{
    bus.look();
    if core >= bus.cores() {
        return false;
    }
    let None = bus.attempt(core) else {
        return false;
    };
    for k in 0..bus.cores() {
        if !is_apart(bus, epoch, k) {
            return false;
        }
    }
    true
}

/// Whether core `k` runs no epoch before this one.
fn is_not_before(bus: &CachedBus, epoch: u32, k: u32) -> bool
    requires { k < (spec.bus bus.now).shape.cores }
    ensures { IfSo result (IsNotBefore (spec.store_view bus.now) epoch k) }
{
    let Some(attempt) = bus.attempt(k) else {
        return true;
    };
    if attempt.epoch < epoch {
        return false;
    }
    true
}

/// Whether a core may publish.
pub fn may_publish(bus: &CachedBus, core: u32) -> bool
    ensures { IfSo result (view_spec.MayPublish (spec.store_view bus.now) core) }
{
    bus.look();
    if core >= bus.cores() {
        return false;
    }
    let Some(attempt) = bus.attempt(core) else {
        return false;
    };
    if attempt.straight {
        return false;
    }
    for k in 0..bus.cores() {
        if !is_not_before(bus, attempt.epoch, k) {
            return false;
        }
    }
    true
}

/// Whether an access of so many bytes is aligned and lies in memory.
pub fn lies(bus: &CachedBus, addr: u32, width: u32) -> bool
    ensures { IfSo result (view_spec.IsLoad (spec.store_view bus.now).shape addr width) }
{
    if width != 1 && width != 2 && width != 4 {
        return false;
    }
    if addr % width != 0 || addr > bus.size() || width > bus.size() - addr {
        return false;
    }
    true
}

/// Whether a core's buffer lists the line at `line`: just those lines that require ownership are listed.
pub fn is_listed(bus: &CachedBus, core: u32, line: u32) -> bool
    requires { core < (spec.bus bus.now).shape.cores }
    ensures { result ≡ requires_ownership (((spec.bus bus.now).core core).copy line).state (((spec.bus bus.now).core core).copy line).marks }
{
    bus.look();
    bus.orb_at(core).holds(line)
}
