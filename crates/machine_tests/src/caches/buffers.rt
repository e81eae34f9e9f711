//! The buffer of a core.

ghost use Rattle.std.specs.Prelude.{◌≡◌, true};
ghost use Rattle.orb.specs.Lines.{IsLimit};

use orb::{LARGEST_LIMIT, Orb, OrbFull};
use std::test::Fail;

/// Whether there are buffers of so many lines.
fn is_limit(limit: usize) -> bool
    ensures { result ≡ true → IsLimit limit }
{
    1 <= limit && limit <= LARGEST_LIMIT
}

/// Enters a line, where it is not there and there is room.
fn is_entered(orb: &mut Orb, addr: u32) -> bool {
    !orb.holds(addr) && orb.enter(addr).is_ok()
}

/// Whether a full buffer refuses a line that is not there.
fn is_refused(orb: &mut Orb, addr: u32) -> bool {
    !orb.holds(addr) && orb.enter(addr) == Err(OrbFull)
}

/// The addresses in order, with 0 past the end.
fn lines(orb: &Orb) -> [u32; 9] {
    let mut lines = [0; 9];
    for i in 0..9 {
        lines[i] = orb.at(i).unwrap_or(0);
    }
    lines
}

/// The line that enters as number `i`: 0x40, 0x50, 0x60 and so on.
fn line(i: usize) -> u32 {
    0x40 + 16 * (i % LARGEST_LIMIT) as u32
}

/// Enters so many lines, before each of which the buffer is not full.
fn are_entered(orb: &mut Orb, count: usize) -> bool {
    for i in 0..count {
        if orb.is_full() || !is_entered(orb, line(i)) {
            return false;
        }
    }
    true
}

/// Whether a buffer has just so many lines, in the order in which they entered.
fn has_in_order(orb: &Orb, count: usize) -> bool {
    for i in 0..count {
        if orb.at(i) != Some(line(i)) {
            return false;
        }
    }
    orb.at(count).is_none()
}

/// Whether a buffer is full, and has so many lines.
fn is_full_of(orb: &Orb, limit: usize) -> bool {
    orb.is_full() && !orb.is_empty() && orb.len() == limit && has_in_order(orb, limit)
}

/// Whether so many lines fit, and no more.
fn fit(limit: usize) -> bool {
    if !is_limit(limit) {
        return false;
    }
    let mut orb = Orb::new(limit);
    orb.is_empty()
        && are_entered(&mut orb, limit)
        && is_full_of(&orb, limit)
        && is_refused(&mut orb, 0x1000)
        && is_full_of(&orb, limit)
}

#[test]
fn as_many_lines_fit_as_the_limit_says(rt: HostRuntime) {
    for limit in [1, 4, 8, 64] {
        assert!(rt; fit(limit), "{limit}");
    }
    assert!(rt; !is_limit(0) && !is_limit(65));
}

/// Whether the second of three lines leaves, and enters last.
fn is_last_again(orb: &mut Orb) -> bool {
    orb.remove(0x50)
        && !orb.remove(0x50)
        && !orb.holds(0x50)
        && orb.holds(0x60)
        && is_entered(orb, 0x50)
        && lines(orb) == [0x40, 0x60, 0x50, 0, 0, 0, 0, 0, 0]
}

/// Whether all lines leave.
fn is_cleared(orb: &mut Orb) -> bool {
    orb.clear();
    orb.len() == 0 && !orb.holds(0x40) && orb.at(0).is_none()
}

/// Whether the lines of a buffer leave it.
fn leave(limit: usize) -> bool {
    if !is_limit(limit) {
        return false;
    }
    let mut orb = Orb::new(limit);
    are_entered(&mut orb, 3) && is_last_again(&mut orb) && is_cleared(&mut orb)
}

#[test]
fn lines_leave_in_any_order(rt: HostRuntime) {
    for limit in [4, 8, 64] {
        assert!(rt; leave(limit), "{limit}");
    }
}

#[test]
fn the_error_has_a_name_and_prints_what_it_is(rt: HostRuntime) -> Result<(), Fail> {
    let error = OrbFull;
    let text = format!(in rt.alloc(); "{error}")?;
    assert!(rt;
        error.name() == "OrbFull" && text.as_str() == "the ownership required buffer is full"
    );
    Ok(())
}
