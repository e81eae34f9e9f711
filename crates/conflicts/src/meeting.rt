//! The bytes that meet in a violation, and its kind.

ghost use Rattle.std.specs.Prelude.{◌≡◌, ◌<◌, ◌==◌, ◌&&◌, nat_le, nat_lt};
ghost use Rattle.memory_bytes.specs.Maps.{stored};
ghost use Rattle.spec_history.specs.Refusal.{any_below};
ghost use Rattle.spec_history.specs.Searches.{IsNext, count_below};
ghost use Rattle.conflicts.specs.Blame as blame;
ghost use Rattle.spec_history.specs.Conflict as conflict;
ghost use Rattle.conflicts.specs.Parties as spec;

use crate::addresses::{line_bytes, line_number, lines_of};
use spec_history::{Flat, Kind, What};

/// Who meets in a violation: the core that makes it, what that core does next, and the core that is violated.
#[derive(Clone, Copy)]
pub struct Parties {
    /// The core that makes it.
    pub causer: u32,
    /// What that core does next.
    pub cause: What,
    /// The core that is violated.
    pub victim: u32,
}

/// What is asked of a byte.
#[derive(Clone, Copy)]
pub(crate) enum ByteTest {
    /// The cause changes it, and the victim has read it.
    Changed,
    /// The cause writes it, and the victim has read it.
    Shared,
    /// The victim has read it, and the cause writes its line.
    Beside,
}

/// What is asked of the bytes of a line.
#[derive(Clone, Copy)]
pub enum LineTest {
    /// The cause writes one.
    Written,
    /// The victim has read one.
    Read,
    /// The victim has read one that the cause writes.
    Met,
    /// The victim has stored one.
    Stored,
}

impl Parties {
    /// The byte of a store at an address.
    #[tactic(auto, unfolding(memory_bytes::specs::Maps::stored))]
    fn stored(addr: u32, width: u32, value: u32, at: u32) -> Option<u8>
        ensures { result ≡ stored addr width value at }
    {
        if at < addr || at - addr >= width {
            return None;
        }
        let place = at - addr;
        if place < 4 {
            Some(((value >> (8 * place)) % 256) as u8)
        } else {
            Some(0)
        }
    }

    /// The byte at an address to which the cause gives a value.
    fn written(&self, flat: &Flat, addr: u32) -> Option<u8>
        ensures { result ≡ (spec.meeting_in flat.now self.now).writes addr }
    {
        match self.cause {
            What::Store {
                addr: first,
                width,
                value,
            } => Parties::stored(first, width, value, addr),
            What::Publish | What::Commit | What::Fault { .. } => flat.own(self.causer, addr),
            What::Start(_) | What::Load { .. } | What::Hurt(_) | What::Cancel(_) | What::Restart =>
                None,
        }
    }

    /// The cause changes the byte, and the victim has read it.
    pub fn is_changed(&self, flat: &Flat, addr: u32) -> bool
        ensures { result ≡ conflict.is_changed (spec.meeting_in flat.now self.now) addr }
    {
        if flat.outside(self.victim, addr).is_none() {
            return false;
        }
        match (flat.committed(addr), self.written(flat, addr)) {
            (Some(old), Some(new)) => new != old,
            _ => false,
        }
    }

    /// The cause writes the byte, and the victim has read it.
    pub fn is_shared(&self, flat: &Flat, addr: u32) -> bool
        ensures { result ≡ conflict.is_shared (spec.meeting_in flat.now self.now) addr }
    {
        self.written(flat, addr).is_some() && flat.outside(self.victim, addr).is_some()
    }

    /// The byte passes the test of its line.
    fn is_of(&self, flat: &Flat, test: LineTest, addr: u32) -> bool
        ensures { result ≡ spec.is_of (spec.meeting_in flat.now self.now) test addr }
    {
        match test {
            LineTest::Written => self.written(flat, addr).is_some(),
            LineTest::Read => flat.outside(self.victim, addr).is_some(),
            LineTest::Met => self.is_shared(flat, addr),
            LineTest::Stored => flat.own(self.victim, addr).is_some(),
        }
    }

    /// The byte lies in the line, and passes the test of it.
    fn is_of_line(&self, flat: &Flat, test: LineTest, line: u32, addr: u32) -> bool
        ensures { result ≡ ((conflict.line_number flat.now.image addr == line) && spec.is_of (spec.meeting_in flat.now self.now) test addr) }
    {
        line_number(flat.image(), addr) == line && self.is_of(flat, test, addr)
    }

    /// Some byte of memory that lies in the line passes the test.
    pub fn line_has(&self, flat: &Flat, test: LineTest, line: u32) -> bool
        ensures { result ≡ conflict.line_has flat.now.image line (spec.is_of (spec.meeting_in flat.now self.now) test) }
    {
        let bytes = line_bytes(flat.image(), line);
        for addr in bytes.first..bytes.first + bytes.length {
            if self.is_of_line(flat, test, line, addr) {
                return true;
            }
        }
        false
    }

    /// The lowest byte of the line that the cause writes.
    pub fn written_in(&self, flat: &Flat, line: u32) -> Option<u32>
        ensures { result ≡ blame.written_in flat.now.image (spec.meeting_in flat.now self.now) line }
    {
        let bytes = line_bytes(flat.image(), line);
        for addr in bytes.first..bytes.first + bytes.length {
            if self.is_of_line(flat, LineTest::Written, line, addr) {
                return Some(addr);
            }
        }
        None
    }

    /// The victim has read the byte, and the cause writes its line.
    pub(crate) fn is_beside(&self, flat: &Flat, addr: u32) -> bool
        ensures { result ≡ conflict.is_beside flat.now.image (spec.meeting_in flat.now self.now) addr }
    {
        flat.outside(self.victim, addr).is_some()
            && self.line_has(flat, LineTest::Written, line_number(flat.image(), addr))
    }

    /// The byte passes the test.
    fn passes(&self, flat: &Flat, test: ByteTest, addr: u32) -> bool
        ensures { result ≡ spec.passes flat.now.image (spec.meeting_in flat.now self.now) test addr }
    {
        match test {
            ByteTest::Changed => self.is_changed(flat, addr),
            ByteTest::Shared => self.is_shared(flat, addr),
            ByteTest::Beside => self.is_beside(flat, addr),
        }
    }

    /// Some byte of memory passes the test. One that does is among those that the victim has read, so no other is tried.
    fn any(&self, flat: &Flat, test: ByteTest) -> bool
        ensures { result ≡ any_below flat.now.image.size (spec.passes flat.now.image (spec.meeting_in flat.now self.now) test) }
    {
        for addr in flat.read_addresses(self.victim) {
            if self.passes(flat, test, *addr) {
                return true;
            }
        }
        false
    }

    /// It is another line, and the victim has stored in it.
    fn holds_other(&self, flat: &Flat, line: u32, other: u32) -> bool
        ensures { result ≡ spec.holds_other flat.now.image (spec.meeting_in flat.now self.now) line other }
    {
        other != line && self.line_has(flat, LineTest::Stored, other)
    }

    /// It is such a line, from `from` on and before `next`.
    fn is_nearer(&self, flat: &Flat, line: u32, from: u32, next: u32, other: u32) -> bool
        ensures { result ≡ (nat_le from other && (nat_lt other next && spec.holds_other flat.now.image (spec.meeting_in flat.now self.now) line other)) }
    {
        from <= other && other < next && self.holds_other(flat, line, other)
    }

    /// The first other line from this one on in which the victim has stored; the number of lines, where there is none. One that
    /// has is among those of the bytes that it has stored, so no other is tried.
    fn next_beside(&self, flat: &Flat, line: u32, from: u32) -> u32
        ensures { IsNext (spec.holds_other flat.now.image (spec.meeting_in flat.now self.now) line) from (conflict.line_count flat.now.image) result }
    {
        let image = flat.image();
        let mut next = lines_of(image);
        for addr in flat.own_addresses(self.victim) {
            let other = line_number(image, *addr);
            if self.is_nearer(flat, line, from, next, other) {
                next = other;
            }
        }
        next
    }

    /// The victim has stored in so many other lines.
    fn holds_beside(&self, flat: &Flat, line: u32, wanted: u32) -> bool
        ensures { result ≡ nat_le wanted (count_below (conflict.line_count flat.now.image)
            (spec.holds_other flat.now.image (spec.meeting_in flat.now self.now) line)) }
    {
        let lines = lines_of(flat.image());
        let mut from = 0;
        for _ in 0..wanted {
            let found = self.next_beside(flat, line, from);
            if found >= lines {
                return false;
            }
            from = found + 1;
        }
        true
    }

    /// The victim has stored in the line, and in as many other lines as its buffer takes.
    fn is_full_at(&self, flat: &Flat, line: u32) -> bool
        ensures { result ≡ conflict.is_full_at flat.now.image (spec.meeting_in flat.now self.now) line }
    {
        self.line_has(flat, LineTest::Stored, line)
            && self.holds_beside(flat, line, flat.image().machine().buffer_lines)
    }

    /// The cause is an access to a line for which the victim's full buffer has no place.
    fn is_crowded(&self, flat: &Flat) -> bool
        ensures { result ≡ conflict.is_crowded flat.now.image (spec.meeting_in flat.now self.now) self.now.cause }
    {
        match self.cause {
            What::Load { addr, .. } | What::Store { addr, .. } => {
                let image = flat.image();
                addr < image.size() && self.is_full_at(flat, line_number(image, addr))
            }
            _ => false,
        }
    }

    /// What kind the violation is.
    pub(crate) fn kind(&self, flat: &Flat) -> Kind
        ensures { result ≡ conflict.kind_with flat.now.image (spec.meeting_in flat.now self.now) self.now.cause }
    {
        if self.any(flat, ByteTest::Changed) {
            Kind::TrueSharing
        } else if self.any(flat, ByteTest::Shared) {
            Kind::SilentStore
        } else if self.any(flat, ByteTest::Beside) {
            Kind::FalseSharing
        } else if self.is_crowded(flat) {
            Kind::FullBuffer
        } else {
            Kind::Unexplained
        }
    }
}
