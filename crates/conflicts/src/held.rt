//! Which store held the line of a full buffer.

ghost use Rattle.std.specs.Prelude.{◌≡◌, ◌<◌, ◌*◌, ◌^◌, ℕ, IfSome, Some};
ghost use Rattle.spec_history.specs.declared.kind.Kind.TheVariants.{FullBuffer};
ghost use Rattle.conflicts.specs.Attempts as attempts;
ghost use Rattle.conflicts.specs.Blame as blame;
ghost use Rattle.conflicts.specs.Fates as spec;

use crate::accesses::attempt_place;
use crate::addresses::{line_around, line_number};
use crate::explanation::{ByteRange, Explanation};
use rv32_exec::Image;
use spec_history::{Entry, Kind, What};

/// The number of the line of the caches that an access is to. None: it is no access.
pub fn accessed_line(image: &Image, what: What) -> Option<u32>
    ensures { result ≡ blame.accessed_line image.now what }
{
    match what {
        What::Load { addr, .. } | What::Store { addr, .. } => Some(line_number(image, addr)),
        _ => None,
    }
}

/// Where the bytes of that line are.
pub fn accessed_bytes(image: &Image, what: What) -> Option<ByteRange>
    ensures { result ≡ blame.accessed_bytes image.now what }
{
    match what {
        What::Load { addr, .. } | What::Store { addr, .. } => Some(line_around(image, addr)),
        _ => None,
    }
}

/// What stands in an entry is a store in this line.
fn stores_in(image: &Image, line: u32, what: What) -> bool
    ensures { result ≡ blame.stores_in image.now line what }
{
    match what {
        What::Store { addr, .. } => line_number(image, addr) == line,
        _ => false,
    }
}

/// The entry at a place is a store in this line, by the attempt that began at `start`.
fn is_store_in(
    image: &Image,
    entries: &[Entry],
    core: u32,
    start: usize,
    line: u32,
    place: usize,
) -> bool
    ensures { (before : ℕ) → attempts.attempt_place entries.now core before ≡ Some start
        → result ≡ attempts.attempt_does entries.now core before (blame.stores_in image.now line) place }
{
    match entries.get(place) {
        Some(entry) => start < place && entry.by == core && stores_in(image, line, entry.what),
        None => false,
    }
}

/// The first store in a line of the attempt that a core runs before a place, which began at `start`.
fn first_stored_in(
    image: &Image,
    entries: &[Entry],
    core: u32,
    start: usize,
    before: usize,
    line: u32,
) -> Option<usize>
    requires { attempts.attempt_place entries.now core before ≡ Some start }
    ensures { result ≡ blame.first_stored_in image.now entries.now core before line }
{
    for place in start..before {
        if is_store_in(image, entries, core, start, line, place) {
            return Some(place);
        }
    }
    None
}

impl Explanation {
    /// Held, of a full buffer: the place of the victim's first store in the line that the cause asks for.
    pub fn held_at(&self, image: &Image, entries: &[Entry]) -> Option<usize>
        ensures { result ≡ spec.held_at image.now entries.now self.now }
    {
        match self.kind {
            Kind::FullBuffer => self.first_stored(image, entries),
            Kind::TrueSharing | Kind::SilentStore | Kind::FalseSharing | Kind::Unexplained => None,
        }
    }

    /// The victim's first store in the line that the cause asks for.
    fn first_stored(&self, image: &Image, entries: &[Entry]) -> Option<usize>
        ensures { result ≡ spec.held_by image.now entries.now self.now FullBuffer }
    {
        let entry = entries.get(self.cause?)?;
        let line = accessed_line(image, entry.what)?;
        stored_in(image, entries, self.victim.core, self.place, line)
    }
}

/// The first store in a line of the attempt that a core runs before a place.
fn stored_in(image: &Image, entries: &[Entry], core: u32, before: usize, line: u32) -> Option<usize>
    ensures { result ≡ blame.first_stored_in image.now entries.now core before line }
{
    match attempt_place(entries, core, before) {
        Some(start) => first_stored_in(image, entries, core, start, before, line),
        None => None,
    }
}
