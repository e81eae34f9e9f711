//! The neighbouring bytes at which a blamed load and a blamed store met.

ghost use Rattle.std.specs.Prelude.{◌≡◌, ◌<◌, ◌≤◌, ◌&&◌, not, nat_lt, Some, unwrap_or};
ghost use Rattle.conflicts.specs.Blame as blame;
ghost use Rattle.conflicts.specs.Parties.{meeting_in};
ghost use Rattle.spec_history.specs.Searches.{first_below, last_below};
ghost use Rattle.conflicts.specs.Violated as spec;

use crate::addresses::line_number;
use crate::blame::Violated;
use crate::explanation::ByteRange;
use crate::scene::Scene;
use spec_history::{Flat, Kind, What};

/// A blamed byte of a violation, at the scene of the violation, with its load and its store.
#[derive(Clone, Copy)]
pub struct BlamedByte<'h> {
    /// The violation.
    pub violated: Violated,
    /// Its scene.
    pub scene: Scene<'h>,
    /// The load that read the byte first, by its place in the history.
    pub load: usize,
    /// The store to blame for it.
    pub store: usize,
    /// Its address.
    pub byte: u32,
    pub ghost within: { byte < scene.flat.now.image.size },
    pub ghost stored: { blame.blamed_store scene.flat.now.image scene.entries.now (spec.violation_in scene.flat.now violated) byte ≡ Some store },
}

/// The place is that one.
fn is_at(found: Option<usize>, place: usize) -> bool
    ensures { result ≡ blame.is_place found place }
{
    match found {
        Some(other) => other == place,
        None => false,
    }
}

impl Violated {
    /// The byte goes with a blamed one.
    fn goes_with(&self, flat: &Flat, byte: u32, addr: u32) -> bool
        ensures { result ≡ blame.goes_with flat.now.image self.now.kind (meeting_in flat.now self.now.parties) byte addr }
    {
        match self.kind {
            Kind::FalseSharing => {
                let image = flat.image();
                self.parties.is_beside(flat, addr)
                    && line_number(image, addr) == line_number(image, byte)
            }
            _ => self.parties.is_shared(flat, addr),
        }
    }

    /// The same store is to blame for all bytes that go together.
    fn has_one_store(&self) -> bool
        ensures { result ≡ spec.has_one_store self.now.kind self.now.parties.cause }
    {
        matches!(self.kind, Kind::FalseSharing) || matches!(self.parties.cause, What::Store { .. })
    }
}

impl BlamedByte<'_> {
    /// A byte met at the same two accesses.
    fn is_alike(&self, addr: u32) -> bool
        requires { addr < self.now.scene.flat.now.image.size }
        ensures { result ≡ blame.is_alike self.now.scene.flat.now.image self.now.scene.entries.now
            (spec.violation_in self.now.scene.flat.now self.now.violated) self.now.load self.now.store self.now.byte addr }
    {
        let Violated { parties, place, .. } = self.violated;
        let Scene {
            flat,
            entries,
            behind,
        } = self.scene;
        if !self.violated.goes_with(flat, self.byte, addr) {
            return false;
        }
        let read = behind.first_read(entries, parties.victim, place, addr);
        if !is_at(read, self.load) {
            return false;
        }
        if self.violated.has_one_store() {
            return true;
        }
        let stored = behind.last_store(entries, parties.causer, place, addr);
        is_at(stored, self.store)
    }

    /// The first of its neighbours that met alike.
    fn range_first(&self) -> u32
        ensures first { result ≡ blame.after (last_below self.now.byte
            (λ a. not (blame.is_alike self.now.scene.flat.now.image self.now.scene.entries.now
            (spec.violation_in self.now.scene.flat.now self.now.violated) self.now.load self.now.store self.now.byte a))) }
        ensures most { result ≤ self.now.byte }
    {
        for i in 0..self.byte {
            let addr = self.byte - 1 - i;
            if !self.is_alike(addr) {
                return addr + 1;
            }
        }
        0
    }

    /// The first address above it that is none of its neighbours that met alike.
    fn range_end(&self) -> u32
        ensures end { result ≡ unwrap_or (first_below self.now.scene.flat.now.image.size
            (λ a. nat_lt self.now.byte a && not (blame.is_alike self.now.scene.flat.now.image self.now.scene.entries.now
            (spec.violation_in self.now.scene.flat.now self.now.violated) self.now.load self.now.store self.now.byte a)))
            self.now.scene.flat.now.image.size }
        ensures above { self.now.byte < result }
    {
        let size = self.scene.flat.image().size();
        for addr in self.byte + 1..size {
            if !self.is_alike(addr) {
                return addr;
            }
        }
        size
    }

    /// Its neighbours that met at the same two accesses, itself among them.
    pub fn range(&self) -> ByteRange
        ensures { result ≡ blame.blamed_range self.now.scene.flat.now.image self.now.scene.entries.now
            (spec.violation_in self.now.scene.flat.now self.now.violated) self.now.load self.now.store self.now.byte }
    {
        let first = self.range_first();
        let end = self.range_end();
        ByteRange {
            first,
            length: end - first,
        }
    }
}
