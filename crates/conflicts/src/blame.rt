//! Which load and which store a violation is blamed on.

ghost use Rattle.std.specs.Prelude.{◌≡◌, ◌<◌};
ghost use Rattle.conflicts.specs.Blame as blame;
ghost use Rattle.conflicts.specs.Violated as spec;

use crate::accesses::attempt_place;
use crate::addresses::line_number;
use crate::alike::BlamedByte;
use crate::explanation::Blame;
use crate::meeting::Parties;
use crate::scene::Scene;
use crate::victim::Victim;
use spec_history::{Flat, Kind, What};

/// A violation with its cause: who meets in it, of what kind it is, and where both stand.
#[derive(Clone, Copy)]
pub struct Violated {
    /// Who meets in it.
    pub parties: Parties,
    /// The kind by which bytes are blamed.
    pub kind: Kind,
    /// The place of the violation in the history.
    pub place: usize,
    /// That of its cause.
    pub cause: usize,
}

impl Violated {
    /// The byte can be blamed.
    pub(crate) fn can_be_blamed(&self, flat: &Flat, addr: u32) -> bool
        ensures { result ≡ blame.can_be_blamed flat.now.image (spec.violation_in flat.now self.now) addr }
    {
        match self.kind {
            Kind::TrueSharing => self.parties.is_changed(flat, addr),
            Kind::SilentStore => self.parties.is_shared(flat, addr),
            Kind::FalseSharing => self.parties.is_beside(flat, addr),
            Kind::FullBuffer | Kind::Unexplained => false,
        }
    }

    /// The store that gave a byte the value that the cause writes.
    fn store_to(&self, scene: &Scene<'_>, addr: u32) -> Option<usize>
        requires { addr < scene.now.flat.now.image.size }
        ensures { result ≡ blame.store_to scene.now.entries.now (spec.violation_in scene.now.flat.now self.now) addr }
    {
        match self.parties.cause {
            What::Store { .. } => Some(self.cause),
            _ => {
                let Scene {
                    entries,
                    behind,
                    ..
                } = *scene;
                behind.last_store(entries, self.parties.causer, self.place, addr)
            }
        }
    }

    /// The store to blame for a byte.
    pub fn store(&self, scene: &Scene<'_>, addr: u32) -> Option<usize>
        requires { addr < scene.now.flat.now.image.size }
        ensures { result ≡ blame.blamed_store scene.now.flat.now.image scene.now.entries.now (spec.violation_in scene.now.flat.now self.now) addr }
    {
        match self.kind {
            Kind::FalseSharing => {
                let line = line_number(scene.flat.image(), addr);
                let beside = self.parties.written_in(scene.flat, line)?;
                self.store_to(scene, beside)
            }
            _ => self.store_to(scene, addr),
        }
    }

    /// The load and the store to blame, the byte, and its neighbours.
    pub(crate) fn blame(&self, scene: &Scene<'_>) -> Option<Blame>
        ensures { result ≡ blame.blame_of scene.now.flat.now.image scene.now.entries.now (spec.violation_in scene.now.flat.now self.now) }
    {
        let (violated, at) = (*self, *scene);
        let start = attempt_place(scene.entries, self.parties.victim, self.place)?;
        let victim = Victim {
            violated,
            scene: at,
            start,
        };
        let load = victim.load()?;
        let byte = victim.byte_at(load)?;
        let store = self.store(scene, byte)?;
        let blamed = BlamedByte {
            violated,
            scene: at,
            load,
            store,
            byte,
        };
        Some(Blame {
            load,
            store,
            byte,
            bytes: blamed.range(),
        })
    }
}
