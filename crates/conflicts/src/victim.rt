//! The load by which the victim of a violation is blamed.

ghost use Rattle.std.specs.Prelude.{◌≡◌, ◌<◌, IfSome, Some};
ghost use Rattle.conflicts.specs.Attempts as attempts;
ghost use Rattle.conflicts.specs.Blame as blame;
ghost use Rattle.conflicts.specs.Violated as spec;

use crate::accesses::{loaded_at, reads_outside};
use crate::blame::Violated;
use crate::scene::Scene;

/// The attempt of a violation's victim, at the scene of the violation.
#[derive(Clone, Copy)]
pub(crate) struct Victim<'h> {
    /// The violation.
    pub violated: Violated,
    /// Its scene.
    pub scene: Scene<'h>,
    /// Where the attempt began.
    pub start: usize,
    ghost began: { attempts.attempt_place scene.entries.now violated.parties.victim violated.place ≡ Some start },
}

impl Victim<'_> {
    /// The entry at a place is a load that read the byte from outside, and the byte can be blamed.
    fn is_read_at(&self, load: usize, addr: u32) -> bool
        ensures { result ≡ blame.is_read_at self.now.scene.flat.now.image self.now.scene.entries.now
            (spec.violation_in self.now.scene.flat.now self.now.violated) load addr }
    {
        let Victim {
            violated,
            scene,
            ..
        } = *self;
        let core = violated.parties.victim;
        violated.can_be_blamed(scene.flat, addr)
            && reads_outside(scene.entries, core, self.start, addr, load)
    }

    /// The byte to blame at a load.
    pub(crate) fn byte_at(&self, load: usize) -> Option<u32>
        ensures byte { result ≡ blame.blamed_byte self.now.scene.flat.now.image self.now.scene.entries.now
            (spec.violation_in self.now.scene.flat.now self.now.violated) load }
        ensures within { IfSome result (λ addr. addr < self.now.scene.flat.now.image.size) }
    {
        let scene = self.scene;
        let core = self.violated.parties.victim;
        let (first, end) = loaded_at(scene.flat.image(), scene.entries, core, load);
        for addr in first..end {
            if self.is_read_at(load, addr) {
                return Some(addr);
            }
        }
        None
    }

    /// The load to blame.
    pub(crate) fn load(&self) -> Option<usize>
        ensures { result ≡ blame.blamed_load self.now.scene.flat.now.image self.now.scene.entries.now
            (spec.violation_in self.now.scene.flat.now self.now.violated) }
    {
        for load in self.start..self.violated.place {
            if self.byte_at(load).is_some() {
                return Some(load);
            }
        }
        None
    }
}
