ghost use Rattle.std.specs.Prelude.{◌≡◌, ◌<◌, ◌==◌, ◌||◌, ℕ, true, false};
ghost use Rattle.violations.specs.CoreSet as spec;

/// The most cores that share a store, in any version of an image.
pub const MAX_CORES: usize = 16;

/// Some of the cores of a store.
#[derive(Clone, Copy)]
pub struct CoreSet {
    /// For each core whether it is in the set.
    pub members: [bool; MAX_CORES],
}

impl CoreSet {
    /// No core.
    pub fn none() -> CoreSet
        ensures { (k : ℕ) → spec.is_in result k ≡ false }
    {
        CoreSet {
            members: [false; MAX_CORES],
        }
    }

    /// The core is in the set. No core past the sixteenth is.
    pub fn has(&self, core: u32) -> bool
        ensures { result ≡ spec.is_in self.now core }
    {
        match self.members.get(core as usize) {
            Some(member) => *member,
            None => false,
        }
    }

    /// How many cores are in the set.
    #[tactic(auto, unfolding(crate::specs::CoreSet::members_below))]
    pub fn len(&self) -> usize
        ensures { result ≡ spec.members_below self.now 16 }
    {
        let mut count = 0;
        for member in &self.members {
            if *member {
                count += 1;
            }
        }
        count
    }

    /// No core is in the set.
    pub fn is_empty(&self) -> bool
        ensures { result ≡ (spec.members_below self.now 16 == 0) }
    {
        self.len() == 0
    }

    /// Puts a core into the set.
    pub fn insert(&mut self, core: u32)
        requires { core < 16 }
        ensures { (k : ℕ) → spec.is_in self.new k ≡ (k == core || spec.is_in self.old k) }
    {
        self.members[core as usize] = true;
    }
}
