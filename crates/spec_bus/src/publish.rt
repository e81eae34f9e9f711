//! Publish: the lines of a core's buffer, one after the other, and then its other lines.
ghost use Rattle.std.specs.Prelude.{◌≡◌, ℕ, ◌<◌, ◌≤◌, ◌||◌, false, true, length, Some};
ghost use Rattle.violations.specs.CoreSet.{is_in};
ghost use Rattle.bus_states.specs.Messages as message_spec;
ghost use Rattle.orb.specs.Lines.{holds};
ghost use Rattle.bus_states.specs.Messages.{order};
ghost use Rattle.spec_bus.specs.Parts.{bus_in, IsOnBus};
ghost use Rattle.bus_states.specs.declared.notice.Notice.TheVariants.{Publish};
ghost use Rattle.bus_states.specs.Straight.{after_publish_line, after_publish, publish_violates};

use crate::messages::Sent;
use crate::parts::Parts;
use bus_states::Notice;
use spec_states::settled;
use violations::{CoreSet, MAX_CORES};

/// The cores that are in one of the sets or in both.
fn union(first: CoreSet, second: CoreSet) -> CoreSet
    requires { (k : ℕ) → 16 ≤ k → is_in second k ≡ false }
    ensures { (k : ℕ) → is_in result k ≡ (is_in first k || is_in second k) }
{
    let mut both = first;
    for k in 0..MAX_CORES {
        if second.has(k as u32) {
            both.insert(k as u32);
        }
    }
    both
}

impl Parts {
    /// This core publishes the line at `addr`, which leaves its buffer. Answers the cores that are violated.
    fn publish_line(&mut self, core: usize, addr: u32) -> CoreSet
        requires place { IsOnBus self.old core }
        requires listed { holds ((bus_in self.old).core core).buffer.lines addr ≡ true }
        ensures bus { bus_in self.new ≡ after_publish_line (bus_in self.old) core addr }
        ensures hurt { (k : ℕ) → is_in result k ≡ message_spec.violates (bus_in self.old)
            (message_spec.message_of (bus_in self.old) Publish core addr) k }
    {
        let copy = *self.copy(core, addr);
        let survey = self.survey(Notice::Publish, core, addr);
        let next = settled(copy.state, copy.marks, survey.alone);
        let line = copy.cells;
        let sent = Sent {
            notice: Notice::Publish,
            sender: core,
            addr,
            line,
            hurt: survey.hurt,
        };
        self.claim(&sent, next);
        self.cores[core].release(addr);
        survey.hurt
    }

    /// This core publishes: what it saw is committed, and its attempt is straight. The lines of its buffer go one after the other, in
    /// the order in which they entered. Answers the cores that are violated.
    pub(crate) fn publish(&mut self, core: usize) -> CoreSet
        requires { IsOnBus self.old core }
        ensures bus { bus_in self.new ≡ after_publish (bus_in self.old) core }
        ensures hurt { (k : ℕ) → is_in result k ≡ publish_violates (bus_in self.old) core k }
    {
        let mut hurt = CoreSet::none();
        while let Some(addr) = self.core(core).orb.at(0) {
            hurt = union(hurt, self.publish_line(core, addr));
        }
        self.cores[core].settle();
        hurt
    }
}
