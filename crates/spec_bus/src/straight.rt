//! Loads and stores of a core whose attempt is straight.
ghost use Rattle.std.specs.Prelude.{if◌then◌else◌, ◌≡◌, ℕ, ◌+◌, ◌<◌, ◌≤◌, ◌^◌, false, length, Some, None};
ghost use Rattle.violations.specs.CoreSet.{is_in};
ghost use Rattle.bus_states.specs.Bus.{sees};
ghost use Rattle.bus_states.specs.Coherent.{speculates};
ghost use Rattle.bus_states.specs.Messages as message_spec;
ghost use Rattle.memory_bytes.specs.Bytes.{number_at};
ghost use Rattle.spec_bus.specs.Parts.{IsOnBus, IsStraightIn, bus_in, line_at, room_at};
ghost use Rattle.bus_states.specs.declared.notice.Notice.TheVariants.{Load, Publish};
ghost use Rattle.spec_states.specs.declared.line.LineState.TheVariants.{S};
ghost use Rattle.bus_states.specs.Straight.{unmarked_next, stores_alone, after_straight_load, straight_load_violates, after_straight_store, straight_store_violates};

use crate::messages::Sent;
use crate::parts::Parts;
use bus_states::Notice;
use cache_lines::Line;
use spec_states::{LineState, Marks, Next};
use violations::CoreSet;

/// A copy goes to this state without marks.
fn unmarked(state: LineState) -> Next
    ensures { result ≡ unmarked_next state }
{
    Next {
        state,
        marks: Marks::NONE,
        write_back: false,
        enters: false,
        violated: false,
    }
}

/// A copy goes to this state where no other core holds the line, else to S.
fn unmarked_if(alone: bool, state: LineState) -> Next
    ensures { result ≡ unmarked_next (if alone then state else S) }
{
    unmarked(if alone { state } else { LineState::S })
}

/// Whether a core may store to an unmarked copy in this state and tell nobody.
pub(crate) fn stores_alone(state: LineState) -> bool
    ensures { result ≡ stores_alone state }
{
    matches!(state, LineState::E | LineState::M)
}

impl Parts {
    /// The way that a line at `addr` takes in the cache of a core that doesn't speculate: no line there is marked, so there is one.
    fn straight_way(&self, core: usize, addr: u32) -> usize
        requires place { IsOnBus self.now core }
        requires straight { speculates ((bus_in self.now).core core).attempt ≡ false }
        ensures way { result < ((bus_in self.now).core core).geometry.ways }
        ensures room { room_at self.now.cores.items core addr ≡ line_at self.now.cores.items core addr (Some result) }
    {
        let cache = &self.core(core).cache;
        let _ways = cache.ways();
        match cache.victim(addr) {
            Some(way) => way,
            None => {
                let _line = cache.line(addr, 0);
                unreachable!()
            }
        }
    }

    /// A load of `width` bytes at `offset` of the line at `addr`, by a core that doesn't speculate. Answers the cores that are violated too.
    pub(crate) fn straight_load(
        &mut self,
        core: usize,
        addr: u32,
        offset: u32,
        width: u32,
    ) -> (u32, CoreSet)
        requires access { IsStraightIn self.old core addr offset width }
        requires free { message_spec.is_busy (bus_in self.old) (message_spec.message_of (bus_in self.old) Load core addr) ≡ false }
        ensures bus { bus_in self.new ≡ after_straight_load (bus_in self.old) core addr (room_at self.old.cores.items core addr) }
        ensures value { result.0 ≡ number_at (sees (bus_in self.old) core addr) offset width }
        ensures small { result.0 < 256 ^ width }
        ensures hurt { (k : ℕ) → is_in result.1 k ≡ straight_load_violates (bus_in self.old) core addr k }
    {
        let copy = *self.copy(core, addr);
        if copy.state.is_valid() {
            return (copy.number_at(offset, width), CoreSet::none());
        }
        let way = self.straight_way(core, addr);
        let survey = self.survey(Notice::Load, core, addr);
        let cells = self.committed_line(addr);
        let next = unmarked_if(survey.alone, LineState::E);
        let sent = Sent {
            notice: Notice::Load,
            sender: core,
            addr,
            line: cells,
            hurt: survey.hurt,
        };
        self.fetch(&sent, way, next);
        let line = Line { cells, ..copy };
        (line.number_at(offset, width), survey.hurt)
    }

    /// A store of the low `width` bytes of `value` at `offset` of the line at `addr`, by a core that doesn't speculate. Answers the
    /// cores that are violated.
    pub(crate) fn straight_store(
        &mut self,
        core: usize,
        addr: u32,
        offset: u32,
        width: u32,
        value: u32,
    ) -> CoreSet
        requires access { IsStraightIn self.old core addr offset width }
        requires free { message_spec.is_busy (bus_in self.old) (message_spec.message_of (bus_in self.old) Publish core addr) ≡ false }
        ensures bus { bus_in self.new
            ≡ after_straight_store (bus_in self.old) core addr offset width value (room_at self.old.cores.items core addr) }
        ensures hurt { (k : ℕ) → is_in result k ≡ straight_store_violates (bus_in self.old) core addr offset width value k }
    {
        let copy = *self.copy(core, addr);
        if stores_alone(copy.state) {
            let stored = copy.with_number(offset, width, value);
            self.cores[core].change(addr, unmarked(LineState::M), stored.cells);
            return CoreSet::none();
        }
        let survey = self.survey(Notice::Publish, core, addr);
        let next = unmarked_if(survey.alone, LineState::M);
        if copy.state.is_valid() {
            let line = copy.with_number(offset, width, value).cells;
            let sent = Sent {
                notice: Notice::Publish,
                sender: core,
                addr,
                line,
                hurt: survey.hurt,
            };
            self.claim(&sent, next);
            return survey.hurt;
        }
        let way = self.straight_way(core, addr);
        let cells = self.committed_line(addr);
        let line = Line { cells, ..copy }
            .with_number(offset, width, value)
            .cells;
        let sent = Sent {
            notice: Notice::Publish,
            sender: core,
            addr,
            line,
            hurt: survey.hurt,
        };
        self.fetch(&sent, way, next);
        survey.hurt
    }
}
