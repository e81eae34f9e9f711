//! Speculative loads and stores.
ghost use Rattle.std.specs.Prelude.{◌≡◌, ◌+◌, ◌<◌, ◌≤◌, ◌^◌, ◌&&◌, true, false, length, Some, IfOk, IfErr};
ghost use Rattle.spec_states.specs.States.{is_valid};
ghost use Rattle.violations.specs.CoreSet.{is_in};
ghost use Rattle.bus_states.specs.Bus.{sees};
ghost use Rattle.bus_states.specs.Messages as message_spec;
ghost use Rattle.memory_bytes.specs.Bytes.{number_at};
ghost use Rattle.bus_states.specs.Speculative as speculative;
ghost use Rattle.spec_bus.specs.Parts.{IsAccessIn, IsAtLine, LoadAnswers, MaySend, StoreAnswers, bus_in, line_at, room_at};
ghost use Rattle.spec_bus.specs.Answers.{MayTake, full_or_busy, IsTaken};
ghost use Rattle.spec_states.specs.Rows.{owns_line};
ghost use Rattle.bus_states.specs.declared.notice.Notice.TheVariants.{Load};

use crate::messages::Sent;
use crate::parts::{Parts, Survey};
use bus_states::Notice;
use cache_lines::Line;
use spec_states::{LineState, Marks, Next, after_own_load, after_own_store};
use violations::{CoreSet, Step, WaitCause};

/// Whether a core owns a line with such a copy, so that it may store to it and tell nobody.
pub(crate) fn owns_line(state: LineState, marks: Marks) -> bool
    ensures { result ≡ owns_line state marks }
{
    match state {
        LineState::SpE => true,
        LineState::SpS => marks.bytes != 0,
        _ => false,
    }
}

impl Parts {
    /// A load of a line that the core holds.
    fn load_hit(&mut self, core: usize, addr: u32, offset: u32, width: u32) -> u32
        requires access { IsAccessIn self.old core addr offset width }
        requires held { is_valid (((bus_in self.old).core core).copy addr).state ≡ true }
        ensures bus { bus_in self.new ≡ speculative.kept_line (bus_in self.old) core addr
            (speculative.load_next (bus_in self.old) core addr offset width) }
        ensures value { result ≡ number_at (sees (bus_in self.old) core addr) offset width }
        ensures small { result < 256 ^ width }
    {
        let copy = self.copy(core, addr);
        let next = after_own_load(copy.state, copy.marks, offset, width, true);
        let value = copy.number_at(offset, width);
        self.keep(core, addr, next);
        value
    }

    /// A load of a line that the core doesn't hold, which comes into this way.
    fn load_miss(
        &mut self,
        core: usize,
        addr: u32,
        offset: u32,
        width: u32,
        way: usize,
        survey: Survey,
    ) -> u32
        requires access { IsAccessIn self.old core addr offset width }
        requires way { way < ((bus_in self.old).core core).geometry.ways }
        requires absent { is_valid (((bus_in self.old).core core).copy addr).state ≡ false }
        requires may { MaySend self.old Load core addr (is_in survey.hurt) }
        requires alone { survey.alone ≡ message_spec.is_alone (bus_in self.old) (message_spec.message_of (bus_in self.old) Load core addr) }
        ensures bus { bus_in self.new
            ≡ message_spec.after_message (bus_in self.old) (message_spec.message_of (bus_in self.old) Load core addr)
            (line_at self.old.cores.items core addr (Some way)) (speculative.load_next (bus_in self.old) core addr offset width) }
        ensures value { result ≡ number_at (sees (bus_in self.old) core addr) offset width }
        ensures small { result < 256 ^ width }
    {
        let copy = self.copy(core, addr);
        let line = self.committed_line(addr);
        let next = after_own_load(copy.state, copy.marks, offset, width, survey.alone);
        let sent = Sent {
            notice: Notice::Load,
            sender: core,
            addr,
            line,
            hurt: survey.hurt,
        };
        self.fetch(&sent, way, next);
        let fetched = Line {
            addr,
            state: next.state,
            marks: next.marks,
            cells: line,
        };
        fetched.number_at(offset, width)
    }

    /// A speculative load of `width` bytes at `offset` of the line at `addr`.
    pub(crate) fn load(&mut self, core: usize, addr: u32, offset: u32, width: u32) -> Step
        requires { IsAccessIn self.old core addr offset width }
        ensures { LoadAnswers result self.old self.new core addr offset width }
    {
        if self.copy(core, addr).state.is_valid() {
            return Step::Done {
                value: self.load_hit(core, addr, offset, width),
                hurt: CoreSet::none(),
            };
        }
        let Some(way) = self.core(core).cache.victim(addr) else {
            return Step::Wait(WaitCause::NoWay);
        };
        let survey = self.survey(Notice::Load, core, addr);
        if survey.busy {
            return Step::Wait(WaitCause::OrbBusy);
        }
        Step::Done {
            value: self.load_miss(core, addr, offset, width, way, survey),
            hurt: survey.hurt,
        }
    }

    /// Why a speculative load from the line at `addr` waits, where it does.
    pub(crate) fn load_wait(&self, core: usize, addr: u32) -> Option<WaitCause>
        requires { IsAtLine self.now core addr }
        ensures { result ≡ speculative.load_wait (bus_in self.now) core addr (room_at self.now.cores.items core addr) }
    {
        if self.copy(core, addr).state.is_valid() {
            return None;
        }
        let Some(_way) = self.core(core).cache.victim(addr) else {
            return Some(WaitCause::NoWay);
        };
        if self.survey(Notice::Load, core, addr).busy {
            return Some(WaitCause::OrbBusy);
        }
        None
    }

    /// What a store makes of this core's copy of a line that it doesn't own, and whom its message violates; or why it waits.
    fn survey_store(
        &self,
        core: usize,
        addr: u32,
        offset: u32,
        width: u32,
    ) -> Result<(Next, CoreSet), WaitCause>
        requires { IsAccessIn self.now core addr offset width }
        ensures may { IfOk result (λ taken. MayTake (bus_in self.now) core addr offset width taken.0 (is_in taken.1)) }
        ensures waits { IfErr result (λ cause. full_or_busy (bus_in self.now) core addr offset width ≡ Some cause) }
    {
        let copy = self.copy(core, addr);
        let survey = self.survey(Notice::Store, core, addr);
        let next = after_own_store(copy.state, copy.marks, offset, width, survey.alone);
        let full = self.core(core).orb.is_full();
        if next.enters && full {
            Err(WaitCause::OrbFull)
        } else if survey.busy {
            Err(WaitCause::OrbBusy)
        } else {
            Ok((next, survey.hurt))
        }
    }

    /// Why a speculative store of `width` bytes at `offset` of the line at `addr` waits, where it does.
    pub(crate) fn store_wait(
        &self,
        core: usize,
        addr: u32,
        offset: u32,
        width: u32,
    ) -> Option<WaitCause>
        requires { IsAccessIn self.now core addr offset width }
        ensures { result ≡ speculative.store_wait (bus_in self.now) core addr offset width (room_at self.now.cores.items core addr) }
    {
        let copy = self.copy(core, addr);
        if owns_line(copy.state, copy.marks) {
            return None;
        }
        if !copy.state.is_valid() {
            let Some(_way) = self.core(core).cache.victim(addr) else {
                return Some(WaitCause::NoWay);
            };
        }
        match self.survey_store(core, addr, offset, width) {
            Ok(_) => None,
            Err(cause) => Some(cause),
        }
    }

    /// The core takes hold of the line of its store, or has to wait.
    fn take_hold(
        &mut self,
        core: usize,
        addr: u32,
        offset: u32,
        width: u32,
    ) -> Result<CoreSet, WaitCause>
        requires { IsAccessIn self.old core addr offset width }
        ensures taken { IfOk result (λ hurt. IsTaken (bus_in self.old) (bus_in self.new) core addr offset width
            (room_at self.old.cores.items core addr) (is_in hurt)) }
        ensures waits { IfErr result (λ cause. (speculative.store_wait (bus_in self.old) core addr offset width
            (room_at self.old.cores.items core addr) ≡ Some cause) × (self.new ≡ self.old)) }
    {
        let copy = self.copy(core, addr);
        if owns_line(copy.state, copy.marks) {
            let next = after_own_store(copy.state, copy.marks, offset, width, true);
            self.keep(core, addr, next);
            return Ok(CoreSet::none());
        }
        if copy.state.is_valid() {
            let line = copy.cells;
            let (next, hurt) = self.survey_store(core, addr, offset, width)?;
            let sent = Sent {
                notice: Notice::Store,
                sender: core,
                addr,
                line,
                hurt,
            };
            self.claim(&sent, next);
            Ok(hurt)
        } else {
            let Some(way) = self.core(core).cache.victim(addr) else {
                return Err(WaitCause::NoWay);
            };
            let (next, hurt) = self.survey_store(core, addr, offset, width)?;
            let line = self.committed_line(addr);
            let sent = Sent {
                notice: Notice::Store,
                sender: core,
                addr,
                line,
                hurt,
            };
            self.fetch(&sent, way, next);
            Ok(hurt)
        }
    }

    /// A speculative store of the low `width` bytes of `value` at `offset` of the line at `addr`.
    pub(crate) fn store(
        &mut self,
        core: usize,
        addr: u32,
        offset: u32,
        width: u32,
        value: u32,
    ) -> Step
        requires { IsAccessIn self.old core addr offset width }
        ensures { StoreAnswers result self.old self.new core addr offset width value }
    {
        match self.take_hold(core, addr, offset, width) {
            Ok(hurt) => {
                self.cores[core].write(addr, offset, width, value);
                Step::Done { value: 0, hurt }
            }
            Err(cause) => Step::Wait(cause),
        }
    }
}
