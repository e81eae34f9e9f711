ghost use Rattle.std.specs.Prelude.{◌≡◌, ℕ, ◌<◌, ◌≤◌, ◌%◌, ◌&&◌, true, false, Some, slice_index, if◌then◌else◌, IfOk};
ghost use Rattle.memory_bytes.specs.Bytes.{IsWidth};
ghost use Rattle.spec_states.specs.Copies.{IsMarked, no_copy};
ghost use Rattle.spec_states.specs.Mask.{IsWithinLine};
ghost use Rattle.spec_states.specs.States.{is_valid, is_speculative};
ghost use Rattle.rv32_image.specs.Machine.{IsMachine};
ghost use Rattle.cache_lines.specs.Protocol.{IsInPlace, copy_at, copy_with_number};
ghost use Rattle.orb.specs.Lines.{holds, is_full, without};
ghost use Rattle.bus_states.specs.Messages.{with_copy, with_entry, dropped_core, changed_core, without_line, order, reply_to, bytes_after};
ghost use Rattle.bus_states.specs.Straight.{straight_attempt, settled_core};
ghost use Rattle.spec_bus.specs.CoreStates.{state_of, MayChange, MayHear, heard};
ghost use Rattle.spec_bus.specs.Fresh.{idle_core};
ghost use Rattle.spec_bus.specs.Parts.{room_in};

use crate::memory;
use bus_states::{Notice, answer};
use cache_lines::{Cache, Line};
use orb::Orb;
use rv32_image::Machine;
use spec_states::{LONGEST_LINE, LineState, Marks, Next};
use std::alloc::{AllocError, Global};
use violations::Attempt;

/// A core: its cache, its ownership required buffer, its attempt.
#[derive(Drop)]
pub struct Core {
    pub cache: Cache,
    pub orb: Orb,
    pub attempt: Option<Attempt>,
}

/// The attempt that is straight then, where there is one.
fn straightened(attempt: Option<Attempt>) -> Option<Attempt>
    ensures { result ≡ straight_attempt attempt }
{
    match attempt {
        Some(attempt) => Some(Attempt {
            straight: true,
            ..attempt
        }),
        None => None,
    }
}

impl Core {
    /// A core of this machine that holds nothing and runs nothing.
    ///
    /// `AllocError`: there was no memory for it.
    pub(crate) fn idle(alloc: Global, machine: Machine) -> Result<Core, AllocError>
        requires { IsMachine machine }
        ensures { IfOk result (λ core. state_of core ≡ idle_core machine) }
    {
        let cache = Cache::with_geometry(
            alloc,
            machine.line_length as usize,
            machine.sets as usize,
            machine.ways as usize,
        )?;
        Ok(Core {
            cache,
            orb: Orb::new(machine.buffer_lines as usize),
            attempt: None,
        })
    }

    /// The core's copy of the line at `addr`; an invalid line where it has none.
    pub(crate) fn line_at(&self, addr: u32) -> &Line
        ensures state { result.now.state ≡ (copy_at self.now.cache addr).state }
        ensures marks { result.now.marks ≡ (copy_at self.now.cache addr).marks }
        ensures cells { (x : ℕ) → slice_index result.now.cells x ≡ (copy_at self.now.cache addr).cell x }
        ensures in_place { IsInPlace self.now.cache.line_length addr (copy_at self.now.cache addr) }
    {
        match self.cache.find(addr) {
            Some(way) => self.cache.line(addr, way),
            None => &Line::INVALID,
        }
    }

    /// The line at `addr` enters the buffer where `next` says so.
    fn enter_if(&mut self, enters: bool, addr: u32)
        requires entry { enters ≡ true → holds self.old.orb.lines addr ≡ false }
        requires room { (enters && is_full self.old.orb) ≡ false }
        ensures orb { self.new.orb ≡ with_entry enters addr self.old.orb }
        ensures cache { self.new.cache ≡ self.old.cache }
        ensures attempt { self.new.attempt ≡ self.old.attempt }
    {
        if enters {
            match self.orb.enter(addr) {
                Ok(()) => (),
                Err(_) => unreachable!(),
            }
        }
    }

    /// The core's copy of the line at `addr` changes so, with these bytes.
    pub(crate) fn change(&mut self, addr: u32, next: Next, cells: [u8; LONGEST_LINE])
        requires held { is_valid next.state ≡ true → is_valid (copy_at self.old.cache addr).state ≡ true }
        requires may { MayChange (state_of self.old) addr next }
        requires past { (x : ℕ) → self.old.cache.line_length ≤ x → slice_index cells x ≡ 0 }
        ensures { state_of self.new ≡ changed_core addr next (slice_index cells) (state_of self.old) }
    {
        if let Some(way) = self.cache.find(addr) {
            self.cache.fill(
                way,
                Line {
                    addr,
                    state: next.state,
                    marks: next.marks,
                    cells,
                },
            );
        }
        self.enter_if(next.enters, addr);
    }

    /// The core's copy of the line at `addr`, which doesn't enter the buffer, gets the state and the marks of this change.
    pub(crate) fn mark(&mut self, addr: u32, next: Next)
        requires held { is_valid next.state ≡ true → is_valid (copy_at self.old.cache addr).state ≡ true }
        requires mask { IsWithinLine self.old.cache.line_length next.marks.bytes }
        requires silent { next.enters ≡ false }
        ensures { state_of self.new ≡ changed_core addr next (copy_at self.old.cache addr).cell (state_of self.old) }
    {
        if let Some(way) = self.cache.find(addr) {
            self.cache.mark(addr, way, next);
        }
    }

    /// A line at `addr`, which the core does not hold, comes into this way of its set, changed so and with these bytes.
    pub(crate) fn fill(&mut self, addr: u32, way: usize, next: Next, cells: [u8; LONGEST_LINE])
        requires way { way < self.old.cache.geometry.ways }
        requires aligned { addr % self.old.cache.line_length ≡ 0 }
        requires absent { is_valid (copy_at self.old.cache addr).state ≡ false }
        requires valid { is_valid next.state ≡ true }
        requires may { MayChange (state_of self.old) addr next }
        requires past { (x : ℕ) → self.old.cache.line_length ≤ x → slice_index cells x ≡ 0 }
        ensures { state_of self.new ≡ changed_core addr next (slice_index cells)
            (without_line addr (Some (room_in self.old.cache addr way)) (state_of self.old)) }
    {
        let _nowhere = self.cache.find(addr);
        self.cache.fill(
            way,
            Line {
                addr,
                state: next.state,
                marks: next.marks,
                cells,
            },
        );
        self.enter_if(next.enters, addr);
    }

    /// The core drops its attempt: its lines are rolled back, its buffer is empty.
    pub(crate) fn drop_attempt(&mut self)
        ensures { state_of self.new ≡ dropped_core (state_of self.old) }
    {
        self.cache.roll_back_all();
        self.orb.clear();
        self.attempt = None;
    }

    /// The line at `addr` leaves the buffer.
    pub(crate) fn release(&mut self, addr: u32)
        ensures { state_of self.new ≡ record (state_of self.old) {
          buffer = record (state_of self.old).buffer { lines = without addr (state_of self.old).buffer.lines };
        } }
    {
        self.orb.remove(addr);
    }

    /// Every line that the core holds is settled, its buffer is empty, and its attempt is straight.
    pub(crate) fn settle(&mut self)
        ensures { state_of self.new ≡ settled_core (state_of self.old) }
    {
        self.cache.settle_all();
        self.orb.clear();
        self.attempt = straightened(self.attempt);
    }

    /// The low `width` bytes of `value` are written into the core's copy of the line at `addr`.
    pub(crate) fn write(&mut self, addr: u32, offset: u32, width: u32, value: u32)
        requires held { is_valid (copy_at self.old.cache addr).state ≡ true }
        requires in_line { offset < self.old.cache.line_length }
        requires width { IsWidth width }
        requires aligned { offset % width ≡ 0 }
        ensures { state_of self.new
            ≡ with_copy addr (copy_with_number offset width value (copy_at self.old.cache addr)) (state_of self.old) }
    {
        if let Some(way) = self.cache.find(addr) {
            self.cache.write_bytes(addr, way, offset, width, value);
        }
    }

    /// A message about the line at `addr` violates the core's attempt: the core drops it, and the line is gone.
    fn violate(&mut self, addr: u32)
        ensures { state_of self.new ≡ with_copy addr no_copy (dropped_core (state_of self.old)) }
    {
        self.drop_attempt();
        let gone = Next {
            state: LineState::I,
            marks: Marks::NONE,
            write_back: false,
            enters: false,
            violated: true,
        };
        self.change(addr, gone, [0; LONGEST_LINE]);
    }

    /// The core hears a notice of another core about the line at `addr`, which has these bytes for that core. `later` says that
    /// this core runs a later epoch than the other one. The message violates its attempt, or changes its copy.
    pub(crate) fn hear(
        &mut self,
        addr: u32,
        notice: Notice,
        later: bool,
        violated: bool,
        sent: &[u8; LONGEST_LINE],
    )
        requires may_hear { MayHear (state_of self.old) addr violated
            (reply_to notice (copy_at self.old.cache addr).state (copy_at self.old.cache addr).marks (order later)) }
        requires past { (x : ℕ) → self.old.cache.line_length ≤ x → slice_index sent.now x ≡ 0 }
        ensures { state_of self.new ≡ heard addr violated
            (reply_to notice (copy_at self.old.cache addr).state (copy_at self.old.cache addr).marks (order later))
            (bytes_after notice
            (reply_to notice (copy_at self.old.cache addr).state (copy_at self.old.cache addr).marks (order later)).marks.bytes
            (copy_at self.old.cache addr).cell (slice_index sent.now)) (state_of self.old) }
    {
        if violated {
            self.violate(addr);
        } else {
            self.answer(addr, notice, later, sent);
        }
    }

    /// Another core's notice about the line at `addr`, which has these bytes for that core, changes this core's copy.
    fn answer(&mut self, addr: u32, notice: Notice, later: bool, sent: &[u8; LONGEST_LINE])
        requires marked { is_speculative (copy_at self.old.cache addr).state ≡ true
            → IsMarked (copy_at self.old.cache addr).marks }
        requires past { (x : ℕ) → self.old.cache.line_length ≤ x → slice_index sent.now x ≡ 0 }
        requires entry { (reply_to notice (copy_at self.old.cache addr).state (copy_at self.old.cache addr).marks (order later)).enters ≡ true
            → holds self.old.orb.lines addr ≡ false }
        requires room { ((reply_to notice (copy_at self.old.cache addr).state (copy_at self.old.cache addr).marks (order later)).enters
            && is_full self.old.orb) ≡ false }
        ensures { state_of self.new ≡ changed_core addr
            (reply_to notice (copy_at self.old.cache addr).state (copy_at self.old.cache addr).marks (order later))
            (bytes_after notice
            (reply_to notice (copy_at self.old.cache addr).state (copy_at self.old.cache addr).marks (order later)).marks.bytes
            (copy_at self.old.cache addr).cell (slice_index sent.now)) (state_of self.old) }
    {
        let line = self.line_at(addr);
        let next = answer(notice, line.state, line.marks, later);
        let marked = Line {
            marks: next.marks,
            ..*line
        };
        let cells = memory::bytes_after(notice, &marked, sent);
        self.change(addr, next, cells);
    }
}
