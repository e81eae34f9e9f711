//! Messages on the bus, and changes that nobody is told of.
ghost use Rattle.std.specs.Prelude.{if◌then◌else◌, ◌≡◌, ℕ, ◌+◌, ◌<◌, ◌≤◌, ◌&&◌, true, false, length, slice_get, slice_index, Some, None};
ghost use Rattle.spec_states.specs.declared.line.TheConstants.{LONGEST_LINE};
ghost use Rattle.spec_states.specs.States.{is_valid, is_modified};
ghost use Rattle.orb.specs.Lines.{is_full};
ghost use Rattle.bus_states.specs.Messages as message_spec;
ghost use Rattle.spec_states.specs.Mask.{IsWithinLine};
ghost use Rattle.bus_states.specs.Speculative as speculative;
ghost use Rattle.spec_bus.specs.CoreStates.{MayChange};
ghost use Rattle.spec_bus.specs.Parts.{bus_in, line_at, message_in, IsAtLine, IsToSend, IsTold};

use crate::memory::{write_line, write_line_if};
use crate::parts::Parts;
use bus_states::Notice;
use cache_lines::Line;
use spec_states::{LONGEST_LINE, Next};
use violations::CoreSet;

/// What a core sends about the line at `addr`, which has these bytes for it, and whom it violates.
#[derive(Drop)]
pub struct Sent {
    pub notice: Notice,
    pub sender: usize,
    pub addr: u32,
    pub line: [u8; LONGEST_LINE],
    pub hurt: CoreSet,
}

/// Puts a line of a cache into memory, where it is M.
pub(crate) fn write_back(memory: &mut [u8], line_length: usize, line: Line)
    requires inside { is_modified line.state ≡ true → line.addr + line_length ≤ length memory.old }
    requires short { line_length ≤ LONGEST_LINE }
    ensures { slice_index memory.new ≡ (if is_modified line.state then
        message_spec.with_line line_length line.addr (slice_index line.cells) (slice_index memory.old) else slice_index memory.old) }
{
    write_line_if(
        line.state.is_modified(),
        memory,
        line.addr as usize,
        line_length,
        &line.cells,
    );
}

impl Parts {
    /// The other cores hear what a core sends.
    pub(crate) fn tell(&mut self, sent: &Sent)
        requires { IsToSend self.old sent.now }
        ensures own { slice_get self.new.cores.items sent.now.sender ≡ slice_get self.old.cores.items sent.now.sender }
        ensures told { IsTold (bus_in self.old) (bus_in self.new) (message_in sent.now) }
        ensures memory { self.new.memory ≡ self.old.memory }
        ensures code { self.new.code ≡ self.old.code }
        ensures machine { self.new.machine ≡ self.old.machine }
    {
        for k in 0..self.cores.len() {
            if k != sent.sender {
                let later = self.is_later(sent.sender, k);
                let violated = sent.hurt.has(k as u32);
                self.cores[k].hear(sent.addr, sent.notice, later, violated, &sent.line);
            }
        }
    }

    /// A core sends this about a line of memory, which it doesn't hold, and takes the line into this way, whose line leaves.
    pub(crate) fn fetch(&mut self, sent: &Sent, way: usize, next: Next)
        requires sends { IsToSend self.old sent.now }
        requires way { way < ((bus_in self.old).core sent.now.sender).geometry.ways }
        requires inside { sent.now.addr + self.old.machine.line_length ≤ length self.old.memory.items }
        requires absent { is_valid (((bus_in self.old).core sent.now.sender).copy sent.now.addr).state ≡ false }
        requires valid { is_valid next.state ≡ true }
        requires mask { IsWithinLine self.old.machine.line_length next.marks.bytes }
        requires room { (next.enters && is_full ((bus_in self.old).core sent.now.sender).buffer) ≡ false }
        ensures { bus_in self.new ≡ message_spec.after_message (bus_in self.old) (message_in sent.now)
            (line_at self.old.cores.items sent.now.sender sent.now.addr (Some way)) next }
    {
        let victim = *self.core(sent.sender).cache.line(sent.addr, way);
        self.tell(sent);
        self.cores[sent.sender].fill(sent.addr, way, next, sent.line);
        let length = self.machine.line_length as usize;
        write_back(self.memory.as_mut_slice(), length, victim);
        write_line(
            self.memory.as_mut_slice(),
            sent.addr as usize,
            length,
            &sent.line,
        );
    }

    /// This core's copy of a line that it holds changes so, and nobody is told.
    pub(crate) fn keep(&mut self, core: usize, addr: u32, next: Next)
        requires place { IsAtLine self.old core addr }
        requires held { is_valid (((bus_in self.old).core core).copy addr).state ≡ true }
        requires mask { IsWithinLine self.old.machine.line_length next.marks.bytes }
        requires silent { next.enters ≡ false }
        ensures { bus_in self.new ≡ speculative.kept_line (bus_in self.old) core addr next }
    {
        let copy = self.cores[core].line_at(addr);
        let length = self.machine.line_length as usize;
        write_line_if(
            next.write_back,
            self.memory.as_mut_slice(),
            addr as usize,
            length,
            &copy.cells,
        );
        self.cores[core].mark(addr, next);
    }

    /// A core sends this about a line that it holds, and its copy changes so.
    pub(crate) fn claim(&mut self, sent: &Sent, next: Next)
        requires sends { IsToSend self.old sent.now }
        requires held { is_valid (((bus_in self.old).core sent.now.sender).copy sent.now.addr).state ≡ true }
        requires may { MayChange ((bus_in self.old).core sent.now.sender) sent.now.addr next }
        ensures { bus_in self.new ≡ message_spec.after_message (bus_in self.old) (message_in sent.now) None next }
    {
        self.tell(sent);
        self.cores[sent.sender].change(sent.addr, next, sent.line);
        let length = self.machine.line_length as usize;
        write_line(
            self.memory.as_mut_slice(),
            sent.addr as usize,
            length,
            &sent.line,
        );
    }
}
