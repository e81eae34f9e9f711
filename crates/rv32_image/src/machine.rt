ghost use Rattle.std.specs.Prelude.{◌≡◌, ◌↔◌, ◌%◌, ◌≤◌, IsTrue, true};
ghost use Rattle.rv32_image.specs.Machine.{IsMachine, IsMachineFor, is_line_length, is_set_count};
ghost use Rattle.rv32_image.specs.Places.{AllowsApart, place};

use crate::apart::Apart;

/// How large the caches of a machine are, and which bytes have lines of their own.
#[derive(Clone, Copy, PartialEq, Eq)]
pub struct Machine {
    /// Bytes of a line: 16, 32 or 64.
    pub line_length: u32,
    /// Sets of a cache: a power of two, 1 to 1,024. The line at an address stands in set (address / line length) mod sets.
    pub sets: u32,
    /// Ways of a set: 1 to 16.
    pub ways: u32,
    /// Lines of an ownership required buffer: 1 to 64.
    pub buffer_lines: u32,
    /// Bytes that have lines of their own, if there are such.
    pub apart: Option<Apart>,
}

impl Machine {
    /// Whether there is such a machine, and a memory of so many bytes is a whole number of its lines and has what lies apart.
    pub fn fits(self, size: u32) -> bool
        ensures { IsTrue result ↔ IsMachineFor size self }
    {
        self.has_lines(size) && self.allows_apart(size)
    }

    /// Whether there are such caches, and a memory of so many bytes is a whole number of their lines.
    fn has_lines(self, size: u32) -> bool
        ensures { IsTrue result ↔ (IsMachine self × (size % self.line_length ≡ 0)) }
    {
        is_line_length(self.line_length)
            && is_set_count(self.sets)
            && 1 <= self.ways
            && self.ways <= 16
            && 1 <= self.buffer_lines
            && self.buffer_lines <= 64
            && size % self.line_length == 0
    }

    /// Whether what lies apart fits into a memory of so many bytes, and its pieces into the lines.
    fn allows_apart(self, size: u32) -> bool
        ensures { IsTrue result ↔ AllowsApart size self.line_length self.apart }
    {
        match self.apart {
            None => true,
            Some(apart) => apart.fits(size, self.line_length),
        }
    }

    /// The place of a byte of a memory of so many bytes: where it lies for the caches. All places lie below that of the end of memory.
    #[tactic(auto, unfolding(crate::specs::Places::place))]
    pub fn place(self, size: u32, addr: u32) -> u32
        requires fits { IsMachineFor size self }
        requires small { size ≤ 1048576 }
        requires within { addr ≤ size }
        ensures { result ≡ place self size addr }
    {
        match self.apart {
            None => addr,
            Some(apart) => apart.place(self.line_length, size, addr),
        }
    }
}

fn is_line_length(bytes: u32) -> bool
    ensures { result ≡ is_line_length bytes }
{
    bytes == 16 || bytes == 32 || bytes == 64
}

fn is_set_count(sets: u32) -> bool
    ensures { result ≡ is_set_count sets }
{
    matches!(sets, 1 | 2 | 4 | 8 | 16 | 32 | 64 | 128 | 256 | 512 | 1024)
}
