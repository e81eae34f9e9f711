//! Bytes that have lines of their own.
ghost use Rattle.std.specs.Prelude.{◌≡◌, ◌↔◌, ◌<◌, ◌≤◌, IsTrue};
ghost use Rattle.rv32_image.specs.Places as spec;

/// Bytes of memory that have lines of their own: each piece of them has one, behind memory.
#[derive(Clone, Copy, PartialEq, Eq)]
pub struct Apart {
    /// The address of the first of them: a multiple of 4.
    pub first: u32,
    /// How many they are: a multiple of 4, not 0.
    pub length: u32,
    /// Bytes of a piece: a multiple of 4, not 0, and at most a line. The last piece may be shorter.
    pub piece: u32,
}

impl Apart {
    /// Whether they are whole words of a memory of so many bytes, and a piece is whole words that fit into a line.
    pub(crate) fn fits(self, size: u32, line_length: u32) -> bool
        ensures { IsTrue result ↔ spec.FitsApart size line_length self }
    {
        1 <= self.length
            && self.first <= size
            && self.length <= size - self.first
            && self.first % 4 == 0
            && self.length % 4 == 0
            && 1 <= self.piece
            && self.piece % 4 == 0
            && self.piece <= line_length
    }

    /// Whether the byte is one of them.
    fn has(self, addr: u32) -> bool
        ensures { result ≡ spec.lies_apart self addr }
    {
        self.first <= addr && addr - self.first < self.length
    }

    /// The place of a byte, of a memory of so many bytes.
    pub(crate) fn place(self, line_length: u32, size: u32, addr: u32) -> u32
        requires fits { spec.FitsApart size line_length self }
        requires short { line_length ≤ 64 }
        requires small { size ≤ 1048576 }
        requires within { addr ≤ size }
        ensures { result ≡ spec.place_with self line_length size addr }
    {
        if self.has(addr) {
            let x = addr - self.first;
            size + (x / self.piece * line_length + x % self.piece)
        } else if addr < size {
            addr
        } else {
            addr + ((self.length - 1) / self.piece + 1) * line_length
        }
    }
}
