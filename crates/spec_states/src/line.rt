ghost use Rattle.std.specs.Prelude.{◌≡◌, ◌+◌, ◌-◌, ◌^◌, ◌<◌, ◌≤◌};
ghost use Rattle.memory_bytes.specs.Bytes.{IsWidth};
ghost use Rattle.spec_states.specs.Mask.{has, has_all, with_bytes};
ghost use Rattle.spec_states.specs.declared.line.TheConstants.{LONGEST_LINE};
ghost use Rattle.spec_states.specs.States.{is_valid, is_exclusive, is_speculative, is_modified};

/// The bytes of the longest line, and so the bits of a mask.
pub const LONGEST_LINE: usize = 64;

/// The state of a copy of a line: the four of the MESI protocol, and two of copies that carry marks.
#[derive(Clone, Copy, PartialEq, Eq)]
pub enum LineState {
    /// Invalid: the core does not hold the line.
    I,
    /// Shared: other cores may hold it too.
    S,
    /// Exclusive: no other core holds it, and memory is up to date.
    E,
    /// Modified: no other core holds it, and memory may be stale.
    M,
    /// Speculative shared: marked, and other cores may hold it too.
    SpS,
    /// Speculative exclusive: marked, and no other core holds it.
    SpE,
}

impl LineState {
    /// Whether the core holds the line.
    pub fn is_valid(self) -> bool
        ensures { result ≡ is_valid self }
    {
        !matches!(self, LineState::I)
    }

    /// Whether no other core holds the line.
    pub fn is_exclusive(self) -> bool
        ensures { result ≡ is_exclusive self }
    {
        matches!(self, LineState::E | LineState::M | LineState::SpE)
    }

    /// Whether the copy carries marks.
    pub fn is_speculative(self) -> bool
        ensures { result ≡ is_speculative self }
    {
        matches!(self, LineState::SpS | LineState::SpE)
    }

    /// Whether memory may be stale, so that the copy has the committed line.
    pub fn is_modified(self) -> bool
        ensures { result ≡ is_modified self }
    {
        matches!(self, LineState::M)
    }
}

/// The marks of a copy, which SpS and SpE carry.
#[derive(Clone, Copy, PartialEq, Eq)]
pub struct Marks {
    /// Speculatively loaded: the epoch read a byte of the line that it had not stored itself.
    pub loaded: bool,
    /// Speculatively modified: bit i is the byte at address i of the line.
    pub bytes: u64,
}

impl Marks {
    /// No mark.
    pub const NONE: Marks = Marks {
        loaded: false,
        bytes: 0,
    };

    /// Whether the byte at `offset` of the line is modified.
    pub fn has(self, offset: u32) -> bool
        requires { offset < LONGEST_LINE }
        ensures { result ≡ has self.bytes offset }
    {
        self.bytes >> offset & 1 == 1
    }

    /// Whether the `width` bytes from `offset` on are all modified.
    pub(crate) fn has_all(self, offset: u32, width: u32) -> bool
        requires in_line { offset + width ≤ LONGEST_LINE }
        requires width { IsWidth width }
        ensures { result ≡ has_all self.bytes offset width }
    {
        let accessed = span(offset, width);
        self.bytes & accessed == accessed
    }

    /// The mask, and the `width` bytes from `offset` on with it.
    pub(crate) fn with_bytes(self, offset: u32, width: u32) -> u64
        requires in_line { offset + width ≤ LONGEST_LINE }
        requires width { IsWidth width }
        ensures { result ≡ with_bytes self.bytes offset width }
    {
        self.bytes | span(offset, width)
    }
}

/// The mask of the `width` bytes from `offset` on.
fn span(offset: u32, width: u32) -> u64
    requires in_line { offset + width ≤ LONGEST_LINE }
    requires width { IsWidth width }
    ensures { result ≡ 2 ^ (offset + width) - 2 ^ offset }
{
    ((1 << width) - 1) << offset
}
