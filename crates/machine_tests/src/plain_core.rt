//! One core of the plain bus: its lines, its buffer and its attempt.

use spec_states::LineState;
use violations::Attempt;

/// The bytes of the longest line.
pub const LINE: usize = 64;

/// The most lines of a core, and of its buffer. Where a set has w ways, those of set s are at the places w s to w s + w - 1.
pub const PLACES: usize = 64;

/// A line of a core.
#[derive(Clone, Copy)]
pub struct PlainLine {
    pub addr: u32,
    pub state: LineState,
    pub loaded: bool,
    /// The bytes that the core's epoch has stored, a bit for each.
    pub bytes: u64,
    pub cells: [u8; LINE],
}

impl PlainLine {
    /// A line that the core doesn't hold.
    pub fn none() -> PlainLine {
        PlainLine {
            addr: 0,
            state: LineState::I,
            loaded: false,
            bytes: 0,
            cells: [0; LINE],
        }
    }

    /// It is a copy of the line at this address.
    pub fn is_copy_of(&self, addr: u32) -> bool {
        self.state != LineState::I && self.addr == addr
    }

    /// It carries marks.
    pub fn is_marked(&self) -> bool {
        self.state == LineState::SpS || self.state == LineState::SpE
    }

    /// The core may store to it and tell nobody.
    pub fn is_owned(&self) -> bool {
        self.state == LineState::SpE || self.state == LineState::SpS && self.bytes != 0
    }

    /// The line is gone.
    pub fn invalidate(&mut self) {
        self.state = LineState::I;
        self.loaded = false;
        self.bytes = 0;
    }

    /// The violation of the core's epoch.
    pub fn roll_back(&mut self) {
        self.state = match self.state {
            LineState::SpE | LineState::SpS if self.bytes != 0 => LineState::I,
            LineState::SpE => LineState::E,
            LineState::SpS => LineState::S,
            other => other,
        };
        self.loaded = false;
        self.bytes = 0;
    }

    /// The core's own publish, of a line for which no other core has to be asked.
    pub fn settle(&mut self) {
        self.state = match self.state {
            LineState::SpE if self.bytes != 0 => LineState::M,
            LineState::SpE => LineState::E,
            LineState::SpS => LineState::S,
            other => other,
        };
        self.loaded = false;
        self.bytes = 0;
    }

    /// The bytes that the core's epoch has stored, beside those of this committed line.
    pub fn merged(&self, committed: &[u8; LINE]) -> [u8; LINE] {
        let mut line = *committed;
        for place in 0..LINE {
            if self.bytes >> (place as u32) & 1 == 1 {
                line[place] = self.cells[place];
            }
        }
        line
    }
}

/// The mask of an access at this place of a line.
pub fn mask_of(offset: u32, width: u32) -> u64 {
    let ones: u64 = match width {
        1 => 1,
        2 => 3,
        _ => 15,
    };
    ones << (offset % 64)
}

/// A core.
#[derive(Clone, Copy)]
pub struct PlainCore {
    pub lines: [PlainLine; PLACES],
    /// The lines of the ownership required buffer, in the order in which they entered it.
    pub buffer: [Option<u32>; PLACES],
    pub attempt: Option<Attempt>,
}

impl PlainCore {
    /// A core that holds nothing and runs nothing.
    pub fn idle() -> PlainCore {
        PlainCore {
            lines: [PlainLine::none(); PLACES],
            buffer: [None; PLACES],
            attempt: None,
        }
    }

    /// The place of the line at this address.
    pub fn place_of(&self, addr: u32) -> Option<usize> {
        for place in 0..PLACES {
            if self.lines[place].is_copy_of(addr) {
                return Some(place);
            }
        }
        None
    }

    /// The core's copy of the line at this address.
    pub fn line(&self, addr: u32) -> PlainLine {
        match self.place_of(addr) {
            Some(place) => self.lines[place % PLACES],
            None => PlainLine::none(),
        }
    }

    /// The place that a new line of this set, of so many ways, takes: the first without a line, else the first without marks.
    pub fn victim(&self, set: usize, ways: usize) -> Option<usize> {
        let mut unmarked = None;
        for place in 0..PLACES {
            if place / ways.max(1) == set {
                let line = &self.lines[place];
                if line.state == LineState::I {
                    return Some(place);
                }
                if unmarked.is_none() && !line.is_marked() {
                    unmarked = Some(place);
                }
            }
        }
        unmarked
    }

    /// The buffer has as many lines as it may have.
    pub fn is_full(&self, limit: usize) -> bool {
        self.buffer[(limit % (PLACES + 1)).saturating_sub(1)].is_some()
    }

    /// The line enters the buffer behind all others.
    pub fn enter(&mut self, addr: u32) {
        for entry in self.buffer.iter_mut() {
            if entry.is_none() {
                *entry = Some(addr);
                return;
            }
        }
    }

    /// The core's epoch is violated or given up.
    pub fn drop_attempt(&mut self) {
        for line in self.lines.iter_mut() {
            line.roll_back();
        }
        self.buffer = [None; PLACES];
        self.attempt = None;
    }

    /// All lines that are still marked are settled.
    pub fn settle(&mut self) {
        for line in self.lines.iter_mut() {
            line.settle();
        }
        self.buffer = [None; PLACES];
    }

    /// It runs a later epoch than this one.
    pub fn is_later_than(&self, epoch: u32) -> bool {
        match self.attempt {
            Some(attempt) => epoch < attempt.epoch,
            None => false,
        }
    }

    /// It runs an earlier epoch than this one.
    pub fn is_earlier_than(&self, epoch: u32) -> bool {
        match self.attempt {
            Some(attempt) => attempt.epoch < epoch,
            None => false,
        }
    }
}
