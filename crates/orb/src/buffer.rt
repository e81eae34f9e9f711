ghost use Rattle.std.specs.Prelude.{◌≡◌, ℕ, ◌≤◌, ◌==◌, ◌↔◌, ◌||◌, ◌&&◌, not, [], ◌∷◌, ◌++◌, length, slice_get, false, All, IsTrue, IsErr, IfSome, IfNone, OnOk, OnErr, codes};
ghost use Rattle.orb.specs.Lines.{Buffer, IsLimit, is_full, holds, without, IsEachOnce, IsBuffer};

use arrayvec::ArrayVec;
use std::marker::Model;
use thiserror::Error;

/// The most lines that a buffer may be given room for.
pub const LARGEST_LIMIT: usize = 64;

/// The buffer has no room for another line.
#[derive(Clone, Copy, Debug, PartialEq, Eq, Error)]
#[error("the ownership required buffer is full")]
pub struct OrbFull;

impl OrbFull {
    /// The error's printed name.
    pub fn name(self) -> &'static str
        ensures { result.now ≡ codes "OrbFull" }
    {
        "OrbFull"
    }
}

/// The addresses of at most `limit` lines, each once, in the order in which they entered.
#[derive(Drop)]
pub struct Orb {
    lines: ArrayVec<u32, LARGEST_LIMIT>,
    limit: usize,
}

impl Model for Orb {
    ghost Value = { Buffer };

    ghost view = { λ orb. record { limit = orb.limit; lines = orb.lines.items } };

    ghost invariant = { λ orb. IsBuffer (record { limit = orb.limit; lines = orb.lines.items }) };
}

impl Orb {
    /// An empty buffer with room for `limit` lines, 1 to 64.
    pub fn new(limit: usize) -> Orb
        requires { IsLimit limit }
        ensures limit { result.limit ≡ limit }
        ensures empty { result.lines ≡ [] }
    {
        Orb {
            lines: ArrayVec::new(),
            limit,
        }
    }

    /// How many lines it has.
    pub fn len(&self) -> usize
        ensures value { result ≡ length self.now.lines }
        ensures within { length self.now.lines ≤ self.now.limit }
        ensures each_once { IsEachOnce self.now.lines }
    {
        self.lines.len()
    }

    /// Whether it has no line.
    pub fn is_empty(&self) -> bool
        ensures { IsTrue result ↔ (self.now.lines ≡ []) }
    {
        self.lines.is_empty()
    }

    /// Whether it has no room for another line.
    pub fn is_full(&self) -> bool
        ensures { result ≡ is_full self.now }
    {
        self.limit == self.lines.len()
    }

    /// Whether it has the line at `addr`.
    pub fn holds(&self, addr: u32) -> bool
        ensures { result ≡ holds self.now.lines addr }
    {
        self.lines.contains(&addr)
    }

    /// The address that entered as number `i`, counted from 0 among those that are there.
    pub fn at(&self, i: usize) -> Option<u32>
        ensures { result ≡ slice_get self.now.lines i }
    {
        self.lines.get(i).copied()
    }

    /// Adds the line at `addr`, which is not there yet, at the end. A full buffer stays as it is.
    pub fn enter(&mut self, addr: u32) -> Result<(), OrbFull>
        requires { holds self.old.lines addr ≡ false }
        ensures ok { OnOk result (self.new ≡ record self.old { lines = self.old.lines ++ addr ∷ [] }) }
        ensures holds { OnOk result ((x : ℕ) → holds self.new.lines x ≡ (holds self.old.lines x || (addr == x))) }
        ensures full { IsErr result ↔ (length self.old.lines ≡ self.old.limit) }
        ensures err { OnErr result (self.new ≡ self.old) }
    {
        if self.lines.len() == self.limit {
            return Err(OrbFull);
        }
        self.lines.push(addr);
        Ok(())
    }

    /// Takes the line at `addr` out, if it is there, and says whether it was. The others stay in their order.
    pub fn remove(&mut self, addr: u32) -> bool
        ensures found { result ≡ holds self.old.lines addr }
        ensures rest { self.new ≡ record self.old { lines = without addr self.old.lines } }
        ensures holds { (x : ℕ) → holds self.new.lines x ≡ (holds self.old.lines x && not (x == addr)) }
    {
        match self.place_of(addr) {
            Some(i) => {
                self.lines.remove(i);
                true
            }
            None => false,
        }
    }

    /// Where the line at `addr` stands.
    fn place_of(&self, addr: u32) -> Option<usize>
        ensures at { IfSome result (λ i. slice_get self.now.lines i ≡ Some addr) }
        ensures none { IfNone result (All (λ line. (line == addr) ≡ false) self.now.lines) }
        ensures each_once { IsEachOnce self.now.lines }
    {
        self.lines.iter().position(|line| *line == addr)
    }

    /// Takes every line out.
    pub fn clear(&mut self)
        ensures { self.new ≡ record self.old { lines = [] } }
    {
        self.lines.clear();
    }
}
