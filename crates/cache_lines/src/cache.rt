ghost use Rattle.std.specs.Prelude.{◌≡◌, ℕ, ◌+◌, ◌*◌, ◌<◌, ◌≤◌, ◌%◌, true, false, Some, None, length, slice_index_or, if◌then◌else◌, IsTrue, All, IfSome, IfNone, IfOk};
ghost use Rattle.spec_states.specs.declared.line.LineState.TheVariants.{I};
ghost use Rattle.spec_states.specs.Copies.{no_copy, merged_line, IsUpToDate};
ghost use Rattle.memory_bytes.specs.Bytes.{IsWidth};
ghost use Rattle.spec_states.specs.States.{is_valid, is_speculative};
ghost use Rattle.cache_lines.specs.Cells.{line_with_number, IsWritten};
ghost use Rattle.cache_lines.specs.Changes.{changed_line, victim_of, rolled_back_line, published_line, with_each_line, IsFound, IsAbsent, CopiesAreFilled, CopiesChange, CopiesAllChange, StandIn};
ghost use Rattle.cache_lines.specs.Lines.{Contents, IsGeometry, default_geometry, set_of, invalid_line, place, line_in, with_line, is_copy_of, way_at};
ghost use Rattle.rv32_image.specs.Machine.{is_line_length};
ghost use Rattle.cache_lines.specs.Placed.{IsNotElsewhere, FitsLength, IsPlaced, MayStand};
ghost use Rattle.spec_states.specs.Mask.{IsWithinLine};
ghost use Rattle.cache_lines.specs.Protocol.{IsInPlace, copy_at, copy_of_line, rolled_back_copy, published_copy, changed_copy, copy_with_number};

use crate::line::Line;
use crate::stored::Stored;
use spec_states::Next;
use std::alloc::{AllocError, Global};
use std::marker::Model;

/// The sets of a cache that `Cache::new` makes.
pub const SETS: usize = 4;

/// The ways of its sets.
pub const WAYS: usize = 2;

/// A core's cache, of lines of 16, 32 or 64 bytes. Contracts see it as its lines, set by set, and in a set way by way.
#[derive(Drop)]
pub struct Cache {
    stored: Stored,
    line_length: usize,
    sets: usize,
    ways: usize,
}

impl Model for Cache {
    ghost use Rattle.cache_lines.specs.CacheInside.{contents_of};
    ghost use Rattle.cache_lines.specs.Lines.{Contents};
    ghost use Rattle.cache_lines.specs.Placed.{IsPlaced};

    ghost Value = { Contents };

    ghost view = { contents_of };

    ghost invariant = { λ cache. IsPlaced (contents_of cache) };
}

impl Cache {
    /// A cache of 4 sets of 2 ways, of lines of `length` bytes, 16, 32 or 64, all of which are invalid.
    pub fn new(length: usize) -> Cache
        requires { IsTrue (is_line_length length) }
        ensures line_length { result.line_length ≡ length }
        ensures geometry { result.geometry ≡ default_geometry }
        ensures invalid { All (λ line. line.state ≡ I) result.lines }
        ensures placed { IsPlaced result }
        ensures copies { (addr : ℕ) → copy_at result addr ≡ no_copy }
        ensures ways { (addr : ℕ) → way_at result addr ≡ None }
    {
        Cache {
            stored: Stored::Few([Line::INVALID; SETS * WAYS]),
            line_length: length,
            sets: SETS,
            ways: WAYS,
        }
    }

    /// A cache of so many sets and ways of lines of `line_length` bytes, all of which are invalid. The sets are a power of two up to
    /// 1,024, the ways 1 to 16, the bytes 16, 32 or 64.
    ///
    /// `AllocError`: there was no memory for it.
    pub fn with_geometry(
        alloc: Global,
        line_length: usize,
        sets: usize,
        ways: usize,
    ) -> Result<Cache, AllocError>
        requires length { IsTrue (is_line_length line_length) }
        requires geometry { IsGeometry (record { sets = sets; ways = ways }) }
        ensures line_length { IfOk result (λ cache. cache.line_length ≡ line_length) }
        ensures geometry { IfOk result (λ cache. cache.geometry ≡ record { sets = sets; ways = ways }) }
        ensures invalid { IfOk result (λ cache. All (λ line. line.state ≡ I) cache.lines) }
        ensures placed { IfOk result IsPlaced }
        ensures copies { IfOk result (λ cache. (addr : ℕ) → copy_at cache addr ≡ no_copy) }
        ensures ways { IfOk result (λ cache. (addr : ℕ) → way_at cache addr ≡ None) }
    {
        let stored = Stored::invalid(alloc, sets * ways)?;
        Ok(Cache {
            stored,
            line_length,
            sets,
            ways,
        })
    }

    /// The bytes of a line.
    pub fn line_length(&self) -> usize
        ensures value { result ≡ self.now.line_length }
        ensures either { IsTrue (is_line_length result) }
    {
        self.line_length
    }

    /// The sets.
    pub fn sets(&self) -> usize
        ensures value { result ≡ self.now.geometry.sets }
        ensures placed { IsPlaced self.now }
    {
        self.sets
    }

    /// The ways of a set.
    pub fn ways(&self) -> usize
        ensures value { result ≡ self.now.geometry.ways }
        ensures placed { IsPlaced self.now }
    {
        self.ways
    }

    /// Where the lines of the set of `addr` begin.
    fn first(&self, addr: u32) -> usize
        ensures value { result ≡ set_of self.now addr * self.now.geometry.ways }
        ensures within { result + self.now.geometry.ways ≤ length self.now.lines }
    {
        let set = addr / self.line_length as u32 % self.sets as u32;
        set as usize * self.ways
    }

    /// Where the line in a way of the set of `addr` stands.
    fn place(&self, addr: u32, way: usize) -> usize
        requires { way < self.now.geometry.ways }
        ensures value { result ≡ place self.now addr way }
        ensures within { result < length self.now.lines }
        ensures placed { IsPlaced self.now }
    {
        let _ = &self.stored;
        self.first(addr) + way
    }

    /// The lines of the set of `addr`, way by way.
    fn set(&self, addr: u32) -> &[Line]
        ensures ways { length result.now ≡ self.now.geometry.ways }
        ensures lines { (way : ℕ) → way < self.now.geometry.ways → slice_index_or result.now way invalid_line ≡ line_in self.now addr way }
        ensures placed { IsPlaced self.now }
    {
        let first = self.first(addr);
        &self.stored.lines()[first..first + self.ways]
    }

    /// The line in a way of the set of `addr`.
    pub fn line(&self, addr: u32, way: usize) -> &Line
        requires { way < self.now.geometry.ways }
        ensures value { result.now ≡ line_in self.now addr way }
        ensures copy { is_valid (line_in self.now addr way).state ≡ true
            → copy_at self.now (line_in self.now addr way).addr ≡ copy_of_line (line_in self.now addr way) }
        ensures placed { IsPlaced self.now }
    {
        &self.set(addr)[way]
    }

    /// The way that has a valid copy of the line at `addr`.
    pub fn find(&self, addr: u32) -> Option<usize>
        ensures value { result ≡ way_at self.now addr }
        ensures found { IfSome result (IsFound self.now addr) }
        ensures absent { IfNone result (IsAbsent self.now addr) }
        ensures in_place { IsInPlace self.now.line_length addr (copy_at self.now addr) }
        ensures placed { IsPlaced self.now }
    {
        let set = self.set(addr);
        for way in 0..set.len() {
            if set[way].is_copy_of(addr) {
                return Some(way);
            }
        }
        None
    }

    /// The way that a line at `addr` takes: the lowest invalid one of its set, else the lowest one that carries no marks.
    pub fn victim(&self, addr: u32) -> Option<usize>
        ensures value { result ≡ victim_of self.now addr }
        ensures unmarked { IfSome result (λ way.
            (way < self.now.geometry.ways) × (is_speculative (line_in self.now addr way).state ≡ false)) }
        ensures full { IfNone result ((way : ℕ) → way < self.now.geometry.ways
            → is_speculative (line_in self.now addr way).state ≡ true) }
    {
        let set = self.set(addr);
        let mut unmarked = None;
        for way in 0..set.len() {
            let state = set[way].state;
            if !state.is_valid() {
                return Some(way);
            }
            let free = (!state.is_speculative()).then_some(way);
            unmarked = unmarked.or(free);
        }
        unmarked
    }

    /// Puts a line, valid or not, into a way of the set of its address. A valid line's address is a multiple of the line
    /// length, no other way has that line, and it has nothing past the line length.
    pub fn fill(&mut self, way: usize, line: Line)
        requires in_ways { way < self.old.geometry.ways }
        requires aligned { is_valid line.state ≡ true → line.addr % self.old.line_length ≡ 0 }
        requires once { is_valid line.state ≡ true → IsNotElsewhere self.old line.addr way }
        requires fits { is_valid line.state ≡ true → FitsLength self.old.line_length line }
        ensures exact { self.new ≡ with_line self.old line.addr way line }
        ensures line { line_in self.new line.addr way ≡ line }
        ensures copies { CopiesAreFilled self.old self.new way line }
        ensures ways { StandIn self.new (λ addr. if is_copy_of line addr then Some way else way_at self.old addr) }
    {
        self.put(line.addr, way, line);
    }

    /// Writes the low `width` bytes of `value` into a line's cells at `offset`, the lowest first.
    pub fn write_bytes(&mut self, addr: u32, way: usize, offset: u32, width: u32, value: u32)
        requires in_ways { way < self.old.geometry.ways }
        requires in_line { offset < self.old.line_length }
        requires width { IsWidth width }
        requires aligned { offset % width ≡ 0 }
        ensures exact { self.new
            ≡ with_line self.old addr way (line_with_number (line_in self.old addr way) offset width value) }
        ensures line { line_in self.new addr way
            ≡ line_with_number (line_in self.old addr way) offset width value }
        ensures copies { CopiesChange self.old self.new addr way (copy_with_number offset width value) }
        ensures ways { StandIn self.new (way_at self.old) }
    {
        self.put_number(addr, way, offset, width, value);
    }

    /// Gives the line in a way of the set of `addr` the state and the marks of this change. It is valid then only where it was.
    pub fn mark(&mut self, addr: u32, way: usize, next: Next)
        requires in_ways { way < self.old.geometry.ways }
        requires held { is_valid next.state ≡ true → is_valid (line_in self.old addr way).state ≡ true }
        requires mask { is_valid next.state ≡ true → IsWithinLine self.old.line_length next.marks.bytes }
        ensures exact { self.new ≡ with_line self.old addr way (changed_line (line_in self.old addr way) next) }
        ensures copies { CopiesChange self.old self.new addr way (λ copy. changed_copy copy next) }
        ensures ways { StandIn self.new (way_at self.old) }
    {
        self.put_marks(addr, way, next);
    }

    /// Gives every line the state and the marks that the violation of the core's epoch leaves.
    pub fn roll_back_all(&mut self)
        ensures exact { self.new ≡ with_each_line rolled_back_line self.old }
        ensures lines { (addr way : ℕ) → way < self.old.geometry.ways
            → line_in self.new addr way ≡ rolled_back_line (line_in self.old addr way) }
        ensures copies { CopiesAllChange self.old self.new rolled_back_copy }
        ensures ways { StandIn self.new (way_at self.old) }
        ensures unmarked { (addr : ℕ) → is_speculative (copy_at self.new addr).state ≡ false }
        ensures up_to_date { (addr : ℕ) (committed : ℕ → ℕ)
            → IsUpToDate (copy_at self.old addr) committed → IsUpToDate (copy_at self.new addr) committed }
    {
        self.stored.roll_back();
    }

    /// Gives every line the state and the marks that its core's publish leaves, where no other core holds the line.
    pub fn settle_all(&mut self)
        ensures exact { self.new ≡ with_each_line (published_line true) self.old }
        ensures lines { (addr way : ℕ) → way < self.old.geometry.ways
            → line_in self.new addr way ≡ published_line true (line_in self.old addr way) }
        ensures copies { CopiesAllChange self.old self.new (published_copy true) }
        ensures ways { StandIn self.new (way_at self.old) }
        ensures unmarked { (addr : ℕ) → is_speculative (copy_at self.new addr).state ≡ false }
        ensures up_to_date { (addr : ℕ) (committed : ℕ → ℕ) → IsUpToDate (copy_at self.old addr) committed
            → IsUpToDate (copy_at self.new addr)
            (merged_line (copy_at self.old addr).marks.bytes (copy_at self.old addr).cell committed) }
    {
        self.stored.settle();
    }

    /// Puts a line into a way of the set of `addr`.
    fn put(&mut self, addr: u32, way: usize, line: Line)
        requires in_ways { way < self.old.geometry.ways }
        requires may_stand { MayStand self.old addr way line }
        ensures exact { self.new ≡ with_line self.old addr way line }
        ensures placed { IsPlaced self.old }
        ensures may_stand { MayStand self.old addr way line }
    {
        let place = self.place(addr, way);
        self.stored.put(place, line);
    }
    /// Gives the line in a way of the set of `addr` the state and the marks of this change.
    fn put_marks(&mut self, addr: u32, way: usize, next: Next)
        requires in_ways { way < self.old.geometry.ways }
        requires held { is_valid next.state ≡ true → is_valid (line_in self.old addr way).state ≡ true }
        requires mask { is_valid next.state ≡ true → IsWithinLine self.old.line_length next.marks.bytes }
        ensures exact { self.new ≡ with_line self.old addr way (changed_line (line_in self.old addr way) next) }
        ensures placed { IsPlaced self.old }
    {
        let place = self.place(addr, way);
        self.stored.mark(place, next);
    }

    /// Writes the low `width` bytes of `value` into the cells at `offset` of the line in a way of the set of `addr`.
    fn put_number(&mut self, addr: u32, way: usize, offset: u32, width: u32, value: u32)
        requires in_ways { way < self.old.geometry.ways }
        requires in_line { offset < self.old.line_length }
        requires width { IsWidth width }
        requires aligned { offset % width ≡ 0 }
        ensures exact { self.new
            ≡ with_line self.old addr way (line_with_number (line_in self.old addr way) offset width value) }
        ensures bytes { IsWritten (line_in self.old addr way) offset width value }
        ensures placed { IsPlaced self.old }
    {
        let place = self.place(addr, way);
        self.stored.write_number(place, offset, width, value);
    }
}
