//! Lines that a cache has in memory, with a list of those that may carry marks.
ghost use Rattle.std.specs.Prelude.{◌≡◌, ◌+◌, ◌<◌, ◌≤◌, ℕ, [], All, Contains, map, true, false, length, slice_set, vec_capacity, IfOk};
ghost use Rattle.spec_states.specs.declared.line.TheConstants.{LONGEST_LINE};
ghost use Rattle.cache_lines.specs.Cells.{line_with_number, IsWritten};
ghost use Rattle.cache_lines.specs.Changes.{changed_line, rolled_back_line, published_line};
ghost use Rattle.cache_lines.specs.Noted.{HasMarked, IsList, is_plain, line_at};
ghost use Rattle.cache_lines.specs.Stored.{AreInvalid};

use crate::line::Line;
use spec_states::Next;
use std::alloc::{AllocError, Global};
use std::marker::Model;

/// Lines, and a list of the places whose lines may carry marks, so that a rollback and a publish cost what is marked.
/// Contracts see the lines and the places.
#[derive(Drop)]
pub(crate) struct Noted {
    lines: Vec<Line>,
    /// The places. There is room for all, so that `put` takes no memory.
    places: Vec<usize>,
    /// Whether the list has each place.
    listed: Vec<bool>,
}

impl Model for Noted {
    ghost use Rattle.std.specs.Prelude.{vec_capacity};
    ghost use Rattle.cache_lines.specs.Noted.{NotedView, IsNoted};

    ghost Value = { NotedView };

    ghost view = { λ noted. record { lines = noted.lines.items; places = noted.places.items } };

    ghost invariant = { λ noted. IsNoted noted.lines.items noted.places.items noted.listed.items (vec_capacity noted.places) };
}

/// Puts a place into the list, where it isn't in it.
fn list(places: &mut Vec<usize>, listed: &mut [bool], place: usize)
    requires within { place < length listed.old }
    requires list { IsList places.old.items listed.old }
    requires room { length listed.old ≤ vec_capacity places.old }
    ensures list { IsList places.new.items listed.new }
    ensures there { Contains places.new.items place }
    ensures kept { (other : ℕ) → Contains places.old.items other → Contains places.new.items other }
    ensures one { length places.new.items ≤ length places.old.items + 1 }
    ensures capacity { vec_capacity places.new ≡ vec_capacity places.old }
{
    if listed[place] {
        return;
    }
    listed[place] = true;
    places.push_reserved(place);
}

/// Takes all places out of the list.
fn unlist(places: &mut Vec<usize>, listed: &mut [bool])
    requires { IsList places.old.items listed.old }
    ensures empty { places.new.items ≡ [] }
    ensures list { IsList places.new.items listed.new }
    ensures capacity { vec_capacity places.new ≡ vec_capacity places.old }
{
    for place in &*places {
        listed[*place] = false;
    }
    places.clear();
}

/// Gives the lines in these places, and so every line, the state and the marks that the violation of its core's epoch
/// leaves.
fn roll_back_at(lines: &mut [Line], places: &[usize])
    requires within { All (λ place. place < length lines.old) places.now }
    requires marked { HasMarked lines.old places.now }
    ensures { lines.new ≡ map rolled_back_line lines.old }
{
    for place in places {
        let line = lines[*place];
        lines[*place] = line.rolled_back();
    }
}

/// Gives the lines in these places, and so every line, the state and the marks that its core's publish leaves, where no
/// other core holds the line.
fn settle_at(lines: &mut [Line], places: &[usize])
    requires within { All (λ place. place < length lines.old) places.now }
    requires marked { HasMarked lines.old places.now }
    ensures { lines.new ≡ map (published_line true) lines.old }
{
    for place in places {
        let line = lines[*place];
        lines[*place] = line.published();
    }
}

impl Noted {
    /// So many invalid lines.
    ///
    /// `AllocError`: there was no memory for them.
    pub(crate) fn invalid(alloc: Global, count: usize) -> Result<Noted, AllocError>
        ensures lines { IfOk result (λ noted. AreInvalid count noted.lines) }
        ensures none { IfOk result (λ noted. noted.places ≡ []) }
    {
        let lines = vec![in alloc; Line::INVALID; count]?;
        let places = Vec::with_capacity(alloc, count)?;
        let listed = vec![in alloc; false; count]?;
        Ok(Noted {
            lines,
            places,
            listed,
        })
    }

    /// All lines.
    pub(crate) fn lines(&self) -> &[Line]
        ensures { result.now ≡ self.now.lines }
    {
        self.lines.as_slice()
    }

    /// Puts a line into a place, and the place into the list, where the line isn't plain.
    pub(crate) fn put(&mut self, place: usize, line: Line)
        requires { place < length self.old.lines }
        ensures lines { self.new.lines ≡ slice_set self.old.lines place line }
        ensures plain { is_plain line ≡ true → self.new.places ≡ self.old.places }
        ensures listed { is_plain line ≡ false → Contains self.new.places place }
        ensures one { length self.new.places ≤ length self.old.places + 1 }
    {
        self.lines[place] = line;
        if line.is_plain() {
            return;
        }
        list(&mut self.places, &mut self.listed, place);
    }

    /// Gives the line in a place the state and the marks of this change, and puts the place into the list, where the line isn't plain then.
    pub(crate) fn mark(&mut self, place: usize, next: Next)
        requires { place < length self.old.lines }
        ensures lines { self.new.lines ≡ slice_set self.old.lines place (changed_line (line_at self.old.lines place) next) }
    {
        let mut line = self.lines[place];
        line.mark(next);
        self.put(place, line);
    }

    /// Writes the low `width` bytes of `value` into the cells at `offset` of the line in a place.
    pub(crate) fn write_number(&mut self, place: usize, offset: u32, width: u32, value: u32)
        requires place { place < length self.old.lines }
        requires in_line { offset + width ≤ LONGEST_LINE }
        requires width { width ≤ 4 }
        ensures lines { self.new.lines
            ≡ slice_set self.old.lines place (line_with_number (line_at self.old.lines place) offset width value) }
        ensures bytes { IsWritten (line_at self.old.lines place) offset width value }
    {
        let line = self.lines[place].with_number(offset, width, value);
        self.put(place, line);
    }

    /// Gives every line the state and the marks that the violation of its core's epoch leaves, and empties the list.
    pub(crate) fn roll_back(&mut self)
        ensures lines { self.new.lines ≡ map rolled_back_line self.old.lines }
        ensures none { self.new.places ≡ [] }
    {
        roll_back_at(&mut self.lines, &self.places);
        unlist(&mut self.places, &mut self.listed);
    }

    /// Gives every line the state and the marks that its core's publish leaves, where no other core holds the line, and
    /// empties the list.
    pub(crate) fn settle(&mut self)
        ensures lines { self.new.lines ≡ map (published_line true) self.old.lines }
        ensures none { self.new.places ≡ [] }
    {
        settle_at(&mut self.lines, &self.places);
        unlist(&mut self.places, &mut self.listed);
    }
}
