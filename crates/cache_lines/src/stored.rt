//! Where the lines of a cache stand.
ghost use Rattle.std.specs.Prelude.{◌≡◌, ◌+◌, ◌<◌, ◌≤◌, map, true, length, slice_set, IfOk};
ghost use Rattle.spec_states.specs.declared.line.TheConstants.{LONGEST_LINE};
ghost use Rattle.cache_lines.specs.Cells.{line_with_number, IsWritten};
ghost use Rattle.cache_lines.specs.Changes.{changed_line, rolled_back_line, published_line};
ghost use Rattle.cache_lines.specs.Noted.{line_at};
ghost use Rattle.cache_lines.specs.Stored.{stored_lines, AreInvalid};

use crate::line::Line;
use crate::noted::Noted;
use spec_states::Next;
use std::alloc::{AllocError, Global};

/// How many lines a cache has in itself.
pub(crate) const FEW: usize = 8;

/// The lines of a cache: in the cache itself, or in memory that it took, with a list of those that may carry marks.
#[derive(Drop)]
pub(crate) enum Stored {
    Few([Line; FEW]),
    Many(Noted),
}

/// Gives every line the state and the marks that the violation of its core's epoch leaves.
fn roll_back_lines(lines: &mut [Line])
    ensures { lines.new ≡ map rolled_back_line lines.old }
{
    for place in 0..lines.len() {
        let line = lines[place];
        lines[place] = line.rolled_back();
    }
}

/// Gives every line the state and the marks that its core's publish leaves, where no other core holds the line.
fn settle_lines(lines: &mut [Line])
    ensures { lines.new ≡ map (published_line true) lines.old }
{
    for place in 0..lines.len() {
        let line = lines[place];
        lines[place] = line.published();
    }
}

fn put_line(lines: &mut [Line], place: usize, line: Line)
    requires { place < length lines.old }
    ensures { lines.new ≡ slice_set lines.old place line }
{
    lines[place] = line;
}

/// Gives the line in a place the state and the marks of this change.
fn mark_line(lines: &mut [Line], place: usize, next: Next)
    requires { place < length lines.old }
    ensures { lines.new ≡ slice_set lines.old place (changed_line (line_at lines.old place) next) }
{
    lines[place].mark(next);
}

/// Writes the low `width` bytes of `value` into the cells at `offset` of the line in a place.
fn write_line(lines: &mut [Line], place: usize, offset: u32, width: u32, value: u32)
    requires place { place < length lines.old }
    requires in_line { offset + width ≤ LONGEST_LINE }
    requires width { width ≤ 4 }
    ensures lines { lines.new ≡ slice_set lines.old place (line_with_number (line_at lines.old place) offset width value) }
    ensures bytes { IsWritten (line_at lines.old place) offset width value }
{
    lines[place].write_number(offset, width, value);
}

impl Stored {
    /// So many invalid lines.
    ///
    /// `AllocError`: there was no memory for them.
    pub(crate) fn invalid(alloc: Global, count: usize) -> Result<Stored, AllocError>
        ensures { IfOk result (λ stored. AreInvalid count (stored_lines stored)) }
    {
        if count == FEW {
            return Ok(Stored::Few([Line::INVALID; FEW]));
        }
        let noted = Noted::invalid(alloc, count)?;
        Ok(Stored::Many(noted))
    }

    /// All lines, set by set, and in a set way by way.
    pub(crate) fn lines(&self) -> &[Line]
        ensures { result.now ≡ stored_lines self.now }
    {
        match self {
            Stored::Few(lines) => lines,
            Stored::Many(noted) => noted.lines(),
        }
    }

    /// Puts a line into a place.
    pub(crate) fn put(&mut self, place: usize, line: Line)
        requires { place < length (stored_lines self.old) }
        ensures { stored_lines self.new ≡ slice_set (stored_lines self.old) place line }
    {
        match self {
            Stored::Few(lines) => put_line(lines, place, line),
            Stored::Many(noted) => noted.put(place, line),
        }
    }

    /// Gives the line in a place the state and the marks of this change.
    pub(crate) fn mark(&mut self, place: usize, next: Next)
        requires { place < length (stored_lines self.old) }
        ensures { stored_lines self.new
            ≡ slice_set (stored_lines self.old) place (changed_line (line_at (stored_lines self.old) place) next) }
    {
        match self {
            Stored::Few(lines) => mark_line(lines, place, next),
            Stored::Many(noted) => noted.mark(place, next),
        }
    }

    /// Writes the low `width` bytes of `value` into the cells at `offset` of the line in a place.
    pub(crate) fn write_number(&mut self, place: usize, offset: u32, width: u32, value: u32)
        requires place { place < length (stored_lines self.old) }
        requires in_line { offset + width ≤ LONGEST_LINE }
        requires width { width ≤ 4 }
        ensures lines { stored_lines self.new ≡ slice_set (stored_lines self.old) place
            (line_with_number (line_at (stored_lines self.old) place) offset width value) }
        ensures bytes { IsWritten (line_at (stored_lines self.old) place) offset width value }
    {
        match self {
            Stored::Few(lines) => write_line(lines, place, offset, width, value),
            Stored::Many(noted) => noted.write_number(place, offset, width, value),
        }
    }

    /// Gives every line the state and the marks that the violation of its core's epoch leaves.
    pub(crate) fn roll_back(&mut self)
        ensures { stored_lines self.new ≡ map rolled_back_line (stored_lines self.old) }
    {
        match self {
            Stored::Few(lines) => roll_back_lines(lines),
            Stored::Many(noted) => noted.roll_back(),
        }
    }

    /// Gives every line the state and the marks that its core's publish leaves, where no other core holds the line.
    pub(crate) fn settle(&mut self)
        ensures { stored_lines self.new ≡ map (published_line true) (stored_lines self.old) }
    {
        match self {
            Stored::Few(lines) => settle_lines(lines),
            Stored::Many(noted) => noted.settle(),
        }
    }
}
