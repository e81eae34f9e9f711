//! A number beside each of some places.
ghost use Rattle.std.specs.Prelude.{◌≡◌, ◌<◌, ◌≤◌, ℕ, IfOk, length, set, slice_index, vec_capacity};

use rv32_exec::NoMemory;
use std::alloc::Global;
use std::marker::Model;

/// Of each of some places, as bytes of memory or lines, a number, at first 0. Contracts see the list of these.
///
/// Numbers are made up to the highest place that is marked, when it is, so memory is taken by what is touched.
#[derive(Drop)]
pub(crate) struct Marks {
    numbers: Vec<u32>,
    size: usize,
}

impl Model for Marks {
    ghost use Rattle.std.specs.Prelude.{ℕ, List, vec_capacity};
    ghost use Rattle.dependences.specs.KeptMarks.{HasRoom, filled};

    ghost Value = { List ℕ };

    ghost view = { λ m. filled 0 m.numbers.items m.size };

    ghost invariant = { λ m. HasRoom m.numbers.items m.size (vec_capacity m.numbers) };
}

impl Marks {
    /// Of so many places, 0 each.
    ///
    /// `NoMemory`: there was no room for them.
    pub(crate) fn none(alloc: Global, size: usize) -> Result<Marks, NoMemory>
        ensures long { IfOk result (λ m. length m ≡ size) }
        ensures none { IfOk result (λ m. (a : ℕ) → slice_index m a ≡ 0) }
    {
        let numbers = Vec::with_capacity(alloc, size)?;
        Ok(Marks { numbers, size })
    }

    /// The number of a place.
    #[inline(always)]
    pub(crate) fn at(&self, place: u32) -> u32
        ensures { result ≡ slice_index self.now place }
    {
        match self.numbers.get(place as usize) {
            Some(number) => *number,
            None => 0,
        }
    }

    /// Gives a place this number.
    #[inline(always)]
    pub(crate) fn put(&mut self, place: u32, number: u32)
        requires { place < length self.old }
        ensures { self.new ≡ set self.old place number }
    {
        let at = place as usize;
        reach(&mut self.numbers, at + 1, self.size);
        self.numbers[at] = number;
    }
}

/// How many numbers are made at a time, at least.
const STEP: usize = 512;

/// Makes numbers up to this place, of so many for which there is room.
#[inline(always)]
fn reach(numbers: &mut Vec<u32>, end: usize, size: usize)
    requires end { end ≤ size }
    requires room { size ≤ vec_capacity numbers.old }
    requires within { length numbers.old.items ≤ size }
    ensures there { end ≤ length numbers.new.items }
    ensures within { length numbers.new.items ≤ size }
    ensures same { (a : ℕ) → slice_index numbers.new.items a ≡ slice_index numbers.old.items a }
    ensures capacity { vec_capacity numbers.old ≤ vec_capacity numbers.new }
{
    if end > numbers.len() {
        lengthen(numbers, end, size);
    }
}

/// Makes numbers up to this place, which is past them, and some more.
#[inline(never)]
fn lengthen(numbers: &mut Vec<u32>, end: usize, size: usize)
    requires past { length numbers.old.items ≤ end }
    requires end { end ≤ size }
    requires room { size ≤ vec_capacity numbers.old }
    ensures there { end ≤ length numbers.new.items }
    ensures within { length numbers.new.items ≤ size }
    ensures same { (a : ℕ) → slice_index numbers.new.items a ≡ slice_index numbers.old.items a }
    ensures capacity { vec_capacity numbers.old ≤ vec_capacity numbers.new }
{
    let more = size.min(end.saturating_add(STEP));
    numbers.resize(more, 0).unwrap();
}
