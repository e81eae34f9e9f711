ghost use Rattle.std.specs.Prelude.{◌≡◌, ◌<◌, ◌≤◌, ◌+◌, ◌-◌, ◌*◌, ◌/◌, ◌%◌, ◌^◌, ◌⊎◌, ℕ, List, true, false, length, slice_index};
ghost use Rattle.rv32_image.specs.Decoded.{kept_of, word_in};
ghost use Rattle.rv32_exec.specs.Execute.{Stops, hart_effect, instruction_effect};
ghost use Rattle.rv32_exec.specs.Faults.{misaligned_target};
ghost use Rattle.rv32_exec.specs.Interpreter as spec;

use crate::access::fault;
use crate::instruction::{Way, address, execute, is_whole};
use crate::notes::Notes;
use crate::registers::Registers;
use crate::stop::*;
use rv32_decode::Refused;
use rv32_image::Image;

/// How far a run has come: the number of the word that is next, and of that where it would meet the limit if nothing
/// jumps.
#[derive(Clone, Copy)]
pub(crate) struct Place {
    pub word: usize,
    pub last: usize,
}

impl Place {
    /// The place of a hart that is to execute this word, and has executed so many instructions.
    #[inline]
    pub(crate) fn of(image: &Image, word: usize, done: u64) -> Place
        requires word { 4 * word ≤ image.now.code }
        requires done { done ≤ image.now.limit }
        ensures word { result.word ≡ word }
        ensures last { result.last ≡ word + image.now.limit - done }
        ensures place { spec.IsPlace image.now result }
    {
        Place {
            word,
            last: word + image.limit() as usize - done as usize,
        }
    }

    /// Whether the limit may come before the end of the code.
    #[inline]
    pub(crate) fn is_near(self, image: &Image) -> bool
        ensures { result ≡ false → image.now.code ≤ 4 * self.last }
    {
        self.last < (image.code() / 4) as usize
    }

    /// The address of the word that is next.
    #[inline]
    fn pc(self) -> u32
        requires { 4 * self.word < 2 ^ 32 }
        ensures { result ≡ 4 * self.word }
    {
        4 * self.word as u32
    }

    /// How many instructions of the epoch are executed.
    #[inline]
    pub(crate) fn done(self, image: &Image) -> u64
        requires { spec.IsPlace image.now self }
        ensures { result ≡ self.word + image.now.limit - self.last }
    {
        (self.word + image.limit() as usize - self.last) as u64
    }

    /// Here the loop ends, for this reason.
    #[inline]
    fn left(self, why: Why) -> Left
        ensures { result ≡ record { place = self; why = why } }
    {
        Left { place: self, why }
    }

    /// Where the loop ends with a jump by so many words, which is to no word of the code.
    #[inline]
    fn left_by(self, x: &Registers, by: usize) -> Left
        requires address { 4 * self.word < 2 ^ 32 }
        requires room { spec.is_whole by ≡ true → self.word < self.last }
        requires last { self.last < 2 ^ 31 }
        ensures { result ≡ spec.left_by self by }
    {
        if !is_whole(by) {
            return self.left(Why::Fault(MISALIGNED_TARGET));
        }
        let distance = 4 * (by % (1 << 30)) as u32;
        let word = (address(x, self.word).wrapping_add(distance) / 4) as usize;
        let last = last_at(self.last, self.word, word);
        Place { word, last }.left(Why::Outside)
    }
}

/// Why the loop over the code has ended.
#[derive(Clone, Copy)]
pub(crate) enum Why {
    /// The limit has become near: it may come before the end of the code.
    Near,
    /// The limit is met, or the word is none of the code.
    Outside,
    /// The word's instruction faults with this cause, or it is refused, or the code is at its end.
    Fault(u32),
    /// An access isn't made.
    Access,
}

/// Where the loop over the code has ended, and why.
#[derive(Clone, Copy)]
pub(crate) struct Left {
    pub place: Place,
    pub why: Why,
}

/// Runs instructions up to the next stop, and where that is an access sets `at` to it. Where the limit is near it looks for it at each,
/// and else only at a jump, and ends where the limit has become near.
#[inline(always)]
pub(crate) fn run_code<N: Notes>(
    image: &Image,
    x: &mut Registers,
    from: Place,
    is_near: bool,
    bytes: &mut [u8],
    at: &mut Stop,
    notes: &mut N,
) -> Left
    requires place { spec.IsPlace image.now from }
    requires in_code { 4 * from.word ≤ image.now.code }
    requires far { is_near ≡ false → image.now.code ≤ 4 * from.last }
    requires size { length bytes.old ≤ image.now.size }
    requires words { length bytes.old % 4 ≡ 0 }
    requires right { N.right image.now notes.old (spec.hart_at image.now x.old.x from) bytes.old }
    ensures run { spec.IsRun image.now (spec.hart_at image.now x.old.x from) bytes.old result at.new x.new.x bytes.new }
    ensures far { is_near ≡ true → spec.IsFar result.why }
    ensures fixed { N.fixed notes.new ≡ N.fixed notes.old }
    ensures right { N.right image.now notes.new (spec.hart_at image.now x.new.x result.place) bytes.new }
{
    N::others_need_no_note();
    let program = image.program();
    let words = (image.code() / 4) as usize;
    let Place { mut word, mut last } = from;
    'steps: loop {
        if is_near && word == last {
            return Place { word, last }.left(Why::Outside);
        }
        match execute(&program[word], word, image, x, bytes, at) {
            Way::Following => word += 1,
            Way::Loaded { addr, width } => {
                let place = Place { word, last };
                notes.load(image, place.pc(), place.done(image), addr, width);
                word += 1;
            }
            Way::Stored { addr, width } => {
                let place = Place { word, last };
                notes.store(image, place.pc(), place.done(image), addr, width);
                word += 1;
            }
            Way::By(by) => {
                let to = word.wrapping_add(by);
                if to >= words {
                    return Place { word, last }.left_by(x, by);
                }
                last = last_after(last, word, by);
                word = to;
                if !is_near && last < words {
                    return Place { word, last }.left(Why::Near);
                }
            }
            Way::To(to) => {
                last = last_at(last, word, to);
                word = to;
                if to >= words {
                    return Place { word, last }.left(Why::Outside);
                }
                if !is_near && last < words {
                    return Place { word, last }.left(Why::Near);
                }
            }
            Way::Fault(cause) => return Place { word, last }.left(Why::Fault(cause)),
            Way::Access => return Place { word, last }.left(Why::Access),
        }
    }
}

/// Where the limit is met after a jump to a word, if nothing jumps again.
#[inline]
fn last_at(last: usize, word: usize, to: usize) -> usize
    requires room { word < last }
    requires last { last < 2 ^ 31 }
    requires to { to < 2 ^ 30 }
    ensures { result ≡ last + to - word - 1 }
{
    last + to - word - 1
}

/// The same of a jump by so many words.
#[inline]
fn last_after(last: usize, word: usize, by: usize) -> usize
    requires room { word < last }
    requires last { last < 2 ^ 31 }
    requires to { (word + by) % 2 ^ 64 < 2 ^ 30 }
    ensures { result ≡ last + (word + by) % 2 ^ 64 - word - 1 }
{
    last.wrapping_add(by) - 1
}

/// Sets `at` to where a hart at this pc, which has executed so many instructions, stops where the loop has ended.
#[inline]
pub(crate) fn stop(image: &Image, pc: u32, done: u64, why: Why, at: &mut Stop)
    requires aligned { pc % 4 ≡ 0 }
    requires left { (bytes : ℕ) × (x : List ℕ) × spec.IsLeft image.now bytes (spec.hart x pc done) why at.old }
    requires far { spec.IsFar why }
    ensures effect { (bytes : ℕ) (x : List ℕ) → spec.IsLeft image.now bytes (spec.hart x pc done) why at.old → hart_effect image.now (spec.hart x pc done) ≡ Stops at.new }
    ensures whole { (bytes : ℕ) (x : List ℕ) → spec.IsLeft image.now bytes (spec.hart x pc done) why at.old → bytes ≡ image.now.size → spec.IsNoAccess at.new }
{
    match why {
        Why::Near => unreachable!(),
        Why::Outside => *at = stop_outside(image, pc, done),
        Why::Fault(cause) => set_fault(image, pc, done, cause, at),
        Why::Access => (),
    }
}

/// Where a hart stops that has executed as many instructions as it may, or whose pc is outside the code.
#[tactic(auto, unfolding(crate::specs::Execute::hart_effect))]
pub(crate) fn stop_outside(image: &Image, pc: u32, done: u64) -> Stop
    requires { (image.now.limit ≤ done) ⊎ (image.now.code ≤ pc) }
    ensures effect { (x : List ℕ) → hart_effect image.now (spec.hart x pc done) ≡ Stops result }
    ensures none { spec.IsNoAccess result }
{
    if pc == EPOCH_END {
        Stop::Ended
    } else if done >= u64::from(image.limit()) {
        fault(INSTRUCTION_LIMIT, pc)
    } else {
        fault(FETCH_OUTSIDE_CODE, pc)
    }
}

/// Sets `at` to where a hart stops at a word that is refused, or whose instruction faults with this cause, or after the code.
#[inline(never)]
fn set_fault(image: &Image, pc: u32, done: u64, cause: u32, at: &mut Stop)
    requires { pc % 4 ≡ 0 }
    ensures effect { (x : List ℕ) → spec.IsFaulting image.now (spec.hart x pc done) cause → hart_effect image.now (spec.hart x pc done) ≡ Stops at.new }
    ensures none { spec.IsNoAccess at.new }
{
    *at = stop_at_fault(image, pc, done, cause);
}

/// Where a hart stops at a word that is refused, or whose instruction faults with this cause, or after the code.
fn stop_at_fault(image: &Image, pc: u32, done: u64, cause: u32) -> Stop
    requires { pc % 4 ≡ 0 }
    ensures effect { (x : List ℕ) → spec.IsFaulting image.now (spec.hart x pc done) cause → hart_effect image.now (spec.hart x pc done) ≡ Stops result }
    ensures none { spec.IsNoAccess result }
{
    if pc >= image.code() {
        return stop_outside(image, pc, done);
    }
    match image.instruction_at(pc) {
        Ok(_) => fault(cause, pc),
        Err(Refused::Illegal) => fault(ILLEGAL_WORD, pc),
        Err(Refused::System) => fault(SYSTEM_INSTRUCTION, pc),
    }
}
