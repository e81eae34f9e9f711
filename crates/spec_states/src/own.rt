ghost use Rattle.std.specs.Prelude.{◌≡◌, ℕ, ◌+◌, ◌<◌, ◌≤◌, ◌%◌, ◌||◌, true, false};
ghost use Rattle.spec_states.specs.declared.line.TheConstants.{LONGEST_LINE};
ghost use Rattle.spec_states.specs.Copies.{KeepsUpToDate, FilledIsUpToDate, KeepsUpToDateAtStore, StoredIsUpToDate, Publishes};
ghost use Rattle.memory_bytes.specs.Bytes.{IsWidth};
ghost use Rattle.spec_states.specs.Mask.{has, is_within, IsWithinLine};
ghost use Rattle.spec_states.specs.Rows.{TakesHold, RollsBack, Settles, MarksRead};
ghost use Rattle.spec_states.specs.States.{is_valid};
ghost use Rattle.spec_states.specs.Tables.{next, own_load, own_load_table, own_store, own_store_table, violation, settlement, marks_after_load, marks_after_store, marks_of};

use crate::line::{LONGEST_LINE, LineState, Marks};
use crate::next::Next;

impl Marks {
    /// The marks that a copy carries: SpS and SpE alone have any.
    fn carried(self, state: LineState) -> Marks
        ensures { result ≡ marks_of state self }
    {
        if state.is_speculative() {
            self
        } else {
            Marks::NONE
        }
    }

    /// The marks after a load of `width` bytes at `offset`.
    fn with_load(self, offset: u32, width: u32) -> Marks
        requires in_line { offset + width ≤ LONGEST_LINE }
        requires width { IsWidth width }
        ensures { result ≡ marks_after_load self offset width }
    {
        Marks {
            loaded: self.loaded || !self.has_all(offset, width),
            bytes: self.bytes,
        }
    }

    /// The marks after a store of `width` bytes at `offset`.
    fn with_store(self, offset: u32, width: u32) -> Marks
        requires in_line { offset + width ≤ LONGEST_LINE }
        requires width { IsWidth width }
        ensures { result ≡ marks_after_store self offset width }
    {
        Marks {
            loaded: self.loaded,
            bytes: self.with_bytes(offset, width),
        }
    }
}

/// What the owner's speculative load of `width` bytes at `offset` makes of its copy. `alone` says that no other core
/// holds the line after the transaction.
pub fn after_own_load(state: LineState, marks: Marks, offset: u32, width: u32, alone: bool) -> Next
    requires in_line { offset < LONGEST_LINE }
    requires width { IsWidth width }
    requires aligned { offset % width ≡ 0 }
    ensures table { result ≡ own_load state marks offset width alone }
    ensures hit { is_valid state ≡ true → KeepsUpToDate state marks result }
    ensures miss { is_valid state ≡ false → FilledIsUpToDate result }
    ensures marks { result.marks ≡ marks_after_load (marks_of state marks) offset width }
    ensures mask { result.marks.bytes ≡ (marks_of state marks).bytes }
    ensures read { MarksRead offset width result }
    ensures takes_hold { TakesHold state marks alone result }
    ensures enters_none { result.enters ≡ false }
{
    let after = marks.carried(state).with_load(offset, width);
    own_load_row(state, alone, after)
}

/// The row of an own load, with the marks that it leaves.
fn own_load_row(state: LineState, alone: bool, after: Marks) -> Next
    ensures { result ≡ next (own_load_table state alone) after }
{
    match state {
        LineState::I if alone => Next::to(LineState::SpE, after),
        LineState::I | LineState::S | LineState::SpS => Next::to(LineState::SpS, after),
        LineState::E | LineState::SpE => Next::to(LineState::SpE, after),
        LineState::M => Next::to(LineState::SpE, after).written_back(),
    }
}

/// What the owner's speculative store of `width` bytes at `offset` makes of its copy. `alone` says that no other core
/// holds the line after the transaction.
pub fn after_own_store(state: LineState, marks: Marks, offset: u32, width: u32, alone: bool) -> Next
    requires in_line { offset < LONGEST_LINE }
    requires width { IsWidth width }
    requires aligned { offset % width ≡ 0 }
    ensures table { result ≡ own_store state marks offset width alone }
    ensures hit { is_valid state ≡ true → KeepsUpToDateAtStore state marks result }
    ensures miss { is_valid state ≡ false → StoredIsUpToDate result }
    ensures marks { result.marks ≡ marks_after_store (marks_of state marks) offset width }
    ensures mask { (x : ℕ) → has result.marks.bytes x
        ≡ (has (marks_of state marks).bytes x || is_within offset width x) }
    ensures within_line { (length : ℕ) → offset + width ≤ length
        → IsWithinLine length (marks_of state marks).bytes → IsWithinLine length result.marks.bytes }
    ensures takes_hold { TakesHold state marks alone result }
{
    let before = marks.carried(state);
    let after = before.with_store(offset, width);
    own_store_row(state, before.bytes != 0, alone, after)
}

/// The row of an own store, with the marks that it leaves. `modified` says that the mask was not empty before.
fn own_store_row(state: LineState, modified: bool, alone: bool, after: Marks) -> Next
    ensures { result ≡ next (own_store_table state modified alone) after }
{
    match state {
        LineState::SpE => Next::to(LineState::SpE, after),
        LineState::SpS if modified => Next::to(LineState::SpS, after),
        LineState::M if alone => Next::to(LineState::SpE, after).written_back(),
        LineState::M => Next::to(LineState::SpS, after).entering().written_back(),
        _ if alone => Next::to(LineState::SpE, after),
        _ => Next::to(LineState::SpS, after).entering(),
    }
}

/// What a violation of the owner's epoch makes of its copy.
pub fn after_violation(state: LineState, marks: Marks) -> Next
    ensures table { result ≡ violation state marks }
    ensures up_to_date { KeepsUpToDate state marks result }
    ensures rolls_back { RollsBack state result }
{
    let after = match state {
        LineState::SpS | LineState::SpE if marks.bytes != 0 => LineState::I,
        LineState::SpS => LineState::S,
        LineState::SpE => LineState::E,
        _ => state,
    };
    Next::to(after, Marks::NONE)
}

/// What the owner's own publish makes of its copy. `alone` says that no other core holds the line after the publish.
/// `write_back` says that memory is written.
pub fn settled(state: LineState, marks: Marks, alone: bool) -> Next
    ensures table { result ≡ settlement state marks alone }
    ensures up_to_date { Publishes state marks result }
    ensures settles { Settles state marks alone result }
{
    match state {
        LineState::SpS if marks.bytes == 0 => Next::to(LineState::S, Marks::NONE),
        LineState::SpS if !alone => Next::to(LineState::S, Marks::NONE).written_back(),
        LineState::SpE if marks.bytes == 0 => Next::to(LineState::E, Marks::NONE),
        LineState::SpS | LineState::SpE => Next::to(LineState::M, Marks::NONE),
        _ => Next::to(state, Marks::NONE),
    }
}
