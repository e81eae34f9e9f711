//! Words and numbers at the end of a text. Where memory runs out some of their bytes may be there.
ghost use Rattle.std.specs.Prelude.{◌≡◌, ◌++◌, OnOk};
ghost use Rattle.trace_text.specs.Printing.{hex_word};
ghost use Rattle.conflict_text.specs.Lines as spec;

use conflicts::Kind;
use itoa::Buffer;
use spec_history::What;
use std::alloc::AllocError;
use trace_text::push_hex;

/// The end of a line, or a text that no label stands before.
pub(crate) fn push_text(text: &mut Vec<u8>, told: &[u8]) -> Result<(), AllocError>
    ensures { OnOk result (text.new.items ≡ text.old.items ++ told.now) }
{
    text.extend_from_slice(told)
}

/// A label, and a word.
#[tactic(auto, using(crate::proofs::Joining::joined), unfolding(crate::specs::Lines::labelled))]
pub(crate) fn push_word(text: &mut Vec<u8>, label: &[u8], word: &[u8]) -> Result<(), AllocError>
    ensures { OnOk result (text.new.items ≡ text.old.items ++ spec.labelled label.now word.now) }
{
    push_text(text, label)?;
    push_text(text, word)
}

/// A label, and a number in decimal digits.
pub(crate) fn push_named(text: &mut Vec<u8>, label: &[u8], n: u128) -> Result<(), AllocError>
    ensures { OnOk result (text.new.items ≡ text.old.items ++ spec.named label.now n) }
{
    push_word(text, label, Buffer::new().format(n).as_bytes())
}

/// A label, and a place in the history, or a dash where there is none.
pub(crate) fn push_place(
    text: &mut Vec<u8>,
    label: &[u8],
    place: Option<usize>,
) -> Result<(), AllocError>
    ensures { OnOk result (text.new.items ≡ text.old.items ++ spec.labelled label.now (spec.number_or_dash place)) }
{
    match place {
        Some(place) => push_named(text, label, place as u128),
        None => push_word(text, label, b"-"),
    }
}

/// A label, and a count, or a dash where there is none.
pub(crate) fn push_count(
    text: &mut Vec<u8>,
    label: &[u8],
    count: Option<u64>,
) -> Result<(), AllocError>
    ensures { OnOk result (text.new.items ≡ text.old.items ++ spec.labelled label.now (spec.number_or_dash count)) }
{
    match count {
        Some(count) => push_named(text, label, count as u128),
        None => push_word(text, label, b"-"),
    }
}

/// A label, and an address of eight hexadecimal digits.
#[tactic(auto, using(crate::proofs::Joining::joined), unfolding(crate::specs::Lines::labelled))]
pub(crate) fn push_address(text: &mut Vec<u8>, label: &[u8], address: u32) -> Result<(), AllocError>
    ensures { OnOk result (text.new.items ≡ text.old.items ++ spec.labelled label.now (hex_word address)) }
{
    push_text(text, label)?;
    push_hex(text, &address.to_be_bytes())
}

/// A label, and an address, or a dash where there is none.
pub(crate) fn push_known_address(
    text: &mut Vec<u8>,
    label: &[u8],
    address: Option<u32>,
) -> Result<(), AllocError>
    ensures { OnOk result (text.new.items ≡ text.old.items ++ spec.labelled label.now (spec.address_or_dash address)) }
{
    match address {
        Some(address) => push_address(text, label, address),
        None => push_word(text, label, b"-"),
    }
}

/// The name of a kind.
pub(crate) fn kind_name(kind: Kind) -> &'static str
    ensures { result.now ≡ spec.kind_name kind }
{
    match kind {
        Kind::TrueSharing => "true",
        Kind::SilentStore => "silent",
        Kind::FalseSharing => "false",
        Kind::FullBuffer => "buffer",
        Kind::Unexplained => "other",
    }
}

/// The name of a cause, or a dash where there is none.
pub(crate) fn cause_name(cause: Option<What>) -> &'static str
    ensures { result.now ≡ spec.cause_name cause }
{
    match cause {
        Some(What::Load { .. }) => "load",
        Some(What::Store { .. }) => "store",
        Some(What::Publish) => "publish",
        Some(What::Commit) => "commit",
        Some(What::Fault { .. }) => "fault",
        _ => "-",
    }
}

/// The name of what undoes an attempt.
pub(crate) fn undoing_name(what: What) -> &'static str
    ensures { result.now ≡ spec.undoing_name what }
{
    match what {
        What::Hurt(_) => "hurt",
        What::Cancel(_) => "cancelled",
        _ => "-",
    }
}
