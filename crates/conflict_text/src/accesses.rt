//! The two accesses of a violation, and where they met.
ghost use Rattle.std.specs.Prelude.{◌≡◌, ◌++◌, OnOk};
ghost use Rattle.conflict_text.specs.Lines as spec;

use crate::words::{push_address, push_known_address, push_named, push_text, push_word};
use conflict_findings::{Access, Finding};
use conflicts::{ByteRange, Kind};
use std::alloc::AllocError;

/// What the report calls an access, its entry, and its instruction.
#[tactic(auto, using(crate::proofs::Joining::joined), unfolding(crate::specs::Lines::access_text))]
pub(crate) fn push_access(
    text: &mut Vec<u8>,
    name: &[u8],
    access: Option<Access>,
) -> Result<(), AllocError>
    ensures { OnOk result (text.new.items ≡ text.old.items ++ spec.access_text name.now access) }
{
    let Some(access) = access else {
        push_word(text, name, b"-")?;
        return push_word(text, b" ", b"-");
    };
    push_named(text, name, access.place as u128)?;
    push_known_address(text, b" ", access.pc)
}

/// Where two accesses met: the address of the first byte, and how many they are.
#[tactic(auto, using(crate::proofs::Joining::joined), unfolding(crate::specs::Lines::bytes_text))]
pub(crate) fn push_bytes(text: &mut Vec<u8>, bytes: Option<ByteRange>) -> Result<(), AllocError>
    ensures { OnOk result (text.new.items ≡ text.old.items ++ spec.bytes_text bytes) }
{
    let Some(bytes) = bytes else {
        return push_text(text, b" at - -");
    };
    push_address(text, b" at ", bytes.first)?;
    push_named(text, b" ", bytes.length as u128)
}

/// The two accesses of a violation, the victim's and the causer's. Of a full buffer they are the store that held the line, and the access that asked for it.
#[tactic(auto, using(crate::proofs::Joining::joined), unfolding(crate::specs::Lines::met_by))]
pub(crate) fn push_met(text: &mut Vec<u8>, found: &Finding) -> Result<(), AllocError>
    ensures { OnOk result (text.new.items ≡ text.old.items ++ spec.met_by found.now.kind found.now.victim_access found.now.causer_access) }
{
    let (victim, causer) = match found.kind {
        Kind::FullBuffer => (b" held ".as_slice(), b" asked ".as_slice()),
        Kind::TrueSharing | Kind::SilentStore | Kind::FalseSharing | Kind::Unexplained => {
            (b" load ".as_slice(), b" store ".as_slice())
        }
    };
    push_access(text, victim, found.victim_access)?;
    push_access(text, causer, found.causer_access)
}
