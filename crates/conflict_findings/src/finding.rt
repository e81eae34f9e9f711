//! What is found of a violation: all that is told and summed of it.

ghost use Rattle.std.specs.Prelude.{◌≡◌, IfOk, map, option_map};
ghost use Rattle.spec_history.specs.Conflict as conflict;
ghost use Rattle.conflict_findings.specs.Findings as spec;
ghost use Rattle.conflict_findings.specs.Followed.{IsFollowedTo};

use crate::followed::Followed;
use crate::run::Run;
use conflicts::{
    ByteRange, Explanation, Kind, Runner, Site, accessed_bytes, accessed_line, line_number,
};
use rv32_exec::Image;
use spec_history::{Entry, What};
use std::alloc::{AllocError, Global};

/// A load or a store of a history.
#[derive(Clone, Copy, PartialEq, Eq)]
pub struct Access {
    /// The place of its entry, counted from 0.
    pub place: usize,
    /// The address of its instruction, if it is known.
    pub pc: Option<u32>,
}

/// What is found of a violation: all that is told and summed of it, but for its further runs.
#[derive(Clone, Copy, PartialEq, Eq)]
pub struct Finding {
    /// The place of the violation in the history, counted from 0.
    pub place: usize,
    /// What made it necessary, or not.
    pub kind: Kind,
    /// Who was violated.
    pub victim: Runner,
    /// Which run of its epoch the violated attempt was, counted from 1.
    pub attempt: usize,
    /// How many instructions it had executed when it learnt of the violation.
    pub lost: u64,
    /// How many of these it had executed up to its last entry.
    pub entered: u64,
    /// How many of these it had executed from the blamed load on, if one is blamed.
    pub since: Option<u64>,
    /// Who made the violation.
    pub causer: Runner,
    /// By how many epochs the victim stands after the causer: at least 1 of a violation that the flat machine accepts.
    pub distance: u32,
    /// The place of the entry that it was made for, if there is one.
    pub cause: Option<usize>,
    /// What that entry says.
    pub act: Option<What>,
    /// The victim's access: the load that is blamed. For a full buffer: the store that held the line.
    pub victim_access: Option<Access>,
    /// The causer's access: the store that is blamed. For a full buffer: the access that asked for the line.
    pub causer_access: Option<Access>,
    /// The number of the line of the caches in which they met, if it is known: the place of a byte of it over the length of a line.
    pub line: Option<u32>,
    /// The bytes at which they met, if these are known; for a full buffer those of the line that was asked for. A line of bytes that lie
    /// apart has the bytes of a piece.
    pub bytes: Option<ByteRange>,
    /// The blamed store stands before the blamed load.
    pub stale: bool,
    /// The store by which false sharing came true: of the causer's attempt, after the cause, to a byte that the victim had read.
    pub later: Option<Access>,
    /// What violated or cancelled the causer's attempt, if that did not commit.
    pub undoing: Option<What>,
    /// The victim's epoch was cancelled before its core began it again.
    pub moot: bool,
}

/// A further run of a violation: bytes at which the two epochs met, beside those that are blamed.
#[derive(Clone, Copy)]
pub struct FurtherRun {
    /// True sharing where the cause changes one of the bytes, a silent store where it writes them and changes none, false sharing
    /// where it writes their line alone.
    pub kind: Kind,
    /// The first load of the victim's attempt that read the bytes.
    pub load: Access,
    /// The cause, if it is a store. Else the last store of the causer's attempt to the bytes; for false sharing, to the lowest byte
    /// of their line that the cause writes.
    pub store: Access,
    /// The bytes.
    pub bytes: ByteRange,
}

/// What is found of an explanation. It takes the sites of the history, and what is kept of its attempts, of which the entries before the
/// violation are noted.
pub fn finding_of(
    image: &Image,
    entries: &[Entry],
    sites: &[Option<Site>],
    followed: &mut Followed,
    e: &Explanation,
) -> Finding
    requires { IsFollowedTo entries.now e.now.place followed.old }
    ensures found { result ≡ spec.finding_of image.now entries.now sites.now e.now }
    ensures followed { IsFollowedTo entries.now e.now.place followed.new }
{
    let attempt = followed.attempt_number(e.victim.core);
    let undone = followed.undone_at(entries, *e);
    Finding {
        place: e.place,
        kind: e.kind,
        victim: e.victim,
        attempt,
        lost: e.lost,
        entered: e.entered,
        since: e.since(sites),
        causer: e.causer,
        distance: e.victim.epoch.saturating_sub(e.causer.epoch),
        cause: e.cause,
        act: what_at(entries, e.cause),
        victim_access: accessed(sites, victim_place(image, entries, e)),
        causer_access: accessed(sites, causer_place(e)),
        line: met_line(image, entries, e),
        bytes: met_bytes(image, entries, e),
        stale: e.is_stale(),
        later: accessed(sites, e.later),
        undoing: what_at(entries, undone),
        moot: e.moot_at(entries).is_some(),
    }
}

/// The further runs, with the instructions that met there, in order.
pub(crate) fn with_instructions(
    alloc: Global,
    sites: &[Option<Site>],
    runs: &[Run],
) -> Result<Vec<FurtherRun>, AllocError>
    ensures { IfOk result (λ further. further.items ≡ map (spec.further_run sites.now) runs.now) }
{
    let mut further = Vec::new(alloc);
    for run in runs {
        further.push(further_run(sites, *run))?;
    }
    Ok(further)
}

fn further_run(sites: &[Option<Site>], run: Run) -> FurtherRun
    ensures { result ≡ spec.further_run sites.now run }
{
    FurtherRun {
        kind: run.kind,
        load: access_at(sites, run.load),
        store: access_at(sites, run.store),
        bytes: run.bytes,
    }
}

/// What the entry at a place says, if there is one.
pub(crate) fn what_at(entries: &[Entry], place: Option<usize>) -> Option<What>
    ensures { result ≡ conflict.what_at entries.now place }
{
    let entry = entries.get(place?)?;
    Some(entry.what)
}

/// The address of the instruction of the entry at a place.
fn pc_at(sites: &[Option<Site>], place: usize) -> Option<u32>
    ensures { result ≡ spec.pc_at sites.now place }
{
    let site = (*sites.get(place)?)?;
    Some(site.pc)
}

/// The access at a place, with its instruction.
fn access_at(sites: &[Option<Site>], place: usize) -> Access
    ensures { result ≡ spec.access_at sites.now place }
{
    Access {
        place,
        pc: pc_at(sites, place),
    }
}

/// The same, if there is a place.
fn accessed(sites: &[Option<Site>], place: Option<usize>) -> Option<Access>
    ensures { result ≡ option_map (spec.access_at sites.now) place }
{
    let place = place?;
    Some(access_at(sites, place))
}

/// The place of the access that asked for the line of a full buffer.
fn asked_at(e: &Explanation) -> Option<usize>
    ensures { result ≡ spec.asked_at e.now }
{
    match e.kind {
        Kind::FullBuffer => e.cause,
        Kind::TrueSharing | Kind::SilentStore | Kind::FalseSharing | Kind::Unexplained => None,
    }
}

/// The place of the store that is blamed, or of the access that asked for the line of a full buffer.
fn causer_place(e: &Explanation) -> Option<usize>
    ensures { result ≡ spec.causer_place e.now }
{
    match e.blame {
        Some(blame) => Some(blame.store),
        None => asked_at(e),
    }
}

/// The place of the load that is blamed, or of the store that held the line of a full buffer.
fn victim_place(image: &Image, entries: &[Entry], e: &Explanation) -> Option<usize>
    ensures { result ≡ spec.victim_place image.now entries.now e.now }
{
    match e.blame {
        Some(blame) => Some(blame.load),
        None => e.held_at(image, entries),
    }
}

/// The line that was asked for of a full buffer.
fn asked_line(image: &Image, entries: &[Entry], e: &Explanation) -> Option<u32>
    ensures { result ≡ spec.asked_line image.now entries.now e.now }
{
    accessed_line(image, what_at(entries, asked_at(e))?)
}

/// The line of the blamed byte, or the one that was asked for of a full buffer.
fn met_line(image: &Image, entries: &[Entry], e: &Explanation) -> Option<u32>
    ensures { result ≡ spec.met_line image.now entries.now e.now }
{
    match e.blame {
        Some(blame) => Some(line_number(image, blame.byte)),
        None => asked_line(image, entries, e),
    }
}

/// Where the bytes of the line are that was asked for of a full buffer.
fn asked_bytes(image: &Image, entries: &[Entry], e: &Explanation) -> Option<ByteRange>
    ensures { result ≡ spec.asked_bytes image.now entries.now e.now }
{
    accessed_bytes(image, what_at(entries, asked_at(e))?)
}

/// The bytes around the blamed one, or those of the line that was asked for of a full buffer.
fn met_bytes(image: &Image, entries: &[Entry], e: &Explanation) -> Option<ByteRange>
    ensures { result ≡ spec.met_bytes image.now entries.now e.now }
{
    match e.blame {
        Some(blame) => Some(blame.bytes),
        None => asked_bytes(image, entries, e),
    }
}
