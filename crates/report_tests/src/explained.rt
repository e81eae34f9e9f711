//! Worked histories and what explains their violations.

ghost use Rattle.std.specs.Prelude.{◌≡◌, IfOk, OnOk, true};
ghost use Rattle.conflict_findings.specs.Followed.{IsFollowed, IsFollowedTo};

use crate::rows::{
    BUFFER_FULL, BUFFER_FULL_FATES, BUFFER_FULL_PAIRS, BUFFER_FULL_SUMS, BUFFER_FULL_VIOLATIONS,
    COMMITTED_BYTES, COMMITTED_BYTES_VIOLATIONS, HISTOGRAM, HISTOGRAM_FATES, HISTOGRAM_PAIRS,
    HISTOGRAM_SUMS, HISTOGRAM_VIOLATIONS, LATER_BYTES, LATER_BYTES_VIOLATIONS, STORED_BYTES,
    STORED_BYTES_VIOLATIONS,
};
use crate::words::{count_of, index, number, place_in, word};
use conflict_findings::{
    Access, Bounds, Fates, Finding, Followed, Pair, PairSum, Part, Rollback, Sum, Sums, SumsByKind,
    finding_of, pairs_by_weight,
};
use conflicts::{
    Blame, ByteRange, Explanation, Kind, Runner, Site, attempt_number, explain, explain_with_sites,
    sites,
};
use rv32_exec::{Image, image_of};
use spec_history::{Entry, What};
use std::alloc::{AllocError, Global};
use std::collections::BTreeMap;
use std::process::Abort;
use std::test::Fail;
use trace_text::{image_part, read_trace};

/// Notes the entries before a place, and says whether those are noted, and no others.
fn note_before(followed: &mut Followed, entries: &[Entry], place: usize) -> Result<bool, AllocError>
    requires { IsFollowed entries.now followed.old }
    ensures noted { IfOk result (λ noted. noted ≡ true → IsFollowedTo entries.now place followed.new) }
    ensures known { OnOk result (IsFollowed entries.now followed.new) }
{
    for _ in followed.numbers.place..place {
        followed.note(entries)?;
    }
    Ok(followed.numbers.place == place)
}

/// A worked history.
#[derive(Drop)]
struct Worked {
    image: Image,
    cores: u32,
    entries: Vec<Entry>,
}

impl Worked {
    /// The history of this text.
    fn of(alloc: Global, text: &str) -> Result<Worked, Fail> {
        let image = image_of(alloc, image_part(text.as_bytes()))?;
        match read_trace(alloc, text.as_bytes(), image.version()) {
            Ok((cores, entries)) => Ok(Worked {
                image,
                cores,
                entries,
            }),
            Err(_) => Err(Fail::from("a trace")),
        }
    }

    fn explained(&self, alloc: Global) -> Result<Vec<Explanation>, Fail> {
        match explain(alloc, &self.image, self.cores, self.entries.as_slice()) {
            Ok(found) => Ok(found),
            Err(_) => Err(Fail::from("a legal history")),
        }
    }

    fn sites(&self, alloc: Global) -> Result<Vec<Option<Site>>, Fail> {
        match sites(alloc, &self.image, self.cores, self.entries.as_slice()) {
            Ok(found) => Ok(found),
            Err(_) => Err(Fail::from("a legal history")),
        }
    }

    fn with_sites(&self, alloc: Global) -> Result<(Vec<Explanation>, Vec<Option<Site>>), Fail> {
        match explain_with_sites(alloc, &self.image, self.cores, self.entries.as_slice()) {
            Ok(found) => Ok(found),
            Err(_) => Err(Fail::from("a legal history")),
        }
    }

    /// What is found of a violation, over what is kept of attempts before it.
    fn found_over(
        &self,
        followed: &mut Followed,
        stood: &[Option<Site>],
        e: &Explanation,
    ) -> Result<Finding, Fail>
        requires { IsFollowed self.now.entries.items followed.old }
        ensures { OnOk result (IsFollowed self.now.entries.items followed.new) }
    {
        let entries = self.entries.as_slice();
        if !note_before(followed, entries, e.place)? {
            return Err(Fail::from("the entries before a violation"));
        }
        Ok(finding_of(&self.image, entries, stood, followed, e))
    }

    /// What is found of each violation, in order, with what is kept of those before.
    fn found(&self, alloc: Global) -> Result<Vec<Finding>, Fail> {
        let (explained, stood) = self.with_sites(alloc)?;
        let mut followed = Followed::new(alloc);
        let mut found = Vec::new(alloc);
        for e in explained {
            found.push(self.found_over(&mut followed, stood.as_slice(), &e)?)?;
        }
        Ok(found)
    }

    /// What is found of one violation, where nothing is kept of the ends of attempts before.
    fn found_alone(
        &self,
        alloc: Global,
        stood: &[Option<Site>],
        e: &Explanation,
    ) -> Result<Finding, Fail> {
        self.found_over(&mut Followed::new(alloc), stood, e)
    }

    fn summed(&self, alloc: Global) -> Result<Vec<Rollback>, Fail> {
        let found = self.found(alloc)?;
        let mut summed = Vec::new(alloc);
        for finding in found {
            summed.push(finding.rollback())?;
        }
        Ok(summed)
    }
}

/// The sums over violations.
fn sums_over(alloc: Global, found: &[Finding]) -> Result<Sums, Fail> {
    let mut sums = Sums::new(alloc);
    for finding in found {
        let rollback = finding.rollback();
        sums.add(&rollback)?;
    }
    Ok(sums)
}

fn kind_of(word: &str) -> Option<Kind> {
    match word {
        "true" => Some(Kind::TrueSharing),
        "silent" => Some(Kind::SilentStore),
        "false" => Some(Kind::FalseSharing),
        "buffer" => Some(Kind::FullBuffer),
        "other" => Some(Kind::Unexplained),
        _ => None,
    }
}

/// What the row says at the places of the blamed load, the store, the byte and those that met alike, if it blames any.
fn blame_of(row: &str) -> Option<Blame> {
    if word(row, 14) == "-" {
        return None;
    }
    Some(Blame {
        load: index(row, 14),
        store: index(row, 16),
        byte: number(row, 18),
        bytes: ByteRange {
            first: number(row, 25),
            length: number(row, 26),
        },
    })
}

fn runner_of(row: &str, place: usize) -> Runner {
    Runner {
        core: number(row, place),
        epoch: number(row, place.wrapping_add(1)),
    }
}

fn explanation_of(row: &str) -> Option<Explanation> {
    let kind = kind_of(word(row, 1))?;
    Some(Explanation {
        place: index(row, 0),
        kind,
        causer: runner_of(row, 3),
        victim: runner_of(row, 6),
        cause: Some(index(row, 9)),
        blame: blame_of(row),
        later: place_in(row, 28),
        lost: u64::from(number(row, 11)),
        entered: u64::from(number(row, 12)),
    })
}

/// The violations of a worked history are explained as its rows say.
fn is_explained(rt: &impl Abort, alloc: Global, text: &str, rows: &str) -> Result<(), Fail> {
    let found = Worked::of(alloc, text)?.explained(alloc)?;
    assert!(rt; found.len() == count_of(rows));
    for (explanation, row) in found.iter().zip(rows.split('\n')) {
        assert!(rt; Some(*explanation) == explanation_of(row), "{row}");
    }
    Ok(())
}

#[test]
fn explains_worked_histories(rt: HostRuntime) -> Result<(), Fail> {
    let alloc = rt.alloc();
    is_explained(&rt, alloc, HISTOGRAM, HISTOGRAM_VIOLATIONS)?;
    is_explained(&rt, alloc, BUFFER_FULL, BUFFER_FULL_VIOLATIONS)?;
    is_explained(&rt, alloc, STORED_BYTES, STORED_BYTES_VIOLATIONS)?;
    is_explained(&rt, alloc, COMMITTED_BYTES, COMMITTED_BYTES_VIOLATIONS)?;
    is_explained(&rt, alloc, LATER_BYTES, LATER_BYTES_VIOLATIONS)
}

/// The site at a place of a history.
fn site_at(sites: &[Option<Site>], place: usize) -> Option<Site> {
    match sites.get(place) {
        Some(site) => *site,
        None => None,
    }
}

/// An access is of the entry and of the instruction that a row names.
fn is_access(access: Option<Access>, row: &str, place: usize, pc: usize) -> bool {
    access
        == Some(Access {
            place: index(row, place),
            pc: Some(number(row, pc)),
        })
}

/// Whether what is found names the load, the store and the bytes of a row, with their instructions, how many the attempt executed from the load on,
/// and how far apart the epochs stand.
fn is_met(found: &Finding, row: &str) -> bool {
    let bytes = ByteRange {
        first: number(row, 25),
        length: number(row, 26),
    };
    is_access(found.victim_access, row, 14, 20)
        && is_access(found.causer_access, row, 16, 21)
        && found.bytes == Some(bytes)
        && found.since == Some(u64::from(number(row, 23)))
        && number(row, 4).checked_add(found.distance) == Some(number(row, 7))
}

/// Whether the row names the addresses of the two instructions of its pair, and how many the attempt executed from the load on.
fn is_pair_told(row: &str, sites: &[Option<Site>]) -> bool {
    let Some(load) = site_at(sites, index(row, 14)) else {
        return false;
    };
    let Some(store) = site_at(sites, index(row, 16)) else {
        return false;
    };
    load.pc == number(row, 20)
        && store.pc == number(row, 21)
        && number(row, 11).checked_sub(load.done) == Some(number(row, 23))
}

#[test]
fn tells_the_instructions_of_a_pair(rt: HostRuntime) -> Result<(), Fail> {
    let worked = Worked::of(rt.alloc(), HISTOGRAM)?;
    let stood = worked.sites(rt.alloc())?;
    assert!(rt; stood.len() == worked.entries.len());
    for row in HISTOGRAM_VIOLATIONS.split('\n') {
        assert!(rt;
            row.is_empty() || is_pair_told(row, stood.as_slice()),
            "{row}"
        );
    }
    Ok(())
}

#[test]
fn finds_the_instructions_of_a_pair(rt: HostRuntime) -> Result<(), Fail> {
    let found = Worked::of(rt.alloc(), HISTOGRAM)?.found(rt.alloc())?;
    assert!(rt; found.len() == count_of(HISTOGRAM_VIOLATIONS));
    for (finding, row) in found.iter().zip(HISTOGRAM_VIOLATIONS.split('\n')) {
        assert!(rt; is_met(finding, row), "{row}");
    }
    Ok(())
}

/// Whether the causer's attempt was over at the place that a row names, if it was undone.
fn is_over_there(explanation: &Explanation, entries: &[Entry], row: &str) -> bool {
    let undone = place_in(row, 4);
    undone.is_none() || explanation.over_at(entries) == undone
}

/// Each violation of a worked history is found alone as it is found after those before.
fn are_found_alone(rt: &impl Abort, alloc: Global, text: &str) -> Result<(), Fail> {
    let worked = Worked::of(alloc, text)?;
    let explained = worked.explained(alloc)?;
    let stood = worked.sites(alloc)?;
    let found = worked.found(alloc)?;
    assert!(rt; !found.is_empty() && found.len() == explained.len());
    for (explanation, finding) in explained.iter().zip(found.iter()) {
        let alone = worked.found_alone(alloc, stood.as_slice(), explanation)?;
        assert!(rt; alone == *finding, "{}", finding.place);
    }
    Ok(())
}

#[test]
fn finds_in_order_what_it_finds_alone(rt: HostRuntime) -> Result<(), Fail> {
    let alloc = rt.alloc();
    are_found_alone(&rt, alloc, HISTOGRAM)?;
    are_found_alone(&rt, alloc, BUFFER_FULL)?;
    are_found_alone(&rt, alloc, STORED_BYTES)?;
    are_found_alone(&rt, alloc, COMMITTED_BYTES)?;
    are_found_alone(&rt, alloc, LATER_BYTES)
}

/// Whether a row tells the place and the attempt of a violation, and at which places the causer's attempt was undone and the victim's epoch was
/// cancelled.
fn has_ends(explanation: &Explanation, entries: &[Entry], row: &str) -> bool {
    let number = attempt_number(entries, explanation.victim.core, explanation.place);
    explanation.place == index(row, 0)
        && number == index(row, 2)
        && is_over_there(explanation, entries, row)
        && explanation.moot_at(entries) == place_in(row, 6)
}

/// Whether it tells too if the pair is stale, and the store that held the line.
fn has_fate(explanation: &Explanation, image: &Image, entries: &[Entry], row: &str) -> bool {
    has_ends(explanation, entries, row)
        && explanation.is_stale() == (word(row, 8) == "yes")
        && explanation.held_at(image, entries) == place_in(row, 10)
}

/// What the entry at a place says, if there is one.
fn said_at(entries: &[Entry], place: Option<usize>) -> Option<What> {
    let entry = entries.get(place?)?;
    Some(entry.what)
}

/// Whether what is found says so too. A row names the store that held the line of a full buffer alone.
fn is_fate_found(found: &Finding, entries: &[Entry], row: &str) -> bool {
    let is_held = match (place_in(row, 10), found.victim_access) {
        (Some(held), Some(access)) => access.place == held,
        (Some(_), None) => false,
        (None, _) => true,
    };
    found.place == index(row, 0)
        && found.attempt == index(row, 2)
        && found.undoing == said_at(entries, place_in(row, 4))
        && found.moot == place_in(row, 6).is_some()
        && found.stale == (word(row, 8) == "yes")
        && is_held
}

/// The rows tell what became of the violations of a worked history.
fn has_fates(rt: &impl Abort, alloc: Global, text: &str, rows: &str) -> Result<(), Fail> {
    let worked = Worked::of(alloc, text)?;
    let explained = worked.explained(alloc)?;
    let found = worked.found(alloc)?;
    assert!(rt; explained.len() == count_of(rows) && found.len() == count_of(rows));
    for (explanation, row) in explained.iter().zip(rows.split('\n')) {
        assert!(rt;
            has_fate(explanation, &worked.image, worked.entries.as_slice(), row),
            "{row}"
        );
    }
    for (finding, row) in found.iter().zip(rows.split('\n')) {
        assert!(rt;
            is_fate_found(finding, worked.entries.as_slice(), row),
            "{row}"
        );
    }
    Ok(())
}

#[test]
fn tells_what_became_of_violations(rt: HostRuntime) -> Result<(), Fail> {
    has_fates(&rt, rt.alloc(), HISTOGRAM, HISTOGRAM_FATES)?;
    has_fates(&rt, rt.alloc(), BUFFER_FULL, BUFFER_FULL_FATES)
}

/// The part that a row of sums names. None: it names none.
fn part_of(row: &str) -> Option<Part> {
    match word(row, 2) {
        "whole" => Some(Part::Whole),
        "kind" => Some(Part::OfKind(kind_of(word(row, 3))?)),
        "pair" => Some(Part::OfPair(Pair {
            store: number(row, 3),
            load: number(row, 4),
        })),
        "unpaired" => Some(Part::Unpaired),
        "stored" => Some(Part::StoredAt(number(row, 3))),
        "loaded" => Some(Part::LoadedAt(number(row, 3))),
        "line" => Some(Part::OfLine(number(row, 3))),
        "epoch" => Some(Part::OfEpoch(number(row, 3))),
        _ => None,
    }
}

/// The sum of a row of sums.
fn wanted_of(row: &str) -> Sum {
    Sum {
        count: number(row, 0),
        lost: u128::from(number(row, 1)),
    }
}

/// What the violations of a part cost, one by one.
fn sum_of(summed: &[Rollback], part: Part) -> Sum {
    let mut sum = Sum { count: 0, lost: 0 };
    for rollback in summed {
        if part.has(rollback) {
            sum.count = sum.count.wrapping_add(1);
            sum.lost = sum.lost.wrapping_add(u128::from(rollback.lost));
        }
    }
    sum
}

/// Whether the part of a row has its sum.
fn has_sum(summed: &[Rollback], row: &str) -> bool {
    match part_of(row) {
        Some(part) => sum_of(summed, part) == wanted_of(row),
        None => false,
    }
}

/// The sum of a kind.
fn of_kind(sums: SumsByKind, kind: Kind) -> Sum {
    match kind {
        Kind::TrueSharing => sums.true_sharing,
        Kind::SilentStore => sums.silent_store,
        Kind::FalseSharing => sums.false_sharing,
        Kind::FullBuffer => sums.full_buffer,
        Kind::Unexplained => sums.unexplained,
    }
}

/// Whether sums have that of a row at its number, or none where it is none.
fn has_at(sums: &BTreeMap<u32, Sum>, row: &str) -> bool {
    let wanted = wanted_of(row);
    match sums.get(&number(row, 3)) {
        Some(told) => wanted.count > 0 && *told == wanted,
        None => wanted.count == 0,
    }
}

/// Whether the sums have that of a row, if they keep such a one.
fn has_kept(sums: &Sums, row: &str) -> bool {
    match part_of(row) {
        Some(Part::Whole) => sums.whole == wanted_of(row),
        Some(Part::OfKind(kind)) => of_kind(sums.kinds, kind) == wanted_of(row),
        Some(Part::StoredAt(_)) => has_at(&sums.stores, row),
        Some(Part::LoadedAt(_)) => has_at(&sums.loads, row),
        Some(Part::OfLine(_)) => has_at(&sums.lines, row),
        Some(Part::OfEpoch(_)) => has_at(&sums.epochs, row),
        Some(Part::OfPair(_)) | Some(Part::Unpaired) => true,
        None => false,
    }
}

/// The pair is the one of a row of pairs.
fn is_pair_of(sum: &PairSum, row: &str) -> bool {
    let pair = Pair {
        store: number(row, 0),
        load: number(row, 1),
    };
    let fates = Fates {
        stale: number(row, 2),
        vain: number(row, 3),
        came_true: number(row, 4),
    };
    sum.pair == pair && sum.fates == fates && has_bounds(sum, row)
}

/// The distances and the bytes of a pair are between those of a row of pairs.
fn has_bounds(sum: &PairSum, row: &str) -> bool {
    let distance = Bounds {
        least: number(row, 5),
        greatest: u64::from(number(row, 6)),
    };
    let bytes = Bounds {
        least: number(row, 7),
        greatest: u64::from(number(row, 8)),
    };
    sum.distance == Some(distance) && sum.bytes == Some(bytes)
}

/// The violations of a worked history cost what the rows of sums say.
fn has_sums(rt: &impl Abort, alloc: Global, text: &str, rows: &str) -> Result<(), Fail> {
    let worked = Worked::of(alloc, text)?;
    let summed = worked.summed(alloc)?;
    let found = worked.found(alloc)?;
    let sums = sums_over(alloc, found.as_slice())?;
    for row in rows.split('\n') {
        if !row.is_empty() {
            assert!(rt; has_sum(summed.as_slice(), row), "{row}");
            assert!(rt; has_kept(&sums, row), "{row}");
        }
    }
    Ok(())
}

/// Its pairs are those of the rows, heaviest first.
fn has_pairs(rt: &impl Abort, alloc: Global, text: &str, rows: &str) -> Result<(), Fail> {
    let found = Worked::of(alloc, text)?.found(alloc)?;
    let Sums { pairs, .. } = sums_over(alloc, found.as_slice())?;
    let count = pairs.sums.len();
    let mut told = pairs_by_weight(pairs);
    told.reverse();
    assert!(rt; told.len() == count_of(rows) && count == count_of(rows));
    for (sum, row) in told.iter().zip(rows.split('\n')) {
        assert!(rt; is_pair_of(sum, row), "{row}");
    }
    Ok(())
}

#[test]
fn sums_what_violations_cost(rt: HostRuntime) -> Result<(), Fail> {
    let alloc = rt.alloc();
    has_sums(&rt, alloc, HISTOGRAM, HISTOGRAM_SUMS)?;
    has_pairs(&rt, alloc, HISTOGRAM, HISTOGRAM_PAIRS)?;
    has_sums(&rt, alloc, BUFFER_FULL, BUFFER_FULL_SUMS)?;
    has_pairs(&rt, alloc, BUFFER_FULL, BUFFER_FULL_PAIRS)
}
