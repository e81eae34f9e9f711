//! The report of a history. It is replayed twice: for the sites of its entries, and for what is found of its violations. Of that the lines are
//! kept, and the sums.

ghost use Rattle.std.specs.Prelude.{◌≡◌, ◌+◌, ◌^◌, ◌<◌, ◌≤◌, ◌++◌, [], ℕ, Bool, IfOk, IfSome, List, MatchResult, OnOk, Option, filter, length, option_map, option_to_list};
ghost use Rattle.spec_history.specs.declared.entry.Entry.{Entry};
ghost use Rattle.spec_history.specs.View.{IsAuditFault, state_in};
ghost use Rattle.trace_commands.specs.declared.outcome.Verdict.TheVariants.{Legal};
ghost use Rattle.trace_commands.specs.Audit.{IsVerdict};
ghost use Rattle.conflicts.specs.declared.standing.Site.{Site};
ghost use Rattle.conflicts.specs.Sites.{sites_before};
ghost use Rattle.conflict_findings.specs.declared.rollback.Rollback.{Rollback};
ghost use Rattle.conflict_findings.specs.AllSums.{AreAllSums};
ghost use Rattle.conflict_findings.specs.Ends.{ended_before, running_after};
ghost use Rattle.conflict_findings.specs.Followed.{IsFollowed, IsFollowedTo};
ghost use Rattle.conflict_findings.specs.Rollbacks.{rollback_at};
ghost use Rattle.conflict_text.specs.Ends.{is_kept};
ghost use Rattle.conflict_text.specs.Explaining.{IsReport};
ghost use Rattle.conflict_text.specs.Gathered.{IsGathered};
ghost use Rattle.conflict_text.specs.Why as spec;

use crate::attempts::push_wanted;
use crate::ends::attempt_lines;
use crate::lines::push_violation;
use crate::report::{Totals, push_totals, totals_of};
use conflict_findings::{
    Ended, Ending, Ends, Followed, Running, Sums, ended_by, finding_of, further_runs, running_in,
};
use conflicts::{Explanation, Known, Scene, Site, explanation_at, sites};
use rv32_exec::Image;
use spec_history::{Entry, Flat, Illegal};
use std::alloc::{AllocError, Global};
use trace_commands::Traced;

/// The report of a history, in two parts that are written one after the other, so that they need not be joined in memory.
#[derive(Drop)]
pub(crate) struct Report {
    /// The lines of its violations.
    pub violations: Vec<u8>,
    /// Those below them.
    pub rest: Vec<u8>,
    /// The homefree epoch after it.
    pub homefree: u32,
}

/// What is found of the violations so far.
#[derive(Drop)]
struct Findings {
    /// Their lines.
    lines: Vec<u8>,
    /// What they cost.
    sums: Sums,
    /// What is kept of attempts meanwhile.
    followed: Followed,
}

/// A history, and what stands at its entries.
#[derive(Drop)]
struct Sited<'h> {
    image: &'h Image,
    entries: &'h [Entry],
    /// The sites of its entries.
    sites: &'h [Option<Site>],
}

/// A replay of a history, and what is gathered on the way.
#[derive(Drop)]
struct Gathering {
    /// The machine at the place that is reached.
    flat: Flat,
    /// What is known of the history's accesses.
    known: Known,
    /// What is found of its violations.
    findings: Findings,
    /// What is kept of the attempts that ended.
    ended: Vec<Ended>,
}

/// What is gathered of a history, in one replay.
#[derive(Drop)]
struct Gathered {
    /// What is found of its violations.
    findings: Findings,
    /// How its attempts ended. Those that were violated are among them only where all are told.
    ends: Ends,
    /// The homefree epoch after it.
    homefree: u32,
}

/// The report of the history of a trace, with a line for each attempt where that is wanted.
///
/// An Err is that of an audit: the place, counted from 0, of the first entry that is refused, and its refusal. `NoMemory` has
/// the place at which memory was refused, and the number of entries where there was none for the machine itself or for the
/// report.
pub(crate) fn report_of(
    alloc: Global,
    wanted: bool,
    traced: Traced,
) -> Result<Report, (usize, Illegal)>
    ensures report { IfOk result (λ told. IsReport wanted traced.image traced.cores traced.entries.items told.homefree (told.violations.items ++ told.rest.items)) }
    ensures verdict { MatchResult result (λ told. IsVerdict traced.image traced.cores traced.entries.items (Legal (length traced.entries.items) told.homefree))
        (λ fault. IsAuditFault traced.image traced.cores traced.entries.items fault.0 fault.1) }
{
    let length = traced.entries.len();
    let sites = sites(
        alloc,
        &traced.image,
        traced.cores,
        traced.entries.as_slice(),
    )?;
    match print(alloc, wanted, traced, sites) {
        Ok(told) => Ok(told),
        Err(_) => Err((length, Illegal::NoMemory)),
    }
}

/// The same of a history with these sites.
fn print(
    alloc: Global,
    wanted: bool,
    traced: Traced,
    sites: Vec<Option<Site>>,
) -> Result<Report, AllocError>
    requires { sites.items ≡ sites_before traced.image traced.cores traced.entries.items (length traced.entries.items) }
    ensures report { IfOk result (λ told. IsReport wanted traced.image traced.cores traced.entries.items told.homefree (told.violations.items ++ told.rest.items)) }
    ensures verdict { IfOk result (λ told. IsVerdict traced.image traced.cores traced.entries.items (Legal (length traced.entries.items) told.homefree)) }
{
    let (mut report, totals, image) = before_sums(alloc, wanted, traced, sites)?;
    push_totals(&mut report.rest, &image, totals)?;
    Ok(report)
}

/// The report without the lines of its sums; the sums; and the image. The history and its sites are given back, since nothing else needs
/// them.
fn before_sums(
    alloc: Global,
    wanted: bool,
    traced: Traced,
    sites: Vec<Option<Site>>,
) -> Result<(Report, Totals, Image), AllocError>
    ensures counted { IfOk result (λ told. spec.AreCounted wanted traced.image traced.cores traced.entries.items sites.items
        told.0.homefree told.0.violations.items told.0.rest.items told.1) }
    ensures image { IfOk result (λ told. told.2 ≡ traced.image) }
    ensures verdict { IfOk result (λ told. IsVerdict traced.image traced.cores traced.entries.items (Legal (length traced.entries.items) told.0.homefree)) }
{
    let Traced {
        image,
        cores,
        entries,
    } = traced;
    let entries = entries.as_slice();
    let Gathered {
        findings,
        ends,
        homefree,
    } = gather(alloc, wanted, &image, cores, entries, sites.as_slice())?;
    let Findings { lines, sums, .. } = findings;
    let mut rest = attempt_lines(alloc, &ends)?;
    push_wanted(alloc, &mut rest, wanted, entries, &ends)?;
    let totals = totals_of(alloc, &image, homefree, sums, &ends)?;
    let report = Report {
        violations: lines,
        rest,
        homefree,
    };
    Ok((report, totals, image))
}

/// What is gathered of a history, in one replay. Attempts that were violated are among it only where all are told.
fn gather(
    alloc: Global,
    all: bool,
    image: &Image,
    cores: u32,
    entries: &[Entry],
    sites: &[Option<Site>],
) -> Result<Gathered, AllocError>
    ensures found { IfOk result (λ all. spec.AreFound image.now cores entries.now sites.now (length entries.now) all.findings.lines.items all.findings.sums) }
    ensures ended { IfOk result (λ gathered. gathered.ends.ended.items ≡ filter (is_kept all) (ended_before image.now cores entries.now (length entries.now))) }
    ensures running { IfOk result (λ all. all.ends.running.items ≡ running_after image.now cores entries.now) }
    ensures verdict { IfOk result (λ all. IsVerdict image.now cores entries.now (Legal (length entries.now) all.homefree)) }
{
    let mut gathering = Gathering::new(alloc, image, cores)?;
    let sited = Sited {
        image,
        entries,
        sites,
    };
    let running = gathering.replay(alloc, all, &sited, cores)?;
    let homefree = gathering.flat.homefree();
    let Gathering {
        findings,
        ended,
        ..
    } = gathering;
    Ok(Gathered {
        findings,
        ends: Ends { ended, running },
        homefree,
    })
}

impl Gathering {
    /// At the beginning of any history.
    fn new(alloc: Global, image: &Image, cores: u32) -> Result<Gathering, AllocError>
        ensures { IfOk result (λ gathering. (all : Bool) (entries : List Entry) (sites : List (Option Site)) → IsGathered all image.now cores entries sites 0 gathering) }
    {
        let Ok(flat) = Flat::new(alloc, image, cores) else {
            return Err(AllocError);
        };
        let known = Known::new(alloc);
        let findings = Findings::new(alloc);
        let ended = Vec::new(alloc);
        Ok(Gathering {
            flat,
            known,
            findings,
            ended,
        })
    }

    /// Replays a history from its beginning to its end, and gathers on the way. It answers the attempts that go on.
    fn replay(
        &mut self,
        alloc: Global,
        all: bool,
        sited: &Sited<'_>,
        cores: u32,
    ) -> Result<Vec<Running>, AllocError>
        requires { IsGathered all sited.now.image.now cores sited.now.entries.now sited.now.sites.now 0 self.old }
        ensures gathered { OnOk result (IsGathered all sited.now.image.now cores sited.now.entries.now sited.now.sites.now (length sited.now.entries.now) self.new) }
        ensures running { IfOk result (λ running. running.items ≡ running_after sited.now.image.now cores sited.now.entries.now) }
    {
        let Sited { entries, sites, .. } = sited;
        for (place, entry) in entries.iter().enumerate() {
            let known = &mut self.known;
            let explained = explanation_at(alloc, cores, &self.flat, entries, known, place)?;
            let scene = Scene {
                flat: &self.flat,
                entries,
                behind: &self.known.behind,
            };
            self.findings.keep(alloc, &scene, sites, explained)?;
            let followed = &self.findings.followed;
            let found = ended_by(&self.flat, cores, entries, followed, place, *entry);
            keep_ended(&mut self.ended, all, found)?;
            self.findings.followed.note(entries)?;
            let Ok(_) = self.flat.apply(*entry) else {
                return Err(AllocError);
            };
        }
        let followed = &self.findings.followed;
        let running = running_in(alloc, &self.flat, cores, entries, followed)?;
        Ok(running)
    }
}

impl Findings {
    /// Of none.
    fn new(alloc: Global) -> Findings
        ensures lines { result.lines.items ≡ [] }
        ensures sums { AreAllSums [] result.sums }
        ensures followed { (entries : List Entry) → IsFollowedTo entries 0 result.followed }
    {
        Findings {
            lines: Vec::new(alloc),
            sums: Sums::new(alloc),
            followed: Followed::new(alloc),
        }
    }

    /// With what is found of an explanation, if there is one: its lines, and what it cost. It takes the scene of the violation.
    fn keep(
        &mut self,
        alloc: Global,
        scene: &Scene<'_>,
        sites: &[Option<Site>],
        explained: Option<Explanation>,
    ) -> Result<(), AllocError>
        requires followed { IsFollowed scene.now.entries.now self.old.followed }
        requires noted { IfSome explained (λ e. self.old.followed.numbers.place ≡ e.place) }
        requires summed { (rollbacks : List Rollback) × AreAllSums rollbacks self.old.sums }
        ensures told { OnOk result (self.new.lines.items ≡ self.old.lines.items
            ++ spec.lines_of scene.now.flat.now.image (state_in scene.now.flat.now) scene.now.entries.now sites.now explained) }
        ensures summed { OnOk result ((rollbacks : List Rollback) → AreAllSums rollbacks self.old.sums
            → AreAllSums (rollbacks ++ option_to_list (option_map (rollback_at scene.now.flat.now.image scene.now.entries.now sites.now) explained)) self.new.sums) }
        ensures followed { OnOk result (IsFollowed scene.now.entries.now self.new.followed) }
        ensures noted { OnOk result (self.new.followed.numbers.place ≡ self.old.followed.numbers.place) }
    {
        let Some(e) = explained else {
            return Ok(());
        };
        let (image, followed) = (scene.flat.image(), &mut self.followed);
        let further = further_runs(alloc, scene, sites, e)?;
        let found = finding_of(image, scene.entries, sites, followed, &e);
        push_violation(&mut self.lines, &found, further.as_slice())?;
        let rollback = found.rollback();
        self.sums.add(&rollback)?;
        Ok(())
    }
}

/// The list with an attempt at its end, if there is one. An attempt that was violated is kept only where all are told: else its violation
/// tells of it.
fn keep_ended(ended: &mut Vec<Ended>, all: bool, found: Option<Ended>) -> Result<(), AllocError>
    ensures { OnOk result (ended.new.items ≡ ended.old.items ++ filter (is_kept all) (option_to_list found)) }
{
    let Some(attempt) = found else {
        return Ok(());
    };
    match attempt.ending {
        Ending::Violated if !all => {}
        Ending::Violated | Ending::Committed | Ending::Cancelled => ended.push(attempt)?,
    }
    Ok(())
}
