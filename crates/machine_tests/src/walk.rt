//! Books taken through a schedule, and their histories looked at from outside.
ghost use Rattle.std.specs.Prelude.{◌<◌};
ghost use Rattle.homefree.specs.BookView.{IsOfSameLoop};

use crate::opened::Opened;
use homefree::{Answer, Book, Cause, TurnFault, drive};
use run_ledger::Counts;
use rv32_exec::{End, Hart, Image, run_in_order};
use spec_history::{Entry, Flat, What, audit};
use std::alloc::Global;
use std::process::Abort;
use std::test::Fail;
use violations::EpochStore;

/// The hart that a core has in hand after an answer.
pub fn hart_after(answer: &Result<Answer, TurnFault>, held: Option<Hart>) -> Option<Hart> {
    match answer {
        Ok(Answer::Go(hart)) => Some(*hart),
        Ok(Answer::Again(_)) | Err(_) => held,
        Ok(_) => None,
    }
}

/// The hart that a core has in hand.
fn hart_of(held: &[Option<Hart>], core: u32) -> Option<Hart> {
    match held.get(core as usize) {
        Some(hart) => *hart,
        None => None,
    }
}

/// Has a core hold a hart, or none.
fn hold(held: &mut [Option<Hart>], core: u32, hart: Option<Hart>) {
    if let Some(place) = held.get_mut(core as usize) {
        *place = hart;
    }
}

/// Has a core hold what an answer gives it.
fn take(held: &mut [Option<Hart>], core: u32, answer: &Result<Answer, TurnFault>) {
    match answer {
        Ok(Answer::Go(hart)) => hold(held, core, Some(*hart)),
        Ok(Answer::Again(_)) | Err(_) => (),
        Ok(_) => hold(held, core, None),
    }
}

/// One turn of a core with the hart that its last turn gave it, and the word for its answer.
fn step<S: EpochStore>(opened: &mut Opened<S>, core: u32, held: &mut [Option<Hart>]) -> &'static str
    requires { core < opened.old.cores }
    ensures { IsOfSameLoop opened.old.book opened.new.book }
{
    let hart = hart_of(held, core);
    let answer = opened.turn(core, hart);
    take(held, core, &answer);
    word_of(&answer)
}

/// The answers of the turns of a schedule, a word for each.
pub fn walk<S: EpochStore>(
    rt: &impl Abort,
    alloc: Global,
    opened: &mut Opened<S>,
    schedule: &[u32],
) -> Result<Vec<&'static str>, Fail> {
    let mut held = [None; 16];
    let mut answers = Vec::new(alloc);
    for core in schedule {
        assert!(rt; *core < opened.cores);
        answers.push(step(opened, *core, &mut held))?;
    }
    Ok(answers)
}

/// What can be read of a book in short.
fn state_of<S: EpochStore>(book: &Book<S>) -> (usize, Counts, u32, Option<End>) {
    (book.len(), book.totals(), book.homefree(), book.ended())
}

/// The end that one core comes to, which takes a turn again where memory was refused.
pub fn walk_again<S: EpochStore>(rt: &impl Abort, opened: &mut Opened<S>) -> Option<End> {
    let mut held = None;
    for _ in 0..64 {
        let before = state_of(&opened.book);
        let answer = opened.turn(0, held);
        assert!(rt; answer.is_ok() || state_of(&opened.book) == before);
        held = hart_after(&answer, held);
        if opened.book.ended().is_some() {
            return opened.book.ended();
        }
    }
    None
}

/// The word for an answer.
pub fn word_of(answer: &Result<Answer, TurnFault>) -> &'static str {
    match answer {
        Ok(Answer::Go(_)) => "go",
        Ok(Answer::Again(cause)) => match cause {
            Cause::NoEpoch => "NoEpoch",
            Cause::NotHomefree => "NotHomefree",
            Cause::NoWay => "NoWay",
            Cause::OrbFull => "OrbFull",
            Cause::OrbBusy => "OrbBusy",
        },
        Ok(Answer::Left) => "left",
        Ok(Answer::Over(_)) => "over",
        Ok(Answer::Stopped(_)) => "stopped",
        Err(fault) => fault.name(),
    }
}

/// How often a history has loads, stores, restarts and commits.
pub fn counts_of(entries: &[Entry]) -> Counts {
    let mut counts = Counts {
        loads: 0,
        stores: 0,
        restarts: 0,
        commits: 0,
    };
    for entry in entries {
        let count = match entry.what {
            What::Load { .. } => &mut counts.loads,
            What::Store { .. } => &mut counts.stores,
            What::Restart => &mut counts.restarts,
            What::Commit => &mut counts.commits,
            _ => continue,
        };
        *count = count.wrapping_add(1);
    }
    counts
}

/// The history is legal, the machine after it has the book's homefree epoch, end and committed memory, and the totals are its
/// counts. Where the loop is over, it has ended as the sequential loop does, with its memory.
pub fn look<S: EpochStore>(rt: &impl Abort, alloc: Global, opened: &Opened<S>) -> Result<(), Fail> {
    let (book, image) = (&opened.book, opened.image);
    match audit(alloc, image, opened.cores, book.history()) {
        Ok(flat) => assert!(rt; is_after(book, &flat, image.size())),
        Err(_) => return Err("illegal".into()),
    }
    assert!(rt; book.totals() == counts_of(book.history()));
    ends_in_order(rt, alloc, opened)
}

/// A book whose loop is over says the same as the sequential loop.
fn ends_in_order<S: EpochStore>(
    rt: &impl Abort,
    alloc: Global,
    opened: &Opened<S>,
) -> Result<(), Fail> {
    if let Some(end) = opened.book.ended() {
        let whole = run_in_order(alloc, opened.image)?;
        let committed = opened.book.committed_memory(alloc)?;
        assert!(rt; whole.end() == end && committed.as_slice() == whole.bytes());
    }
    Ok(())
}

/// A book says the same as a machine.
fn is_after<S: EpochStore>(book: &Book<S>, flat: &Flat, size: u32) -> bool {
    for addr in 0..size.saturating_add(1) {
        if book.committed(addr) != flat.committed(addr) {
            return false;
        }
    }
    book.homefree() == flat.homefree() && book.ended() == flat.ended()
}

/// Drives a book through a schedule of its cores.
fn drive_all<S: EpochStore>(
    rt: &impl Abort,
    opened: &mut Opened<S>,
    schedule: &[u32],
) -> Result<Option<End>, TurnFault> {
    let cores = opened.cores;
    assert!(rt; schedule.iter().all(|core| *core < cores));
    let driven = drive(&mut opened.book, schedule, &mut opened.shares);
    assert!(rt; opened.shares.counts() == opened.book.totals());
    // A loop of no epochs is over before any turn tells it.
    assert!(rt; driven == Ok(opened.book.ended()) || driven.is_err() || schedule.is_empty());
    driven
}

/// Drives a new book through a schedule, and looks at it then.
pub fn drive_new<S: EpochStore>(
    rt: &impl Abort,
    alloc: Global,
    image: &Image,
    cores: u32,
    room: u32,
    schedule: &[u32],
) -> Result<(Book<S>, Result<Option<End>, TurnFault>), Fail> {
    let mut opened: Opened<S> = Opened::open(rt, alloc, image, cores, room)?;
    let driven = drive_all(rt, &mut opened, schedule);
    look(rt, alloc, &opened)?;
    let Opened { book, .. } = opened;
    Ok((book, driven))
}
