//! Books: worked schedules, all short schedules, random ones, stops, and want of memory.

ghost use Rattle.std.specs.Prelude.{◌≡◌};
ghost use Rattle.homefree.specs.BookView.{IsOfSameLoop};

use crate::images::{image_again, image_named, read_image};
use crate::opened::Opened;
use crate::random::Random;
use crate::refusing::Refusing;
use crate::rows::{IMAGES, ROWS, Row, SMALL, counts_in, numbers_of, row_of};
use crate::walk::{drive_new, hart_after, look, walk, walk_again};
use crate::words::{end_of, entries_of, is_row};
use homefree::{Answer, Book, StopCause, TurnFault};
use rv32_exec::{End, Hart, Image, NoMemory};
use spec_bus::CachedBus;
use spec_history::{Entry, What};
use std::alloc::{AllocError, Global};
use std::process::Abort;
use std::test::Fail;
use violations::{EpochStore, PlainStore, Waiting};

/// These words are those of a text.
fn are_words(words: &[&'static str], text: &str) -> bool {
    let mut wanted = text.split_whitespace();
    for word in words {
        if wanted.next() != Some(*word) {
            return false;
        }
    }
    wanted.next().is_none()
}

/// What a book holds is what a row says.
fn is_row_of<S: EpochStore>(book: &Book<S>, row: &Row, entries: &[Entry]) -> bool {
    book.history() == entries
        && book.totals() == counts_in(row.counts)
        && book.ended() == end_of(row.end, 0)
}

/// The last turn's fault has this word. A word for another answer is that of no fault.
fn is_fault(driven: &Result<Option<End>, TurnFault>, word: &str) -> bool {
    match driven {
        Err(fault) => fault.name() == word,
        Ok(_) => word != "HistoryFull" && word != "NoMemory",
    }
}

/// What a row says, read.
#[derive(Drop)]
struct Worked {
    image: Image,
    schedule: Vec<u32>,
    entries: Vec<Entry>,
}

/// Reads a row.
fn read_row(alloc: Global, row: &Row) -> Result<Worked, Fail> {
    let image = read_image(alloc, row.image)?;
    let schedule = numbers_of(alloc, row.schedule)?;
    let entries = entries_of(alloc, row.entries)?;
    Ok(Worked {
        image,
        schedule,
        entries,
    })
}

/// The turns of a row at its new book. Answers the word for the last turn.
fn walk_book<S: EpochStore>(
    rt: &impl Abort,
    alloc: Global,
    row: &Row,
    worked: &Worked,
    opened: &mut Opened<S>,
) -> Result<&'static str, Fail> {
    let answers = walk(rt, alloc, opened, worked.schedule.as_slice())?;
    assert!(rt; are_words(answers.as_slice(), row.answers));
    Ok(answers.last().copied().unwrap_or(""))
}

/// A row, turn by turn. Answers the word for the last turn.
fn walk_row<S: EpochStore>(
    rt: &impl Abort,
    alloc: Global,
    row: &Row,
    worked: &Worked,
) -> Result<&'static str, Fail> {
    let mut opened: Opened<S> = Opened::open(rt, alloc, &worked.image, row.cores, row.room)?;
    let last = walk_book(rt, alloc, row, worked, &mut opened)?;
    assert!(rt; is_row_of(&opened.book, row, worked.entries.as_slice()));
    assert!(rt; opened.shares.counts() == opened.book.totals());
    look(rt, alloc, &opened)?;
    Ok(last)
}

/// A row by `drive`, whose last turn had this answer.
fn drive_row<S: EpochStore>(
    rt: &impl Abort,
    alloc: Global,
    row: &Row,
    worked: &Worked,
    last: &str,
) -> Result<(), Fail> {
    let schedule = worked.schedule.as_slice();
    let driven: (Book<S>, Result<Option<End>, TurnFault>) = drive_new(
        rt,
        alloc,
        &worked.image,
        row.cores,
        row.room,
        schedule,
    )?;
    assert!(rt; driven.0.history() == worked.entries.as_slice() && is_fault(&driven.1, last));
    Ok(())
}

/// A row, turn by turn, and then by `drive`.
fn try_row<S: EpochStore>(rt: &impl Abort, alloc: Global, row: &Row) -> Result<(), Fail> {
    let worked = read_row(alloc, row)?;
    let last = walk_row::<S>(rt, alloc, row, &worked)?;
    drive_row::<S>(rt, alloc, row, &worked, last)
}

/// A row over its store.
fn try_line(rt: &impl Abort, alloc: Global, line: &str) -> Result<(), Fail> {
    let row = row_of(line);
    if row.store == "waiting" {
        try_row::<Waiting<PlainStore>>(rt, alloc, &row)
    } else if row.store == "caches" {
        try_row::<CachedBus>(rt, alloc, &row)
    } else {
        try_row::<PlainStore>(rt, alloc, &row)
    }
}

#[test]
fn takes_turns_by_worked_schedules(rt: HostRuntime) -> Result<(), Fail> {
    for line in ROWS.split('\n') {
        if is_row(line) {
            try_line(&rt, rt.alloc(), line)?;
        }
    }
    Ok(())
}

/// The schedule of so many turns that has this number: its digits, the last one first.
fn schedule_of(alloc: Global, number: u32, cores: u32, turns: u32) -> Result<Vec<u32>, AllocError> {
    let base = cores.max(1);
    let mut schedule = Vec::new(alloc);
    let mut rest = number;
    for _ in 0..turns {
        schedule.push(rest % base)?;
        rest /= base;
    }
    Ok(schedule)
}

/// A book by the schedule of this number: no turn fails.
fn drive_well<S: EpochStore>(
    rt: &impl Abort,
    alloc: Global,
    image: &Image,
    cores: u32,
    turns: u32,
    number: u32,
) -> Result<(), Fail> {
    let schedule = schedule_of(alloc, number, cores, turns)?;
    let driven: (Book<S>, Result<Option<End>, TurnFault>) = drive_new(
        rt,
        alloc,
        image,
        cores,
        1024,
        schedule.as_slice(),
    )?;
    assert!(rt; driven.1.is_ok());
    Ok(())
}

/// Every schedule of so many turns, each history audited.
fn try_all<S: EpochStore>(
    rt: &impl Abort,
    alloc: Global,
    text: &str,
    cores: u32,
    turns: u32,
) -> Result<(), Fail> {
    let image = read_image(alloc, text)?;
    for number in 0..cores.saturating_pow(turns) {
        drive_well::<S>(rt, alloc, &image, cores, turns, number)?;
    }
    Ok(())
}

/// Drives a new book, and looks at it. Answers whether the loop is over then.
fn is_over<S: EpochStore>(
    rt: &impl Abort,
    alloc: Global,
    image: &Image,
    cores: u32,
    room: u32,
    schedule: &[u32],
) -> Result<bool, Fail> {
    let driven: (Book<S>, Result<Option<End>, TurnFault>) = drive_new(
        rt, alloc, image, cores, room, schedule,
    )?;
    Ok(driven.0.ended().is_some())
}

#[test]
fn every_short_schedule_is_legal_and_ends_as_the_sequential_loop_does(
    rt: HostRuntime,
) -> Result<(), Fail> {
    for text in SMALL {
        for turns in 0..10 {
            try_all::<PlainStore>(&rt, rt.alloc(), text, 2, turns)?;
            try_all::<CachedBus>(&rt, rt.alloc(), text, 2, turns)?;
        }
        for turns in 0..8 {
            try_all::<PlainStore>(&rt, rt.alloc(), text, 3, turns)?;
            try_all::<CachedBus>(&rt, rt.alloc(), text, 3, turns)?;
        }
    }
    Ok(())
}

/// A random image.
fn random_image(alloc: Global, random: &mut Random, second: bool) -> Result<Image, Fail> {
    let text = random.image(alloc, second)?;
    read_image(alloc, text.as_str())
}

/// A random loop by a random schedule; where it is over, true.
fn try_random(rt: &impl Abort, alloc: Global, random: &mut Random) -> Result<bool, Fail> {
    let second = random.below(2) == 1;
    let image = random_image(alloc, random, second)?;
    let cores = 1 + random.below(if second { 16 } else { 8 });
    let schedule = random.schedule(alloc, cores)?;
    let room = 32 + random.below(200);
    match random.below(4) {
        0 => is_over::<Waiting<PlainStore>>(rt, alloc, &image, cores, room, schedule.as_slice()),
        1 => is_over::<PlainStore>(rt, alloc, &image, cores, room, schedule.as_slice()),
        _ => is_over::<CachedBus>(rt, alloc, &image, cores, room, schedule.as_slice()),
    }
}

#[test]
fn random_loops_are_legal_and_end_as_the_sequential_loop_does(rt: HostRuntime) -> Result<(), Fail> {
    let mut random = Random::new(0);
    let mut ended = 0_u32;
    for _ in 0..2000 {
        if try_random(&rt, rt.alloc(), &mut random)? {
            ended = ended.wrapping_add(1);
        }
    }
    assert!(rt; ended > 500 && ended < 2000);
    Ok(())
}

/// The hart that a core is told by a turn, with this one in hand.
fn told<S: EpochStore>(opened: &mut Opened<S>, hart: Option<Hart>) -> Option<Hart>
    ensures { IsOfSameLoop opened.old.book opened.new.book }
{
    hart_after(&opened.turn(0, hart), None)
}

/// It hands in nothing, then what it has loaded from, and then the same again.
fn tell_it<S: EpochStore>(rt: &impl Abort, opened: &mut Opened<S>) {
    let started = told(opened, None);
    let again = told(opened, None);
    let loaded = told(opened, started);
    let loaded_again = told(opened, started);
    assert!(rt; started.is_some() && again == started);
    assert!(rt; loaded.is_some() && loaded != started && loaded_again == loaded);
}

/// The core of a new book is told its hart.
fn is_told(rt: &impl Abort, alloc: Global, image: &Image) -> Result<(), Fail> {
    let mut opened: Opened<PlainStore> = Opened::open(rt, alloc, image, 1, 64)?;
    tell_it(rt, &mut opened);
    assert!(rt; opened.book.len() == 2);
    Ok(())
}

#[test]
fn a_core_is_told_its_hart(rt: HostRuntime) -> Result<(), Fail> {
    let image = read_image(rt.alloc(), image_named(IMAGES, "SUM_OF_FOUR"))?;
    is_told(&rt, rt.alloc(), &image)
}

/// The first of two stops is the book's.
fn stop_twice<S: EpochStore>(rt: &impl Abort, book: &mut Book<S>)
    ensures same { IsOfSameLoop book.old book.new }
    ensures totals { book.new.totals ≡ book.old.totals }
{
    assert!(rt; book.stopped() == None);
    assert!(rt; book.stop(StopCause::NoThread));
    assert!(rt; !book.stop(StopCause::Shut));
    assert!(rt; book.stopped() == Some(StopCause::NoThread));
}

/// A core whose epoch has begun takes no turn in a book that was stopped.
fn turn_stopped<S: EpochStore>(rt: &impl Abort, opened: &mut Opened<S>, hart: Option<Hart>) {
    let answer = opened.turn(0, hart);
    assert!(rt; answer == Ok(Answer::Stopped(StopCause::NoThread)));
    assert!(rt; opened.book.len() == 1 && opened.book.homefree() == 0);
}

/// A new book is stopped when its core has begun an epoch.
fn is_stopped(rt: &impl Abort, alloc: Global, image: &Image) -> Result<(), Fail> {
    let mut opened: Opened<PlainStore> = Opened::open(rt, alloc, image, 1, 64)?;
    let started = told(&mut opened, None);
    stop_twice(rt, &mut opened.book);
    turn_stopped(rt, &mut opened, started);
    look(rt, alloc, &opened)
}

#[test]
fn a_stopped_book_takes_no_more_turns(rt: HostRuntime) -> Result<(), Fail> {
    let image = read_image(rt.alloc(), image_named(IMAGES, "SUM_OF_TWO"))?;
    is_stopped(&rt, rt.alloc(), &image)
}

/// A book whose loop has ended with an exit is not stopped.
fn stop_too_late<S: EpochStore>(rt: &impl Abort, book: &mut Book<S>) {
    assert!(rt; book.ended() == Some(End::Exit(0)));
    assert!(rt; !book.stop(StopCause::NoMemory));
    assert!(rt; book.stopped() == None && book.ended() == Some(End::Exit(0)));
}

/// The last of a book's six entries is a commit, and it has no byte past memory.
fn read_the_end<S: EpochStore>(rt: &impl Abort, book: &Book<S>, size: u32) {
    let what = What::Commit;
    assert!(rt; book.entry(5) == Some(Entry { by: 0, what }) && book.entry(6) == None);
    assert!(rt; book.committed(size) == None);
}

/// A new book whose loop ends with an exit is not stopped then.
fn is_not_stopped(rt: &impl Abort, alloc: Global, image: &Image) -> Result<(), Fail> {
    let schedule = [0, 1, 0, 1, 0];
    let driven: (Book<PlainStore>, Result<Option<End>, TurnFault>) = drive_new(
        rt, alloc, image, 2, 64, &schedule,
    )?;
    assert!(rt; driven.1 == Ok(Some(End::Exit(0))));
    let mut book = driven.0;
    stop_too_late(rt, &mut book);
    read_the_end(rt, &book, image.size());
    Ok(())
}

#[test]
fn a_loop_that_is_over_is_not_stopped(rt: HostRuntime) -> Result<(), Fail> {
    let image = read_image(rt.alloc(), image_named(IMAGES, "EXIT"))?;
    is_not_stopped(&rt, rt.alloc(), &image)
}

/// Four turns of a core, the last two of which get no memory.
fn refuse_two<S: EpochStore>(
    rt: &impl Abort,
    alloc: Global,
    opened: &mut Opened<S>,
) -> Result<(), Fail> {
    let answers = walk(rt, alloc, opened, &[0, 0, 0, 0])?;
    assert!(rt; are_words(answers.as_slice(), "go go NoMemory NoMemory"));
    Ok(())
}

/// The history of a book has these entries.
fn has_entries<S: EpochStore>(alloc: Global, book: &Book<S>, text: &str) -> Result<bool, Fail> {
    let entries = entries_of(alloc, text)?;
    Ok(book.history() == entries.as_slice())
}

/// A new book whose store refuses memory at the third turn is as it was.
fn is_left(rt: &impl Abort, alloc: Global, image: &Image) -> Result<(), Fail> {
    let mut opened: Opened<Refusing<PlainStore>> = Opened::open(rt, alloc, image, 1, 64)?;
    refuse_two(rt, alloc, &mut opened)?;
    assert!(rt; has_entries(alloc, &opened.book, "0 start 0; 0 load 64 4 0")?);
    look(rt, alloc, &opened)
}

/// The store refuses memory at the third turn, and nothing has changed then.
#[test]
fn a_store_that_is_refused_memory_leaves_the_book(rt: HostRuntime) -> Result<(), Fail> {
    let image = read_image(rt.alloc(), image_named(IMAGES, "SUM_OF_FOUR"))?;
    is_left(&rt, rt.alloc(), &image)
}

/// A book has eight entries with these counts, and the sum of two epochs at 64.
fn holds_the_sum<S: EpochStore>(book: &Book<S>) -> bool {
    book.len() == 8 && book.totals() == counts_in("2 2 0 2") && book.committed(64) == Some(1)
}

/// One core runs the sum of two epochs, and takes turns again where memory was refused.
fn sums_again(rt: &impl Abort, alloc: Global, image: &Image) -> Result<(), Fail> {
    let mut made: Result<Opened<PlainStore>, NoMemory> = Opened::open(rt, alloc, image, 1, 64);
    if made.is_err() {
        made = Opened::open(rt, alloc, image, 1, 64);
    }
    let mut opened = made?;
    let end = walk_again(rt, &mut opened);
    assert!(rt; end == Some(End::Done(2)) && opened.shares.counts() == counts_in("2 2 0 2"));
    assert!(rt; holds_the_sum(&opened.book));
    Ok(())
}

/// It passes too where any one of its allocations fails, as by `rt try --test --fail-alloc N`: a turn that is refused memory
/// changes nothing, and goes through at the next try.
#[test]
fn want_of_memory_changes_nothing(rt: HostRuntime) -> Result<(), Fail> {
    let image = image_again(rt.alloc(), image_named(IMAGES, "SUM_OF_TWO"))?;
    sums_again(&rt, rt.alloc(), &image)
}

/// The fault has this name, and prints it.
fn is_named(rt: &impl Abort, alloc: Global, fault: TurnFault, name: &str) -> Result<(), Fail> {
    assert!(rt; fault.name() == name);
    assert!(rt; format!(in alloc; "{fault}")?.as_str() == name);
    Ok(())
}

#[test]
fn names_are_printed(rt: HostRuntime) -> Result<(), Fail> {
    is_named(&rt, rt.alloc(), TurnFault::HistoryFull, "HistoryFull")?;
    is_named(&rt, rt.alloc(), TurnFault::NoMemory, "NoMemory")
}
