//! A run of a whole loop: the book at its end, and what the cores counted.
ghost use Rattle.std.specs.Prelude.{◌≡◌, ◌≤◌, IfOk, IfErr, None};
ghost use Rattle.run_ledger.specs.Counts.{no_counts};
ghost use Rattle.homefree.specs.LockView.{loop_of};
ghost use Rattle.homefree.specs.Room.{most_room};
ghost use Rattle.violations.specs.Rule.{IsCoreCount};
ghost use Rattle.core_threads.specs.Sentence.{Explains, Finishes, HaltsWith};

use crate::cores::{Core, run_threads};
use crate::fault::RunFault;
use crate::gate::Gate;
use homefree::Book;
use run_ledger::Counts;
use rv32_exec::{End, Image};
use std::alloc::Global;
use std::sync::Wait;
use std::thread::Threads;
use ticket_lock::TicketLock;
use violations::EpochStore;

/// A run whose loop is over.
#[derive(Drop)]
pub struct Finished<S: EpochStore> {
    /// How the loop ended.
    pub end: End,
    /// The book, with the whole history and committed memory.
    pub book: Book<S>,
    /// How many loads, stores, restarts and commits the book has.
    pub totals: Counts,
    /// How many the cores counted.
    pub counted: Counts,
}

/// A run that was stopped before its loop was over.
#[derive(Drop)]
pub struct Halted<S: EpochStore> {
    /// Why it was stopped.
    pub fault: RunFault,
    /// The book, with the history and committed memory so far. None: there was no memory for it or for its lock.
    pub book: Option<Book<S>>,
    /// How many loads, stores, restarts and commits the cores counted; nothing without a book.
    pub counted: Counts,
}

const NOTHING: Counts = Counts {
    loads: 0,
    stores: 0,
    restarts: 0,
    commits: 0,
};

/// Runs the loop of an image with one thread for each core, all of which are joined before it returns, over a new book.
///
/// Whenever the bus lock is free, the history kept under it replays on the one-thread machine to the state it holds, and committed
/// memory is exactly what the epochs before the homefree one, and the instructions that the homefree one has published, leave when run
/// in order from the loaded image; after all cores are joined, the loads, stores, restarts and commits they counted sum to the book's.
///
/// Where the loop is over, its end and committed memory are those of the sequential loop. Else the run was halted, for the cause for
/// which the book was stopped, or since all tickets of the lock were drawn. The cores are 1 to the most that the image's version
/// allows, and the room is 16 to `homefree::MOST_ROOM` entries.
///
/// Beside that, the history of each book that it gives back is explained (`history_is_explained`).
pub fn run_cores<S: EpochStore, G: Gate, R: Threads + Wait + Sync>(
    rt: &R,
    alloc: Global,
    image: &Image,
    cores: u32,
    room: u32,
    gate: &G,
) -> Result<Finished<S>, Halted<S>>
    requires cores { IsCoreCount image.now cores }
    requires least { 16 ≤ room }
    requires most { room ≤ most_room }
    ensures finished { IfOk result (λ f. Finishes S.view (record { image = image.now; cores = cores; room = room }) f.book f.end f.totals f.counted) }
    ensures halted { IfErr result (λ h. HaltsWith S.view (record { image = image.now; cores = cores; room = room }) h.book h.fault h.counted) }
{
    let Ok((book, shares)) = Book::<S>::new(alloc, image, cores, room) else {
        return Err(without_book());
    };
    let Ok((lock, pass)) = TicketLock::open(alloc, book, cores as u64 + 1) else {
        return Err(without_book());
    };
    let Core { pass, shares } = run_threads(rt, &lock, pass, shares, image, gate, cores);
    let (book, _) = lock.close(pass);
    book.look();
    outcome(book, shares.counts())
}

/// What holds of every book, and so of each that a run gives back, whether its loop is over or it was halted: each violation has its
/// cause and is of a kind, no epoch starts once one has been cancelled, over caches nobody is passed over who has read what is
/// written, further stores aside, and the history is within the room. This call does nothing, and its contract is the law.
pub fn history_is_explained<S: EpochStore>(book: &Book<S>)
    ensures { Explains S.view book.now }
{
    book.look();
}

/// A run for which there was no memory.
fn without_book<S: EpochStore>() -> Halted<S>
    ensures book { result.book ≡ None }
    ensures fault { result.fault ≡ RunFault.NoMemory }
    ensures counted { result.counted ≡ no_counts }
{
    Halted {
        fault: RunFault::NoMemory,
        book: None,
        counted: NOTHING,
    }
}

/// What a run came to, once its cores are joined.
fn outcome<S: EpochStore>(book: Book<S>, counted: Counts) -> Result<Finished<S>, Halted<S>>
    requires { counted ≡ book.totals }
    ensures finished { IfOk result (λ f. Finishes S.view (loop_of book) f.book f.end f.totals f.counted) }
    ensures halted { IfErr result (λ h. HaltsWith S.view (loop_of book) h.book h.fault h.counted) }
{
    match book.ended() {
        Some(end) => Ok(Finished {
            end,
            totals: book.totals(),
            counted,
            book,
        }),
        None => Err(Halted {
            fault: RunFault::of(book.stopped()),
            book: Some(book),
            counted,
        }),
    }
}
