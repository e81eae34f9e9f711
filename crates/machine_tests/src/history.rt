//! Histories and their audit: worked ones, and a plain slow machine beside the proved one.

mod plain;
mod rows;

use crate::images::{image_again, image_named, read_image};
use crate::words::{cell, entries_of, entry_of, is_row};
use plain::PlainFlat;
use rows::{After, IMAGES, LEGAL, REFUSED, after_of, row_of};
use rv32_exec::{End, Image, run_in_order};
use spec_history::{Entry, Flat, Illegal, What, audit};
use std::alloc::Global;
use std::process::Abort;
use std::test::*;

/// The committed word at an address.
fn word(flat: &Flat, addr: u32) -> Option<u32> {
    let mut bytes = [0; 4];
    for (place, byte) in bytes.iter_mut().enumerate() {
        *byte = flat.committed(addr.wrapping_add(place as u32))?;
    }
    Some(u32::from_le_bytes(bytes))
}

/// The machine says this of its state.
fn is_after(flat: &Flat, want: After) -> bool {
    flat.homefree() == want.homefree
        && flat.published() == want.published
        && flat.ended() == want.ended
        && word(flat, 64) == Some(want.words[0])
        && word(flat, 68) == Some(want.words[1])
}

/// An image and a history of its loop.
#[derive(Drop)]
struct History {
    image: Image,
    entries: Vec<Entry>,
}

/// Reads an image and a history.
fn read(alloc: Global, image: &str, entries: &str) -> Result<History, Fail> {
    let image = read_image(alloc, image)?;
    let entries = entries_of(alloc, entries)?;
    Ok(History { image, entries })
}

/// The machine after a history.
fn replayed(alloc: Global, history: &History, cores: u32) -> Result<Flat, (usize, Illegal)> {
    audit(alloc, &history.image, cores, history.entries.as_slice())
}

/// The history of a row is legal, and the machine after it says what the row says.
fn is_legal(rt: &impl Abort, alloc: Global, line: &str) -> Result<(), Fail> {
    let row = row_of(line);
    let history = read(alloc, row.image, row.entries)?;
    match replayed(alloc, &history, row.cores) {
        Ok(flat) => {
            assert!(rt; is_after(&flat, after_of(row.want)), "{line}");
            assert!(rt; flat.committed(history.image.size()).is_none());
            Ok(())
        }
        Err(_) => Err(line.into()),
    }
}

#[test]
fn audits_histories(rt: HostRuntime) -> Result<(), Fail> {
    for line in LEGAL.split('\n') {
        if is_row(line) {
            is_legal(&rt, rt.alloc(), line)?;
        }
    }
    Ok(())
}

/// The last entry of a row's history is the first that is refused, as the row says.
fn is_refused(rt: &impl Abort, alloc: Global, line: &str) -> Result<(), Fail> {
    let row = row_of(line);
    let history = read(alloc, row.image, row.entries)?;
    match replayed(alloc, &history, row.cores) {
        Ok(_) => Err(line.into()),
        Err((place, illegal)) => {
            assert!(rt; place.wrapping_add(1) == history.entries.len(), "{line}");
            assert!(rt; illegal.name() == row.want, "{line}");
            Ok(())
        }
    }
}

#[test]
fn refuses_by_the_first_test(rt: HostRuntime) -> Result<(), Fail> {
    for line in REFUSED.split('\n') {
        if is_row(line) {
            is_refused(&rt, rt.alloc(), line)?;
        }
    }
    Ok(())
}

/// How many commits there are.
fn commits_of(entries: &[Entry]) -> usize {
    let mut count = 0_usize;
    for entry in entries {
        if matches!(entry.what, What::Commit) {
            count = count.wrapping_add(1);
        }
    }
    count
}

/// Committed memory is these bytes.
fn holds(flat: &Flat, bytes: &[u8]) -> bool {
    let mut addr = 0_u32;
    for byte in bytes {
        if flat.committed(addr) != Some(*byte) {
            return false;
        }
        addr = addr.wrapping_add(1);
    }
    true
}

/// A machine whose loop is over says the same as the sequential loop.
fn ends_in_order(rt: &impl Abort, alloc: Global, image: &Image, flat: &Flat) -> Result<(), Fail> {
    if let Some(end) = flat.ended() {
        let whole = run_in_order(alloc, image)?;
        assert!(rt; whole.end() == end && holds(flat, whole.bytes()));
    }
    Ok(())
}

/// The history of a row has a commit for each epoch before the homefree one, and ends as the sequential loop does.
fn ends_well(rt: &impl Abort, alloc: Global, line: &str) -> Result<(), Fail> {
    let row = row_of(line);
    let history = read(alloc, row.image, row.entries)?;
    match replayed(alloc, &history, row.cores) {
        Ok(flat) => {
            let commits = commits_of(history.entries.as_slice());
            assert!(rt; flat.homefree() as usize == commits, "{line}");
            ends_in_order(rt, alloc, &history.image, &flat)
        }
        Err(_) => Err(line.into()),
    }
}

/// A loop that is over has ended as the sequential loop does, with its memory, and has a commit for each epoch before the
/// homefree one.
#[test]
fn ends_as_the_sequential_loop_does(rt: HostRuntime) -> Result<(), Fail> {
    for line in LEGAL.split('\n') {
        if is_row(line) {
            ends_well(&rt, rt.alloc(), line)?;
        }
    }
    Ok(())
}

/// A history of an epoch that stores to the last word of a large memory.
const LAST_WORD: &str = "15 start 0; 15 store 1048572 4 4294967292; 15 commit";

#[test]
fn the_last_word_of_a_large_memory_is_committed(rt: HostRuntime) -> Result<(), Fail> {
    let history = read(rt.alloc(), image_named(IMAGES, "LARGE"), LAST_WORD)?;
    match replayed(rt.alloc(), &history, 16) {
        Ok(flat) => {
            assert!(rt; word(&flat, 1_048_572) == Some(4_294_967_292));
            assert!(rt; flat.committed(1_048_576).is_none());
            Ok(())
        }
        Err(_) => Err("refused".into()),
    }
}

/// Both machines say the same of their state.
fn is_same(flat: &Flat, plain: &PlainFlat) -> bool {
    for addr in 0..300 {
        if flat.committed(addr) != plain.committed(addr) {
            return false;
        }
    }
    flat.homefree() == plain.homefree()
        && flat.published() == plain.published()
        && flat.ended() == plain.ended()
}

/// Both machines are given all of these entries that are to be refused there, and take one then.
fn step(
    rt: &impl Abort,
    alloc: Global,
    flat: &mut Flat,
    plain: &mut PlainFlat,
    entries: &[Entry],
    entry: Entry,
) -> Result<(), Fail> {
    refuse_all(rt, alloc, flat, plain, entries)?;
    let want = plain.refusal(alloc, entry)?;
    assert!(rt; flat.apply(entry).err() == want);
    if want.is_none() {
        plain.perform(alloc, entry)?;
    }
    assert!(rt; is_same(flat, plain));
    Ok(())
}

/// Both machines take these entries one after the other.
fn take_all(
    rt: &impl Abort,
    alloc: Global,
    flat: &mut Flat,
    plain: &mut PlainFlat,
    entries: &[Entry],
) -> Result<(), Fail> {
    assert!(rt; is_same(flat, plain));
    for entry in entries {
        step(rt, alloc, flat, plain, entries, *entry)?;
    }
    Ok(())
}

/// Both machines, which are new, take a history.
fn take_history(rt: &impl Abort, alloc: Global, history: &History, cores: u32) -> Result<(), Fail> {
    let mut flat = Flat::new(alloc, &history.image, cores)?;
    let mut plain = PlainFlat::new(alloc, &history.image, cores)?;
    take_all(rt, alloc, &mut flat, &mut plain, history.entries.as_slice())
}

/// Both machines take the history of a row.
fn compare(rt: &impl Abort, alloc: Global, line: &str) -> Result<(), Fail> {
    let row = row_of(line);
    let history = read(alloc, row.image, row.entries)?;
    take_history(rt, alloc, &history, row.cores)
}

/// Both machines refuse the same of these entries, alike.
fn refuse_all(
    rt: &impl Abort,
    alloc: Global,
    flat: &mut Flat,
    plain: &PlainFlat,
    entries: &[Entry],
) -> Result<(), Fail> {
    for (place, entry) in entries.iter().enumerate() {
        if let Some(refusal) = plain.refusal(alloc, *entry)? {
            assert_eq!(rt; flat.apply(*entry), Err(refusal), "entry {place}");
        }
    }
    Ok(())
}

#[test]
fn both_machines_agree(rt: HostRuntime) -> Result<(), Fail> {
    for table in [LEGAL, REFUSED] {
        for line in table.split('\n') {
            if is_row(line) {
                compare(&rt, rt.alloc(), line)?;
            }
        }
    }
    Ok(())
}

/// What a machine says of its state in short.
fn state_of(flat: &Flat) -> (u32, u64, Option<End>, Option<u32>) {
    (
        flat.homefree(),
        flat.published(),
        flat.ended(),
        word(flat, 64),
    )
}

/// The name of a refusal; empty where there is none.
fn name_of(answer: Result<(), Illegal>) -> &'static str {
    match answer {
        Ok(()) => "",
        Err(illegal) => illegal.name(),
    }
}

/// Applies an entry, which gets this refusal whether or not there is memory. One that gets none, and was refused memory, changes
/// nothing, and is applied again.
fn apply(rt: &impl Abort, flat: &mut Flat, entry: Entry, refusal: &str) {
    let before = state_of(flat);
    let mut answer = name_of(flat.apply(entry));
    if refusal.is_empty() && answer == "NoMemory" {
        assert!(rt; state_of(flat) == before);
        answer = name_of(flat.apply(entry));
    }
    assert!(rt; answer == refusal);
}

/// Applies the entries of a list, each with its refusal after a bar.
fn go_on(rt: &impl Abort, flat: &mut Flat, list: &str) -> Result<(), Fail> {
    for line in list.split(';') {
        let entry = entry_of(cell(line, 0)).ok_or("no entry")?;
        apply(rt, flat, entry, cell(line, 1));
    }
    Ok(())
}

/// A new machine of two cores, which is asked for again where memory was refused.
fn machine_of(alloc: Global, text: &str) -> Result<Flat, Fail> {
    let image = image_again(alloc, text)?;
    let mut made = Flat::new(alloc, &image, 2);
    if made.is_err() {
        made = Flat::new(alloc, &image, 2);
    }
    Ok(made?)
}

/// After a core has read or stored four bytes, its next entry takes memory. So the refusals come where memory would be wanted.
const STEPS_OF_ADD: &str =
    "0 start 0; 1 start 1; 1 load 64 4 0; 1 publish | NotHomefree; 0 load 64 4 0; 0 store 64 4 2 | NotNext; \
    0 store 64 4 1; 0 commit | HurtMissing; 0 hurt 1; 1 store 64 4 2 | NotThere; 0 commit; 1 restart; 1 load 64 4 1; 1 publish; \
    1 store 64 4 3; 1 commit";

/// The same of accesses to one byte and to two.
const STEPS_OF_WIDTHS: &str =
    "0 start 0; 0 load 64 1 0; 0 store 66 2 0; 0 load 64 4 7 | WrongValue; 0 load 64 4 0; 0 store 64 1 1; 0 commit";

/// Both pass too where any one of their allocations fails, as by `rt try --test --fail-alloc N`.
#[test]
fn want_of_memory_changes_nothing(rt: HostRuntime) -> Result<(), Fail> {
    let mut flat = machine_of(rt.alloc(), image_named(IMAGES, "ADD"))?;
    go_on(&rt, &mut flat, STEPS_OF_ADD)?;
    assert!(rt; flat.homefree() == 2 && word(&flat, 64) == Some(3));
    Ok(())
}

#[test]
fn want_of_memory_at_any_width_changes_nothing(rt: HostRuntime) -> Result<(), Fail> {
    let mut flat = machine_of(rt.alloc(), image_named(IMAGES, "WIDTHS"))?;
    go_on(&rt, &mut flat, STEPS_OF_WIDTHS)?;
    assert!(rt; flat.homefree() == 1 && word(&flat, 64) == Some(1));
    Ok(())
}

/// What an audit says: the homefree epoch and the word at 64, or what is refused.
type Audited = Result<(u32, Option<u32>), (usize, Illegal)>;

/// The audit of a history of two cores.
fn audited(alloc: Global, image: &Image, entries: &[Entry]) -> Audited {
    let flat = audit(alloc, image, 2, entries)?;
    Ok((flat.homefree(), word(&flat, 64)))
}

/// The audit says this, also where it is asked for again since memory was refused.
fn audits(rt: &impl Abort, alloc: Global, image: &Image, entries: &[Entry], want: Audited) {
    let mut answer = audited(alloc, image, entries);
    if let Err((place, Illegal::NoMemory)) = answer {
        assert!(rt; place <= entries.len());
        answer = audited(alloc, image, entries);
    }
    assert!(rt; answer == want);
}

/// Core 0 adds to the word, and commits twice.
const TWO_COMMITS: [Entry; 5] = [
    Entry {
        by: 0,
        what: What::Start(0),
    },
    Entry {
        by: 0,
        what: What::Load {
            addr: 64,
            width: 4,
            value: 0,
        },
    },
    Entry {
        by: 0,
        what: What::Store {
            addr: 64,
            width: 4,
            value: 1,
        },
    },
    Entry {
        by: 0,
        what: What::Commit,
    },
    Entry {
        by: 0,
        what: What::Commit,
    },
];

/// It passes too where any one of its allocations fails.
#[test]
fn audit_tells_want_of_memory(rt: HostRuntime) -> Result<(), Fail> {
    let image = image_again(rt.alloc(), image_named(IMAGES, "ADD"))?;
    let entries = TWO_COMMITS;
    audits(&rt, rt.alloc(), &image, &entries[..4], Ok((1, Some(1))));
    audits(
        &rt,
        rt.alloc(),
        &image,
        &entries,
        Err((4, Illegal::NotThere)),
    );
    Ok(())
}

/// The refusal has this name, and prints it.
fn is_named(rt: &impl Abort, alloc: Global, illegal: Illegal, name: &str) -> Result<(), Fail> {
    assert!(rt; illegal.name() == name);
    assert!(rt; format!(in alloc; "{illegal}")?.as_str() == name);
    Ok(())
}

#[test]
fn names_are_printed(rt: HostRuntime) -> Result<(), Fail> {
    let alloc = rt.alloc();
    is_named(&rt, alloc, Illegal::NotThere, "NotThere")?;
    is_named(&rt, alloc, Illegal::NotNext, "NotNext")?;
    is_named(&rt, alloc, Illegal::WrongValue, "WrongValue")?;
    is_named(&rt, alloc, Illegal::NotHomefree, "NotHomefree")?;
    is_named(&rt, alloc, Illegal::HurtMissing, "HurtMissing")?;
    is_named(&rt, alloc, Illegal::Over, "Over")?;
    is_named(&rt, alloc, Illegal::NotCancelled, "NotCancelled")?;
    is_named(&rt, alloc, Illegal::NoMemory, "NoMemory")
}
