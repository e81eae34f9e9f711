//! Runs of the loop, and of one hart from event to event.

mod plain;
mod programs;

ghost use Rattle.std.specs.Prelude.{◌<◌, ◌^◌};

use memory_bytes::{read_number, write_number};
use programs::{Dice, image_text};
use rv32_decode::Register;
use rv32_exec::{
    Arrived, EPOCH_END, End, Hart, Image, NoMemory, Stop, advance, image_of, loaded, run_in_order,
    start, stored,
};
use std::alloc::{AllocError, Global};
use std::test::Fail;

/// Each epoch adds its number to the word at 64, and ends with its number in x10.
const COUNTER: &str = "size 256\nepochs 4\nlimit 100\ncode 83220004b382a2002320500467800000\n";

/// The hart after its load of the word at 64 into x5, which is this number. None: it has not come to that load.
fn past_load(arrived: &Arrived, number: u32) -> Option<Hart> {
    let load = Stop::Load {
        addr: 64,
        width: 4,
        signed: false,
        rd: Register::new(5),
    };
    if arrived.at() != load {
        return None;
    }
    match arrived.at() {
        Stop::Load { width: 4, .. } => Some(loaded(arrived, number)),
        _ => None,
    }
}

/// The hart after its store of this number to the word at 64. None: it has not come to that store.
fn past_store(arrived: &Arrived, number: u32) -> Option<Hart> {
    match arrived.at() {
        Stop::Store {
            addr: 64,
            width: 4,
            value,
        } if value == number => Some(stored(arrived)),
        _ => None,
    }
}

/// Whether a hart has ended, after so many instructions and with this number in x5.
fn has_ended(arrived: &Arrived, done: u64, number: u32) -> bool {
    let hart = arrived.now();
    arrived.at() == Stop::Ended
        && hart.done() == done
        && hart.pc() == EPOCH_END
        && hart.x(Register::new(5)) == number
}

/// An access stops a hart, and it goes on from there by `loaded` and `stored`.
#[test]
fn goes_from_access_to_access(rt: HostRuntime) -> Result<(), Fail> {
    let image = image_of(rt.alloc(), COUNTER.as_bytes())?;
    let begun = start(&image, 3);
    let arrived = advance(&image, begun);
    assert!(rt; *arrived.base() == begun && arrived.now() == begun);
    let hart = past_load(&arrived, 39).ok_or("a load")?;
    let hart = past_store(&advance(&image, hart), 42).ok_or("a store")?;
    let ended = advance(&image, hart);
    assert!(rt; has_ended(&ended, 4, 42));
    assert!(rt; !ended.now().exits(&image));
    Ok(())
}

/// Goes on to the next event of a hart and makes its access to data, or answers the stop that is no access.
fn go_on(image: &Image, hart: &mut Hart, bytes: &mut [u8]) -> Option<Stop> {
    let arrived = advance(image, *hart);
    match arrived.at() {
        Stop::Load { addr, width, .. } if addr as usize + width as usize <= bytes.len() => {
            let number = read_number(bytes, addr as usize, width);
            *hart = loaded(&arrived, number);
            None
        }
        Stop::Store { addr, width, value } if addr as usize + width as usize <= bytes.len() => {
            write_number(bytes, addr as usize, width, value);
            *hart = stored(&arrived);
            None
        }
        at => Some(at),
    }
}

/// Runs an epoch from event to event, and answers how the loop ends if it is the last.
fn run_epoch(image: &Image, epoch: u32, bytes: &mut [u8]) -> Option<End>
    requires { epoch < 2 ^ 16 }
{
    let mut hart = start(image, epoch);
    for _ in 0..1000 {
        let Some(at) = go_on(image, &mut hart, bytes) else {
            continue;
        };
        return match at {
            Stop::Ended if advance(image, hart).now().exits(image) => Some(End::Exit(epoch)),
            Stop::Ended => Some(End::Done(epoch + 1)),
            Stop::Fault { cause, pc } => Some(End::Fault { epoch, cause, pc }),
            _ => None,
        };
    }
    None
}

/// Runs the loop from event to event.
fn run_by_events(image: &Image, bytes: &mut [u8]) -> Option<End> {
    for epoch in 0..image.epochs() {
        match run_epoch(image, epoch, bytes)? {
            End::Done(_) => (),
            end => return Some(end),
        }
    }
    Some(End::Done(image.epochs()))
}

/// How many loops of each end were seen.
#[derive(Drop)]
struct Seen {
    done: u32,
    exits: u32,
    faults: u32,
}

impl Seen {
    fn count(&mut self, end: End) {
        let count = match end {
            End::Done(_) => &mut self.done,
            End::Exit(_) => &mut self.exits,
            End::Fault { .. } => &mut self.faults,
        };
        *count = count.wrapping_add(1);
    }
}

/// How the loop of an image ends. None: `run_in_order`, the plain machine and the run by events don't agree on that or on memory.
fn agreed(alloc: Global, image: &Image) -> Result<Option<End>, AllocError> {
    let Ok(ended) = run_in_order(alloc, image) else {
        return Err(AllocError);
    };
    let (end, bytes) = plain::run(alloc, image)?;
    let mut own = Vec::from_slice(alloc, image.bytes())?;
    let by_events = run_by_events(image, own.as_mut_slice());
    if ended.end() == end
        && by_events == Some(end)
        && ended.bytes() == bytes.as_slice()
        && own.as_slice() == bytes.as_slice()
    {
        Ok(Some(end))
    } else {
        Ok(None)
    }
}

/// `run_in_order`, one instruction after another by the manual's tables, and one event after another are the same.
#[test]
fn runs_as_the_plain_machine(rt: HostRuntime) -> Result<(), Fail> {
    let mut dice = Dice::new(2_463_534_242);
    let mut seen = Seen {
        done: 0,
        exits: 0,
        faults: 0,
    };
    for _ in 0..400 {
        let text = image_text(rt.alloc(), &mut dice)?;
        let image = image_of(rt.alloc(), text.as_bytes())?;
        match agreed(rt.alloc(), &image)? {
            Some(end) => seen.count(end),
            None => panic!(rt; "{text}"),
        }
    }
    assert!(rt; seen.done > 40 && seen.exits > 40 && seen.faults > 40);
    Ok(())
}

/// Whether the loop of four sums ends so, and leaves this byte at 64.
fn ends_so(alloc: Global, text: &str, end: End, first: u8) -> Result<bool, Fail> {
    let image = image_of(alloc, text.as_bytes())?;
    let ended = run_in_order(alloc, &image)?;
    Ok(ended.end() == end && ended.bytes().get(64).copied() == Some(first))
}

/// The same image that an epoch may exit.
const COUNTER_THAT_EXITS: &str =
    "exit\nsize 256\nepochs 4\nlimit 100\ncode 83220004b382a2002320500467800000\n";

/// An exit is by x10, and only where the image has it.
#[test]
fn exits_where_the_image_lets_it(rt: HostRuntime) -> Result<(), Fail> {
    assert!(rt; ends_so(rt.alloc(), COUNTER, End::Done(4), 6)?);
    assert!(rt; ends_so(rt.alloc(), COUNTER_THAT_EXITS, End::Exit(1), 1)?);
    Ok(())
}

/// Where the memory for the loop's bytes is refused, it says so, and the next run is as if nothing had been.
#[test]
fn tells_want_of_memory(rt: HostRuntime) -> Result<(), Fail> {
    let mut made = image_of(rt.alloc(), COUNTER.as_bytes());
    if made.is_err() {
        made = image_of(rt.alloc(), COUNTER.as_bytes());
    }
    let image = made?;
    let ended = match run_in_order(rt.alloc(), &image) {
        Ok(ended) => ended,
        Err(NoMemory) => run_in_order(rt.alloc(), &image)?,
    };
    assert!(rt; ended.end() == End::Done(4) && ended.bytes().get(64).copied() == Some(6));
    Ok(())
}
