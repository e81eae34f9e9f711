//! What a loop gains on more cores: `gain CORES STORE ..` takes an image on standard input, and prints a line for each store and each number
//! of cores 1, 2, 4, 8 below CORES, and CORES, of the run at even speed; with `--wait PC ..` behind that, of one in which the loads at these
//! addresses of code wait; with `--limits` behind that a line of what its dependences allow, for each number of cores; and with `--costs` and
//! `--hold` behind all of them, of runs in which turns cost something.
#![tactic(auto)]

use all_schedules::Room;
use homefree::MOST_ROOM;
use std::alloc::Global;
use std::process::ExitCode;
use trace_commands::spelled_words_given;
use work::work;

mod even_lines;
mod gains;
mod kinds;
mod limit_lines;
mod lines;
mod measure;
mod stores;
mod study_on;
mod text;
mod work;

/// How many entries the history of a run may have: as many as a book has room for, since no trace is printed of it that has to be read
/// again.
const ROOM: u32 = MOST_ROOM;

fn main(rt: HostRuntime) -> ExitCode {
    let status = match spelled_words_given(&rt) {
        Ok(words) => work(
            rt.alloc(),
            words.as_slice(),
            Room::new(ROOM),
            &mut rt.stdin(),
            &mut rt.stdout(),
            &mut rt.stderr(),
        ),
        Err(outcome) => outcome.conclude(&mut rt.stderr()),
    };
    ExitCode::from(status)
}
