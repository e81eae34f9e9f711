//! What a loop can roll back through: `depends CORES STORE ..` takes an image on standard input, and prints a line for each pair of instructions
//! that a dependence of the run in order joins, and for each store whether a schedule of up to so many cores can violate an epoch.
#![tactic(auto)]

use all_schedules::Room;
use std::alloc::Global;
use std::process::ExitCode;
use trace_commands::{ROOM, spelled_words_given};
use work::work;

mod ahead;
mod answer;
mod least;
mod line;
mod lines;
mod plain;
mod ran;
mod rows;
mod shown;
mod text;
mod work;

fn main(rt: HostRuntime) -> ExitCode {
    let status = match spelled_words_given(&rt) {
        Ok(words) => work(
            rt.alloc(),
            words.as_slice(),
            Room::new(ROOM),
            &mut rt.stdin(),
            &mut rt.stdout(),
            &mut rt.stderr(),
        ),
        Err(outcome) => outcome.conclude(&mut rt.stderr()),
    };
    ExitCode::from(status)
}
