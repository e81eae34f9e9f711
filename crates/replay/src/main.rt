//! Runs that can be repeated: `replay STORE CORES` takes an image and lines of turns on standard input, `replay STORE` an image and a
//! trace, and prints what exactly that schedule makes, over the store `caches` or `plain`; and runs on threads over that store.
#![tactic(auto)]

use all_schedules::Room;
use core_threads::Open;
use replay_command::{Invocation, work};
use std::alloc::Global;
use std::process::ExitCode;
use trace_commands::{ROOM, spelled_words_given};

fn main(rt: HostRuntime) -> ExitCode {
    let status = match spelled_words_given(&rt) {
        Ok(words) => {
            let called = Invocation {
                words: words.as_slice(),
                room: Room::new(ROOM),
            };
            work(
                &rt,
                rt.alloc(),
                called,
                &Open,
                &mut rt.stdin(),
                &mut rt.stdout(),
                &mut rt.stderr(),
            )
        }
        Err(outcome) => outcome.conclude(&mut rt.stderr()),
    };
    ExitCode::from(status)
}
