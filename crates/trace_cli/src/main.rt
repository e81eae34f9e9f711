//! Runs the iterations of a loop as epochs over RV32I: `trace_cli seq` runs the image on standard input in order, `trace_cli run` runs
//! it speculatively on so many cores, and `trace_cli audit` replays a trace below its image.
#![tactic(auto)]

use core_threads::Open;
use std::alloc::Global;
use std::process::ExitCode;
use trace_commands::{ROOM, words_given};
use work::{Invocation, work};

mod words;
mod work;

fn main(rt: HostRuntime) -> ExitCode {
    let status = match words_given(&rt) {
        Ok(words) => {
            let called = Invocation {
                words: words.as_slice(),
                room: ROOM,
            };
            work(
                &rt,
                rt.alloc(),
                called,
                &Open,
                &mut rt.stdin(),
                &mut rt.stdout(),
                &mut rt.stderr(),
            )
        }
        Err(outcome) => outcome.conclude(&mut rt.stderr()),
    };
    ExitCode::from(status)
}
