//! Which conflicts rolled back: `why` takes an image and the trace of a run of it on standard input, as an audit does, and
//! writes the report.
#![tactic(auto)]

use conflict_text::work;
use std::alloc::Global;
use std::process::ExitCode;
use trace_commands::spelled_words_given;

fn main(rt: HostRuntime) -> ExitCode {
    let status = match spelled_words_given(&rt) {
        Ok(words) => work(
            rt.alloc(),
            words.as_slice(),
            &mut rt.stdin(),
            &mut rt.stdout(),
            &mut rt.stderr(),
        ),
        Err(outcome) => outcome.conclude(&mut rt.stderr()),
    };
    ExitCode::from(status)
}
