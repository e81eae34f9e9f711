//! The command `run` on cores that wait for each other.

use crate::gates::Meeting;
use crate::programs::WORDS_OF_TWO;
use run_command::{RunOptions, do_run};
use std::sync::atomic::Ordering;

const DONE: &str = "end done 2\nat 00000040 00000000010000000000000000000000\n";

/// Two cores that wait for each other at the gate have to run at the same time, with the lock free.
#[test]
fn cores_run_at_the_same_time(rt: HostRuntime) {
    let gate = Meeting::new(2);
    let mut reader = WORDS_OF_TWO.as_bytes();
    let mut printed = Vec::new(rt.alloc());
    let mut told = Vec::new(rt.alloc());
    let options = RunOptions {
        cores: 2,
        room: 64,
        trace: false,
    };
    let status = do_run(
        &rt,
        rt.alloc(),
        options,
        &gate,
        &mut reader,
        &mut printed,
        &mut told,
    );
    assert!(rt; status == 0 && printed.as_slice() == DONE.as_bytes() && told.is_empty());
    assert_eq!(rt; gate.stores.load(Ordering::SeqCst), 2);
}
