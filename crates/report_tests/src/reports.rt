//! Worked histories and what the program `why` prints of them.

use crate::commands::Ran;
use conflict_text::work;
use std::alloc::Global;

/// Epoch 1 waits for the store of epoch 0, which commits it.
pub const WAITS: &str = "size 256
epochs 2
limit 50
code 6308050083220004e38e02fe67800000930210002320500467800000
trace 2
0 start 0
1 start 1
0 store 00000040 4 00000001
1 load 00000040 4 00000000
0 hurt 1
0 commit
1 restart
1 load 00000040 4 00000001
1 commit
";

pub const WAITS_TOLD: &str =
    "hurt 4 true epoch 1 try 1 core 1 lost 3 entered 2 since 2 by 0 core 0 cause 5 commit load 3 00000004 store 2 00000014 at 00000040 4
epoch 1 rollbacks 1 lost 3
pair store 00000014 load 00000004 rollbacks 1 lost 3 true 1 silent 0 false 0 buffer 0 stale 1 vain 0 later 0 distance 1 1 at 00000040 4
line 00000040 rollbacks 1 lost 3 true 1 silent 0 false 0 buffer 0
pc 00000004 victim 1 3 causer 0 0
pc 00000014 victim 0 0 causer 1 3
kind true rollbacks 1 lost 3
total epochs 2 committed 2 useful 8 rollbacks 1 lost 3 cancelled 0 dropped 0 open 0 unsettled 0
";

/// Each epoch adds 1 to a word and ends the loop: epoch 1 violates epoch 2, and is itself violated.
const EXITS: &str = "size 256
epochs 3
limit 100
exit
code 8322000493821200232050041305100067800000
trace 3
0 start 0
1 start 1
2 start 2
2 load 00000040 4 00000000
1 load 00000040 4 00000000
1 hurt 2
1 store 00000040 4 00000001
0 load 00000040 4 00000000
0 hurt 1
0 store 00000040 4 00000001
1 restart
1 load 00000040 4 00000000
0 cancel 1
0 cancel 2
0 commit
";

const EXITS_TOLD: &str =
    "hurt 5 true epoch 2 try 1 core 2 lost 2 entered 1 since 2 by 1 core 1 cause 6 store load 3 00000000 store 6 00000008 at 00000040 4
vain 5 hurt
moot 5
hurt 8 true epoch 1 try 1 core 1 lost 5 entered 3 since 5 by 0 core 0 cause 9 store load 4 00000000 store 9 00000008 at 00000040 4
cancel 12 epoch 1 try 2 core 1 lost 2 by 0 core 0
epoch 1 rollbacks 1 lost 5
epoch 2 rollbacks 1 lost 2
pair store 00000008 load 00000000 rollbacks 2 lost 7 true 2 silent 0 false 0 buffer 0 stale 0 vain 1 later 0 distance 1 1 at 00000040 4
line 00000040 rollbacks 2 lost 7 true 2 silent 0 false 0 buffer 0
pc 00000000 victim 2 7 causer 0 0
pc 00000008 victim 0 0 causer 2 7
kind true rollbacks 2 lost 7
total epochs 3 committed 1 useful 5 rollbacks 2 lost 7 cancelled 1 dropped 2 open 0 unsettled 0
";

/// Each epoch loads a word, and stores what it loaded to the next one.
const BESIDE: &str = "size 256
epochs 2
limit 50
code 832200042322500467800000
trace 2
0 start 0
1 start 1
1 load 00000040 4 00000000
0 load 00000040 4 00000000
0 hurt 1
0 store 00000044 4 00000000
1 restart
0 commit
1 load 00000040 4 00000000
1 store 00000044 4 00000000
1 commit
";

const BESIDE_TOLD: &str =
    "hurt 4 false epoch 1 try 1 core 1 lost 1 entered 1 since 1 by 0 core 0 cause 5 store load 2 00000000 store 5 00000004 at 00000040 4
epoch 1 rollbacks 1 lost 1
pair store 00000004 load 00000000 rollbacks 1 lost 1 true 0 silent 0 false 1 buffer 0 stale 0 vain 0 later 0 distance 1 1 at 00000040 4
line 00000040 rollbacks 1 lost 1 true 0 silent 0 false 1 buffer 0
pc 00000000 victim 1 1 causer 0 0
pc 00000004 victim 0 0 causer 1 1
kind false rollbacks 1 lost 1
total epochs 2 committed 2 useful 6 rollbacks 1 lost 1 cancelled 0 dropped 0 open 0 unsettled 0
";

/// Each epoch loads a word, and stores what it loaded there; epoch 0 publishes it.
const PUBLISHED: &str = "size 256
epochs 2
limit 50
code 832200042320500467800000
trace 2
0 start 0
1 start 1
1 load 00000040 4 00000000
0 load 00000040 4 00000000
0 store 00000040 4 00000000
0 hurt 1
0 publish
1 restart
0 commit
1 load 00000040 4 00000000
1 store 00000040 4 00000000
1 commit
";

const PUBLISHED_TOLD: &str =
    "hurt 5 silent epoch 1 try 1 core 1 lost 1 entered 1 since 1 by 0 core 0 cause 6 publish load 2 00000000 store 4 00000004 at 00000040 4
epoch 1 rollbacks 1 lost 1
pair store 00000004 load 00000000 rollbacks 1 lost 1 true 0 silent 1 false 0 buffer 0 stale 0 vain 0 later 0 distance 1 1 at 00000040 4
line 00000040 rollbacks 1 lost 1 true 0 silent 1 false 0 buffer 0
pc 00000000 victim 1 1 causer 0 0
pc 00000004 victim 0 0 causer 1 1
kind silent rollbacks 1 lost 1
total epochs 2 committed 2 useful 6 rollbacks 1 lost 1 cancelled 0 dropped 0 open 0 unsettled 0
";

/// The first act after the violation is another core's.
const FOR_NOTHING: &str = "size 256
epochs 2
limit 50
code 832200042320500467800000
trace 2
0 start 0
1 start 1
0 hurt 1
1 restart
0 load 00000040 4 00000000
0 store 00000040 4 00000000
0 commit
";

const FOR_NOTHING_TOLD: &str =
    "hurt 2 other epoch 1 try 1 core 1 lost 0 entered 0 since - by 0 core 0 cause - - load - - store - - at - -
open epoch 1 try 2 core 1 done 0
epoch 1 rollbacks 1 lost 0
kind other rollbacks 1 lost 0
total epochs 2 committed 1 useful 3 rollbacks 1 lost 0 cancelled 0 dropped 0 open 1 unsettled 0
";

/// Each epoch adds 1 to a word, and faults.
const FAULTS: &str = "size 256
epochs 2
limit 50
code 83220004938212002320500473000000
trace 2
0 start 0
1 start 1
1 load 00000040 4 00000000
0 load 00000040 4 00000000
0 store 00000040 4 00000001
0 hurt 1
0 fault 2 0000000c
";

const FAULTS_TOLD: &str =
    "hurt 5 true epoch 1 try 1 core 1 lost 2 entered 1 since 2 by 0 core 0 cause 6 fault load 2 00000000 store 4 00000008 at 00000040 4
epoch 1 rollbacks 1 lost 2
pair store 00000008 load 00000000 rollbacks 1 lost 2 true 1 silent 0 false 0 buffer 0 stale 0 vain 0 later 0 distance 1 1 at 00000040 4
line 00000040 rollbacks 1 lost 2 true 1 silent 0 false 0 buffer 0
pc 00000000 victim 1 2 causer 0 0
pc 00000008 victim 0 0 causer 1 2
kind true rollbacks 1 lost 2
total epochs 2 committed 0 useful 3 rollbacks 1 lost 2 cancelled 0 dropped 0 open 0 unsettled 0
";

/// Epoch 0 loads from five lines, and epoch 1 stores to them, which its buffer of four lines can't hold.
pub const FULL: &str = "size 256
epochs 6
limit 100
code 630e05002320a0042328a0042320a0062328a0062320a00867800000832200048322000583220006832200078322000867800000
trace 2
0 start 0
1 start 1
1 store 00000040 4 00000001
1 store 00000050 4 00000001
1 store 00000060 4 00000001
1 store 00000070 4 00000001
1 store 00000080 4 00000001
0 load 00000040 4 00000000
0 load 00000050 4 00000000
0 load 00000060 4 00000000
0 load 00000070 4 00000000
0 hurt 1
0 load 00000080 4 00000000
";

const FULL_TOLD: &str =
    "hurt 11 buffer epoch 1 try 1 core 1 lost 7 entered 6 since - by 0 core 0 cause 12 load held 6 00000014 asked 12 0000002c at 00000080 16
open epoch 0 try 1 core 0 done 7
epoch 1 rollbacks 1 lost 7
pair asked 0000002c held 00000014 rollbacks 1 lost 7 true 0 silent 0 false 0 buffer 1 stale 0 vain 0 later 0 distance 1 1 at 00000080 16
line 00000080 rollbacks 1 lost 7 true 0 silent 0 false 0 buffer 1
pc 00000014 victim 1 7 causer 0 0
pc 0000002c victim 0 0 causer 1 7
kind buffer rollbacks 1 lost 7
total epochs 6 committed 0 useful 0 rollbacks 1 lost 7 cancelled 0 dropped 0 open 1 unsettled 7
";

/// Epoch 0 stores beside the byte that epoch 1 loads, and then to it.
pub const CAME_TRUE: &str = "size 256
epochs 2
limit 100
code 63060500830200046780000093027000231150042300500467800000
trace 2
0 start 0
1 start 1
1 load 00000040 1 00000000
0 hurt 1
0 store 00000042 2 00000007
0 store 00000040 1 00000007
1 restart
0 commit
1 load 00000040 1 00000007
1 commit
";

const CAME_TRUE_TOLD: &str =
    "hurt 3 false epoch 1 try 1 core 1 lost 3 entered 2 since 2 by 0 core 0 cause 4 store load 2 00000004 store 4 00000010 at 00000040 1
later 3 store 5 00000014
epoch 1 rollbacks 1 lost 3
pair store 00000010 load 00000004 rollbacks 1 lost 3 true 0 silent 0 false 1 buffer 0 stale 0 vain 0 later 1 distance 1 1 at 00000040 1
line 00000040 rollbacks 1 lost 3 true 0 silent 0 false 1 buffer 0
pc 00000004 victim 1 3 causer 0 0
pc 00000010 victim 0 0 causer 1 3
kind false rollbacks 1 lost 3
total epochs 2 committed 2 useful 8 rollbacks 1 lost 3 cancelled 0 dropped 0 open 0 unsettled 0
";

/// Epoch 0 commits a word that changes, one that does not, and one beside a third: epoch 1 has read all three.
pub const THREE_RUNS: &str = "size 256
epochs 2
limit 50
code 832200040323400483230005930515002320b00423220004232ab00467800000
trace 2
0 start 0
1 start 1
0 load 00000040 4 00000000
0 load 00000044 4 00000000
0 load 00000050 4 00000000
1 load 00000040 4 00000000
1 load 00000044 4 00000000
1 load 00000050 4 00000000
0 store 00000040 4 00000001
0 store 00000044 4 00000000
0 store 00000054 4 00000001
0 hurt 1
0 commit
1 restart
1 load 00000040 4 00000001
1 load 00000044 4 00000000
1 load 00000050 4 00000000
1 store 00000040 4 00000002
1 store 00000044 4 00000000
1 store 00000054 4 00000002
1 commit
";

pub const THREE_RUNS_TOLD: &str =
    "hurt 11 true epoch 1 try 1 core 1 lost 4 entered 3 since 4 by 0 core 0 cause 12 commit load 5 00000000 store 8 00000010 at 00000040 4
also 11 silent load 6 00000004 store 9 00000014 at 00000044 4
also 11 false load 7 00000008 store 10 00000018 at 00000050 4
epoch 1 rollbacks 1 lost 4
pair store 00000010 load 00000000 rollbacks 1 lost 4 true 1 silent 0 false 0 buffer 0 stale 0 vain 0 later 0 distance 1 1 at 00000040 4
line 00000040 rollbacks 1 lost 4 true 1 silent 0 false 0 buffer 0
pc 00000000 victim 1 4 causer 0 0
pc 00000010 victim 0 0 causer 1 4
kind true rollbacks 1 lost 4
total epochs 2 committed 2 useful 16 rollbacks 1 lost 4 cancelled 0 dropped 0 open 0 unsettled 0
";

/// Epoch 1 has read a byte of a word before the rest of it, and epoch 0 changes another byte of the word.
const SPLIT_WORD: &str = "size 256
epochs 2
limit 50
code 8302100403230004930515002320b00467800000
trace 2
0 start 0
1 start 1
1 load 00000041 1 00000000
1 load 00000040 4 00000000
0 load 00000041 1 00000000
0 load 00000040 4 00000000
0 hurt 1
0 store 00000040 4 00000001
1 restart
0 commit
1 load 00000041 1 00000000
1 load 00000040 4 00000001
1 store 00000040 4 00000002
1 commit
";

const SPLIT_WORD_TOLD: &str =
    "hurt 6 true epoch 1 try 1 core 1 lost 3 entered 2 since 2 by 0 core 0 cause 7 store load 3 00000004 store 7 0000000c at 00000040 1
also 6 silent load 2 00000000 store 7 0000000c at 00000041 1
also 6 silent load 3 00000004 store 7 0000000c at 00000042 2
epoch 1 rollbacks 1 lost 3
pair store 0000000c load 00000004 rollbacks 1 lost 3 true 1 silent 0 false 0 buffer 0 stale 0 vain 0 later 0 distance 1 1 at 00000040 1
line 00000040 rollbacks 1 lost 3 true 1 silent 0 false 0 buffer 0
pc 00000004 victim 1 3 causer 0 0
pc 0000000c victim 0 0 causer 1 3
kind true rollbacks 1 lost 3
total epochs 2 committed 2 useful 10 rollbacks 1 lost 3 cancelled 0 dropped 0 open 0 unsettled 0
";

/// Epoch 0 commits a word beside each of two that epoch 1 has read, in two lines.
const TWO_LINES: &str = "size 256
epochs 2
limit 50
code 83220006032300058323c005232aa0042322a00667800000
trace 2
0 start 0
1 start 1
1 load 00000060 4 00000000
1 load 00000050 4 00000000
1 load 0000005c 4 00000000
0 load 00000060 4 00000000
0 load 00000050 4 00000000
0 load 0000005c 4 00000000
0 store 00000054 4 00000000
0 store 00000064 4 00000000
0 hurt 1
0 commit
1 restart
1 load 00000060 4 00000000
1 load 00000050 4 00000000
1 load 0000005c 4 00000000
1 store 00000054 4 00000001
1 store 00000064 4 00000001
1 commit
";

const TWO_LINES_TOLD: &str =
    "hurt 10 false epoch 1 try 1 core 1 lost 3 entered 3 since 3 by 0 core 0 cause 11 commit load 2 00000000 store 9 00000010 at 00000060 4
also 10 false load 3 00000004 store 8 0000000c at 00000050 4
epoch 1 rollbacks 1 lost 3
pair store 00000010 load 00000000 rollbacks 1 lost 3 true 0 silent 0 false 1 buffer 0 stale 0 vain 0 later 0 distance 1 1 at 00000060 4
line 00000060 rollbacks 1 lost 3 true 0 silent 0 false 1 buffer 0
pc 00000000 victim 1 3 causer 0 0
pc 00000010 victim 0 0 causer 1 3
kind false rollbacks 1 lost 3
total epochs 2 committed 2 useful 12 rollbacks 1 lost 3 cancelled 0 dropped 0 open 0 unsettled 0
";

pub const ILLEGAL: &str = "size 256
epochs 2
limit 50
code 832200042320500467800000
trace 2
0 start 0
1 commit
";

/// A committed word changes that another core has read.
const MISSING: &str = "size 256
epochs 2
limit 50
code 6308050083220004e38e02fe67800000930210002320500467800000
trace 2
0 start 0
1 start 1
0 store 00000040 4 00000001
1 load 00000040 4 00000000
0 commit
";

/// An input, what is printed, what is told on the error stream, and the status.
const ROWS: [(&str, &str, &str, u8); 17] = [
    (WAITS, WAITS_TOLD, "", 0),
    (EXITS, EXITS_TOLD, "", 0),
    (BESIDE, BESIDE_TOLD, "", 0),
    (PUBLISHED, PUBLISHED_TOLD, "", 0),
    (FOR_NOTHING, FOR_NOTHING_TOLD, "", 0),
    (FAULTS, FAULTS_TOLD, "", 0),
    (FULL, FULL_TOLD, "", 0),
    (CAME_TRUE, CAME_TRUE_TOLD, "", 0),
    (THREE_RUNS, THREE_RUNS_TOLD, "", 0),
    (SPLIT_WORD, SPLIT_WORD_TOLD, "", 0),
    (TWO_LINES, TWO_LINES_TOLD, "", 0),
    (ILLEGAL, "illegal 1 NotThere\n", "", 4),
    (MISSING, "illegal 4 HurtMissing\n", "", 4),
    ("", "", "image 0 MissingOrRepeated\n", 2),
    (
        "size 256\nepochs 1\nlimit 1\ncode 67800000\n",
        "",
        "trace 0 Head\n",
        2,
    ),
    (
        "size 256\nepochs 1\nlimit 1\ncode 67800000\ntrace 9\n",
        "",
        "trace 5 Head\n",
        2,
    ),
    (
        "size 256\nepochs 1\nlimit 1\ncode 67800000\ntrace 1\n0 begin 0\n",
        "",
        "trace 6 Line\n",
        2,
    ),
];

fn run_on(alloc: Global, words: &[&str], input: &str) -> Ran {
    let mut reader = input.as_bytes();
    let mut output = Vec::new(alloc);
    let mut errors = Vec::new(alloc);
    let status = work(alloc, words, &mut reader, &mut output, &mut errors);
    Ran {
        status,
        output,
        errors,
    }
}

#[test]
fn explains_worked_histories(rt: HostRuntime) {
    for (input, output, errors, status) in ROWS {
        let ran = run_on(rt.alloc(), &["why"], input);
        assert!(rt; ran.is(status, output.as_bytes(), errors), "{input}");
    }
}

#[test]
fn takes_no_words(rt: HostRuntime) {
    for words in [["why", "--help"], ["why", ""]] {
        let ran = run_on(rt.alloc(), &words, WAITS);
        assert!(rt; ran.is(2, b"", "usage\n"));
    }
}

/// With a line for each attempt; one of epoch 1 is cancelled.
const EXITS_ATTEMPTS: &str =
    "hurt 5 true epoch 2 try 1 core 2 lost 2 entered 1 since 2 by 1 core 1 cause 6 store load 3 00000000 store 6 00000008 at 00000040 4
vain 5 hurt
moot 5
hurt 8 true epoch 1 try 1 core 1 lost 5 entered 3 since 5 by 0 core 0 cause 9 store load 4 00000000 store 9 00000008 at 00000040 4
cancel 12 epoch 1 try 2 core 1 lost 2 by 0 core 0
attempt 0 epoch 0 try 1 core 0 done 5 committed 14 by 0 core 0
attempt 1 epoch 1 try 1 core 1 done 5 violated 8 by 0 core 0
attempt 2 epoch 2 try 1 core 2 done 2 violated 5 by 1 core 1
attempt 10 epoch 1 try 2 core 1 done 2 cancelled 12 by 0 core 0
epoch 1 rollbacks 1 lost 5
epoch 2 rollbacks 1 lost 2
pair store 00000008 load 00000000 rollbacks 2 lost 7 true 2 silent 0 false 0 buffer 0 stale 0 vain 1 later 0 distance 1 1 at 00000040 4
line 00000040 rollbacks 2 lost 7 true 2 silent 0 false 0 buffer 0
pc 00000000 victim 2 7 causer 0 0
pc 00000008 victim 0 0 causer 2 7
kind true rollbacks 2 lost 7
total epochs 3 committed 1 useful 5 rollbacks 2 lost 7 cancelled 1 dropped 2 open 0 unsettled 0
";

/// The same of a history after which one goes on.
const FOR_NOTHING_ATTEMPTS: &str =
    "hurt 2 other epoch 1 try 1 core 1 lost 0 entered 0 since - by 0 core 0 cause - - load - - store - - at - -
open epoch 1 try 2 core 1 done 0
attempt 0 epoch 0 try 1 core 0 done 3 committed 6 by 0 core 0
attempt 1 epoch 1 try 1 core 1 done 0 violated 2 by 0 core 0
attempt 3 epoch 1 try 2 core 1 done 0 open
epoch 1 rollbacks 1 lost 0
kind other rollbacks 1 lost 0
total epochs 2 committed 1 useful 3 rollbacks 1 lost 0 cancelled 0 dropped 0 open 1 unsettled 0
";

/// The same of one in which epoch 0 faults.
const FAULTS_ATTEMPTS: &str =
    "hurt 5 true epoch 1 try 1 core 1 lost 2 entered 1 since 2 by 0 core 0 cause 6 fault load 2 00000000 store 4 00000008 at 00000040 4
attempt 0 epoch 0 try 1 core 0 done 3 faulted 6 by 0 core 0
attempt 1 epoch 1 try 1 core 1 done 2 violated 5 by 0 core 0
epoch 1 rollbacks 1 lost 2
pair store 00000008 load 00000000 rollbacks 1 lost 2 true 1 silent 0 false 0 buffer 0 stale 0 vain 0 later 0 distance 1 1 at 00000040 4
line 00000040 rollbacks 1 lost 2 true 1 silent 0 false 0 buffer 0
pc 00000000 victim 1 2 causer 0 0
pc 00000008 victim 0 0 causer 1 2
kind true rollbacks 1 lost 2
total epochs 2 committed 0 useful 3 rollbacks 1 lost 2 cancelled 0 dropped 0 open 0 unsettled 0
";

/// Histories, and what is printed of each with its attempts.
const ATTEMPTS: [(&str, &str); 3] = [
    (EXITS, EXITS_ATTEMPTS),
    (FOR_NOTHING, FOR_NOTHING_ATTEMPTS),
    (FAULTS, FAULTS_ATTEMPTS),
];

#[test]
fn tells_each_attempt(rt: HostRuntime) {
    let alloc = rt.alloc();
    for (input, told) in ATTEMPTS {
        let ran = run_on(alloc, &["why", "--attempts"], input);
        assert!(rt; ran.is(0, told.as_bytes(), ""), "{input}");
        let ran = run_on(alloc, &["why", "plain", "--attempts"], input);
        assert!(rt; ran.is(0, told.as_bytes(), ""), "{input}");
    }
}

#[test]
fn takes_the_word_last(rt: HostRuntime) {
    for words in [
        ["why", "--attempts", "plain"],
        ["why", "--attempts", "--attempts"],
        ["why", "plain", "attempts"],
    ] {
        let ran = run_on(rt.alloc(), &words, WAITS);
        assert!(rt; ran.is(2, b"", "usage\n"));
    }
}

/// What is printed of the fifth line, where lines have 32 bytes: the five are in three of those.
const FULL_BY_32_TOLD: &str =
    "hurt 11 buffer epoch 1 try 1 core 1 lost 7 entered 6 since - by 0 core 0 cause 12 load held 6 00000014 asked 12 0000002c at 00000080 32
open epoch 0 try 1 core 0 done 7
epoch 1 rollbacks 1 lost 7
pair asked 0000002c held 00000014 rollbacks 1 lost 7 true 0 silent 0 false 0 buffer 1 stale 0 vain 0 later 0 distance 1 1 at 00000080 32
line 00000080 rollbacks 1 lost 7 true 0 silent 0 false 0 buffer 1
pc 00000014 victim 1 7 causer 0 0
pc 0000002c victim 0 0 causer 1 7
kind buffer rollbacks 1 lost 7
total epochs 6 committed 0 useful 0 rollbacks 1 lost 7 cancelled 0 dropped 0 open 1 unsettled 7
";

/// Whether the program prints this of an input, on the machine of a word.
pub fn is_told_on(alloc: Global, store: &str, input: &str, told: &str) -> bool {
    run_on(alloc, &["why", store], input).is(0, told.as_bytes(), "")
}

#[test]
fn explains_on_the_machine_of_its_word(rt: HostRuntime) {
    let alloc = rt.alloc();
    for store in [
        "plain",
        "caches",
        "caches:line=16,sets=4,ways=2,buffer=4",
        "caches:ways=1",
    ] {
        assert!(rt; is_told_on(alloc, store, FULL, FULL_TOLD), "{store}");
        assert!(rt; is_told_on(alloc, store, WAITS, WAITS_TOLD), "{store}");
    }
    for store in ["caches:line=32,buffer=2", "caches:buffer=2,sets=8,line=32"] {
        assert!(rt; is_told_on(alloc, store, FULL, FULL_BY_32_TOLD), "{store}");
        assert!(rt; is_told_on(alloc, store, WAITS, WAITS_TOLD), "{store}");
    }
}

/// A buffer that has room for the four other lines isn't full.
#[test]
fn a_larger_buffer_is_not_full(rt: HostRuntime) {
    for store in [
        "caches:buffer=5",
        "caches:buffer=64",
        "caches:line=32",
        "caches:line=32,buffer=3",
    ] {
        let ran = run_on(rt.alloc(), &["why", store], FULL);
        assert!(rt;
            ran.status == 0
                && ran
                    .output
                    .as_slice()
                    .starts_with(b"hurt 11 other epoch 1 try 1 core 1 lost 7 "),
            "{store}"
        );
    }
}

/// A machine is refused once the input is read, and other words before.
#[test]
fn refuses_words_and_machines(rt: HostRuntime) {
    for store in [
        "caches:line=24",
        "caches:line=128",
        "caches:ways=17",
        "caches:buffer=0",
    ] {
        assert!(rt;
            run_on(rt.alloc(), &["why", store], "").is(2, b"", "image 0 MissingOrRepeated\n")
        );
        assert!(rt;
            run_on(rt.alloc(), &["why", store], WAITS).is(2, b"", "usage\n"),
            "{store}"
        );
    }
    for store in [
        "caches:",
        "caches:line",
        "caches:line=32,line=32",
        "plain:line=32",
    ] {
        assert!(rt;
            run_on(rt.alloc(), &["why", store], "").is(2, b"", "usage\n"),
            "{store}"
        );
    }
    assert!(rt; run_on(rt.alloc(), &["why", "caches", "caches"], "").is(2, b"", "usage\n"));
}

/// It answers as with ample memory, or tells want of memory.
#[test]
fn tells_want_of_memory(rt: HostRuntime) {
    let ran = run_on(rt.alloc(), &["why"], EXITS);
    assert!(rt;
        ran.is(0, EXITS_TOLD.as_bytes(), "")
            || ran.is(3, b"", "stopped NoMemory\n")
            || ran.is(3, b"", "")
    );
}
