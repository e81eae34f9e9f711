//! What `why` prints where bytes have lines of their own. The texts were worked out by hand.

use crate::reports::{CAME_TRUE, FULL, THREE_RUNS, THREE_RUNS_TOLD, is_told_on};

/// Epoch 0 commits a word beside each of three that epoch 1 has read, in three lines.
const THREE_LINES: &str = "size 256
epochs 2
limit 50
code 832200060323000583230004232aa0042322a0062322a00467800000
trace 2
0 start 0
1 start 1
1 load 00000060 4 00000000
1 load 00000050 4 00000000
1 load 00000040 4 00000000
0 load 00000060 4 00000000
0 load 00000050 4 00000000
0 load 00000040 4 00000000
0 store 00000054 4 00000000
0 store 00000064 4 00000000
0 store 00000044 4 00000000
0 hurt 1
0 commit
1 restart
1 load 00000060 4 00000000
1 load 00000050 4 00000000
1 load 00000040 4 00000000
1 store 00000054 4 00000001
1 store 00000064 4 00000001
1 store 00000044 4 00000001
1 commit
";

const THREE_LINES_TOLD: &str =
    "hurt 11 false epoch 1 try 1 core 1 lost 3 entered 3 since 3 by 0 core 0 cause 12 commit load 2 00000000 store 9 00000010 at 00000060 4
also 11 false load 4 00000008 store 10 00000014 at 00000040 4
also 11 false load 3 00000004 store 8 0000000c at 00000050 4
epoch 1 rollbacks 1 lost 3
pair store 00000010 load 00000000 rollbacks 1 lost 3 true 0 silent 0 false 1 buffer 0 stale 0 vain 0 later 0 distance 1 1 at 00000060 4
line 00000060 rollbacks 1 lost 3 true 0 silent 0 false 1 buffer 0
pc 00000000 victim 1 3 causer 0 0
pc 00000010 victim 0 0 causer 1 3
kind false rollbacks 1 lost 3
total epochs 2 committed 2 useful 14 rollbacks 1 lost 3 cancelled 0 dropped 0 open 0 unsettled 0
";

/// Those of the last of them lie apart: their line comes last.
const LAST_LINE_TOLD: &str =
    "hurt 11 false epoch 1 try 1 core 1 lost 3 entered 3 since 3 by 0 core 0 cause 12 commit load 2 00000000 store 9 00000010 at 00000060 4
also 11 false load 3 00000004 store 8 0000000c at 00000050 4
also 11 false load 4 00000008 store 10 00000014 at 00000040 4
epoch 1 rollbacks 1 lost 3
pair store 00000010 load 00000000 rollbacks 1 lost 3 true 0 silent 0 false 1 buffer 0 stale 0 vain 0 later 0 distance 1 1 at 00000060 4
line 00000060 rollbacks 1 lost 3 true 0 silent 0 false 1 buffer 0
pc 00000000 victim 1 3 causer 0 0
pc 00000010 victim 0 0 causer 1 3
kind false rollbacks 1 lost 3
total epochs 2 committed 2 useful 14 rollbacks 1 lost 3 cancelled 0 dropped 0 open 0 unsettled 0
";

/// The word that was read and the one beside it have a line each, so they don't meet.
const TWO_RUNS_TOLD: &str =
    "hurt 11 true epoch 1 try 1 core 1 lost 4 entered 3 since 4 by 0 core 0 cause 12 commit load 5 00000000 store 8 00000010 at 00000040 4
also 11 silent load 6 00000004 store 9 00000014 at 00000044 4
epoch 1 rollbacks 1 lost 4
pair store 00000010 load 00000000 rollbacks 1 lost 4 true 1 silent 0 false 0 buffer 0 stale 0 vain 0 later 0 distance 1 1 at 00000040 4
line 00000040 rollbacks 1 lost 4 true 1 silent 0 false 0 buffer 0
pc 00000000 victim 1 4 causer 0 0
pc 00000010 victim 0 0 causer 1 4
kind true rollbacks 1 lost 4
total epochs 2 committed 2 useful 16 rollbacks 1 lost 4 cancelled 0 dropped 0 open 0 unsettled 0
";

/// The line that was asked for is the first behind memory, and has a piece of four bytes.
const PIECE_TOLD: &str =
    "hurt 11 buffer epoch 1 try 1 core 1 lost 7 entered 6 since - by 0 core 0 cause 12 load held 6 00000014 asked 12 0000002c at 00000080 4
open epoch 0 try 1 core 0 done 7
epoch 1 rollbacks 1 lost 7
pair asked 0000002c held 00000014 rollbacks 1 lost 7 true 0 silent 0 false 0 buffer 1 stale 0 vain 0 later 0 distance 1 1 at 00000080 4
line 00000100 rollbacks 1 lost 7 true 0 silent 0 false 0 buffer 1
pc 00000014 victim 1 7 causer 0 0
pc 0000002c victim 0 0 causer 1 7
kind buffer rollbacks 1 lost 7
total epochs 6 committed 0 useful 0 rollbacks 1 lost 7 cancelled 0 dropped 0 open 1 unsettled 7
";

/// A word stays whole, so its bytes meet as before.
const WORD_TOLD: &str =
    "hurt 3 false epoch 1 try 1 core 1 lost 3 entered 2 since 2 by 0 core 0 cause 4 store load 2 00000004 store 4 00000010 at 00000040 1
later 3 store 5 00000014
epoch 1 rollbacks 1 lost 3
pair store 00000010 load 00000004 rollbacks 1 lost 3 true 0 silent 0 false 1 buffer 0 stale 0 vain 0 later 1 distance 1 1 at 00000040 1
line 00000100 rollbacks 1 lost 3 true 0 silent 0 false 1 buffer 0
pc 00000004 victim 1 3 causer 0 0
pc 00000010 victim 0 0 causer 1 3
kind false rollbacks 1 lost 3
total epochs 2 committed 2 useful 8 rollbacks 1 lost 3 cancelled 0 dropped 0 open 0 unsettled 0
";

/// The machine, an input, and what is printed.
const ROWS: [(&str, &str, &str); 6] = [
    ("caches", THREE_LINES, THREE_LINES_TOLD),
    ("caches:apart=00000040:8:8", THREE_LINES, LAST_LINE_TOLD),
    ("caches:apart=00000050:8:4", THREE_RUNS, TWO_RUNS_TOLD),
    ("caches:apart=00000050:8:8", THREE_RUNS, THREE_RUNS_TOLD),
    ("caches:apart=00000080:16:4", FULL, PIECE_TOLD),
    ("caches:apart=00000040:4:4", CAME_TRUE, WORD_TOLD),
];

#[test]
fn lines_behind_memory_are_told(rt: HostRuntime) {
    for (store, input, told) in ROWS {
        assert!(rt; is_told_on(rt.alloc(), store, input, told), "{store}");
    }
}
