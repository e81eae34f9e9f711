//! Worked histories: an image with its trace, and the violations in it. Each row: the place and the kind, the core and the epoch that made it,
//! the core and the epoch that were violated, the place of the cause, the instructions lost and entered, and the blamed load and store with the
//! byte, the addresses of their instructions, the instructions from the load on, the first and the number of the bytes that met alike, and,
//! for false sharing that came true, the place of the store by which it did. The values are those of another program, which was written from the definitions.

/// A histogram: each epoch adds 1 to the bin that its sample names.
pub const HISTOGRAM: &str = "\
size 256\n\
epochs 16\n\
limit 100\n\
code 93070003b387a70003c707009307000413172700b387e70003a707001307170023a0e70067800000\n\
at 00000030 03010401050902060503050809070903\n\
trace 3\n\
0 start 0\n\
0 load 00000030 1 00000003\n\
0 load 0000004c 4 00000000\n\
2 start 1\n\
0 store 0000004c 4 00000001\n\
1 start 2\n\
0 commit\n\
1 load 00000032 1 00000004\n\
2 load 00000031 1 00000001\n\
0 start 3\n\
0 load 00000033 1 00000001\n\
0 load 00000044 4 00000000\n\
1 load 00000050 4 00000000\n\
1 store 00000050 4 00000001\n\
0 store 00000044 4 00000001\n\
2 load 00000044 4 00000000\n\
2 hurt 3\n\
2 store 00000044 4 00000001\n\
0 restart\n\
0 load 00000033 1 00000001\n\
2 commit\n\
2 start 4\n\
1 commit\n\
2 load 00000034 1 00000005\n\
1 start 5\n\
2 load 00000054 4 00000000\n\
0 load 00000044 4 00000001\n\
0 store 00000044 4 00000002\n\
0 commit\n\
2 store 00000054 4 00000001\n\
1 load 00000035 1 00000009\n\
2 commit\n\
2 start 6\n\
1 load 00000064 4 00000000\n\
2 load 00000036 1 00000002\n\
0 start 7\n\
0 load 00000037 1 00000006\n\
0 load 00000058 4 00000000\n\
0 store 00000058 4 00000001\n\
2 load 00000048 4 00000000\n\
1 store 00000064 4 00000001\n\
1 commit\n\
1 start 8\n\
1 load 00000038 1 00000005\n\
1 load 00000054 4 00000001\n\
2 store 00000048 4 00000001\n\
2 commit\n\
0 hurt 8\n\
0 commit\n\
0 start 9\n\
1 restart\n\
1 load 00000038 1 00000005\n\
2 start 10\n\
2 load 0000003a 1 00000005\n\
0 load 00000039 1 00000003\n\
2 load 00000054 4 00000001\n\
1 load 00000054 4 00000001\n\
1 hurt 10\n\
1 store 00000054 4 00000002\n\
2 restart\n\
0 load 0000004c 4 00000001\n\
2 load 0000003a 1 00000005\n\
1 commit\n\
2 load 00000054 4 00000002\n\
1 start 11\n\
1 load 0000003b 1 00000008\n\
2 store 00000054 4 00000003\n\
0 store 0000004c 4 00000002\n\
0 commit\n\
2 commit\n\
1 load 00000060 4 00000000\n\
1 store 00000060 4 00000001\n\
1 commit\n\
0 start 12\n\
0 load 0000003c 1 00000009\n\
1 start 13\n\
0 load 00000064 4 00000001\n\
0 store 00000064 4 00000002\n\
2 start 14\n\
2 load 0000003e 1 00000009\n\
1 load 0000003d 1 00000007\n\
2 load 00000064 4 00000001\n\
1 load 0000005c 4 00000000\n\
2 store 00000064 4 00000002\n\
1 store 0000005c 4 00000001\n\
0 hurt 14\n\
0 commit\n\
0 start 15\n\
1 commit\n\
2 restart\n\
0 load 0000003f 1 00000003\n\
0 load 0000004c 4 00000002\n\
0 store 0000004c 4 00000003\n\
2 load 0000003e 1 00000009\n\
2 load 00000064 4 00000002\n\
2 store 00000064 4 00000003\n\
2 commit\n\
0 commit\n\
";

pub const HISTOGRAM_VIOLATIONS: &str = "\
16 true by 2 1 victim 0 3 cause 17 lost 10 9 load 11 store 17 byte 68 at 24 32 since 4 range 68 4\n\
47 false by 0 7 victim 1 8 cause 48 lost 8 7 load 44 store 38 byte 84 at 24 32 since 2 range 84 4\n\
57 true by 1 8 victim 2 10 cause 58 lost 8 7 load 55 store 58 byte 84 at 24 32 since 2 range 84 4\n\
85 true by 0 12 victim 2 14 cause 86 lost 10 9 load 81 store 77 byte 100 at 24 32 since 4 range 100 4\n\
";

/// Epoch 0 stores two bytes, and then the second of them again; epoch 1 has loaded the word, and is violated by the first of these stores.
pub const STORED_BYTES: &str = "\
size 256\n\
epochs 2\n\
limit 100\n\
code 6306050083220004678000009302700023115004a301500467800000\n\
trace 2\n\
0 start 0\n\
1 start 1\n\
1 load 00000040 4 00000000\n\
0 hurt 1\n\
0 store 00000042 2 00000007\n\
0 store 00000043 1 00000007\n\
1 restart\n\
0 commit\n\
1 load 00000040 4 07070000\n\
1 commit\n\
";

pub const STORED_BYTES_VIOLATIONS: &str = "\
3 true by 0 0 victim 1 1 cause 4 lost 3 2 load 2 store 4 byte 66 at 4 16 since 2 range 66 2\n\
";

/// The same, but epoch 1 loads after the stores, and is violated when they are committed.
pub const COMMITTED_BYTES: &str = "\
size 256\n\
epochs 2\n\
limit 100\n\
code 6306050083220004678000009302700023115004a301500467800000\n\
trace 2\n\
0 start 0\n\
1 start 1\n\
0 store 00000042 2 00000007\n\
0 store 00000043 1 00000007\n\
1 load 00000040 4 00000000\n\
0 hurt 1\n\
0 commit\n\
1 restart\n\
1 load 00000040 4 07070000\n\
1 commit\n\
";

pub const COMMITTED_BYTES_VIOLATIONS: &str = "\
5 true by 0 0 victim 1 1 cause 6 lost 3 2 load 4 store 2 byte 66 at 4 16 since 2 range 66 1\n\
";

/// Epoch 0 stores beside a byte that epoch 1 has loaded, and then to that byte.
pub const LATER_BYTES: &str = "\
size 256\n\
epochs 2\n\
limit 100\n\
code 63060500830200046780000093027000231150042300500467800000\n\
trace 2\n\
0 start 0\n\
1 start 1\n\
1 load 00000040 1 00000000\n\
0 hurt 1\n\
0 store 00000042 2 00000007\n\
0 store 00000040 1 00000007\n\
1 restart\n\
0 commit\n\
1 load 00000040 1 00000007\n\
1 commit\n\
";

pub const LATER_BYTES_VIOLATIONS: &str = "\
3 false by 0 0 victim 1 1 cause 4 lost 3 2 load 2 store 4 byte 64 at 4 16 since 2 range 64 1 later 5\n\
";

/// Epoch 0 loads from five lines, and every other epoch stores to them: buffers of four lines fill up.
pub const BUFFER_FULL: &str = "\
size 256\n\
epochs 6\n\
limit 100\n\
code 630e05002320a0042328a0042320a0062328a0062320a00867800000832200048322000583220006832200078322000867800000\n\
trace 4\n\
2 start 0\n\
2 load 00000040 4 00000000\n\
3 start 1\n\
0 start 2\n\
1 start 3\n\
3 store 00000040 4 00000001\n\
2 load 00000050 4 00000000\n\
3 store 00000050 4 00000001\n\
3 store 00000060 4 00000001\n\
0 store 00000040 4 00000002\n\
1 store 00000040 4 00000003\n\
3 store 00000070 4 00000001\n\
1 store 00000050 4 00000003\n\
2 load 00000060 4 00000000\n\
3 store 00000080 4 00000001\n\
1 store 00000060 4 00000003\n\
2 load 00000070 4 00000000\n\
0 store 00000050 4 00000002\n\
2 hurt 1\n\
2 load 00000080 4 00000000\n\
1 store 00000070 4 00000003\n\
2 commit\n\
0 store 00000060 4 00000002\n\
2 start 4\n\
2 store 00000040 4 00000004\n\
0 store 00000070 4 00000002\n\
1 store 00000080 4 00000003\n\
2 store 00000050 4 00000004\n\
3 restart\n\
0 hurt 3\n\
0 store 00000080 4 00000002\n\
1 restart\n\
3 store 00000040 4 00000001\n\
1 store 00000040 4 00000003\n\
3 store 00000050 4 00000001\n\
1 store 00000050 4 00000003\n\
2 store 00000060 4 00000004\n\
2 store 00000070 4 00000004\n\
3 store 00000060 4 00000001\n\
3 store 00000070 4 00000001\n\
1 store 00000060 4 00000003\n\
3 hurt 2\n\
3 store 00000080 4 00000001\n\
1 store 00000070 4 00000003\n\
3 commit\n\
3 start 5\n\
2 store 00000080 4 00000004\n\
1 hurt 4\n\
1 store 00000080 4 00000003\n\
2 restart\n\
3 store 00000040 4 00000005\n\
0 restart\n\
3 store 00000050 4 00000005\n\
3 store 00000060 4 00000005\n\
0 store 00000040 4 00000002\n\
0 store 00000050 4 00000002\n\
0 store 00000060 4 00000002\n\
0 store 00000070 4 00000002\n\
3 store 00000070 4 00000005\n\
0 hurt 3\n\
0 store 00000080 4 00000002\n\
0 commit\n\
1 restart\n\
3 store 00000080 4 00000005\n\
1 store 00000040 4 00000003\n\
1 store 00000050 4 00000003\n\
2 store 00000040 4 00000004\n\
1 store 00000060 4 00000003\n\
1 store 00000070 4 00000003\n\
1 hurt 5\n\
1 store 00000080 4 00000003\n\
2 store 00000050 4 00000004\n\
3 restart\n\
3 store 00000040 4 00000005\n\
1 commit\n\
3 store 00000050 4 00000005\n\
3 store 00000060 4 00000005\n\
3 store 00000070 4 00000005\n\
2 store 00000060 4 00000004\n\
3 store 00000080 4 00000005\n\
2 store 00000070 4 00000004\n\
2 hurt 5\n\
2 store 00000080 4 00000004\n\
2 commit\n\
3 restart\n\
3 store 00000040 4 00000005\n\
3 store 00000050 4 00000005\n\
3 store 00000060 4 00000005\n\
3 store 00000070 4 00000005\n\
3 store 00000080 4 00000005\n\
3 commit\n\
";

pub const BUFFER_FULL_VIOLATIONS: &str = "\
18 buffer by 2 0 victim 3 1 cause 19 lost 7 6 load - store - byte -\n\
29 buffer by 0 2 victim 1 3 cause 30 lost 7 6 load - store - byte -\n\
41 buffer by 3 1 victim 0 2 cause 42 lost 7 6 load - store - byte -\n\
47 buffer by 1 3 victim 2 4 cause 48 lost 7 6 load - store - byte -\n\
59 buffer by 0 2 victim 1 3 cause 60 lost 7 6 load - store - byte -\n\
69 buffer by 1 3 victim 3 5 cause 70 lost 7 6 load - store - byte -\n\
81 buffer by 2 4 victim 3 5 cause 82 lost 7 6 load - store - byte -\n\
";

/// What became of the violations of the histogram: the place, the attempt, the places at which the causer's attempt was undone and the victim's epoch
/// was cancelled, whether the blamed pair is stale, and the store that held the line. The values are those of the same other program.
pub const HISTOGRAM_FATES: &str = "\
16 try 1 undone - moot - stale no held -\n\
47 try 1 undone - moot - stale yes held -\n\
57 try 1 undone - moot - stale no held -\n\
85 try 1 undone - moot - stale yes held -\n\
";

/// The same of the full buffers.
pub const BUFFER_FULL_FATES: &str = "\
18 try 1 undone - moot - stale no held 14\n\
29 try 1 undone 41 moot - stale no held 26\n\
41 try 1 undone - moot - stale no held 30\n\
47 try 1 undone 59 moot - stale no held 46\n\
59 try 2 undone - moot - stale no held 48\n\
69 try 1 undone - moot - stale no held 63\n\
81 try 2 undone - moot - stale no held 79\n\
";

/// What the violations of the histogram cost, by parts: how many they are, what they lost, and the part. The values are those of the same other program.
pub const HISTOGRAM_SUMS: &str = "\
4 36 whole\n\
3 28 kind true\n\
0 0 kind silent\n\
1 8 kind false\n\
0 0 kind buffer\n\
0 0 kind other\n\
4 36 pair 32 24\n\
0 0 pair 24 32\n\
0 0 unpaired\n\
4 36 stored 32\n\
0 0 stored 24\n\
4 36 loaded 24\n\
0 0 loaded 32\n\
1 10 line 4\n\
2 16 line 5\n\
1 10 line 6\n\
0 0 line 7\n\
1 10 epoch 3\n\
1 8 epoch 8\n\
1 8 epoch 10\n\
1 10 epoch 14\n\
0 0 epoch 15\n\
";

/// The same of the full buffers.
pub const BUFFER_FULL_SUMS: &str = "\
7 49 whole\n\
0 0 kind true\n\
7 49 kind buffer\n\
1 7 pair 44 20\n\
6 42 pair 20 20\n\
0 0 unpaired\n\
1 7 stored 44\n\
6 42 stored 20\n\
7 49 loaded 20\n\
7 49 line 8\n\
1 7 epoch 1\n\
1 7 epoch 2\n\
2 14 epoch 3\n\
1 7 epoch 4\n\
2 14 epoch 5\n\
";

/// The pairs of the histogram, heaviest first: the addresses of the store and of the load, how many violations were stale, in vain, and came
/// true later, the least and the greatest distance, and the lowest byte, and the one after the highest. The values are those of the same other program.
pub const HISTOGRAM_PAIRS: &str = "\
32 24 2 0 0 1 2 68 104\n\
";

/// The same of the full buffers.
pub const BUFFER_FULL_PAIRS: &str = "\
20 20 0 2 0 1 2 128 144\n\
44 20 0 0 0 1 1 128 144\n\
";
