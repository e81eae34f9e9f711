//! Schedules of turns with what comes of them, worked out by hand from the cases of a turn.

use crate::images::image_named;
use crate::words::{cell, number};
use run_ledger::Counts;
use std::alloc::Global;
use std::test::Fail;

/// The images: before each its name, what its epochs do, and their instructions.
pub const IMAGES: &str = "
=SIGNAL | Epoch 0 stores 1 to 64. Epoch 1 loops until it loads it. | beq x10,x0,+16; lw x5,64(x0); beq x5,x0,-4; jalr x0,0(x1); addi x5,x0,1; sw x5,64(x0); jalr x0,0(x1)
size 256
epochs 2
limit 50
code 6308050083220004e38e02fe67800000930210002320500467800000
=LOAD_FIRST | Epoch 0 loads the word at 64, to which epoch 1 stores 1. | beq x10,x0,+12; sw x10,64(x0); jalr x0,0(x1); lw x5,64(x0); jalr x0,0(x1)
size 256
epochs 2
limit 100
code 630605002320a004678000008322000467800000
=BYTES | Each of two epochs stores 255 to its byte at 64, 65. | addi x5,x0,255; sb x5,64(x10); jalr x0,0(x1)
size 256
epochs 2
limit 100
code 9302f00f2300550467800000
=SUM_OF_ONE | Each epoch adds its number to the word at 64. | lw x5,64(x0); add x5,x5,x10; sw x5,64(x0); jalr x0,0(x1)
size 256
epochs 1
limit 100
code 83220004b382a2002320500467800000
=SUM_OF_TWO | The same of two epochs.
size 256
epochs 2
limit 100
code 83220004b382a2002320500467800000
=SUM_OF_FOUR | The same of four epochs.
size 256
epochs 4
limit 100
code 83220004b382a2002320500467800000
=SUM_IN_VERSION_2 | The same in version 2.
version 2
size 256
epochs 4
limit 100
code 83220004b382a2002320500467800000
=ADD | Each of three epochs adds its number and 1 to the word at 64. | lw x5,64(x0); addi x6,x10,1; add x5,x5,x6; sw x5,64(x0); jalr x0,0(x1)
size 256
epochs 3
limit 50
code 8322000413031500b38262002320500467800000
=OWN_WORDS | Each of two epochs stores its number to its word at 64, 68. | slli x5,x10,2; sw x10,64(x5); jalr x0,0(x1)
size 256
epochs 2
limit 100
code 9312250023a0a20467800000
=EXIT | Each of two epochs stores its number to 64, and then exits the loop. | sw x10,64(x0); addi x10,x0,1; jalr x0,0(x1)
size 256
epochs 2
limit 50
exit
code 2320a0041305100067800000
=CALL | Each of two epochs adds 1 to the word at 64, and then faults. | lw x5,64(x0); addi x5,x5,1; sw x5,64(x0); ecall
size 256
epochs 2
limit 50
code 83220004938212002320500473000000
=CALL_AT_ONE | Epoch 1 loads the word at 64 and faults. | beq x10,x0,+12; lw x5,64(x0); ecall; jalr x0,0(x1)
size 256
epochs 2
limit 50
code 63060500832200047300000067800000
=ONE_SET | Each epoch loads the words at 64, 128 and 192, whose lines are of one set. | lw x5,64(x0); lw x6,128(x0); lw x7,192(x0); jalr x0,0(x1)
size 256
epochs 2
limit 100
code 83220004032300088323000c67800000
=FIVE_LOADS_FIRST | Epoch 0 loads the words at 64, 80, 96, 112 and 128. Epoch 1 stores 1 to them. | beq x10,x0,+28; sw x10 to 64, 80, 96, 112, 128; jalr x0,0(x1); lw x5 from 64, 80, 96, 112, 128; jalr x0,0(x1)
size 256
epochs 2
limit 100
code 630e05002320a0042328a0042320a0062328a0062320a00867800000832200048322000583220006832200078322000867800000
=FIVE_STORES_FIRST | Epoch 0 stores 0 to the words at 64, 80, 96, 112 and 128. Epoch 1 loads them. | beq x10,x0,+28; lw x5 from 64, 80, 96, 112, 128; jalr x0,0(x1); sw x10 to 64, 80, 96, 112, 128; jalr x0,0(x1)
size 256
epochs 2
limit 100
code 630e05008322000483220005832200068322000783220008678000002320a0042328a0042320a0062328a0062320a00867800000
=FIVE_LOADS_IN_VERSION_2 | FIVE_LOADS_FIRST in version 2.
version 2
size 256
epochs 2
limit 100
code 630e05002320a0042328a0042320a0062328a0062320a00867800000832200048322000583220006832200078322000867800000
=NOTHING | Nothing is to be run.
size 256
epochs 0
limit 50
code 67800000
";

/// Images with little memory. The code is that of `SIGNAL`, `LOAD_FIRST`, `SUM_OF_TWO`, `ADD`, `EXIT` and `CALL`.
pub const SMALL: [&str; 6] = [
    "size 80\nepochs 2\nlimit 50\ncode 6308050083220004e38e02fe67800000930210002320500467800000\n",
    "size 80\nepochs 2\nlimit 100\ncode 630605002320a004678000008322000467800000\n",
    "size 80\nepochs 2\nlimit 100\ncode 83220004b382a2002320500467800000\n",
    "size 80\nepochs 3\nlimit 50\ncode 8322000413031500b38262002320500467800000\n",
    "size 80\nepochs 2\nlimit 50\nexit\ncode 2320a0041305100067800000\n",
    "size 80\nepochs 2\nlimit 50\ncode 83220004938212002320500473000000\n",
];

/// One a line: a name, the store, the image, how many cores there are, the room, the schedule, what each turn answers, the
/// entries, the loads, stores, restarts and commits, and how the loop has ended.
pub const ROWS: &str = "
a violation | plain | SIGNAL | 2 | 64 | 0 1 0 1 0 1 1 1 | go go go go left go go over | 0 start 0; 1 start 1; 0 store 64 4 1; 1 load 64 4 0; 0 hurt 1; 0 commit; 1 restart; 1 load 64 4 1; 1 commit | 2 1 1 2 | done 2
a load before the store of a later epoch | plain | LOAD_FIRST | 2 | 64 | 0 1 0 1 0 1 | go go go go left over | 0 start 0; 1 start 1; 0 load 64 4 0; 1 store 64 4 1; 0 commit; 1 commit | 1 1 0 2 | done 2
stores to bytes of one word | plain | BYTES | 2 | 64 | 0 1 0 1 0 1 | go go go go left over | 0 start 0; 1 start 1; 0 store 64 1 255; 1 store 65 1 255; 0 commit; 1 commit | 0 2 0 2 | done 2
two cores are hurt, in order of core number | plain | ADD | 3 | 64 | 0 1 2 2 1 0 0 0 | go go go go go go go left | 0 start 0; 1 start 1; 2 start 2; 2 load 64 4 0; 1 load 64 4 0; 0 load 64 4 0; 0 store 64 4 1; 0 hurt 1; 0 hurt 2; 0 commit | 3 1 0 1 | -
an exit cancels the later epoch | plain | EXIT | 2 | 64 | 0 1 0 1 0 | go go go go over | 0 start 0; 1 start 1; 0 store 64 4 0; 1 store 64 4 1; 0 cancel 1; 0 commit | 0 2 0 1 | exit 0
a fault | plain | CALL | 1 | 64 | 0 0 0 0 0 | go go go over over | 0 start 0; 0 load 64 4 0; 0 store 64 4 1; 0 fault 2 12 | 1 1 0 0 | fault 0 2 12
a later epoch faults once it is homefree | plain | CALL_AT_ONE | 2 | 64 | 0 1 1 1 0 1 | go go go NotHomefree left over | 0 start 0; 1 start 1; 1 load 64 4 0; 0 commit; 1 fault 2 8 | 1 0 0 1 | fault 1 2 8
a later epoch has ended | plain | OWN_WORDS | 2 | 64 | 0 1 1 1 0 0 1 | go go go NotHomefree go left over | 0 start 0; 1 start 1; 1 store 68 4 1; 0 store 64 4 0; 0 commit; 1 commit | 0 2 0 2 | done 2
no epoch is left | plain | SUM_OF_ONE | 2 | 64 | 0 1 | go NoEpoch | 0 start 0 | 0 0 0 0 | -
no epochs | plain | NOTHING | 2 | 64 | 1 0 | over over | | 0 0 0 0 | done 0
less than 16 free entries | plain | SUM_OF_FOUR | 1 | 16 | 0 0 | go HistoryFull | 0 start 0 | 0 0 0 0 | -
16 free entries | plain | SUM_OF_FOUR | 1 | 17 | 0 0 0 | go go HistoryFull | 0 start 0; 0 load 64 4 0 | 1 0 0 0 | -
less than 32 free entries in version 2 | plain | SUM_IN_VERSION_2 | 1 | 32 | 0 0 | go HistoryFull | 0 start 0 | 0 0 0 0 | -
32 free entries in version 2 | plain | SUM_IN_VERSION_2 | 16 | 33 | 0 0 0 | go go HistoryFull | 0 start 0; 0 load 64 4 0 | 1 0 0 0 | -
a homefree core whose store waits goes straight | waiting | SUM_OF_ONE | 1 | 64 | 0 0 0 0 | go go go over | 0 start 0; 0 publish; 0 load 64 4 0; 0 store 64 4 0; 0 commit | 1 1 0 1 | done 1
a later core whose store waits comes again | waiting | SUM_OF_TWO | 2 | 64 | 0 1 1 | go go NoWay | 0 start 0; 1 start 1 | 0 0 0 0 | -
a straight core exits | waiting | EXIT | 2 | 64 | 0 1 0 0 | go go go over | 0 start 0; 1 start 1; 0 publish; 0 store 64 4 0; 0 cancel 1; 0 commit | 0 1 0 1 | exit 0
a violation over caches | caches | SIGNAL | 2 | 64 | 0 1 0 1 0 1 1 1 | go go go go left go go over | 0 start 0; 1 start 1; 0 store 64 4 1; 1 load 64 4 0; 0 hurt 1; 0 commit; 1 restart; 1 load 64 4 1; 1 commit | 2 1 1 2 | done 2
a load before the store of a later epoch, over caches | caches | LOAD_FIRST | 2 | 64 | 0 1 0 1 0 1 | go go go go left over | 0 start 0; 1 start 1; 0 load 64 4 0; 1 store 64 4 1; 0 commit; 1 commit | 1 1 0 2 | done 2
stores to bytes of one line | caches | BYTES | 2 | 64 | 0 1 0 1 0 1 | go go go go left over | 0 start 0; 1 start 1; 0 store 64 1 255; 1 store 65 1 255; 0 commit; 1 commit | 0 2 0 2 | done 2
a speculative store hurts who has loaded the line | caches | ADD | 3 | 64 | 0 1 2 2 1 0 0 0 | go go go go go go go left | 0 start 0; 1 start 1; 2 start 2; 2 load 64 4 0; 1 load 64 4 0; 0 load 64 4 0; 0 hurt 1; 0 hurt 2; 0 store 64 4 1; 0 commit | 3 1 0 1 | -
both ways of a set are marked: a later core waits, the homefree one publishes | caches | ONE_SET | 2 | 64 | 0 1 1 1 1 0 0 0 | go go go go NoWay go go go | 0 start 0; 1 start 1; 1 load 64 4 0; 1 load 128 4 0; 0 load 64 4 0; 0 load 128 4 0; 0 publish; 0 load 192 4 0 | 5 0 0 0 | -
a full buffer of its own | caches | FIVE_LOADS_FIRST | 2 | 64 | 0 0 0 0 0 0 1 1 1 1 1 1 0 1 1 | go go go go go go go go go go go OrbFull left go over | 0 start 0; 0 load 64 4 0; 0 load 80 4 0; 0 load 96 4 0; 0 load 112 4 0; 0 load 128 4 0; 1 start 1; 1 store 64 4 1; 1 store 80 4 1; 1 store 96 4 1; 1 store 112 4 1; 0 commit; 1 store 128 4 1; 1 commit | 5 5 0 2 | done 2
longer lines fill no buffer | caches | FIVE_LOADS_IN_VERSION_2 | 2 | 64 | 0 0 0 0 0 0 1 1 1 1 1 1 0 1 | go go go go go go go go go go go go left over | 0 start 0; 0 load 64 4 0; 0 load 80 4 0; 0 load 96 4 0; 0 load 112 4 0; 0 load 128 4 0; 1 start 1; 1 store 64 4 1; 1 store 80 4 1; 1 store 96 4 1; 1 store 112 4 1; 1 store 128 4 1; 0 commit; 1 commit | 5 5 0 2 | done 2
a full buffer of an earlier core | caches | FIVE_STORES_FIRST | 2 | 64 | 0 0 0 0 0 0 1 1 1 1 1 1 0 | go go go go go go go go go go go OrbBusy left | 0 start 0; 0 store 64 4 0; 0 store 80 4 0; 0 store 96 4 0; 0 store 112 4 0; 0 store 128 4 0; 1 start 1; 1 load 64 4 0; 1 load 80 4 0; 1 load 96 4 0; 1 load 112 4 0; 0 hurt 1; 0 commit | 4 5 0 1 | -
an exit cancels the later epoch, over caches | caches | EXIT | 2 | 64 | 0 1 0 1 0 | go go go go over | 0 start 0; 1 start 1; 0 store 64 4 0; 1 store 64 4 1; 0 cancel 1; 0 commit | 0 2 0 1 | exit 0
less than 16 free entries, over caches | caches | SUM_OF_FOUR | 1 | 16 | 0 0 | go HistoryFull | 0 start 0 | 0 0 0 0 | -
less than 32 free entries in version 2, over caches | caches | SUM_IN_VERSION_2 | 1 | 32 | 0 0 | go HistoryFull | 0 start 0 | 0 0 0 0 | -
a straight core faults | waiting | CALL | 2 | 64 | 0 1 0 0 0 | go go go go over | 0 start 0; 1 start 1; 0 publish; 0 load 64 4 0; 0 store 64 4 1; 0 fault 2 12 | 1 1 0 0 | fault 0 2 12
";

/// A line of the table.
#[derive(Clone, Copy)]
pub struct Row<'a> {
    pub name: &'a str,
    pub store: &'a str,
    pub image: &'a str,
    pub cores: u32,
    pub room: u32,
    pub schedule: &'a str,
    pub answers: &'a str,
    pub entries: &'a str,
    pub counts: &'a str,
    pub end: &'a str,
}

/// What a line of the table says.
pub fn row_of<'a>(line: &'a str) -> Row<'a> {
    Row {
        name: cell(line, 0),
        store: cell(line, 1),
        image: image_named(IMAGES, cell(line, 2)),
        cores: number(cell(line, 3), 0),
        room: number(cell(line, 4), 0),
        schedule: cell(line, 5),
        answers: cell(line, 6),
        entries: cell(line, 7),
        counts: cell(line, 8),
        end: cell(line, 9),
    }
}

/// The numbers of a list.
pub fn numbers_of(alloc: Global, text: &str) -> Result<Vec<u32>, Fail> {
    let mut numbers = Vec::new(alloc);
    for word in text.split_whitespace() {
        numbers.push(word.parse().ok().ok_or("no number")?)?;
    }
    Ok(numbers)
}

/// The loads, stores, restarts and commits that a list says.
pub fn counts_in(text: &str) -> Counts {
    Counts {
        loads: u64::from(number(text, 0)),
        stores: u64::from(number(text, 1)),
        restarts: u64::from(number(text, 2)),
        commits: u64::from(number(text, 3)),
    }
}
