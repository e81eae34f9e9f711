//! Histories with what comes of them, worked out by hand from the table of entries.

use crate::images::image_named;
use crate::words::{cell, end_of, number};
use rv32_exec::End;

/// The images: before each its name, what its epochs do, and their instructions.
pub const IMAGES: &str = "
=SIGNAL | Epoch 0 stores 1 to 64. Epoch 1 loops until it loads it. | beq x10,x0,+16; lw x5,64(x0); beq x5,x0,-4; jalr x0,0(x1); addi x5,x0,1; sw x5,64(x0); jalr x0,0(x1)
size 256
epochs 2
limit 50
code 6308050083220004e38e02fe67800000930210002320500467800000
=SUM | Each of three epochs adds its number to the word at 64. | lw x5,64(x0); add x5,x5,x10; sw x5,64(x0); jalr x0,0(x1)
size 256
epochs 3
limit 100
code 83220004b382a2002320500467800000
=ADD | Each of three epochs adds its number and 1 to the word at 64. | lw x5,64(x0); addi x6,x10,1; add x5,x5,x6; sw x5,64(x0); jalr x0,0(x1)
size 256
epochs 3
limit 50
code 8322000413031500b38262002320500467800000
=WIDTHS | Each of two epochs counts the byte at 64, stores its number to the half word at 66, and loads the word between. | lbu x5,64(x0); sh x10,66(x0); lw x6,64(x0); addi x6,x6,1; sb x6,64(x0); jalr x0,0(x1)
size 256
epochs 2
limit 50
code 834200042311a00403230004130313002300600467800000
=SIGNS | One epoch loads negative numbers of 2 bytes and of 1. | lh x5,64(x0); lb x6,64(x0); sw x5,68(x0); sh x6,72(x0); jalr x0,0(x1)
size 256
epochs 1
limit 50
code 8312000403030004232250042314600467800000
at 00000040 80ff
=STORE_FIRST | Each of three epochs stores its number to 64, where 255 stands, and loads it. | sw x10,64(x0); lw x5,64(x0); jalr x0,0(x1)
size 256
epochs 3
limit 50
code 2320a0048322000467800000
at 00000040 ff
=PART | Epoch 0 stores 9 to the bytes 64 and 65. Epoch 1 stores its number to the byte 64, and loads the word. | beq x10,x0,+16; sb x10,64(x0); lw x5,64(x0); jalr x0,0(x1); addi x5,x0,9; sb x5,64(x0); sb x5,65(x0); jalr x0,0(x1)
size 256
epochs 2
limit 50
code 630805002300a00483220004678000009302900023005004a300500467800000
=FORK | Epoch 0 stores 1 to 64. Epoch 1 stores 1 to 68 only where it loads 0 from 64. | bne x10,x0,+16; addi x5,x0,1; sw x5,64(x0); jalr x0,0(x1); lw x5,64(x0); bne x5,x0,+8; sw x10,68(x0); jalr x0,0(x1)
size 256
epochs 2
limit 50
code 6318050093021000232050046780000083220004639402002322a00467800000
=CALL | Each of two epochs adds 1 to the word at 64, and then faults. | lw x5,64(x0); addi x5,x5,1; sw x5,64(x0); ecall
size 256
epochs 2
limit 50
code 83220004938212002320500473000000
=CALL_AT_ONE | Epoch 1 loads the word at 64 and faults. | beq x10,x0,+12; lw x5,64(x0); ecall; jalr x0,0(x1)
size 256
epochs 2
limit 50
code 63060500832200047300000067800000
=EMPTY | Nothing is to be run.
size 256
epochs 0
limit 50
code 67800000
at 00000040 05
=EXIT | Each of three epochs stores its number to 64, and then exits the loop. | sw x10,64(x0); addi x10,x0,1; jalr x0,0(x1)
size 256
epochs 3
limit 50
exit
code 2320a0041305100067800000
=EXIT_OF_TWO | The same loop of two epochs.
exit
size 256
epochs 2
limit 50
code 2320a0041305100067800000
=EXIT_OF_ONE | The same loop of one epoch, and of none.
size 256
epochs 1
limit 50
exit
code 2320a0041305100067800000
=EXIT_OF_NONE | The same loop of no epoch.
size 256
epochs 0
limit 50
exit
code 2320a0041305100067800000
=NO_EXIT | The same loop, which no epoch may exit.
size 256
epochs 3
limit 50
code 2320a0041305100067800000
=SEARCH | Each of eight epochs stores its number to its word at 64, 68, .. Epoch 2 exits the loop. | slli x5,x10,2; sw x10,64(x5); xori x10,x10,2; sltiu x10,x10,1; jalr x0,0(x1)
size 256
epochs 8
limit 50
exit
code 9312250023a0a204134525001335150067800000
=COUNT_AND_EXIT | Each of three epochs counts the word at 64, and then exits the loop. | lw x5,64(x0); addi x5,x5,1; sw x5,64(x0); addi x10,x0,1; jalr x0,0(x1)
size 256
epochs 3
limit 50
exit
code 8322000493821200232050041305100067800000
=LARGE | Each of 16 epochs stores the number 4294967292 to the last word of 1,048,576 bytes. | lui x5,0x100; sw x1,-4(x5); jalr x0,0(x1)
version 2
size 1048576
epochs 16
limit 50
code b702100023ae12fe67800000
=SIGNAL_2 | Row by row the same as SIGNAL, in version 2.
version 2
size 256
epochs 2
limit 50
code 6308050083220004e38e02fe67800000930210002320500467800000
";

/// Histories that are legal, one a line: a name, the image, the number of cores, the entries, and the state after them. An
/// entry is the core, what it did, and decimal numbers. The state is the homefree epoch, the published instructions, the
/// committed words at 64 and at 68, and how the loop has ended.
pub const LEGAL: &str = "
nothing has happened | SIGNAL | 2 |  | 0 0 0 0 -
no epochs | EMPTY | 2 |  | 0 0 5 0 done 0
a violation | SIGNAL | 2 | 0 start 0; 1 start 1; 0 store 64 4 1; 1 load 64 4 0; 0 hurt 1; 0 commit; 1 restart; 1 load 64 4 1; 1 commit | 2 0 1 0 done 2
a violation that is told | SIGNAL | 2 | 0 start 0; 1 start 1; 0 store 64 4 1; 1 load 64 4 0; 0 hurt 1 | 0 0 0 0 -
a load again and again | SIGNAL | 2 | 0 start 0; 1 start 1; 1 load 64 4 0; 1 load 64 4 0; 0 store 64 4 1; 1 load 64 4 0; 0 hurt 1; 0 commit | 1 0 1 0 -
one core after the other | SUM | 1 | 0 start 0; 0 load 64 4 0; 0 store 64 4 0; 0 commit; 0 start 1; 0 load 64 4 0; 0 store 64 4 1; 0 commit; 0 start 2; 0 load 64 4 1; 0 store 64 4 3; 0 commit | 3 0 3 0 done 3
two cores are hurt, and begin again without their own bytes | ADD | 3 | 0 start 0; 1 start 1; 2 start 2; 1 load 64 4 0; 2 load 64 4 0; 1 store 64 4 2; 0 load 64 4 0; 0 store 64 4 1; 0 hurt 1; 0 hurt 2; 0 commit; 1 restart; 2 restart; 2 load 64 4 1; 1 load 64 4 1; 1 store 64 4 3; 1 hurt 2; 1 commit; 2 restart; 2 load 64 4 3; 2 store 64 4 6; 2 commit | 3 0 6 0 done 3
a publish with two of six instructions done | WIDTHS | 2 | 0 start 0; 1 start 1; 1 load 64 1 0; 1 store 66 2 1; 1 load 64 4 65536; 0 load 64 1 0; 0 store 66 2 0; 0 load 64 4 0; 0 store 64 1 1; 0 hurt 1; 0 commit; 1 restart; 1 load 64 1 1; 1 store 66 2 1; 1 publish | 1 2 65537 0 -
a straight load and a straight store | WIDTHS | 2 | 0 start 0; 1 start 1; 1 load 64 1 0; 1 store 66 2 1; 1 load 64 4 65536; 0 load 64 1 0; 0 store 66 2 0; 0 load 64 4 0; 0 store 64 1 1; 0 hurt 1; 0 commit; 1 restart; 1 load 64 1 1; 1 store 66 2 1; 1 publish; 1 load 64 4 65537; 1 store 64 1 2 | 1 5 65538 0 -
all widths, to the end | WIDTHS | 2 | 0 start 0; 1 start 1; 1 load 64 1 0; 1 store 66 2 1; 1 load 64 4 65536; 0 load 64 1 0; 0 store 66 2 0; 0 load 64 4 0; 0 store 64 1 1; 0 hurt 1; 0 commit; 1 restart; 1 load 64 1 1; 1 store 66 2 1; 1 publish; 1 load 64 4 65537; 1 store 64 1 2; 1 commit | 2 0 65538 0 done 2
numbers with a sign | SIGNS | 1 | 0 start 0; 0 load 64 2 65408; 0 load 64 1 128; 0 store 68 4 4294967168; 0 store 72 2 65408; 0 commit | 1 0 65408 4294967168 done 1
a byte that was stored in the first attempt alone | FORK | 2 | 0 start 0; 1 start 1; 1 load 64 4 0; 1 store 68 4 1; 0 store 64 4 1; 0 hurt 1; 0 commit; 1 restart; 1 load 64 4 1; 1 commit | 2 0 1 0 done 2
a fault | CALL | 2 | 0 start 0; 1 start 1; 1 load 64 4 0; 0 load 64 4 0; 0 store 64 4 1; 0 hurt 1; 0 fault 2 12 | 0 3 1 0 fault 0 2 12
a straight fault | CALL | 2 | 0 start 0; 0 load 64 4 0; 0 publish; 0 store 64 4 1; 0 fault 2 12 | 0 3 1 0 fault 0 2 12
a fault of the second epoch | CALL_AT_ONE | 2 | 0 start 0; 1 start 1; 1 load 64 4 0; 0 commit; 1 fault 2 8 | 1 2 0 0 fault 1 2 8
# While an epoch is straight no other one commits, so nobody can miss what it loads.
a straight load is no outside read | STORE_FIRST | 2 | 0 start 0; 0 publish; 0 store 64 4 0; 0 load 64 4 0; 1 start 1; 1 store 64 4 1; 1 load 64 4 1; 0 commit; 0 start 2; 1 commit | 2 0 1 0 -
what an earlier epoch of the core has read is forgotten | ADD | 2 | 0 start 0; 0 load 64 4 0; 0 store 64 4 1; 1 start 1; 0 commit; 0 start 2; 1 load 64 4 1; 1 store 64 4 3; 1 commit | 2 0 3 0 -
what was read before a restart is forgotten | ADD | 3 | 0 start 0; 1 start 1; 2 start 2; 1 load 64 4 0; 2 load 64 4 0; 1 store 64 4 2; 0 load 64 4 0; 0 store 64 4 1; 0 hurt 1; 0 hurt 2; 0 commit; 1 restart; 2 restart; 1 load 64 4 1; 1 store 64 4 3; 1 commit | 2 0 3 0 -
a straight store of the byte that is there | SUM | 2 | 0 start 0; 0 publish; 1 start 1; 1 load 64 4 0; 0 load 64 4 0; 0 store 64 4 0; 0 commit | 1 0 0 0 -
a commit of the byte that is there | SUM | 2 | 0 start 0; 1 start 1; 1 load 64 4 0; 0 load 64 4 0; 0 store 64 4 0; 0 commit | 1 0 0 0 -
a load of the core's own bytes | STORE_FIRST | 2 | 0 start 0; 1 start 1; 1 store 64 4 1; 1 load 64 4 1; 0 store 64 4 0; 0 load 64 4 0; 0 commit | 1 0 0 0 -
a publish over another core's own byte | PART | 2 | 0 start 0; 1 start 1; 1 store 64 1 1; 1 load 64 4 1; 0 store 64 1 9; 0 publish | 0 3 9 0 -
a load of bytes of one's own and of others | PART | 2 | 0 start 0; 1 start 1; 1 store 64 1 1; 1 load 64 4 1; 0 store 64 1 9; 0 publish; 0 hurt 1; 0 store 65 1 9; 0 commit; 1 restart; 1 store 64 1 1; 1 load 64 4 2305; 1 commit | 2 0 2305 0 done 2
# Loop exits.
an exit, with the later epoch cancelled | EXIT_OF_TWO | 2 | 0 start 0; 1 start 1; 0 store 64 4 0; 1 store 64 4 1; 0 cancel 1; 0 commit | 1 0 0 0 exit 0
a cancel before the later epoch has done anything | EXIT | 2 | 0 start 0; 1 start 1; 0 store 64 4 0; 0 cancel 1; 0 commit | 1 0 0 0 exit 0
a cancel of an epoch that is hurt | EXIT | 2 | 0 start 0; 1 start 1; 0 store 64 4 0; 0 hurt 1; 0 cancel 1; 0 commit | 1 0 0 0 exit 0
an exit without a cancel, where no other core runs | EXIT | 2 | 1 start 0; 1 store 64 4 0; 1 commit | 1 0 0 0 exit 0
two cancels, not in the order of epochs | EXIT | 3 | 0 start 0; 1 start 1; 2 start 2; 0 store 64 4 0; 0 cancel 2; 0 cancel 1; 0 commit | 1 0 0 0 exit 0
a cancelled core that starts the next epoch, and is cancelled again | EXIT | 2 | 0 start 0; 1 start 1; 0 store 64 4 0; 0 cancel 1; 1 start 2; 0 cancel 2; 0 commit | 1 0 0 0 exit 0
a cancelled core runs no epoch | EXIT | 3 | 0 start 0; 1 start 1; 0 store 64 4 0; 0 cancel 1; 2 start 2 | 0 0 0 0 -
an exit of a straight epoch | EXIT | 2 | 0 start 0; 0 publish; 0 store 64 4 0; 1 start 1; 0 cancel 1; 0 commit | 1 0 0 0 exit 0
the last epoch exits | EXIT_OF_ONE | 1 | 0 start 0; 0 store 64 4 0; 0 commit | 1 0 0 0 exit 0
no epoch exits where there is none | EXIT_OF_NONE | 1 |  | 0 0 0 0 done 0
the third epoch exits | SEARCH | 2 | 0 start 0; 1 start 1; 0 store 64 4 0; 0 commit; 1 store 68 4 1; 0 start 2; 1 commit; 0 store 72 4 2; 1 start 3; 0 cancel 3; 0 commit | 3 0 0 1 exit 2
the epochs before it end without an exit | SEARCH | 2 | 0 start 0; 1 start 1; 0 store 64 4 0; 0 commit; 1 store 68 4 1; 0 start 2; 1 commit | 2 0 0 1 -
what an exit commits | COUNT_AND_EXIT | 2 | 0 start 0; 1 start 1; 1 load 64 4 0; 0 load 64 4 0; 0 store 64 4 1; 0 hurt 1; 0 cancel 1; 0 commit | 1 0 1 0 exit 0
what a cancelled epoch has read is missed by nobody | COUNT_AND_EXIT | 2 | 0 start 0; 1 start 1; 1 load 64 4 0; 0 load 64 4 0; 0 store 64 4 1; 0 cancel 1; 0 commit | 1 0 1 0 exit 0
without the image's word no epoch exits | NO_EXIT | 2 | 0 start 0; 1 start 1; 0 store 64 4 0; 1 store 64 4 1; 0 commit; 1 commit; 0 start 2; 0 store 64 4 2; 0 commit | 3 0 2 0 done 3
# Images of version 2.
a violation, in version 2 | SIGNAL_2 | 2 | 0 start 0; 1 start 1; 0 store 64 4 1; 1 load 64 4 0; 0 hurt 1; 0 commit; 1 restart; 1 load 64 4 1; 1 commit | 2 0 1 0 done 2
16 cores beside 1,048,576 bytes | LARGE | 16 | 0 start 0; 1 start 1; 2 start 2; 3 start 3; 4 start 4; 5 start 5; 6 start 6; 7 start 7; 8 start 8; 9 start 9; 10 start 10; 11 start 11; 12 start 12; 13 start 13; 14 start 14; 15 start 15; 0 store 1048572 4 4294967292; 1 store 1048572 4 4294967292; 2 store 1048572 4 4294967292; 3 store 1048572 4 4294967292; 4 store 1048572 4 4294967292; 5 store 1048572 4 4294967292; 6 store 1048572 4 4294967292; 7 store 1048572 4 4294967292; 8 store 1048572 4 4294967292; 9 store 1048572 4 4294967292; 10 store 1048572 4 4294967292; 11 store 1048572 4 4294967292; 12 store 1048572 4 4294967292; 13 store 1048572 4 4294967292; 14 store 1048572 4 4294967292; 15 store 1048572 4 4294967292; 0 commit; 1 commit; 2 commit; 3 commit; 4 commit; 5 commit; 6 commit; 7 commit; 8 commit; 9 commit; 10 commit; 11 commit; 12 commit; 13 commit; 14 commit; 15 commit | 16 0 0 0 done 16
";

/// Histories whose last entry is the first that is refused, one a line, each with its refusal.
pub const REFUSED: &str = "
Over before NotThere: an idle core | SIGNAL | 2 | 0 start 0; 1 start 1; 0 store 64 4 1; 1 load 64 4 0; 0 hurt 1; 0 commit; 1 restart; 1 load 64 4 1; 1 commit; 0 publish | Over
Over before NotThere: no such core | EMPTY | 2 | 9 start 0 | Over
Over before NotNext | CALL | 2 | 0 start 0; 0 load 64 4 0; 0 store 64 4 1; 0 fault 2 12; 0 commit | Over
NotThere before NotNext: an idle core has no next event | SIGNAL | 2 | 0 load 64 4 0 | NotThere
NotThere before NotNext: no such core | SIGNAL | 2 | 2 start 1 | NotThere
NotThere before NotNext: a core that runs is not to start | SIGNAL | 2 | 0 start 0; 0 start 7 | NotThere
NotThere before NotNext: a hurt core | SIGNAL | 2 | 0 start 0; 1 start 1; 1 load 64 4 0; 0 hurt 1; 1 store 68 4 1 | NotThere
NotThere before NotHomefree: a hurt core | SUM | 2 | 0 start 0; 1 start 1; 0 hurt 1; 1 publish | NotThere
NotThere before WrongValue: a hurt core | SUM | 2 | 0 start 0; 1 start 1; 0 hurt 1; 1 load 64 4 7 | NotThere
NotThere before HurtMissing: a hurt core whose epoch is homefree | ADD | 3 | 0 start 0; 1 start 1; 2 start 2; 1 load 64 4 0; 2 load 64 4 0; 1 store 64 4 2; 0 load 64 4 0; 0 store 64 4 1; 0 hurt 1; 0 hurt 2; 0 commit; 2 restart; 2 load 64 4 1; 1 commit | NotThere
NotThere: an earlier epoch can't be hurt | SUM | 3 | 0 start 0; 1 start 1; 1 hurt 0 | NotThere
NotThere: nor one's own | SUM | 3 | 0 start 0; 1 start 1; 1 hurt 1 | NotThere
NotThere: nor one that nobody runs | SUM | 3 | 0 start 0; 1 start 1; 1 hurt 2 | NotThere
NotThere: nor one that is hurt | SUM | 3 | 0 start 0; 1 start 1; 0 hurt 1; 0 hurt 1 | NotThere
NotThere: a core that isn't hurt doesn't restart | SUM | 3 | 0 start 0; 0 restart | NotThere
NotThere: a straight core doesn't publish | SUM | 3 | 0 start 0; 0 publish; 0 publish | NotThere
NotNext: another epoch | SIGNAL | 2 | 0 start 1 | NotNext
NotNext: no epoch is left | SIGNAL | 3 | 0 start 0; 1 start 1; 2 start 2 | NotNext
NotNext before NotHomefree: a later epoch that hasn't ended | SIGNAL | 2 | 0 start 0; 1 start 1; 1 commit | NotNext
NotNext before NotHomefree: another fault of a later epoch | CALL_AT_ONE | 2 | 0 start 0; 1 start 1; 1 load 64 4 0; 1 fault 2 4 | NotNext
NotNext before WrongValue: another address | SUM | 2 | 0 start 0; 0 load 68 4 7 | NotNext
NotNext before WrongValue: another width | SUM | 2 | 0 start 0; 0 load 64 2 7 | NotNext
NotNext before HurtMissing: a commit of an epoch that faults | CALL | 2 | 0 start 0; 1 start 1; 1 load 64 4 0; 0 load 64 4 0; 0 store 64 4 1; 0 commit | NotNext
NotNext before HurtMissing: a straight store of another value | ADD | 2 | 0 start 0; 0 publish; 1 start 1; 1 load 64 4 0; 0 load 64 4 0; 0 store 64 4 2 | NotNext
NotHomefree: a later fault | CALL_AT_ONE | 2 | 0 start 0; 1 start 1; 1 load 64 4 0; 1 fault 2 8 | NotHomefree
# NotHomefree and WrongValue can't both hold: the one is of Publish, Commit and Fault, the other of Load.
NotHomefree before HurtMissing: a publish | SUM | 3 | 0 start 0; 1 start 1; 2 start 2; 1 load 64 4 0; 1 store 64 4 1; 2 load 64 4 0; 1 publish | NotHomefree
NotHomefree before HurtMissing: a commit | SUM | 3 | 0 start 0; 1 start 1; 2 start 2; 1 load 64 4 0; 1 store 64 4 1; 2 load 64 4 0; 1 commit | NotHomefree
# WrongValue and HurtMissing can't both hold: a Load changes no committed byte.
WrongValue: the value of another core | SIGNAL | 2 | 0 start 0; 1 start 1; 0 store 64 4 1; 1 load 64 4 1 | WrongValue
WrongValue: the committed byte under one's own | STORE_FIRST | 2 | 0 start 0; 0 store 64 4 0; 0 load 64 4 255 | WrongValue
WrongValue: a byte with its sign | SIGNS | 1 | 0 start 0; 0 load 64 2 4294967168 | WrongValue
HurtMissing: a commit | SIGNAL | 2 | 0 start 0; 1 start 1; 0 store 64 4 1; 1 load 64 4 0; 0 commit | HurtMissing
HurtMissing: a commit that hurts one of two | ADD | 3 | 0 start 0; 1 start 1; 2 start 2; 1 load 64 4 0; 2 load 64 4 0; 0 load 64 4 0; 0 store 64 4 1; 0 hurt 1; 0 commit | HurtMissing
HurtMissing: a publish | ADD | 2 | 0 start 0; 1 start 1; 1 load 64 4 0; 0 load 64 4 0; 0 store 64 4 1; 0 publish | HurtMissing
HurtMissing: a fault | CALL | 2 | 0 start 0; 1 start 1; 1 load 64 4 0; 0 load 64 4 0; 0 store 64 4 1; 0 fault 2 12 | HurtMissing
HurtMissing: a straight store | ADD | 2 | 0 start 0; 0 publish; 1 start 1; 1 load 64 4 0; 0 load 64 4 0; 0 store 64 4 1 | HurtMissing
HurtMissing: a byte that the other core has read beside its own | PART | 2 | 0 start 0; 1 start 1; 1 store 64 1 1; 1 load 64 4 1; 0 store 64 1 9; 0 publish; 0 store 65 1 9 | HurtMissing
HurtMissing: read again after a restart | ADD | 3 | 0 start 0; 1 start 1; 2 start 2; 1 load 64 4 0; 2 load 64 4 0; 1 store 64 4 2; 0 load 64 4 0; 0 store 64 4 1; 0 hurt 1; 0 hurt 2; 0 commit; 1 restart; 2 restart; 2 load 64 4 1; 1 load 64 4 1; 1 store 64 4 3; 1 commit | HurtMissing
HurtMissing: read in the core's next epoch | ADD | 2 | 0 start 0; 0 load 64 4 0; 0 store 64 4 1; 1 start 1; 0 commit; 0 start 2; 0 load 64 4 1; 1 load 64 4 1; 1 store 64 4 3; 1 commit | HurtMissing
# Row by row: the first four entries of a violation, and a publish of the later epoch.
NotHomefree: a publish of a later epoch | SIGNAL | 2 | 0 start 0; 1 start 1; 0 store 64 4 1; 1 load 64 4 0; 1 publish | NotHomefree
# Cancels and exits.
Over before NotThere: a cancel after the exit | EXIT_OF_TWO | 2 | 0 start 0; 1 start 1; 0 store 64 4 0; 0 cancel 1; 0 commit; 0 cancel 1 | Over
Over: no epoch starts after an exit | EXIT | 2 | 0 start 0; 0 store 64 4 0; 0 commit; 0 start 1 | Over
NotThere: a cancel by an idle core | EXIT | 2 | 0 start 0; 0 store 64 4 0; 1 cancel 0 | NotThere
NotThere: an earlier epoch can't be cancelled | EXIT | 2 | 0 start 0; 1 start 1; 1 store 64 4 1; 1 cancel 0 | NotThere
NotThere: nor one's own | EXIT | 2 | 0 start 0; 0 store 64 4 0; 0 cancel 0 | NotThere
NotThere: nor one that nobody runs | EXIT | 2 | 0 start 0; 0 store 64 4 0; 0 cancel 1 | NotThere
NotThere: nor one that was cancelled | EXIT | 2 | 0 start 0; 1 start 1; 0 store 64 4 0; 0 cancel 1; 0 cancel 1 | NotThere
NotThere before NotNext: a cancel by a hurt core | EXIT | 3 | 0 start 0; 1 start 1; 2 start 2; 0 hurt 1; 1 cancel 2 | NotThere
NotThere: a cancelled core has nothing to restart | EXIT | 2 | 0 start 0; 1 start 1; 0 hurt 1; 0 store 64 4 0; 0 cancel 1; 1 restart | NotThere
NotNext: a cancel before the epoch has ended | EXIT | 2 | 0 start 0; 1 start 1; 0 cancel 1 | NotNext
NotNext: a cancel at an end that is no exit | SEARCH | 2 | 0 start 0; 1 start 1; 0 store 64 4 0; 0 cancel 1 | NotNext
NotNext: a cancel where no epoch may exit | NO_EXIT | 2 | 0 start 0; 1 start 1; 0 store 64 4 0; 0 cancel 1 | NotNext
NotNext before NotHomefree: a cancel by a later epoch that has not ended | EXIT | 3 | 0 start 0; 1 start 1; 2 start 2; 1 cancel 2 | NotNext
NotHomefree: a cancel by a later epoch | EXIT | 3 | 0 start 0; 1 start 1; 2 start 2; 1 store 64 4 1; 1 cancel 2 | NotHomefree
NotHomefree before NotCancelled: an exit of a later epoch | EXIT | 2 | 0 start 0; 1 start 1; 1 store 64 4 1; 1 commit | NotHomefree
HurtMissing before NotCancelled | COUNT_AND_EXIT | 2 | 0 start 0; 1 start 1; 1 load 64 4 0; 0 load 64 4 0; 0 store 64 4 1; 0 commit | HurtMissing
NotCancelled: the later epoch is hurt | COUNT_AND_EXIT | 2 | 0 start 0; 1 start 1; 1 load 64 4 0; 0 load 64 4 0; 0 store 64 4 1; 0 hurt 1; 0 commit | NotCancelled
NotCancelled: without the cancel | EXIT_OF_TWO | 2 | 0 start 0; 1 start 1; 0 store 64 4 0; 1 store 64 4 1; 0 commit | NotCancelled
NotCancelled: one of two is cancelled | EXIT | 3 | 0 start 0; 1 start 1; 2 start 2; 0 store 64 4 0; 0 cancel 1; 0 commit | NotCancelled
NotCancelled: a cancelled core has started the next epoch | EXIT | 2 | 0 start 0; 1 start 1; 0 store 64 4 0; 0 cancel 1; 1 start 2; 0 commit | NotCancelled
NotCancelled: a straight epoch exits | EXIT | 2 | 0 start 0; 0 publish; 0 store 64 4 0; 1 start 1; 0 commit | NotCancelled
";

/// A line of a table.
#[derive(Clone, Copy)]
pub struct Row<'a> {
    pub name: &'a str,
    pub image: &'a str,
    pub cores: u32,
    pub entries: &'a str,
    pub want: &'a str,
}

/// What a line of a table says.
pub fn row_of<'a>(line: &'a str) -> Row<'a> {
    Row {
        name: cell(line, 0),
        image: image_named(IMAGES, cell(line, 1)),
        cores: number(cell(line, 2), 0),
        entries: cell(line, 3),
        want: cell(line, 4),
    }
}

/// The state after a history.
#[derive(Clone, Copy)]
pub struct After {
    pub homefree: u32,
    pub published: u64,
    pub words: [u32; 2],
    pub ended: Option<End>,
}

/// The state that these words say.
pub fn after_of(text: &str) -> After {
    After {
        homefree: number(text, 0),
        published: u64::from(number(text, 1)),
        words: [number(text, 2), number(text, 3)],
        ended: end_of(text, 4),
    }
}
