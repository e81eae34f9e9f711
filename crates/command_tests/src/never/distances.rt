//! How near the epochs of a loop depend on each other in order.

use crate::never::words::{image_with, number_in};
use crate::words::{cell, is_row};
use dependences::nearest_dependence;
use rv32_exec::NoMemory;
use std::alloc::Global;
use std::test::Fail;

/// The code of a loop of 16 epochs, and its least distance, worked out by hand.
const ROWS: &str = "
# lw x5, 64(x0); add x5, x5, x10; sw x5, 64(x0); jalr x0, 0(x1): each reads what the one before it stores.
83220004b382a2002320500467800000 | 1
# andi x6, x10, 1; slli x6, x6, 2; lw x5, 64(x6); addi x5, x5, 1; sw x5, 64(x6): every other one does.
137315001313230083220304938212002320530467800000 | 2
# sw x10, 64(x0); lw x5, 64(x0): each reads what it has stored itself.
2320a0048322000467800000 | -
# addi x5, x0, 255; sb x5, 64(x10): nobody reads.
9302f00f2300550467800000 | -
# lw x5, 64(x0): nobody stores.
8322000467800000 | -
# lw x5, 64(x0); sw x5, 64(x0); a word that is no instruction: epoch 0 faults, and no other runs.
832200042320500400000000 | -
";

/// The nearest distance of a row's loop. Where memory is refused it says so, and the next call is as if nothing had been.
fn nearest(alloc: Global, row: &str) -> Result<Option<u32>, Fail> {
    let image = image_with(alloc, cell(row, 0))?;
    match nearest_dependence(alloc, &image) {
        Ok(nearest) => Ok(nearest),
        Err(NoMemory) => Ok(nearest_dependence(alloc, &image)?),
    }
}

/// Distances of small loops.
#[test]
fn distances_are_those_worked_out(rt: HostRuntime) -> Result<(), Fail> {
    for row in ROWS.split('\n') {
        if is_row(row) {
            assert!(rt; nearest(rt.alloc(), row)? == number_in(row, 1), "{row}");
        }
    }
    Ok(())
}
