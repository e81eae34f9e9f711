//! In how few steps cores can run a loop, where loads wait for what they need alone.

use crate::never::flow::image_named;
use crate::never::words::{image_with, number};
use crate::words::{cell, is_row};
use limits::limits_in_order;
use rv32_exec::{Image, NoMemory};
use std::alloc::Global;
use std::test::Fail;

/// Code of a loop of 16 epochs, cores, and the limits where loads wait for stores and for commits, worked out by hand.
const ROWS: &str = "
# lw x5, 64(x0); add x5, x5, x10; sw x5, 64(x0); jalr x0, 0(x1): each epoch loads first what the one before it stores third.
# On one core each epoch takes a step for its beginning, four for its instructions and one for its commit.
83220004b382a2002320500467800000 | 1 | 96 | 96
# Epoch 1 commits in step 7 by stores, each further pair of epochs 6 steps later.
83220004b382a2002320500467800000 | 2 | 50 | 66
# By stores each epoch commits 2 steps after the one before it, by commits 4, and the first in step 5.
83220004b382a2002320500467800000 | 3 | 36 | 66
83220004b382a2002320500467800000 | 16 | 36 | 66
# slli x6, x10, 2; sw x10, 64(x6); lw x5, 60(x6); jalr x0, 0(x1): each loads third what the one before it stores second.
# By stores nothing waits: a load comes a step after the store. By commits each epoch is at its load when the one before it
# commits, and so commits 2 steps after it, where its core is free.
131325002320a3048322c30367800000 | 2 | 48 | 50
131325002320a3048322c30367800000 | 4 | 24 | 36
131325002320a3048322c30367800000 | 16 | 6 | 36
# addi x5, x0, 255; sb x5, 64(x10); jalr x0, 0(x1): nobody reads, so six rounds of five steps, one to each of three cores.
9302f00f2300550467800000 | 3 | 30 | 30
# sw x10, 64(x0); lw x5, 64(x0); jalr x0, 0(x1): each reads what it has stored itself.
2320a0048322000467800000 | 4 | 20 | 20
# lw x5, 64(x0); sw x5, 64(x0); a word that is no instruction: epoch 0 faults, and no other runs.
832200042320500400000000 | 4 | 4 | 4
# beq x10, x0, 12; lw x5, 64(x0); jalr x0, 0(x1); sw x10, 64(x0); jalr x0, 0(x1): epoch 0 stores in step 2 and commits in step
# 4, all others load.
6306050083220004678000002320a00467800000 | 16 | 5 | 7
";

/// Loops, cores, and both limits: values of an independent program, but for the last, which has no epoch.
const LOOPS: &str = "
RECURRENCE | 2 | 118 | 120
RECURRENCE | 4 | 94 | 120
RECURRENCE | 8 | 94 | 120
TRANSFERS | 2 | 92 | 92
TRANSFERS | 4 | 55 | 57
TRANSFERS | 8 | 41 | 45
COUNTERS | 2 | 232 | 232
COUNTERS | 4 | 116 | 116
COUNTERS | 8 | 89 | 95
FIRST_MATCH | 2 | 22 | 22
FIRST_MATCH | 4 | 15 | 15
FIRST_MATCH | 8 | 8 | 8
NO_EPOCH | 4 | 1 | 1
";

/// The limits of a loop on the cores of a row are those of the row. Where memory is refused it says so, and the next call is as if
/// nothing had been.
fn has_limits(alloc: Global, image: &Image, row: &str) -> Result<bool, NoMemory> {
    let cores = number(row, 1).max(1);
    let limits = match limits_in_order(alloc, image, cores) {
        Ok(limits) => limits,
        Err(NoMemory) => limits_in_order(alloc, image, cores)?,
    };
    Ok(limits.forward == u64::from(number(row, 2)) && limits.commit == u64::from(number(row, 3)))
}

/// Limits of small loops.
#[test]
fn limits_are_those_worked_out(rt: HostRuntime) -> Result<(), Fail> {
    for row in ROWS.split('\n') {
        if is_row(row) {
            let image = image_with(rt.alloc(), cell(row, 0))?;
            assert!(rt; has_limits(rt.alloc(), &image, row)?, "{row}");
        }
    }
    Ok(())
}

/// Limits of whole loops.
#[test]
fn limits_are_those_of_another_program(rt: HostRuntime) -> Result<(), Fail> {
    for row in LOOPS.split('\n') {
        if is_row(row) {
            let image = image_named(rt.alloc(), cell(row, 0))?;
            assert!(rt; has_limits(rt.alloc(), &image, row)?, "{row}");
        }
    }
    Ok(())
}
