//! The loads of a loop that depend on earlier epochs.

use crate::never::words::{hex, image_in, number};
use crate::words::{cell, is_row};
use dependences::{Dependence, PairSum, dependences_in_order, lengths_in_order, shown_in_order};
use rv32_exec::{Image, NoMemory, image_of};
use std::alloc::Global;
use std::collections::BTreeMap;
use std::test::Fail;

/// A recurrence: each term is the sum of the two before it.
const RECURRENCE: &str =
    "size 256\nepochs 14\nlimit 100\ncode 130715009307000493162500131727003387e700b386d7000327070083a606001305250013152500b387a7003307d70023a0e70067800000\nat 00000040 00000000010000000000000000000000\n";

/// Transfers between accounts.
const TRANSFERS: &str =
    "size 160\nepochs 8\nlimit 60\ncode 131525001375c501930500063305b5008345250093f57500035605009395250093060008b385d50003a70500034535003307c74023a0e50013757500131525003305d50083250500b385c5002320b50067800000\nat 00000060 1e000001050002030c00040519000106\nat 00000070 2800070207000500640003043c000607\nat 00000080 64000000640000006400000064000000\nat 00000090 64000000640000006400000064000000\n";

/// Four counters in turn.
const COUNTERS: &str =
    "size 256\nepochs 16\nlimit 200\ncode 93753500370600001306060493952500b385c50003a605009306000013074000131515003345d50093861600e39ae6fe1305160023a0a50067800000\n";

/// A search that epoch 5 ends: it alone of the first six finds the key, and so exits.
const FIRST_MATCH: &str =
    "size 256\nepochs 8\nlimit 100\ncode 9312250003a30208631883002320a00413051000678000001305000067800000\nexit\nreg 8 0000002a\nat 00000080 0700000009000000150000000300000010000000\nat 00000094 2a000000110000002a000000\n";

/// The image that has this name in a row.
pub(crate) fn image_named(alloc: Global, name: &str) -> Result<Image, Fail> {
    let text = match name {
        "RECURRENCE" => RECURRENCE,
        "TRANSFERS" => TRANSFERS,
        "COUNTERS" => COUNTERS,
        "FIRST_MATCH" => FIRST_MATCH,
        "NO_EPOCH" => "size 256\nepochs 0\nlimit 100\ncode 67800000\n",
        _ => "",
    };
    Ok(image_of(alloc, text.as_bytes())?)
}

/// A loop; how many loads depend on earlier epochs; how many pairs of instructions join them; and of one pair, by the pcs of the store and
/// the load in hexadecimal: how many, and their least and greatest distance. The values are those of an independent program.
const ROWS: &str = "
RECURRENCE | 25 | 2 | 30 18 | 13 | 1 | 1
RECURRENCE | 25 | 2 | 30 1c | 12 | 2 | 2
TRANSFERS | 8 | 2 | 34 44 | 4 | 3 | 5
TRANSFERS | 8 | 2 | 4c 28 | 4 | 3 | 5
COUNTERS | 12 | 1 | 34 14 | 12 | 4 | 4
";

/// The dependences. Where memory is refused it says so, and the next call is as if nothing had been.
fn dependences(alloc: Global, image: &Image) -> Result<Vec<Dependence>, NoMemory> {
    match dependences_in_order(alloc, image) {
        Ok(found) => Ok(found),
        Err(NoMemory) => dependences_in_order(alloc, image),
    }
}

/// The sums of their pairs. Where memory is refused it says so, and the next call is as if nothing had been.
fn sums(alloc: Global, image: &Image) -> Result<BTreeMap<(u32, u32), PairSum>, NoMemory> {
    match shown_in_order(alloc, image) {
        Ok(shown) => Ok(shown.sums),
        Err(NoMemory) => Ok(shown_in_order(alloc, image)?.sums),
    }
}

/// Whether the sums have that of the pair of a row.
fn has_pair(sums: &BTreeMap<(u32, u32), PairSum>, row: &str) -> bool {
    let pcs = cell(row, 3);
    let (Some(store), Some(load)) = (hex(pcs, 0), hex(pcs, 1)) else {
        return false;
    };
    match sums.get(&(store, load)) {
        Some(sum) => {
            sum.times == u64::from(number(row, 4))
                && sum.least == number(row, 5)
                && sum.most == number(row, 6)
        }
        None => false,
    }
}

/// Whether the dependences of a row's loop are so.
fn is_joined(alloc: Global, row: &str) -> Result<bool, Fail> {
    let image = image_named(alloc, cell(row, 0))?;
    let found = dependences(alloc, &image)?;
    let sums = sums(alloc, &image)?;
    Ok(
        found.len() == number(row, 1) as usize
            && sums.len() == number(row, 2) as usize
            && has_pair(&sums, row),
    )
}

/// Dependences of loops, by pairs of instructions.
#[test]
fn joins_pairs_of_instructions(rt: HostRuntime) -> Result<(), Fail> {
    for row in ROWS.split('\n') {
        if is_row(row) {
            assert!(rt; is_joined(rt.alloc(), row)?, "{row}");
        }
    }
    Ok(())
}

/// lw x5, 64(x0); add x5, x5, x10; sw x5, 64(x0); jalr x0, 0(x1): each of the 16 epochs but the first reads what the one before
/// it stores, its first instruction what that one's third stored.
#[test]
fn tells_of_the_store_and_the_load(rt: HostRuntime) -> Result<(), Fail> {
    let text = "size 256\nepochs 16\nlimit 100\ncode 83220004b382a2002320500467800000\n";
    let image = image_of(rt.alloc(), text.as_bytes())?;
    let found = dependences(rt.alloc(), &image)?;
    assert!(rt; found.len() == 15);
    let mut later: u32 = 1;
    for one in found.as_slice() {
        let wanted = Dependence {
            earlier: one.earlier,
            stored: 2,
            store_pc: 8,
            later,
            loaded: 0,
            load_pc: 0,
            byte: 64,
        };
        assert!(rt; *one == wanted && later.saturating_sub(1) == one.earlier);
        later = later.saturating_add(1);
    }
    let sums = sums(rt.alloc(), &image)?;
    let wanted = PairSum {
        times: 15,
        least: 1,
        most: 1,
        lowest: 64,
        highest: 64,
        first: Dependence {
            earlier: 0,
            stored: 2,
            store_pc: 8,
            later: 1,
            loaded: 0,
            load_pc: 0,
            byte: 64,
        },
    };
    assert!(rt; sums.get(&(8, 0)).copied() == Some(wanted));
    Ok(())
}

/// Loops of 16 epochs, how many epochs run in order, and how many instructions each executes, worked
/// out by hand.
const LENGTHS: &str = "
# lw x5, 64(x0); add x5, x5, x10; sw x5, 64(x0); jalr x0, 0(x1).
size 256; epochs 16; limit 100; code 83220004b382a2002320500467800000 | 16 | 4
# lw x5, 64(x0); sw x5, 64(x0); addi x10, x0, 1; jalr x0, 0(x1): the first one exits.
size 256; epochs 16; limit 100; code 83220004232050041305100067800000; exit | 1 | 4
# lw x5, 64(x0); sw x5, 64(x0); a word that is no instruction: the first one faults.
size 256; epochs 16; limit 100; code 832200042320500400000000 | 1 | 2
";

/// The lengths. Where memory is refused it says so, and the next call is as if nothing had been.
fn lengths(alloc: Global, image: &Image) -> Result<Vec<u64>, NoMemory> {
    match lengths_in_order(alloc, image) {
        Ok(lengths) => Ok(lengths),
        Err(NoMemory) => lengths_in_order(alloc, image),
    }
}

/// Whether the epochs of a row's loop execute so many instructions.
fn has_lengths(alloc: Global, row: &str) -> Result<bool, Fail> {
    let image = image_in(alloc, cell(row, 0))?;
    let lengths = lengths(alloc, &image)?;
    for length in lengths.as_slice() {
        if *length != u64::from(number(row, 2)) {
            return Ok(false);
        }
    }
    Ok(lengths.len() == number(row, 1) as usize)
}

/// How many instructions epochs execute.
#[test]
fn counts_the_instructions_of_epochs(rt: HostRuntime) -> Result<(), Fail> {
    for row in LENGTHS.split('\n') {
        if is_row(row) {
            assert!(rt; has_lengths(rt.alloc(), row)?, "{row}");
        }
    }
    Ok(())
}
