//! What a run counts.

use crate::words::prints;
use run_ledger::{
    Counts, Unequal, agree, count_commit, count_load, count_restart, count_store, gather, open,
};
use std::test::Fail;

// Loads, stores, restarts and commits.
fn counts(loads: u64, stores: u64, restarts: u64, commits: u64) -> Counts {
    Counts {
        loads,
        stores,
        restarts,
        commits,
    }
}

#[test]
fn a_count_in_either_share_is_found_once_they_are_gathered(rt: HostRuntime) -> Result<(), Fail> {
    let (mut totals, shares) = open();
    let (first, mut second) = shares.split();
    count_load(&mut totals, &mut second);
    assert!(rt; agree(&totals, &first) == Err(Unequal));
    let all = gather(first, second);
    assert!(rt; agree(&totals, &all) == Ok(counts(1, 0, 0, 0)));
    Ok(())
}

#[test]
fn each_quantity_is_counted_on_both_sides(rt: HostRuntime) -> Result<(), Fail> {
    let (mut totals, shares) = open();
    assert!(rt; totals.counts() == counts(0, 0, 0, 0));
    assert!(rt; shares.counts() == counts(0, 0, 0, 0));
    let (mut first, mut second) = shares.split();
    count_load(&mut totals, &mut first);
    count_store(&mut totals, &mut first);
    count_store(&mut totals, &mut second);
    count_restart(&mut totals, &mut second);
    count_commit(&mut totals, &mut first);
    assert!(rt; first.counts() == counts(1, 1, 0, 1));
    assert!(rt; second.counts() == counts(0, 1, 1, 0));
    assert!(rt; agree(&totals, &gather(first, second)) == Ok(counts(1, 2, 1, 1)));
    Ok(())
}

#[test]
fn the_error_has_a_name_and_prints_what_it_is(rt: HostRuntime) -> Result<(), Fail> {
    assert!(rt; Unequal.name() == "Unequal");
    assert!(rt; prints(rt.alloc(), Unequal, "the shares do not sum to the totals")?);
    Ok(())
}
