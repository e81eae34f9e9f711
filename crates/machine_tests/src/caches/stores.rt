//! The plain store, and sets of cores.

use crate::caches::play::play;
use rv32_image::image_of;
use spec_bus::CachedBus;
use std::alloc::Global;
use std::test::Fail;
use violations::{CoreSet, EpochStore, PlainStore, Waiting};

/// Two epochs and 256 bytes of memory; the code is a jump to the end.
const IMAGE: &str = "size 256\nepochs 2\nlimit 50\ncode 67800000\nat 00000040 05\n";

#[test]
fn a_fresh_store_has_the_image_s_memory(rt: HostRuntime) -> Result<(), Fail> {
    let image = image_of(rt.alloc(), IMAGE.as_bytes())?;
    let mut store = PlainStore::fresh(rt.alloc(), &image, 2)?;
    assert!(rt; store.reserve().is_ok());
    assert!(rt; image.size() > 64);
    assert!(rt; store.committed_byte(64) == 5);
    Ok(())
}

#[test]
fn a_store_that_waits_has_the_memory_of_the_one_in_it(rt: HostRuntime) -> Result<(), Fail> {
    let image = image_of(rt.alloc(), IMAGE.as_bytes())?;
    let mut store: Waiting<PlainStore> = Waiting::fresh(rt.alloc(), &image, 8)?;
    assert!(rt; store.reserve().is_ok());
    assert!(rt; image.size() > 64);
    assert!(rt; store.committed_byte(64) == 5);
    Ok(())
}

/// Committed memory of a store of that image has 256 bytes, with this one at 64 and this one at 80.
fn has_bytes<S: EpochStore>(alloc: Global, store: &S, first: u8, second: u8) -> Result<bool, Fail> {
    let bytes = store.committed_memory(alloc)?;
    Ok(
        bytes.len() == 256
            && bytes.get(64).copied() == Some(first)
            && bytes.get(80).copied() == Some(second),
    )
}

#[test]
fn committed_memory_has_the_modified_lines_of_the_caches(rt: HostRuntime) -> Result<(), Fail> {
    let alloc = rt.alloc();
    let image = image_of(alloc, IMAGE.as_bytes())?;
    let plain = PlainStore::fresh(alloc, &image, 2)?;
    assert!(rt; has_bytes(alloc, &plain, 5, 0)?);
    let waiting: Waiting<PlainStore> = Waiting::fresh(alloc, &image, 2)?;
    assert!(rt; has_bytes(alloc, &waiting, 5, 0)?);
    let mut bus = CachedBus::fresh(alloc, &image, 2)?;
    play(
        &rt,
        &mut bus,
        "begin 0 0 | store 0 80 4 9 | publish 0 | straight_store 0 64 4 7 | line 0 80 M . 0 | line 0 64 M . 0",
    );
    assert!(rt; has_bytes(alloc, &bus, 7, 9)?);
    Ok(())
}

/// Whether a set has the cores whose bits are set in a mask, and no others.
fn has_just(set: CoreSet, mask: u32) -> bool {
    for core in 0..17u32 {
        if set.has(core) != (mask.wrapping_shr(core) % 2 == 1) {
            return false;
        }
    }
    true
}

#[test]
fn sets_of_cores(rt: HostRuntime) {
    let mut set = CoreSet::none();
    assert!(rt; set.is_empty() && has_just(set, 0));
    set.insert(0);
    assert!(rt; has_just(set, 0x1));
    set.insert(3);
    assert!(rt; has_just(set, 0x9));
    set.insert(15);
    set.insert(3);
    assert!(rt; set.len() == 3 && !set.is_empty() && has_just(set, 0x8009));
}
