//! The machines that there are, and the memories that are whole lines of theirs.

use crate::words::{cell, is_row, number};
use rv32_image::{Image, Machine, image_of};
use std::alloc::Global;
use std::process::Abort;
use std::test::Fail;

/// The machine of four numbers: bytes of a line, sets, ways, lines of a buffer.
pub fn machine_of(words: &str) -> Machine {
    Machine {
        line_length: number(words, 0),
        sets: number(words, 1),
        ways: number(words, 2),
        buffer_lines: number(words, 3),
        apart: None,
    }
}

/// Each line: a machine, the bytes of a memory, and whether there is such a machine with that memory.
const MACHINES: &str = "
16 1 1 1      | 64   | fits
64 1024 16 64 | 64   | fits
16 4 2 4      | 16   | fits
32 4 2 8      | 32   | fits
# Bytes of a line
0 4 2 8       | 64   | -
8 4 2 8       | 64   | -
15 4 2 8      | 960  | -
17 4 2 8      | 1088 | -
24 4 2 8      | 96   | -
48 4 2 8      | 96   | -
128 4 2 8     | 128  | -
# Sets
16 0 2 8      | 64   | -
16 2 2 8      | 64   | fits
16 3 2 8      | 64   | -
16 512 2 8    | 64   | fits
16 768 2 8    | 64   | -
16 1023 2 8   | 64   | -
16 1025 2 8   | 64   | -
16 2048 2 8   | 64   | -
# Ways
32 4 0 8      | 64   | -
32 4 3 8      | 64   | fits
32 4 16 8     | 64   | fits
32 4 17 8     | 64   | -
# Lines of a buffer
64 4 2 0      | 64   | -
64 4 2 1      | 64   | fits
64 4 2 63     | 64   | fits
64 4 2 64     | 64   | fits
64 4 2 65     | 64   | -
# Bytes of memory
16 4 2 8      | 48   | fits
32 4 2 8      | 48   | -
32 4 2 8      | 96   | fits
64 4 2 8      | 96   | -
64 4 2 8      | 32   | -
64 4 2 8      | 1088 | fits
";

/// Whether a row of `MACHINES` says so.
fn is_fit(row: &str) -> bool {
    cell(row, 2) == "fits"
}

/// An image of so many bytes, in version 1 where they are no whole lines of 32.
fn image_with(alloc: Global, size: u32) -> Result<Image, Fail> {
    let version = if size % 32 == 0 { 2 } else { 1 };
    let text = format!(in alloc;
        "version {version}\nsize {size}\nepochs 3\nlimit 5\ncode 67800000\nat 00000008 0102\n"
    )?;
    Ok(image_of(alloc, text.as_bytes())?)
}

/// Whether two images are the same, but for their machines.
fn is_same_loop(image: &Image, other: &Image) -> bool {
    image.version() == other.version()
        && image.size() == other.size()
        && image.epochs() == other.epochs()
        && image.limit() == other.limit()
        && image.bytes() == other.bytes()
}

/// A row of `MACHINES`, of its machine alone and of an image of so many bytes.
fn try_row(rt: &impl Abort, alloc: Global, row: &str) -> Result<(), Fail> {
    let (machine, size) = (machine_of(cell(row, 0)), number(cell(row, 1), 0));
    assert!(rt; machine.fits(size) == is_fit(row), "{row}");
    let image = image_with(alloc, size)?;
    let copy = image.copy()?;
    match copy.with_machine(machine) {
        Some(other) => assert!(rt;
            is_fit(row) && other.machine() == machine && is_same_loop(&image, &other),
            "{row}"
        ),
        None => assert!(rt; !is_fit(row), "{row}"),
    }
    Ok(())
}

#[test]
fn machines_that_there_are_and_others(rt: HostRuntime) -> Result<(), Fail> {
    for row in MACHINES.split('\n') {
        if is_row(row) {
            try_row(&rt, rt.alloc(), row)?;
        }
    }
    Ok(())
}

/// Whether an image that asks for no machine has that of its version, of which memories of every size that it allows are whole lines.
fn has_machine(alloc: Global, size: u32, words: &str) -> Result<bool, Fail> {
    let image = image_with(alloc, size)?;
    Ok(image.machine() == machine_of(words) && image.version().machine() == image.machine())
}

#[test]
fn an_image_has_the_machine_of_its_version(rt: HostRuntime) -> Result<(), Fail> {
    assert!(rt; has_machine(rt.alloc(), 48, "16 4 2 4")?);
    assert!(rt; has_machine(rt.alloc(), 96, "32 4 2 8")?);
    Ok(())
}

/// A memory of no bytes is whole lines of every machine. No image has one, and none as large as the largest here.
#[test]
fn memories_that_no_image_has(rt: HostRuntime) {
    for (size, fits) in [
        (0, true),
        (0xffff_ffc0, true),
        (0xffff_ffff, false),
        (1, false),
    ] {
        assert!(rt; machine_of("64 1024 16 64").fits(size) == fits, "{size}");
    }
}
