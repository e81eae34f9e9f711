//! Reading of images.

use rv32_image::{Image, InputFault, read_image, read_input};
use std::test::Fail;

#[test]
fn reads_an_input_whole(rt: HostRuntime) -> Result<(), Fail> {
    let mut reader = b"abcdef".as_slice();
    let text = read_input(rt.alloc(), &mut reader, 6)?;
    assert!(rt; text.as_slice() == b"abcdef".as_slice());
    Ok(())
}

/// One byte past the limit is taken, and no more.
#[test]
fn reads_no_further_than_the_limit(rt: HostRuntime) {
    let mut reader = b"abcdef".as_slice();
    let read = read_input(rt.alloc(), &mut reader, 4);
    assert!(rt; read.err() == Some(InputFault::TooLong));
    assert!(rt; reader == b"f".as_slice());
}

/// Whether an image has these numbers in its lines.
fn has_numbers(image: &Image, size: u32, code: u32, epochs: u32, limit: u32) -> bool {
    image.size() == size
        && image.code() == code
        && image.epochs() == epochs
        && image.limit() == limit
}

/// Whether there are so many bytes, and these from the one at `first` on.
fn has_bytes(bytes: &[u8], length: usize, first: usize, some: &[u8]) -> bool {
    for (place, byte) in some.iter().enumerate() {
        if bytes.get(first.wrapping_add(place)) != Some(byte) {
            return false;
        }
    }
    bytes.len() == length
}

#[test]
fn reads_an_image(rt: HostRuntime) -> Result<(), Fail> {
    let text = "size 32\nepochs 4\nlimit 100\nreg 31 80000001\ncode 67800000\nat 0000001f ff\n";
    let image = read_image(rt.alloc(), &mut text.as_bytes())?;
    assert!(rt; has_numbers(&image, 32, 4, 4, 100));
    assert!(rt; image.regs()[31] == 0x8000_0001);
    assert!(rt; has_bytes(image.bytes(), 32, 0, &[0x67, 0x80, 0]));
    assert!(rt; has_bytes(image.bytes(), 32, 30, &[0, 0xff]));
    Ok(())
}
