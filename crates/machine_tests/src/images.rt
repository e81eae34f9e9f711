//! Images of a text.

use crate::words::cell;
use rv32_exec::{Image, image_of};
use std::alloc::Global;
use std::test::Fail;

/// The text of the image with this name, among images that each begin with `=`, a line that has the name first, and the text. Empty
/// where there is none, which is refused as an image.
pub fn image_named<'a>(images: &'a str, name: &str) -> &'a str {
    for image in images.split('=') {
        if let Some((head, text)) = image.split_once('\n') {
            if cell(head, 0) == name {
                return text;
            }
        }
    }
    ""
}

/// The image of a text.
pub fn read_image(alloc: Global, text: &str) -> Result<Image, Fail> {
    Ok(image_of(alloc, text.as_bytes())?)
}

/// The image of a text, which is asked for again where memory was refused.
pub fn image_again(alloc: Global, text: &str) -> Result<Image, Fail> {
    let mut made = image_of(alloc, text.as_bytes());
    if made.is_err() {
        made = image_of(alloc, text.as_bytes());
    }
    Ok(made?)
}
