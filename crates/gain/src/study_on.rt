//! What is asked about a loop on the machine of a store.
ghost use Rattle.violations.specs.Rule.{IsCoreCount};

use crate::gains::Study;
use rv32_exec::Image;

/// What is asked about the loop of an image, and where loads wait.
#[derive(Clone, Copy)]
pub struct StudyOn<'a> {
    /// The image, on the machine of a store.
    pub image: &'a Image,
    /// What is asked.
    pub study: &'a Study,
    /// The addresses of code whose loads wait.
    pub addresses: &'a [u32],
    /// The image's version allows so many cores.
    pub ghost counted: { IsCoreCount image.now study.now.cores },
}
