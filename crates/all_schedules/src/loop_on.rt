//! A loop that is driven.
ghost use Rattle.violations.specs.Rule.{IsCoreCount};

use crate::room::Room;
use rv32_exec::Image;

/// The loop of an image on so many cores, with room for so long a history.
#[derive(Clone, Copy)]
pub struct LoopOn<'a> {
    /// The image of the loop.
    pub image: &'a Image,
    /// How many cores there are.
    pub cores: u32,
    /// How many entries the history may have.
    pub room: Room,
    /// Its version allows so many cores.
    pub ghost counted: { IsCoreCount image.now cores },
}
