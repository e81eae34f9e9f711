//! What a run is given beside its image and its cores.
use all_schedules::Room;
use trace_commands::MachineAsked;

/// The machine that the store of a run asks for, and the room of its history in entries.
#[derive(Clone, Copy)]
pub struct Settings {
    pub asked: MachineAsked,
    pub room: Room,
}
