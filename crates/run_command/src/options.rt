use std::marker::Model;
use trace_commands::MachineAsked;

/// How a run is asked for. It has at least one core, and room for 16 to 1,048,576 entries.
#[derive(Clone, Copy)]
pub struct RunOptions {
    /// How many cores there are.
    pub cores: u32,
    /// How many entries the history may have.
    pub room: u32,
    /// Whether the counts and the trace are printed below the report.
    pub trace: bool,
}

impl Model for RunOptions {
    ghost use Rattle.run_command.specs.Options.{CanRun, Options};

    ghost Value = { Options };

    ghost view = { λ o. record { cores = o.cores; room = o.room; trace = o.trace } };

    ghost invariant = { λ o. CanRun o.cores o.room };

    ghost inverse = { λ o. record { cores = o.cores; room = o.room; trace = o.trace } };
}

/// What a run is asked for: how, and on which machine.
#[derive(Clone, Copy)]
pub struct RunAsked {
    /// The machine.
    pub machine: MachineAsked,
    /// How it is asked for otherwise.
    pub options: RunOptions,
}
