//! The law of runs: the function does nothing, and its contract is the law.

ghost use Rattle.run_command.specs.Laws.{TracedRunIsLegal};

/// An image text that ends in a line feed, with the trace below it that a run printed, is read as the run's history, and an audit of
/// it finds it legal, unless a read or a write fails or memory runs out.
pub fn a_traced_run_is_legal()
    ensures { TracedRunIsLegal }
{}
