//! The law of audits: the function does nothing, and its contract is the law.

ghost use Rattle.trace_commands.specs.Laws.{PrintedIsLegal};

/// A history that replays, printed below the text of its image, which ends in a line feed, is read as it was, and an audit of that
/// text finds it legal, unless a read or a write fails or memory runs out.
pub fn a_printed_history_is_legal()
    ensures { PrintedIsLegal }
{}
