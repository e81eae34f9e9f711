//! The law of trace texts: the function does nothing, and its contract is the law.

ghost use Rattle.trace_text.specs.Laws.{ReadsBack};

/// A trace that is printed below the text of an image, which ends in a line feed, is read back as it was, and the image too.
pub fn a_printed_trace_reads_back()
    ensures { ReadsBack }
{}
