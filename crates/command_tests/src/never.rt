//! The dependences of the run in order, what caches make of them, and the limits that they set.

mod beside;
mod distances;
mod flow;
mod timings;
mod words;
