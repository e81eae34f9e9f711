//! The caches on a bus, and what they are made of.

mod buffers;
mod checks;
mod costs;
mod geometries;
mod lines;
mod machines;
mod play;
mod rows;
mod states;
mod stores;
mod words;
