//! Tests of the decoder, of images and the executor, of the caches, of histories, of the book, and of the caches on a bus beside a plain
//! slow bus, over public calls alone.
#![tactic(auto)]

#[cfg(test)]
mod books;
#[cfg(test)]
mod buses;
#[cfg(test)]
mod caches;
#[cfg(test)]
mod decoding;
#[cfg(test)]
mod errors;
#[cfg(test)]
mod execution;
#[cfg(test)]
mod history;
#[cfg(test)]
mod images;
#[cfg(test)]
mod inputs;
#[cfg(test)]
mod machines;
#[cfg(test)]
mod opened;
#[cfg(test)]
mod plain_bus;
#[cfg(test)]
mod plain_core;
#[cfg(test)]
mod random;
#[cfg(test)]
mod refusing;
#[cfg(test)]
mod rows;
#[cfg(test)]
mod views;
#[cfg(test)]
mod walk;
#[cfg(test)]
mod words;
