//! Tests of dependences and limits, of runs on threads, of the lock and of what a run counts, and of the commands `run` and `replay`,
//! over public calls alone.
#![tactic(auto)]

#[cfg(test)]
mod commands;
#[cfg(test)]
mod counts;
#[cfg(test)]
mod gates;
#[cfg(test)]
mod locks;
#[cfg(test)]
mod look;
#[cfg(test)]
mod meetings;
#[cfg(test)]
mod never;
#[cfg(test)]
mod programs;
#[cfg(test)]
mod replays;
#[cfg(test)]
mod runs;
#[cfg(test)]
mod stops;
#[cfg(test)]
mod words;
