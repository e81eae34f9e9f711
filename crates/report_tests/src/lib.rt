//! Tests of the text of traces, the commands `seq`, `audit` and `why`, the explanations of violations, and their report, over public
//! calls alone.
#![tactic(auto)]

#[cfg(test)]
mod apart;
#[cfg(test)]
mod commands;
#[cfg(test)]
mod explained;
#[cfg(test)]
mod reports;
#[cfg(test)]
mod rows;
#[cfg(test)]
mod texts;
#[cfg(test)]
mod words;
