//! Tests of the program's crates, which call public functions alone.
//!
//! A crate with tests is proved twice, so they stand above all of the crates whose functions they call. What
//! they expect comes from the notation and the rules (`docs/NOTATION.md`), and never from what is printed.
#![tactic(auto)]

#[cfg(test)]
mod brackets;
#[cfg(test)]
mod command_line;
#[cfg(test)]
mod functions;
#[cfg(test)]
mod generated;
#[cfg(test)]
mod grammars;
#[cfg(test)]
mod jobs;
#[cfg(test)]
mod lexing;
#[cfg(test)]
mod numbering;
#[cfg(test)]
mod order;
#[cfg(test)]
mod partitions;
#[cfg(test)]
mod reading;
#[cfg(test)]
mod runs;
#[cfg(test)]
mod small_text;
#[cfg(test)]
mod solo;
#[cfg(test)]
mod streams;
#[cfg(test)]
mod top_call;
#[cfg(test)]
mod words;
