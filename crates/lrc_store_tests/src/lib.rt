//! Tests of the crates of terms, streams and relations, and of the stores and their cells, which call public
//! functions alone.
//!
//! A crate with tests is proved twice, so they stand above all of the crates whose functions they call. What
//! they expect is worked out from the definitions, and never taken from what a function answered.
#![tactic(auto)]

#[cfg(test)]
mod cells;
#[cfg(test)]
mod layouts;
#[cfg(test)]
mod memo_words;
#[cfg(test)]
mod paths;
#[cfg(test)]
mod raw_terms;
#[cfg(test)]
mod remembered;
#[cfg(test)]
mod rows;
#[cfg(test)]
mod std_streams;
#[cfg(test)]
mod streams;
#[cfg(test)]
mod sums;
#[cfg(test)]
mod terms;
#[cfg(test)]
mod threads;
