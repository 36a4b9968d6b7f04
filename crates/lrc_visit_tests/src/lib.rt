//! Tests of the crates of running visits, which call public functions alone.
//!
//! A crate with tests is proved twice, so they stand above all of the crates whose functions they call. What
//! they expect is worked out from the definitions, and never taken from what a function answered.
#![tactic(auto)]

#[cfg(test)]
mod constructors;
#[cfg(test)]
mod equations;
#[cfg(test)]
mod expressions;
#[cfg(test)]
mod halves;
#[cfg(test)]
mod handles;
#[cfg(test)]
mod jobs;
#[cfg(test)]
mod kinds;
#[cfg(test)]
mod nodes;
#[cfg(test)]
mod putting;
#[cfg(test)]
mod sessions;
#[cfg(test)]
mod terms;
#[cfg(test)]
mod texts;
#[cfg(test)]
mod threads;
