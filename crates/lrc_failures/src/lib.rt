//! The faults of the program: their statuses, and the lines that are printed for them.
#![tactic(auto)]

mod failure;
mod lines;
mod pieces;

pub use failure::{Cycle, Failure};
pub use lines::put_line;
