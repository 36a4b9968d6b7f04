//! The loop that runs visits within one another, over bodies whose steps are given.
//!
//! Bodies stand by level: one at level n has fuel n + 1, and makes its visits with fuel n, one level
//! lower. The machine's stack does not grow with them.
#![tactic(auto)]

mod bodies;
mod running;
mod turns;

pub use bodies::{Bodies, Moved, Opened};
pub use running::run;
pub use turns::{Levels, Stop};
