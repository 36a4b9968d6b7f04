//! Generated jobs: a tree that is drawn from a seed, and sessions on it whose edits are drawn too.
//!
//! A tree is made by a list of tasks that are still to be done, so that the stack does not grow with it.
#![tactic(auto)]

mod draws;
mod job;
mod lets;
mod names;
mod parts;
mod prods;
mod sessions;
mod tasks;
mod terms;

pub use job::gen_job;
