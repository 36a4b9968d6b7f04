//! Sessions over any store: a tree of the start sort with its root's attributes, and puts and copies in it.
//!
//! After each edit only those visits run of which no result is remembered. A refusal leaves the tree and
//! its attributes as they were. The calls `start`, `put` and `copy` are also there in halves, with the
//! root's visit between them.
#![tactic(auto)]

mod copying;
mod fault;
mod proposal;
mod session;

pub use fault::{EditFault, StartFault};
pub use proposal::Proposal;
pub use session::Session;
