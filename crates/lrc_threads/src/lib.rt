//! The sessions of a job over one table that threads may share.
//!
//! Each session has a pass with rows of its own that it may publish; what one has put or remembered, every
//! other finds. Each is answered by its own edits alone, in whatever order the threads take their steps on
//! the table. The list is halved again and again, and both halves run at once.
#![tactic(auto)]

mod finals;
mod halves;
mod one;
mod outs;
mod running;

pub use outs::{Outs, Sizes};
pub use running::run_sessions;
