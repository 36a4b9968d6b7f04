//! Hash-consed cells in one table that threads share without locks.
//!
//! Each thread has a pass of its own, which knows handles and owns rows that it may publish. Each
//! change of the table is one atomic step on one word. No call takes memory once the table is made,
//! and none waits.
#![tactic(auto)]

mod calls;
mod memo;
mod probe;
mod table;

pub use table::{Pass, Table};
