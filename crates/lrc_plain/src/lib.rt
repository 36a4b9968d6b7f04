//! A store of cells for one owner: it forgets nothing, and takes no memory after it was made.
#![tactic(auto)]

mod chains;
mod homes;
mod plain;
mod rows;

pub use plain::PlainStore;
