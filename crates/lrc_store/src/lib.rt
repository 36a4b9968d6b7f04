//! Hash-consed cells behind one trait.
//!
//! A cell is nil, a number, or a pair of a tag with two cells. A store names each cell that it
//! holds by a handle, and two known handles are equal exactly where their cells are. Besides, a
//! store may remember the result of a call, where its meaning allows the pair.
#![tactic(auto)]

mod cells;
mod meanings;
mod stores;

pub use cells::{Cell, Handle};
pub use meanings::{Meaning, NoMeaning};
pub use stores::{Full, Recall, Store};
