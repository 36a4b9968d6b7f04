//! Equations over handles: the value of an expression, computed in a store.
//!
//! Numbers and truth values stand for themselves; a name or a tree is a handle of its cell. So what an
//! expression builds is in the store once, and names and trees are compared by their handles.
#![tactic(auto)]

mod expression;
mod kinds;
mod laws;
mod operators;
mod values;

pub use expression::evaluate;
pub use kinds::eval;
pub use laws::{trees_are_the_same_by_cells, values_are_of_their_kinds};
pub use values::{Val, empty_list, value_handle, value_of_handle};
