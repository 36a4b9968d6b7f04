//! Places of trees over the handles of any store: the part at a place, the kind of a tree, a tree with
//! another part at a place, a term that is put at a place of its kind, and a part that is copied to one.
//!
//! A tree is a handle of its cell, and a place a list of steps, each of which names a child, from 0.
#![tactic(auto)]

mod copying;
mod kinds;
mod laws;
mod places;
mod putting;
mod replacing;
mod shapes;

pub use copying::{CopyFault, copy_part};
pub use kinds::kind_of;
pub use laws::{
    each_place_is_of_its_kind, parts_are_no_higher, parts_of_parts, productions_of_a_fitting_tree,
    replaced_trees_are_spelled, replaced_trees_fit, what_is_put_is_there,
};
pub use places::part_at;
pub use putting::{Put, ReplaceFault, replace};
pub use replacing::replaced;
