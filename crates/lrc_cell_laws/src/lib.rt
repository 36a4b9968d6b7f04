//! Laws of what visits meet, and of the cells of it: over definitions alone, with no store. Each
//! function does nothing, and carries a law as its contract.
#![tactic(auto)]

mod cells;
mod meaning;
mod reached;
mod sizes;

pub use cells::{calls_are_told_by_tags, reached_cells_are_closed};
pub use meaning::{remembered_calls_have_a_meaning, results_may_be_remembered};
pub use reached::{
    demand_is_cells_of_reach, nested_visits_are_lower, visits_are_spelled, visits_have_tags,
};
pub use sizes::cells_have_one_size;
