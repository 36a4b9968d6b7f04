//! Terms, values, lists, calls of visits and their results as hash-consed cells, written to any
//! store and read back.
#![tactic(auto)]

mod calls;
mod handles;
mod laws;
mod lists;
mod names;
mod pairs;
mod terms;

pub use calls::{CallParts, ResultParts, call_parts, put_call, put_result, result_parts};
pub use handles::Handles;
pub use laws::forms_are_injective;
pub use lists::{item_of, put_list};
pub use names::put_name;
pub use terms::{kid_of, production_of, put_bool, put_node, put_term};
