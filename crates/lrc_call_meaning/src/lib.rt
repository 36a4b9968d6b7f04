//! The cells of whole calls of visits and of whole results, as the plain visit has them: a definition,
//! in `specs/`, with its laws. Each function changes nothing, and carries a law as its contract.
#![tactic(auto)]

mod laws;
mod spelled;

pub use laws::{calls_are_read_back, forms_of_calls_are_injective, values_are_spelled};
pub use spelled::{literals_are_spelled, name_is_spelled, term_is_spelled};
