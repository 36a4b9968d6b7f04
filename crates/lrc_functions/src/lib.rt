//! Visit functions: what each visit of a production's left side takes, does and gives, by the numbers
//! of the production's items, so that a visit that runs looks nothing up.
//!
//! After Pennings, Generating Incremental Attribute Evaluators (1994): the visit sequences of an
//! ordered grammar as functions from trees, inherited values and bindings to synthesised values and
//! bindings.
#![tactic(auto)]

mod function;
mod functions;
mod laws;
mod numbers;
mod scene;

pub use function::{Callee, Function, Operation};
pub use functions::Functions;
pub use laws::numbers_tell_items;
