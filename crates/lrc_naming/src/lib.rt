//! From names to numbers: the grammar that is written, with each sort, production, attribute and child
//! by its number.
#![tactic(auto)]

mod equation;
mod expr;
mod extra;
mod fault;
mod grammar;
mod kind;
mod number;
mod occurrence;
mod pattern;
mod production;
mod scope;
mod written;

pub use fault::NamingFault;
pub use grammar::{Numbered, named_grammar};
pub use number::production_number;
pub use occurrence::same_owner;
