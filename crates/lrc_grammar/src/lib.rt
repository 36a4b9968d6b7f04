//! Well-formed grammars within the limits, and the signatures of their productions.
#![tactic(auto)]

mod attributes;
mod copies;
mod grammar;
mod kinds;
mod signature;

pub use attributes::attrs_of_sort;
pub use grammar::Grammar;
pub use kinds::{is_sort, same_kind};
pub use signature::occurrences_and_symbols;
