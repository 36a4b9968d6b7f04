//! The checks of a grammar as it is written: its first fault, or that it has none.
#![tactic(auto)]

mod checked;
mod declarations;
mod declared;
mod equations;
mod expr;
mod fault;
mod first;
mod heads;
mod kind;
mod missing;
mod names;
mod reading;
mod scope;
mod sorts;
mod start;
mod target;
mod words;

pub use checked::check;
pub use fault::{GrammarFault, GrammarKind};
pub use first::first_fault;
