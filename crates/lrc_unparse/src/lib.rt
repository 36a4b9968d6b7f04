//! The texts of values and of trees that the handles of any store stand for.
//!
//! A printer keeps the text that it made and a list of the parts that are still to be printed, so that
//! the stack does not grow with the tree. A value and a tree are printed by one loop, in two styles.
#![tactic(auto)]

mod parts;
mod patterns;
mod printer;
mod styles;
mod texts;

pub use texts::{unparse, value_text};
