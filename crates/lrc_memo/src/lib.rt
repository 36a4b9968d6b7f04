//! A store over a table that threads share: the cells of a pass, and memo words that any thread may
//! overwrite at any moment.
#![tactic(auto)]

mod shared;

pub use shared::SharedStore;
