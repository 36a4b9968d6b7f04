//! The running visit over any store: a call is recalled, or its body runs on a frame, and its result is
//! remembered.
#![tactic(auto)]

mod visits;

pub use visits::{VisitFault, visit};
