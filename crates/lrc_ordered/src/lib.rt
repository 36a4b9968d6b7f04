//! The ordered test, after Kastens, Ordered Attributed Grammars (1980).
#![tactic(auto)]

mod cycles;
mod extend;
mod faults;
mod gather;
mod induce;
mod needs;
mod order_test;
mod partition;
mod partitions;
mod places;
mod settle;
mod setup;
mod small;
mod spread;
mod turns;
mod visits;

pub use faults::OrderFault;
pub use induce::{Tables, acyclic_induced};
pub use needs::{needs_of, push_equation_needs};
pub use order_test::{ordered, ordered_with};
pub use partitions::Partitions;
pub use places::places_of;
pub use small::{are_given_there, few_is_small};
