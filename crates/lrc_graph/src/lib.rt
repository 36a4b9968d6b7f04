//! Relations over few points, as tables of bits: membership, transitive closure, points on a cycle.
//!
//! Contracts see a [`Relation`] as its number of points and its pairs. After [`Relation::close`]
//! the pairs are exactly those that a path of the relation before joins.
#![tactic(auto)]

mod relation;
mod rows;

pub use relation::Relation;
