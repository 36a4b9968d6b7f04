//! The reader of jobs: from the bytes of a text to the job that the text denotes.
//!
//! A text has at most 16,777,216 bytes, a grammar 64 sorts and 256 productions, a sort 16
//! attributes, a production 8 children and 16 locals and nonterminal attributes, an equation's
//! expression 1,000 nodes, a job 64 sessions and a session 10,000 edits. Expressions and terms stand
//! at most 1,000 within one another.
#![tactic(auto)]

mod cursor;
mod expression;
mod fault;
mod first;
mod grammar;
mod item;
mod job;
mod lexeme;
mod path_text;
mod production;
mod quoted_text;
mod session;
mod sort;
mod term;
mod whole;

pub use fault::{JobFault, Limit};
pub use job::{fault_laws, one_job, read_job};
