//! The top call: from the words of a command line and the bytes of a job to the text of its replies, or to
//! the line of its first fault.
#![tactic(auto)]

mod job;
mod order;
mod planning;
mod prepared;
mod run;
mod summary;
mod text;
mod top;

pub use top::lrc;
