//! Where bytes come from and go to: sources and sinks, each with a count of its faults.
//!
//! A [`Source`] may tell its clauses which bytes it has left, and a [`Sink`] which bytes it holds;
//! those over memory do. A call that fails has raised the count of faults.
#![tactic(auto)]

mod memory_sink;
mod memory_source;
mod sink;
mod source;
mod std_io;
mod take_all;

pub use memory_sink::MemorySink;
pub use memory_source::MemorySource;
pub use sink::{Sink, put_all};
pub use source::{Failed, Source};
pub use std_io::{ReadSource, WriteSink};
pub use take_all::{TakeFault, take_up_to};
