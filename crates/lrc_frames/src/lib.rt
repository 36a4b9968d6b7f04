//! Frames: the steps of a visit that runs, over handles of any store.
//!
//! A frame has a value for each item of a production. A body begins with what its call hands in; each
//! evaluation and each visit of a symbol puts what it gives into the frame; and at the end the result
//! is made of it. No step runs another visit, remembers anything, or takes memory.
#![tactic(auto)]

mod beginning;
mod bindings;
mod body;
mod calling;
mod ending;
mod evaluating;
mod filling;
mod items;
mod lists;
mod nodes;
mod reading;
mod taking;

pub use beginning::begin;
pub use body::Body;
pub use calling::make_call;
pub use ending::finish;
pub use evaluating::evaluate_into;
pub use taking::take_result;
