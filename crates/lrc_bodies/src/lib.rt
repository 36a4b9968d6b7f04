//! Bodies of visits over a store: what there is of a call before its body runs, what a body does next,
//! and how it goes on with a result; and what remembered calls mean.
#![tactic(auto)]

mod advancing;
mod frames;
mod mark;
mod opening;
mod remembered;
mod resuming;

pub use advancing::advance_body;
pub use frames::Frames;
pub use mark::Mark;
pub use opening::open_body;
pub use remembered::VisitMeaning;
pub use resuming::resume_body;
