//! Terms and jobs as they are written: a term is found over a grammar's productions with its kind, a
//! job is accepted with its grammar, trees and edits by numbers; or the first fault is answered.
#![tactic(auto)]

mod edits;
mod fault;
mod found;
mod job;
mod kinds;
mod laws;
mod sessions;
mod term;
mod term_fault;
mod term_laws;
mod terms;

pub use fault::AcceptFault;
pub use job::{Accepted, accept};
pub use laws::sessions_exactly_where_fitting;
pub use term::resolve;
pub use term_fault::TermFault;
pub use term_laws::found_exactly_where_fitting;
