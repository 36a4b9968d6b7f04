//! What a grammar may leave out: copies of attributes are filled in behind the items of its
//! productions, and order lines name pairs of attributes that are given to the ordered test.
#![tactic(auto)]

mod attrs;
mod copies;
mod fault;
mod filled;
mod laws;
mod order;
mod pairs;
mod symbols;
mod targets;

pub use fault::OrderLineFault;
pub use filled::augment;
pub use laws::{complete_grammar_stays, filled_twice_is_filled, given_pairs_are_there};
pub use order::RawOrder;
pub use pairs::given;
