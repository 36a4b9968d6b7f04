//! Languages with values, and beside each a reading that looks at the next token alone.
//!
//! A language says which tokens stand for which value. A reading takes a sentence off the head of
//! some tokens, or says why it stops and where. A reading is exact where it takes just the
//! sentences of its language, each up to the last token that can belong to it. The functions here
//! do nothing when they run: each carries a law in its contract.
#![tactic(auto)]

mod combined;
mod grammar;
mod laws;
mod repeats;
mod stops;
mod sum_reader;
mod sums;

pub use combined::{
    before_token, behind_token, choice, fixed_token, mapped, no_token, one_token, optional,
    sequence, with_room,
};
pub use grammar::{Grammar, LimitedGrammar, Token};
pub use laws::{left_over, one_value, stopped, takes_a_token, whole_text};
pub use repeats::{chain, folded_most, repeated, repeated_most, separated, separated_most};
pub use stops::{left_place, stop_place, whole_text_within};
pub use sum_reader::{Stop, Why, read_sum, value_of_sum};
pub use sums::{Sign, Sums, sum_read_exactly};
