//! The words of the command line of `lrc`.
//!
//! [`read_words`] reads them with `clap`, as one command that contracts name `COMMAND`: a word for
//! what is to be done, and six options that set one whole number each. Contracts see what was read
//! as `clap`'s function of that command and the words.
#![tactic(auto)]

mod arguments;
mod command;
mod laws;
mod reading;

pub use command::{Command, Verb, WordsFault};
pub use laws::{options_set_their_numbers, other_words_are_refused};
pub use reading::read_words;
