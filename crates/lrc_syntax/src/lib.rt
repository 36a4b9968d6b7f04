//! The concrete syntax of a grammar: the keywords, symbols and children by which the trees of each
//! production are spelled, made of the productions' patterns of text; or the first fault of them.
#![tactic(auto)]

mod bare;
mod children;
mod fault;
mod grammar;
mod part;
mod parts;
mod production;
mod text;
mod trees;

pub use fault::SyntaxFault;
pub use grammar::syntax;
pub use part::{Lexeme, Part, Syntax};
