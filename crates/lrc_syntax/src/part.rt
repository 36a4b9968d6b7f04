use lrc_base::{Kind, List, NameText};
use lrc_lex::TokenClass;

/// A token by its class and its bytes.
#[derive(Debug, Clone, Copy)]
pub struct Lexeme {
    pub class: TokenClass,
    pub bytes: NameText,
}

/// A part of the spelling of a production's trees.
#[derive(Debug, Clone, Copy)]
pub enum Part {
    /// A token that stands in each such spelling: a keyword or a symbol.
    Token(Lexeme),
    /// The spelling of the child of this number, which is of this kind.
    Child(u32, Kind),
}

/// The concrete syntax of a grammar.
#[derive(Debug, Drop)]
pub struct Syntax {
    /// By production the parts of the spelling of its trees, in order.
    pub productions: List<List<Part>>,
}
