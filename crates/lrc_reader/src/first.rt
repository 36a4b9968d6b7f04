//! The kinds of lexemes with which parts of a job begin.

use crate::lexeme::{
    MARK_KIND, Mark, NAME_KIND, NATURAL_KIND, NEGATIVE_KIND, TEXT_KIND, WORD_KIND,
};

/// Of a word.
pub const WORDS: [u8; 1] = [WORD_KIND];

/// Of a literal.
pub const LITERALS: [u8; 5] = [
    NATURAL_KIND,
    NEGATIVE_KIND,
    NAME_KIND,
    MARK_KIND + Mark::True as u8,
    MARK_KIND + Mark::False as u8,
];

/// Of a sort.
pub const SORTS: [u8; 1] = [MARK_KIND + Mark::Sort as u8];

/// Of an attribute.
pub const DIRECTIONS: [u8; 2] = [MARK_KIND + Mark::Inh as u8, MARK_KIND + Mark::Syn as u8];

/// Of a production.
pub const PRODUCTIONS: [u8; 1] = [MARK_KIND + Mark::Prod as u8];

/// Of a local or a nonterminal attribute.
pub const DECLARATIONS: [u8; 2] = [
    MARK_KIND + Mark::Local as u8,
    MARK_KIND + Mark::Attach as u8,
];

/// Of an item.
pub const ITEMS: [u8; 4] = [
    MARK_KIND + Mark::Local as u8,
    MARK_KIND + Mark::Attach as u8,
    MARK_KIND + Mark::Text as u8,
    WORD_KIND,
];

/// Of a piece of a pattern.
pub const PIECES: [u8; 2] = [TEXT_KIND, WORD_KIND];

/// Of a conditional.
pub const CONDITIONALS: [u8; 1] = [MARK_KIND + Mark::If as u8];

/// The operators of a product.
pub const TIMES: [u8; 1] = [MARK_KIND + Mark::Star as u8];

/// The operators of a sum.
pub const PLUS: [u8; 2] = [MARK_KIND + Mark::Plus as u8, MARK_KIND + Mark::Minus as u8];

/// The operators of a comparison.
pub const COMPARISONS: [u8; 2] = [MARK_KIND + Mark::SameAs as u8, MARK_KIND + Mark::Less as u8];

/// Of an expression.
pub const EXPRESSIONS: [u8; 8] = [
    MARK_KIND + Mark::If as u8,
    NATURAL_KIND,
    NEGATIVE_KIND,
    NAME_KIND,
    MARK_KIND + Mark::True as u8,
    MARK_KIND + Mark::False as u8,
    MARK_KIND + Mark::LeftParen as u8,
    WORD_KIND,
];

/// Of a term.
pub const TERMS: [u8; 6] = [
    NATURAL_KIND,
    NEGATIVE_KIND,
    NAME_KIND,
    MARK_KIND + Mark::True as u8,
    MARK_KIND + Mark::False as u8,
    WORD_KIND,
];

/// Of a session.
pub const SESSIONS: [u8; 1] = [MARK_KIND + Mark::Session as u8];

/// Of an edit.
pub const EDITS: [u8; 4] = [
    MARK_KIND + Mark::Put as u8,
    MARK_KIND + Mark::Copy as u8,
    MARK_KIND + Mark::Show as u8,
    MARK_KIND + Mark::Forget as u8,
];
