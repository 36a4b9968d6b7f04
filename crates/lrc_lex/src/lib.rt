//! Cuts the text of a job into tokens, the longest one at each place.
#![tactic(auto)]

ghost use Rattle.std.specs.Prelude.{◌≡◌, ◌≢◌, ℕ, ◌≤◌, ◌⊎◌, List as Sequence, length, All, IfOk, IfErr};
ghost use Rattle.std.specs.Str.{IsUtf8};
ghost use Rattle.lrc_lex.specs.Tokens.{Tokens, FirstFault, TokensFrom, FaultFrom};
ghost use Rattle.lrc_lex.specs.declared.LexFault.TheVariants.{Memory};
ghost use Rattle.lrc_lex.specs.Longest.{IsTokenOf};

mod decimal;
mod limits;
mod paths;
mod quoted;
mod scan;
mod words;

use crate::limits::{excess, fits};
use crate::scan::{Step, next};
pub use decimal::{natural, negative};
use lrc_base::limits::TEXT_LIMIT;
use lrc_base::{List, Memory};
pub use paths::path;
pub use quoted::unquoted;
use std::alloc::Global;
use thiserror::Error;

/// What a token is.
#[derive(Debug, Clone, Copy, PartialEq, Eq)]
pub enum TokenClass {
    /// A character with which identifiers start or `_`, then characters that continue identifiers,
    /// by Unicode Standard Annex 31: 64 bytes at most.
    Word,
    /// Decimal digits, whose value is at most 2^63 - 1.
    Natural,
    /// `-` directly followed by decimal digits, whose value is at most 2^63.
    Negative,
    /// `'` directly followed by a word.
    NameLit,
    /// A text in double quotes, of the bytes 32 to 126, with `"` and `\` behind a `\`.
    Text,
    /// A place of a tree: `/`, or groups of `/` and digits, whose value is at most 255.
    Path,
    /// One of `{ } ( ) : ; , . = == < + - *`.
    Symbol,
}

/// A token of a text: the bytes from `at` up to `end`, counted from 0.
#[derive(Debug, Clone, Copy, PartialEq, Eq)]
pub struct Token {
    pub class: TokenClass,
    pub at: u32,
    pub end: u32,
}

/// Why a text has no tokens, numbered from 1 in this order. Places are in bytes, counted from 0.
#[derive(Debug, Clone, Copy, PartialEq, Eq, Error)]
pub enum LexFault {
    /// The text isn't UTF-8. Its longest front that is has this length.
    #[error("not UTF-8 at {at}")]
    NotUtf8 { at: u32 },
    /// Here stands a character that can't begin or continue a token, or the text ends within one.
    #[error("unexpected character at {at}")]
    BadChar { at: u32 },
    /// The number that begins here is out of its range, or a step of the path that begins here.
    #[error("number out of range at {at}")]
    NumberRange { at: u32 },
    /// The word that begins here has more than 64 bytes, or the one behind the `'` here.
    #[error("name too long at {at}")]
    NameLong { at: u32 },
    /// Memory ran out.
    #[error("out of memory")]
    Memory,
}

impl From<Memory> for LexFault {
    ghost use Rattle.lrc_lex.specs.declared.LexFault.TheVariants.{Memory};

    ghost from_gives = { λ _ fault. fault ≡ Memory };

    fn from(_memory: Memory) -> LexFault {
        LexFault::Memory
    }
}

/// The tokens of a text in UTF-8.
fn tokens_of(alloc: Global, text: &str) -> Result<List<Token>, LexFault>
    requires short { length text.now ≤ TEXT_LIMIT }
    requires utf8 { IsUtf8 text.now }
    ensures ok { IfOk result (λ found. TokensFrom text.now 0 found) }
    ensures fault { IfErr result (λ fault. fault ≢ Memory → FaultFrom text.now 0 fault) }
{
    let mut found = List::new(alloc);
    let mut at = 0;
    loop {
        match next(&text[at..]) {
            Step::End => return Ok(found),
            Step::Skip(length) => at += length,
            Step::Refuse(length) => {
                return Err(LexFault::BadChar {
                    at: (at + length) as u32,
                });
            }
            Step::Take(class, length) => {
                let end = at + length;
                if !fits(class, &text.as_bytes()[at..end]) {
                    return Err(excess(class, at as u32));
                }
                found.push(Token {
                    class,
                    at: at as u32,
                    end: end as u32,
                })?;
                at = end;
            }
        }
    }
}

/// The tokens of the whole text, in order, the longest one at each place. They are separated by
/// spaces, tabs, line feeds, carriage returns and comments, from `#` up to a line feed or the end.
/// The error is the first fault of the text, or want of memory.
pub fn tokens(alloc: Global, text: &[u8]) -> Result<List<Token>, LexFault>
    requires { length text.now ≤ TEXT_LIMIT }
    ensures ok { IfOk result (λ found. Tokens text.now found) }
    ensures each { IfOk result (λ found. All (IsTokenOf text.now) found) }
    ensures fault { IfErr result (λ fault. fault ≢ Memory → FirstFault text.now fault) }
    ensures only { IfErr result (λ fault. fault ≢ Memory → (found : Sequence Token) → Tokens text.now found → ⊥) }
{
    match str::from_utf8(text) {
        Ok(text) => tokens_of(alloc, text),
        Err(error) => Err(LexFault::NotUtf8 {
            at: error.valid_up_to() as u32,
        }),
    }
}

/// What holds of any text: it has one list of tokens or one first fault, and not both. Each token is
/// the longest one at its place.
pub fn token_laws()
    ensures one_list { (text : Sequence ℕ) (found others : Sequence Token) → Tokens text found → Tokens text others → found ≡ others }
    ensures one_fault { (text : Sequence ℕ) (fault other : LexFault) → FirstFault text fault → FirstFault text other → fault ≡ other }
    ensures never_both { (text : Sequence ℕ) (found : Sequence Token) (fault : LexFault) → Tokens text found → FirstFault text fault → ⊥ }
    ensures each { (text : Sequence ℕ) (found : Sequence Token) → Tokens text found → All (IsTokenOf text) found }
    ensures some { (text : Sequence ℕ) → ((found : Sequence Token) × Tokens text found) ⊎ ((fault : LexFault) × FirstFault text fault) }
{}
