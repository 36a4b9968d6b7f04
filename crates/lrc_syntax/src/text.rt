ghost use Rattle.std.specs.Prelude.{◌≡◌, ◌≢◌, ◌≤◌, false, true, length, MatchOption, IfOk, IfErr};
ghost use Rattle.lrc_lex.specs.Longest.{IsTokenOf};
ghost use Rattle.lrc_syntax.specs.Spelling.{lexeme, AreTokensOf};
ghost use Rattle.lrc_syntax.specs.Faults.{may_stand, IsTerminal, AreTerminals, IsBadText};
ghost use Rattle.lrc_syntax.specs.declared.fault.ProductionFault.TheVariants as variant;

use crate::fault::ProductionFault;
use crate::part::{Lexeme, Part};
use lrc_base::limits::TEXT_LIMIT;
use lrc_base::{List, NameText};
use lrc_lex::{LexFault, Token, TokenClass, token_laws, tokens};
use std::alloc::Global;

/// Whether a pattern may hold a token: a word but for `true` and `false`, or a symbol.
fn may_stand(class: TokenClass, bytes: &[u8]) -> bool
    ensures { result ≡ may_stand class bytes.now }
{
    match class {
        TokenClass::Word => bytes != b"true".as_slice() && bytes != b"false".as_slice(),
        TokenClass::Symbol => true,
        TokenClass::Natural
        | TokenClass::Negative
        | TokenClass::NameLit
        | TokenClass::Text
        | TokenClass::Path => false,
    }
}

/// The token, where a pattern may hold it.
fn terminal(text: &[u8], token: Token) -> Option<Lexeme>
    requires { IsTokenOf text.now token }
    ensures { MatchOption result (may_stand (lexeme text.now token).class (lexeme text.now token).bytes ≡ false) (λ x. (x ≡ lexeme text.now token) × IsTerminal x) }
{
    let bytes = &text[token.at as usize..token.end as usize];
    if !may_stand(token.class, bytes) {
        return None;
    }
    match NameText::of(bytes) {
        Some(bytes) => Some(Lexeme {
            class: token.class,
            bytes,
        }),
        None => unreachable!(),
    }
}

/// The tokens of a text in a pattern.
///
/// # Errors
///
/// `BadPattern` where the text has a lexical fault, or a token that no pattern may hold. Want of memory.
pub fn text_parts(alloc: Global, text: &[u8]) -> Result<List<Part>, ProductionFault>
    requires { length text.now ≤ TEXT_LIMIT }
    ensures tokens { IfOk result (λ parts. AreTokensOf text.now parts) }
    ensures terminals { IfOk result (λ parts. AreTerminals parts) }
    ensures right { IfOk result (λ _. ¬ IsBadText text.now) }
    ensures bad { IfErr result (λ fault. fault ≢ variant.Memory → (fault ≡ variant.BadPattern) × IsBadText text.now) }
{
    let found = match tokens(alloc, text) {
        Ok(found) => found,
        Err(LexFault::Memory) => return Err(ProductionFault::Memory),
        Err(_) => return Err(ProductionFault::BadPattern),
    };
    token_laws();
    let mut parts = List::new(alloc);
    for token in found.as_slice() {
        let Some(lexeme) = terminal(text, *token) else {
            return Err(ProductionFault::BadPattern);
        };
        parts.push(Part::Token(lexeme))?;
    }
    Ok(parts)
}
