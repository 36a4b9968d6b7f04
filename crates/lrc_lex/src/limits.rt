ghost use Rattle.std.specs.Prelude.{◌≡◌, take};
ghost use Rattle.lrc_lex.specs.Forms.{IsToken};
ghost use Rattle.lrc_lex.specs.Tokens.{fits, excess};

use crate::decimal::{NATURAL_LIMIT, NEGATIVE_LIMIT, value_of};
use crate::paths::are_steps_small;
use crate::{LexFault, TokenClass};
use lrc_base::limits::NAME_LIMIT;

/// Whether a token keeps the limit of its class.
pub fn fits(class: TokenClass, spelling: &[u8]) -> bool
    requires { IsToken class spelling.now }
    ensures { result ≡ fits class spelling.now }
{
    match class {
        TokenClass::Word => spelling.len() <= NAME_LIMIT,
        TokenClass::NameLit => spelling.len() <= 1 + NAME_LIMIT,
        TokenClass::Natural => value_of(spelling, NATURAL_LIMIT).is_some(),
        TokenClass::Negative => value_of(&spelling[1..], NEGATIVE_LIMIT).is_some(),
        TokenClass::Path => are_steps_small(spelling),
        TokenClass::Text | TokenClass::Symbol => true,
    }
}

/// The fault of a token that does not, at its first byte.
pub fn excess(class: TokenClass, at: u32) -> LexFault
    ensures { result ≡ excess class at }
{
    match class {
        TokenClass::Word | TokenClass::NameLit => LexFault::NameLong { at },
        _ => LexFault::NumberRange { at },
    }
}
