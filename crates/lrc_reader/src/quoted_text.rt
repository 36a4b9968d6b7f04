//! A text in quotes, which is unquoted only once its bytes are wanted.

ghost use Rattle.std.specs.Prelude.{◌≡◌, ◌≤◌, length, IfOk};
ghost use Rattle.lrc_lex.specs.Quoted.{unquoted};

use lrc_base::{List, Memory};
use std::alloc::Global;
use std::marker::Model;

/// The spelling of a text in quotes. Contracts see it as the bytes that it stands for.
#[derive(Debug, Drop)]
pub struct QuotedText<'a> {
    spelling: &'a [u8],
}

impl<'a> Model for QuotedText<'a> {
    ghost use Rattle.std.specs.Prelude.{ℕ, ◌≤◌, List, length};
    ghost use Rattle.lrc_lex.specs.Quoted.{unquoted};

    ghost Value = { List ℕ };

    ghost view = { λ t. unquoted t.spelling.now };

    ghost invariant = { λ t. 1 ≤ length t.spelling.now };
}

impl<'a> QuotedText<'a> {
    /// The text of this spelling.
    pub fn of(spelling: &'a [u8]) -> QuotedText<'a>
        requires { 1 ≤ length spelling.now }
        ensures { result ≡ unquoted spelling.now }
    {
        QuotedText { spelling }
    }

    /// The bytes that it stands for. The error is want of memory.
    pub fn bytes(&self, alloc: Global) -> Result<List<u8>, Memory>
        ensures { IfOk result (λ bytes. bytes ≡ self.now) }
    {
        lrc_lex::unquoted(alloc, self.spelling)
    }
}
