//! The text of a path, which is read only once the path is wanted.

ghost use Rattle.std.specs.Prelude.{◌≡◌, IsTrue, IfOk};
ghost use Rattle.lrc_lex.specs.Tokens.{are_steps_small};
ghost use Rattle.lrc_reader.specs.Place.{place};

use lrc_base::{Memory, Path};
use std::alloc::Global;
use std::marker::Model;

/// The text of a path, whose steps are at most 255. Contracts see it as the place that it names.
#[derive(Debug, Drop)]
pub struct PathText<'a> {
    text: &'a [u8],
}

impl<'a> Model for PathText<'a> {
    ghost use Rattle.std.specs.Prelude.{IsTrue};
    ghost use Rattle.lrc_base.specs.declared.job.Path.{Path};
    ghost use Rattle.lrc_lex.specs.Tokens.{are_steps_small};
    ghost use Rattle.lrc_reader.specs.Place.{place};

    ghost Value = { Path };

    ghost view = { λ p. place p.text.now };

    ghost invariant = { λ p. IsTrue (are_steps_small p.text.now) };
}

impl<'a> PathText<'a> {
    /// The path of this text.
    pub fn of(text: &'a [u8]) -> PathText<'a>
        requires { IsTrue (are_steps_small text.now) }
        ensures { result ≡ place text.now }
    {
        PathText { text }
    }

    /// The place that the text names. The error is want of memory.
    pub fn path(&self, alloc: Global) -> Result<Path, Memory>
        ensures { IfOk result (λ path. path ≡ self.now) }
    {
        lrc_lex::path(alloc, self.text)
    }
}
