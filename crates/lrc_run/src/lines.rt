ghost use Rattle.std.specs.Prelude.{◌≡◌, false, IfOk};
ghost use Rattle.lrc_meaning.specs.Grammar.{Grammar};
ghost use Rattle.lrc_run.specs.Lines.{IsLine, reply_of, fixed_text, has_own_text};

use crate::reply::{Line, Outcome};
use lrc_base::{Bytes, Memory};
use std::alloc::Global;

/// The body of a reply of a kind whose replies all have the same.
fn fixed_text(outcome: Outcome) -> &'static [u8]
    ensures { result.now ≡ fixed_text outcome }
{
    match outcome {
        Outcome::Values | Outcome::Shown => b"",
        Outcome::BadPath => b" badpath",
        Outcome::WrongSort => b" wrongsort",
        Outcome::TooDeep => b" toodeep",
        Outcome::Full => b" full",
        Outcome::Unopened => b" unopened",
        Outcome::Forgot => b" forgot",
    }
}

/// The line of a reply of a kind whose replies all have the same text.
pub(crate) fn fixed_line(alloc: Global, outcome: Outcome) -> Result<Line, Memory>
    requires { has_own_text outcome ≡ false }
    ensures { (g : Grammar) → IfOk result (λ line. IsLine g (reply_of outcome) line) }
{
    Ok(Line {
        outcome,
        first: 0,
        body: Bytes::from_slice(alloc, fixed_text(outcome))?,
        bodies: 0,
        cells: 0,
    })
}
