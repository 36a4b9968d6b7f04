ghost use Rattle.std.specs.Prelude as list;
ghost use Rattle.std.specs.Prelude.{◌≡◌, ◌+◌, ◌+ℤ◌, ◌++◌, [], ◌∷◌, cond, IfOk, flat_map};
ghost use Rattle.std.specs.Int.{int_wrap, w64};
ghost use Rattle.lrc_meaning.specs.Editing.{has_values};
ghost use Rattle.lrc_run.specs.Lines.{reply_of};
ghost use Rattle.lrc_run.specs.declared.reply.Line as run;
ghost use Rattle.lrc_cli.specs.declared.summary.Summary as sum;
ghost use Rattle.lrc_cli.specs.Printed.{IsSumOf, lines_of, summary_body};

use crate::text::{has_values, push_number};
use itoa::Buffer;
use lrc_base::{AllocError, Bytes, List, Memory};
use lrc_run::Line;
use lrc_threads::Outs;
use std::alloc::Global;

/// What is summed up of lines.
#[derive(Debug, Clone, Copy, Drop)]
pub struct Summary {
    pub replies: u64,
    pub refused: u64,
    /// The sum of their first numbers, which wraps.
    pub sum: i64,
}

/// A sum; one that does not fit is of more lines than memory holds.
fn sum_of(left: u64, right: u64) -> Result<u64, Memory>
    ensures { IfOk result (λ sum. sum ≡ left + right) }
{
    left.checked_add(right).ok_or(AllocError)
}

/// A sum that wraps.
fn wrapped_sum(left: i64, right: i64) -> i64
    ensures { result ≡ int_wrap w64 (left +ℤ right) }
{
    left.wrapping_add(right)
}

/// How many refusals a line tells.
fn refusals(line: &Line) -> u64
    ensures { result ≡ cond (has_values (reply_of line.now.outcome)) 0 1 }
{
    if has_values(line.outcome) { 0 } else { 1 }
}

impl Summary {
    /// With a line more.
    fn with(self, line: &Line) -> Result<Summary, Memory>
        ensures { (lines : list.List run.Line) → IsSumOf lines self → IfOk result (IsSumOf (lines ++ line.now ∷ [])) }
    {
        let replies = sum_of(self.replies, 1)?;
        let refused = sum_of(self.refused, refusals(line))?;
        let sum = wrapped_sum(self.sum, line.first);
        Ok(Summary {
            replies,
            refused,
            sum,
        })
    }

    /// With the lines of a session more.
    fn with_all(self, lines: &[Line]) -> Result<Summary, Memory>
        ensures { (before : list.List run.Line) → IsSumOf before self → IfOk result (IsSumOf (before ++ lines.now)) }
    {
        let mut summary = self;
        'lines: for line in lines {
            summary = summary.with(line)?;
        }
        Ok(summary)
    }
}

/// What is summed up of the lines of all sessions.
fn summary_of(sessions: &[List<Line>]) -> Result<Summary, Memory>
    ensures { IfOk result (IsSumOf (flat_map (λ (lines : list.List run.Line). lines) sessions.now)) }
{
    let mut summary = Summary {
        replies: 0,
        refused: 0,
        sum: 0,
    };
    'sessions: for lines in sessions {
        summary = summary.with_all(lines.as_slice())?;
    }
    Ok(summary)
}

/// `replies N`, `refused N` and `sum N`, a line each, of the lines of all sessions.
pub fn summary_text(alloc: Global, outs: &Outs) -> Result<Bytes, Memory>
    ensures { IfOk result (λ text. (summary : sum.Summary) × IsSumOf (lines_of outs.now) summary × (text ≡ summary_body summary)) }
{
    let summary = summary_of(outs.sessions.as_slice())?;
    let mut buffer = Buffer::new();
    let mut text = Vec::from_slice(alloc, b"replies ")?;
    push_number(&mut text, summary.replies)?;
    text.extend_from_slice(b"\nrefused ")?;
    push_number(&mut text, summary.refused)?;
    text.extend_from_slice(b"\nsum ")?;
    text.extend_from_slice(buffer.format(summary.sum).as_bytes())?;
    text.extend_from_slice(b"\n")?;
    Ok(Bytes::from_vec(text))
}
