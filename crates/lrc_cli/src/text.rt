ghost use Rattle.std.specs.Prelude.{◌≡◌, ◌++◌, OnOk, IfOk, decimal, true, false};
ghost use Rattle.lrc_meaning.specs.Text.{line_feed};
ghost use Rattle.lrc_meaning.specs.Editing.{has_values};
ghost use Rattle.lrc_run.specs.Counts.{counts_of, counts_text};
ghost use Rattle.lrc_run.specs.Lines.{reply_of};
ghost use Rattle.lrc_cli.specs.Printed.{goes_on, line_counts, numbered_lines, block, blocks, final_line, final_lines, own_final, one_session, all_sessions};

use itoa::Buffer;
use lrc_base::{Bytes, List, Memory};
use lrc_run::{Line, Out, Outcome};
use lrc_store::Handle;
use lrc_threads::Outs;
use std::alloc::Global;

/// Appends a number in decimal.
pub(crate) fn push_number(text: &mut Vec<u8>, number: u64) -> Result<(), Memory>
    ensures { OnOk result (text.new.items ≡ text.old.items ++ decimal number) }
{
    let mut buffer = Buffer::new();
    text.extend_from_slice(buffer.format(number).as_bytes())?;
    Ok(())
}

/// Whether counts are printed at this outcome and behind it, if they were up to it.
fn goes_on(counted: bool, outcome: Outcome) -> bool
    ensures { result ≡ goes_on counted outcome }
{
    let stops = matches!(
        outcome,
        Outcome::TooDeep | Outcome::Full | Outcome::Unopened
    );
    counted && !stops
}

pub(crate) fn has_values(outcome: Outcome) -> bool
    ensures { result ≡ has_values (reply_of outcome) }
{
    matches!(outcome, Outcome::Values)
}

/// Appends ` | bodies=N cells=N`.
fn push_counts(text: &mut Vec<u8>, line: &Line) -> Result<(), Memory>
    ensures { OnOk result (text.new.items ≡ text.old.items ++ counts_text (counts_of line.now)) }
{
    text.extend_from_slice(b" | bodies=")?;
    push_number(text, line.bodies)?;
    text.extend_from_slice(b" cells=")?;
    push_number(text, u64::from(line.cells))?;
    Ok(())
}

/// Appends a line with its number, and with its counts where these are printed.
fn push_line(text: &mut Vec<u8>, number: usize, line: &Line, counted: bool) -> Result<(), Memory>
    ensures { OnOk result (text.new.items ≡ text.old.items ++ (decimal number ++ (line.now.body ++ (line_counts counted line.now ++ line_feed)))) }
{
    push_number(text, number as u64)?;
    text.extend_from_slice(line.body.as_slice())?;
    if counted && has_values(line.outcome) {
        push_counts(text, line)?;
    }
    text.extend_from_slice(b"\n")?;
    Ok(())
}

/// Appends the lines, numbered from 0 on; with counts, if they are wanted, up to the first outcome behind
/// which none are printed.
fn push_lines(text: &mut Vec<u8>, lines: &[Line], counted: bool) -> Result<(), Memory>
    ensures { OnOk result (text.new.items ≡ text.old.items ++ numbered_lines counted 0 lines.now) }
{
    let mut counted = counted;
    for (number, line) in lines.iter().enumerate() {
        push_line(text, number, line, counted)?;
        counted = goes_on(counted, line.outcome);
    }
    Ok(())
}

/// Appends the block of a session, by its number.
fn push_block(text: &mut Vec<u8>, number: u64, lines: &[Line], counted: bool) -> Result<(), Memory>
    ensures { OnOk result (text.new.items ≡ text.old.items ++ block counted number lines.now) }
{
    text.extend_from_slice(b"session ")?;
    push_number(text, number)?;
    text.extend_from_slice(b"\n")?;
    push_lines(text, lines, counted)
}

/// Appends the final of a session, by its number: that of a session, or `-`.
fn push_final(text: &mut Vec<u8>, number: u64, found: &Option<u32>) -> Result<(), Memory>
    ensures { OnOk result (text.new.items ≡ text.old.items ++ final_line number found.now) }
{
    text.extend_from_slice(b"final ")?;
    push_number(text, number)?;
    text.extend_from_slice(b" ")?;
    match found {
        Some(first) => push_number(text, u64::from(*first))?,
        None => text.extend_from_slice(b"-")?,
    }
    text.extend_from_slice(b"\n")?;
    Ok(())
}

/// Appends the blocks of sessions, numbered from 1 on.
fn push_blocks(text: &mut Vec<u8>, sessions: &[List<Line>]) -> Result<(), Memory>
    ensures { OnOk result (text.new.items ≡ text.old.items ++ blocks 1 sessions.now) }
{
    for (before, lines) in sessions.iter().enumerate() {
        push_block(text, before as u64 + 1, lines.as_slice(), false)?;
    }
    Ok(())
}

/// Appends the finals of sessions, numbered from 1 on.
fn push_finals(text: &mut Vec<u8>, finals: &[Option<u32>]) -> Result<(), Memory>
    ensures { OnOk result (text.new.items ≡ text.old.items ++ final_lines 1 finals.now) }
{
    for (before, found) in finals.iter().enumerate() {
        push_final(text, before as u64 + 1, found)?;
    }
    Ok(())
}

/// The text of a run of sessions, by their lines and finals.
pub fn sessions_text(alloc: Global, outs: &Outs) -> Result<Bytes, Memory>
    ensures { IfOk result (λ text. text ≡ all_sessions outs.now) }
{
    let mut text = Vec::new(alloc);
    push_blocks(&mut text, outs.sessions.as_slice())?;
    push_finals(&mut text, outs.finals.as_slice())?;
    Ok(Bytes::from_vec(text))
}

/// The final of the one session of a job: its own number, if it opened.
fn own_final(last: Option<Handle>) -> Option<u32>
    ensures { result ≡ own_final last }
{
    last.map(|_| 1)
}

/// The text of a run of one session with its counts.
pub fn counted_text(alloc: Global, out: &Out) -> Result<Bytes, Memory>
    ensures { IfOk result (λ text. text ≡ one_session out.now) }
{
    let mut text = Vec::new(alloc);
    push_block(&mut text, 1, out.lines.as_slice(), true)?;
    push_final(&mut text, 1, &own_final(out.last))?;
    Ok(Bytes::from_vec(text))
}
