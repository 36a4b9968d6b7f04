ghost use Rattle.std.specs.Prelude.{◌≡◌, ◌≤◌, nat_le, length, IsTrue, IfOk};
ghost use Rattle.std.specs.Char.{is_ascii_digit};
ghost use Rattle.std.specs.List.{take_while};
ghost use Rattle.lrc_lex.specs.Decimal.{natural_value};
ghost use Rattle.lrc_lex.specs.Forms.{continues_path, path_len};
ghost use Rattle.lrc_lex.specs.Tokens.{path_steps, are_steps_small};

use crate::decimal::value_of;
use crate::scan::{begins_with_digit, digits_length};
use lrc_base::{List, Memory, Path};
use std::alloc::Global;

/// The greatest step of a path.
const STEP_LIMIT: u64 = 255;

/// Whether the byte continues a path: a digit, or a `/` with a digit directly behind it.
fn continues_path(byte: u8, rest: &[u8]) -> bool
    ensures { result ≡ continues_path byte rest.now }
{
    byte.is_ascii_digit() || (byte == b'/' && begins_with_digit(rest))
}

/// The length of the longest front in which each byte continues a path.
#[tactic(auto, using(crate::proofs::PathLemmas::path_len_at))]
pub fn path_length(text: &[u8]) -> usize
    ensures length { result ≡ path_len text.now }
    ensures within { result ≤ length text.now }
{
    for at in 0..text.len() {
        if !continues_path(text[at], &text[at + 1..]) {
            return at;
        }
    }
    text.len()
}

/// Whether the value of the digits at the front is at most 255.
#[tactic(auto, using(crate::proofs::Runs::passes_in_run))]
fn is_step_small(text: &[u8]) -> bool
    ensures { result ≡ nat_le (natural_value (take_while is_ascii_digit text.now)) 255 }
{
    value_of(&text[..digits_length(text)], STEP_LIMIT).is_some()
}

/// Whether each step of a path is at most 255.
#[tactic(auto, using(crate::proofs::PathLemmas::path_steps_at))]
pub fn are_steps_small(text: &[u8]) -> bool
    ensures { result ≡ are_steps_small text.now }
{
    for at in 0..text.len() {
        let rest = &text[at + 1..];
        if text[at] == b'/' && begins_with_digit(rest) && !is_step_small(rest) {
            return false;
        }
    }
    true
}

/// The value of the digits at the front.
#[tactic(auto, using(crate::proofs::Runs::passes_in_run))]
fn step_value(text: &[u8]) -> u8
    requires { natural_value (take_while is_ascii_digit text.now) ≤ 255 }
    ensures { result ≡ natural_value (take_while is_ascii_digit text.now) }
{
    value_of(&text[..digits_length(text)], STEP_LIMIT).unwrap() as u8
}

/// The place that a path's text names: its steps, in order. The error is want of memory.
#[tactic(auto, using(crate::proofs::PathLemmas::path_steps_at))]
pub fn path(alloc: Global, text: &[u8]) -> Result<Path, Memory>
    requires { IsTrue (are_steps_small text.now) }
    ensures { IfOk result (λ path. path.steps ≡ path_steps text.now) }
{
    let mut steps = List::new(alloc);
    for at in 0..text.len() {
        let rest = &text[at + 1..];
        if text[at] == b'/' && begins_with_digit(rest) {
            steps.push(step_value(rest))?;
        }
    }
    Ok(Path { steps })
}
