ghost use Rattle.std.specs.Prelude.{◌≡◌, ◌==◌, ◌+◌, ◌≤◌, false, length, drop, slice_index};
ghost use Rattle.std.specs.Char.{is_ascii_digit};
ghost use Rattle.std.specs.List.{prefix_len};
ghost use Rattle.std.specs.Str.{chars};
ghost use Rattle.lrc_lex.specs.Forms.{is_blank, is_symbol, is_escaped, is_plain, begins_with};
ghost use Rattle.lrc_lex.specs.Place.{comment_len};
ghost use Rattle.lrc_lex.specs.Front.{path_token_len, symbol_step, text_step, word_step, name_lit_step, word_len, next};

use crate::TokenClass;
use crate::paths::path_length;
use crate::words::word_length;

/// What stands at the front of a text: its end, something that separates tokens, the longest
/// token, or the place of a character that can't begin or continue one. All are in bytes.
#[derive(Debug, Clone, Copy)]
pub enum Step {
    End,
    Skip(usize),
    Take(TokenClass, usize),
    Refuse(usize),
}

/// The symbols of one character.
const SYMBOLS: &[u8] = b"{}():;,.=<+-*";

fn is_blank(byte: u8) -> bool
    ensures { result ≡ is_blank byte }
{
    byte == b' ' || byte == b'\t' || byte == b'\n' || byte == b'\r'
}

fn is_symbol(byte: u8) -> bool
    ensures { result ≡ is_symbol byte }
{
    SYMBOLS.contains(&byte)
}

fn is_escaped(byte: u8) -> bool
    ensures { result ≡ is_escaped byte }
{
    byte == b'"' || byte == b'\\'
}

fn is_plain(byte: u8) -> bool
    ensures { result ≡ is_plain byte }
{
    byte >= b' ' && byte <= b'~' && !is_escaped(byte)
}

/// Whether a digit stands at the front.
pub fn begins_with_digit(text: &[u8]) -> bool
    ensures { result ≡ begins_with is_ascii_digit text.now }
{
    !text.is_empty() && text[0].is_ascii_digit()
}

fn begins_with_equals(text: &[u8]) -> bool
    ensures { result ≡ begins_with (λ c. c == 61) text.now }
{
    !text.is_empty() && text[0] == b'='
}

/// The length of the longest run of digits.
pub fn digits_length(text: &[u8]) -> usize
    ensures length { result ≡ prefix_len is_ascii_digit text.now }
    ensures within { result ≤ length text.now }
{
    text.iter().take_while(|byte| byte.is_ascii_digit()).count()
}

/// The length of a comment, which ends before a line feed.
fn comment_length(text: &[u8]) -> usize
    ensures { result ≡ comment_len text.now }
{
    text.iter().take_while(|byte| **byte != b'\n').count()
}

/// The longest symbol, or negative number, that begins with a symbol's character.
fn symbol(first: u8, rest: &[u8]) -> Step
    ensures { result ≡ symbol_step first rest.now }
{
    if first == b'=' && begins_with_equals(rest) {
        Step::Take(TokenClass::Symbol, 2)
    } else if first == b'-' && begins_with_digit(rest) {
        Step::Take(TokenClass::Negative, 1 + digits_length(rest))
    } else {
        Step::Take(TokenClass::Symbol, 1)
    }
}

/// The length of the longest path, where `rest` follows its first `/`.
fn path_token_length(rest: &[u8]) -> usize
    ensures { result ≡ path_token_len rest.now }
{
    if begins_with_digit(rest) {
        1 + path_length(rest)
    } else {
        1
    }
}

/// The text in quotes whose `"` this follows.
#[tactic(auto, using(crate::proofs::TextLemmas::text_step_at, crate::proofs::TextLemmas::text_step_end))]
fn quoted(rest: &[u8]) -> Step
    ensures { result ≡ text_step false 1 rest.now }
{
    let mut behind_backslash = false;
    for at in 0..rest.len() {
        let byte = rest[at];
        if behind_backslash {
            if !is_escaped(byte) {
                return Step::Refuse(at + 1);
            }
            behind_backslash = false;
        } else if !is_plain(byte) {
            if byte == b'"' {
                return Step::Take(TokenClass::Text, at + 2);
            }
            if byte != b'\\' {
                return Step::Refuse(at + 1);
            }
            behind_backslash = true;
        }
    }
    Step::Refuse(rest.len() + 1)
}

/// A word of so many bytes, or none.
fn word(length: usize) -> Step
    ensures { result ≡ word_step length }
{
    if length == 0 {
        Step::Refuse(0)
    } else {
        Step::Take(TokenClass::Word, length)
    }
}

/// The word behind a `'`.
#[tactic(auto, using(crate::proofs::Utf8Lemmas::boundary_behind))]
fn name_lit(text: &str) -> Step
    requires some { 1 ≤ length text.now }
    requires ascii { slice_index text.now 0 ≡ 39 }
    ensures { result ≡ name_lit_step (word_len (chars (drop 1 text.now))) }
{
    let length = word_length(&text[1..]);
    if length == 0 {
        Step::Refuse(1)
    } else {
        Step::Take(TokenClass::NameLit, 1 + length)
    }
}

/// What stands at the front of the text.
#[tactic(auto, using(crate::proofs::NextLemmas::next_end, crate::proofs::NextLemmas::next_blank, crate::proofs::NextLemmas::next_comment, crate::proofs::NextLemmas::next_natural, crate::proofs::NextLemmas::next_path, crate::proofs::NextLemmas::next_symbol, crate::proofs::NextLemmas::next_quoted, crate::proofs::NextLemmas::next_name_lit, crate::proofs::NextLemmas::next_word))]
pub fn next(text: &str) -> Step
    ensures { result ≡ next text.now }
{
    let bytes = text.as_bytes();
    if bytes.is_empty() {
        return Step::End;
    }
    let first = bytes[0];
    if is_blank(first) {
        Step::Skip(1)
    } else if first == b'#' {
        Step::Skip(comment_length(bytes))
    } else if first.is_ascii_digit() {
        Step::Take(TokenClass::Natural, digits_length(bytes))
    } else if first == b'/' {
        Step::Take(TokenClass::Path, path_token_length(&bytes[1..]))
    } else if is_symbol(first) {
        symbol(first, &bytes[1..])
    } else if first == b'"' {
        quoted(&bytes[1..])
    } else if first == b'\'' {
        name_lit(text)
    } else {
        word(word_length(text))
    }
}
