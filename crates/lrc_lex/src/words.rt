ghost use Rattle.std.specs.Prelude.{◌≡◌, ◌≤◌, length};
ghost use Rattle.std.specs.Str.{chars};
ghost use Rattle.lrc_lex.specs.Forms.{starts_word};
ghost use Rattle.lrc_lex.specs.Front.{run_len, word_len};

use unicode_ident::{is_xid_continue, is_xid_start};

fn starts_word(character: char) -> bool
    ensures { result ≡ starts_word character }
{
    is_xid_start(character) || character == '_'
}

/// The bytes of the longest run of characters that continue a word.
#[tactic(auto, using(crate::proofs::Utf8Lemmas::runs_to_start, crate::proofs::Utf8Lemmas::boundary_at))]
fn run_length(text: &str) -> usize
    ensures length { result ≡ run_len (chars text.now) }
    ensures within { result ≤ length text.now }
{
    let mut at = 0;
    while let Some(character) = text[at..].chars().next() {
        if !is_xid_continue(character) {
            break;
        }
        at += character.len_utf8();
    }
    at
}

/// The bytes of the longest word at the front; 0 where no word stands there.
pub fn word_length(text: &str) -> usize
    ensures length { result ≡ word_len (chars text.now) }
    ensures within { result ≤ length text.now }
{
    let Some(first) = text.chars().next() else {
        return 0;
    };
    if !starts_word(first) {
        return 0;
    }
    let width = first.len_utf8();
    width + run_length(&text[width..])
}
