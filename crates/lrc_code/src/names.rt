ghost use Rattle.std.specs.Prelude.{◌≡◌, ◌≤◌, ◌++◌, length, replicate, take};
ghost use Rattle.lrc_code.specs.Forms.{word, name_cell};
ghost use Rattle.lrc_code.specs.Building.{Builds};

use crate::pairs::{nil_in, put_number, put_pair};
use lrc_base::NameText;
use lrc_store::{Full, Handle, Store};

/// The tag of a word of a name before the words behind it.
const NAME: u32 = 3;

/// How many bytes of a name are in a word.
const WORD: usize = 8;

/// The bytes, with zeros behind them.
#[tactic(auto, using(crate::proofs::Words::zeros_behind))]
fn padded(bytes: &[u8]) -> [u8; WORD]
    requires { length bytes.now ≤ 8 }
    ensures { result ≡ take 8 (bytes.now ++ replicate 8 0) }
{
    let mut padded = [0; WORD];
    padded[..bytes.len()].copy_from_slice(bytes);
    padded
}

/// The number whose bytes, least first, are these, padded with zeros.
#[tactic(auto, unfolding(crate::specs::Forms::word))]
fn word_of(bytes: &[u8]) -> i64
    requires { length bytes.now ≤ 8 }
    ensures { result ≡ word bytes.now }
{
    i64::from_le_bytes(padded(bytes))
}

/// A handle of the name: its bytes in words of eight.
///
/// # Errors
///
/// Full, only where all rows are used and a part of the name is in none.
pub fn put_name<St: Store>(store: &mut St, name: &NameText) -> Result<Handle, Full>
    ensures builds { Builds (St.state store.old) (St.state store.new) (name_cell name.now) result }
    ensures same_meaning { St.meaning store.new ≡ St.meaning store.old }
{
    let bytes = name.bytes();
    let words = bytes.len().div_ceil(WORD);
    let mut rest = nil_in(store);
    for done in 0..words {
        let from = WORD * (words - 1 - done);
        let to = bytes.len().min(from + WORD);
        let word = put_number(store, word_of(&bytes[from..to]))?;
        rest = put_pair(store, NAME, word, rest)?;
    }
    Ok(rest)
}
