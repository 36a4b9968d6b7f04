ghost use Rattle.std.specs.Prelude.{◌≡◌, ◌≤◌, length, IfOk};
ghost use Rattle.lrc_lex.specs.Quoted.{unquoted};

use lrc_base::{List, Memory};
use std::alloc::Global;

/// The bytes that a text in quotes stands for: those between the quotes, each `\` left out that
/// stands before `"` or `\`. The error is want of memory.
#[tactic(auto, using(crate::proofs::TextLemmas::unquoted_at, crate::proofs::TextLemmas::unquoted_end))]
pub fn unquoted(alloc: Global, text: &[u8]) -> Result<List<u8>, Memory>
    requires { 1 ≤ length text.now }
    ensures { IfOk result (λ bytes. bytes ≡ unquoted text.now) }
{
    let mut bytes = List::new(alloc);
    let mut behind_backslash = false;
    for at in 1..text.len() {
        let byte = text[at];
        if behind_backslash {
            bytes.push(byte)?;
            behind_backslash = false;
        } else if byte == b'"' {
            return Ok(bytes);
        } else if byte == b'\\' {
            behind_backslash = true;
        } else {
            bytes.push(byte)?;
        }
    }
    Ok(bytes)
}
