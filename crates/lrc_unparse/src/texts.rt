ghost use Rattle.std.specs.Prelude.{◌≡◌, IfOk};
ghost use Rattle.lrc_meaning.specs.Tree.{Tree};
ghost use Rattle.lrc_meaning.specs.Text.{value_text, unparsed, limited};
ghost use Rattle.lrc_store.specs.Standing.{Stands, IsKnown};
ghost use Rattle.lrc_store.specs.Words.{Reads};
ghost use Rattle.lrc_code.specs.Forms.{tree_cell};
ghost use Rattle.lrc_call_meaning.specs.Spelled.{IsSpelled};
ghost use Rattle.lrc_unparse.specs.Styles.{text_of};

use crate::parts::print_part;
use crate::printer::printer_of;
use crate::styles::Style;
use lrc_base::limits::PRINT_LIMIT;
use lrc_base::{Bytes, Memory, Production};
use lrc_grammar::Grammar;
use lrc_store::{Handle, Store};
use std::alloc::Global;

/// The text of a tree in a style, or `<long>` where it is too long.
fn printed<St: Store>(
    alloc: Global,
    store: &mut St,
    prods: &[Production],
    style: Style,
    tree: Handle,
) -> Result<Bytes, Memory>
    requires { IsKnown (St.state store.old) tree.0 }
    ensures text { (t : Tree) → IsSpelled t → Stands (St.state store.old) tree.0 (tree_cell t) → IfOk result (λ text. text ≡ limited (text_of style prods.now t)) }
    ensures reads { Reads (St.state store.old) (St.state store.new) }
    ensures same_meaning { St.meaning store.new ≡ St.meaning store.old }
{
    let mut printer = printer_of(alloc, tree)?;
    while printer.text.len() <= PRINT_LIMIT {
        let Some(part) = printer.pending.pop() else {
            return Ok(Bytes::from_vec(printer.text));
        };
        print_part(store, prods, style, part, &mut printer)?;
    }
    Bytes::from_slice(alloc, b"<long>")
}

/// The text of a value: a number in decimal, a truth value, a name behind a `'`, or a node as its
/// production's name and its children's texts in brackets; `<long>` in place of a text of more than
/// 65,536 bytes.
///
/// The handle is known, and stands for a value whose names are not empty and have no byte 0. No more
/// than 65,537 bytes of a text are made. What is still to be printed is kept in a list, so that the
/// stack does not grow with the value.
///
/// # Errors
///
/// Want of memory.
pub fn value_text<St: Store>(
    alloc: Global,
    store: &mut St,
    grammar: &Grammar,
    value: Handle,
) -> Result<Bytes, Memory>
    requires { IsKnown (St.state store.old) value.0 }
    ensures text { (v : Tree) → IsSpelled v → Stands (St.state store.old) value.0 (tree_cell v) → IfOk result (λ text. text ≡ limited (value_text grammar.now.prods v)) }
    ensures reads { Reads (St.state store.old) (St.state store.new) }
    ensures same_meaning { St.meaning store.new ≡ St.meaning store.old }
{
    printed(alloc, store, grammar.prods.as_slice(), Style::Value, value)
}

/// The text of a tree: a node by the pattern of its production, piece by piece, a child as often as it
/// is named; where there is no pattern, as its production's name and its children's texts in brackets;
/// a number in decimal, a truth value, and a name as it is; `<long>` in place of a text of more than
/// 65,536 bytes.
///
/// The handle is known, and stands for a tree whose names are not empty and have no byte 0. No more
/// than 65,537 bytes of a text are made. What is still to be printed is kept in a list, so that the
/// stack does not grow with the tree. Nothing is claimed of the time where patterns give no bytes.
///
/// # Errors
///
/// Want of memory.
pub fn unparse<St: Store>(
    alloc: Global,
    store: &mut St,
    grammar: &Grammar,
    tree: Handle,
) -> Result<Bytes, Memory>
    requires { IsKnown (St.state store.old) tree.0 }
    ensures text { (t : Tree) → IsSpelled t → Stands (St.state store.old) tree.0 (tree_cell t) → IfOk result (λ text. text ≡ limited (unparsed grammar.now.prods t)) }
    ensures reads { Reads (St.state store.old) (St.state store.new) }
    ensures same_meaning { St.meaning store.new ≡ St.meaning store.old }
{
    printed(alloc, store, grammar.prods.as_slice(), Style::Tree, tree)
}
