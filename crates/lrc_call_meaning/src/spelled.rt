ghost use Rattle.std.specs.Prelude.{ℕ, ◌<◌, Contains};
ghost use Rattle.lrc_meaning.specs.Tree.{tree};
ghost use Rattle.lrc_meaning.specs.Expression.{expression};
ghost use Rattle.lrc_call_meaning.specs.Spelled.{IsSpelledName, IsSpelled, AreLiteralsSpelled};

use lrc_base::{Expr, NameText, Term, TermItem};

/// A name is not empty, and its bytes are from 1 to 255: its type says so.
pub fn name_is_spelled(name: &NameText)
    ensures { IsSpelledName name.now }
{
    are_below_256(name.bytes());
}

/// Bytes are below 256.
fn are_below_256(bytes: &[u8])
    ensures { (byte : ℕ) → Contains bytes.now byte → byte < 256 }
{}

/// The names of a term are spelled, whatever the term: their types say so. This looks at each of them,
/// and changes nothing.
pub fn term_is_spelled(term: &Term)
    ensures { IsSpelled (tree term.now) }
{
    for item in term.items().as_slice() {
        if let TermItem::Name(name) = item {
            name_is_spelled(name);
        }
    }
}

/// The literal names of an expression are spelled, whatever the expression: their types say so. This
/// looks at each of them, and changes nothing.
pub fn literals_are_spelled(expr: &Expr)
    ensures { AreLiteralsSpelled (expression expr.now) }
{
    match expr {
        Expr::Int(_) => {}
        Expr::Bool(_) => {}
        Expr::Occ(_) => {}
        Expr::Leaf(_) => {}
        Expr::Name(name) => name_is_spelled(name),
        Expr::Op(_, left, right) => {
            literals_are_spelled(left.get());
            literals_are_spelled(right.get());
        }
        Expr::If(condition, chosen, other) => {
            literals_are_spelled(condition.get());
            literals_are_spelled(chosen.get());
            literals_are_spelled(other.get());
        }
        Expr::Make(_, parts) => {
            for part in parts.as_slice() {
                literals_are_spelled(part);
            }
        }
    }
}
