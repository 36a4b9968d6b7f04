ghost use Rattle.std.specs.Prelude.{◌≡◌, suc, List, OnOk, IfSome, option_map, slice_get};
ghost use Rattle.lrc_base.specs.declared.grammar.Production.{Production};
ghost use Rattle.lrc_base.specs.declared.grammar.Piece.TheVariants as a_piece;
ghost use Rattle.lrc_meaning.specs.Text.{piece_text};
ghost use Rattle.lrc_store.specs.Standing.{IsKnown, meant};
ghost use Rattle.lrc_store.specs.Words.{Reads};
ghost use Rattle.lrc_code.specs.Decoding.{items_in};
ghost use Rattle.lrc_unparse.specs.Printing.{IsShort, Prints, Begins, kid_texts, piece_size, tree_sizes};
ghost use Rattle.lrc_unparse.specs.declared.printer.Part.TheVariants as a_part;
ghost use Rattle.lrc_unparse.specs.declared.styles.Style.{Style};

use crate::printer::{Part, Printer};
use crate::styles::pieces;
use lrc_base::{Memory, Piece, Production};
use lrc_store::{Cell, Handle, Store};

/// The child of this number of a list; None where there is no such child.
fn kid_at<St: Store>(store: &mut St, kids: Handle, number: u32) -> Option<Handle>
    requires { IsKnown (St.state store.old) kids.0 }
    ensures kid { option_map (λ (kid : Handle). meant (St.state store.new) kid.0) result ≡ slice_get (items_in (meant (St.state store.old) kids.0)) number }
    ensures known { IfSome result (λ kid. IsKnown (St.state store.new) kid.0) }
    ensures reads { Reads (St.state store.old) (St.state store.new) }
    ensures same_meaning { St.meaning store.new ≡ St.meaning store.old }
{
    let mut left = kids;
    for _passed in 0..number {
        let Cell::Pair(_, _, rest) = store.look(left) else {
            return None;
        };
        left = rest;
    }
    match store.look(left) {
        Cell::Nil | Cell::Number(_) => None,
        Cell::Pair(_, kid, _) => Some(kid),
    }
}

/// Begins to print the child of this number; nothing where there is none.
fn print_kid<St: Store>(
    store: &mut St,
    kids: Handle,
    number: u32,
    printer: &mut Printer,
) -> Result<(), Memory>
    requires known { IsKnown (St.state store.old) kids.0 }
    requires short { IsShort printer.old }
    ensures printed { (style : Style) (prods : List Production) → OnOk result (Prints style prods (St.state store.new) (piece_text prods (kid_texts style prods (meant (St.state store.old) kids.0)) (a_piece.Kid number)) (suc (piece_size (tree_sizes style prods (meant (St.state store.old) kids.0)) (a_piece.Kid number))) printer.old printer.new) }
    ensures reads { Reads (St.state store.old) (St.state store.new) }
    ensures same_meaning { St.meaning store.new ≡ St.meaning store.old }
{
    match kid_at(store, kids, number) {
        Some(kid) => printer.pending.push(Part::Tree(kid)),
        None => Ok(()),
    }
}

/// Begins to print the pieces of the production's pattern from the one of this number on, with these
/// children.
pub(crate) fn print_pieces<St: Store>(
    store: &mut St,
    prods: &[Production],
    production: u32,
    next: usize,
    kids: Handle,
    printer: &mut Printer,
) -> Result<(), Memory>
    requires known { IsKnown (St.state store.old) kids.0 }
    requires short { IsShort printer.old }
    ensures printed { (style : Style) → OnOk result (Begins style prods.now (St.state store.old) (St.state store.new) (a_part.Pieces production next kids) printer.old printer.new) }
    ensures reads { Reads (St.state store.old) (St.state store.new) }
    ensures same_meaning { St.meaning store.new ≡ St.meaning store.old }
{
    let Some(piece) = pieces(prods, production).get(next) else {
        return Ok(());
    };
    let rest = Part::Pieces {
        production,
        next: next + 1,
        kids,
    };
    match piece {
        Piece::Text(bytes) => {
            printer.put(bytes.as_slice())?;
            printer.pending.push(rest)
        }
        Piece::Kid(number) => {
            printer.pending.push(rest)?;
            print_kid(store, kids, *number, printer)
        }
    }
}
