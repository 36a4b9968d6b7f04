ghost use Rattle.std.specs.Prelude.{◌≡◌, suc, true, List, OnOk};
ghost use Rattle.lrc_base.specs.declared.grammar.Production.{Production};
ghost use Rattle.lrc_meaning.specs.Tree.{node};
ghost use Rattle.lrc_meaning.specs.Text.{applied, production_name};
ghost use Rattle.lrc_store.specs.Cells.{CellTree, pair};
ghost use Rattle.lrc_store.specs.Standing.{Standing, IsKnown, meant};
ghost use Rattle.lrc_store.specs.Words.{Reads};
ghost use Rattle.lrc_code.specs.Decoding.{bytes_of_word, trees_in};
ghost use Rattle.lrc_unparse.specs.Styles.{pattern_in, text_of};
ghost use Rattle.lrc_unparse.specs.Printing.{IsShort, Puts, Prints, Begins, comma, handle_of, kid_texts, kids_size, node_size, tree_sizes};
ghost use Rattle.lrc_unparse.specs.declared.printer.Part.TheVariants as a_part;
ghost use Rattle.lrc_unparse.specs.declared.styles.Style.{Style};

use crate::patterns::print_pieces;
use crate::printer::{Part, Printer};
use crate::styles::{Style, has_pattern, mark_of, name_of};
use lrc_base::{Memory, Production};
use lrc_store::{Cell, Handle, Store};

/// The tags of the truth values.
const FALSE: u32 = 1;

const TRUE: u32 = 2;

/// The tag of a word of a name before the words behind it.
const NAME: u32 = 3;

/// The tag of a node of production 0; those of the others follow it.
const NODE: u32 = 256;

/// What stands before a child of a node.
fn comma_before(first: bool) -> &'static [u8]
    ensures { result.now ≡ comma first }
{
    if first { b"" } else { b", " }
}

/// Prints the bytes of the word that the handle stands for.
fn print_word<St: Store>(store: &mut St, word: Handle, printer: &mut Printer) -> Result<(), Memory>
    requires known { IsKnown (St.state store.old) word.0 }
    requires short { IsShort printer.old }
    ensures printed { OnOk result (Puts printer.old (bytes_of_word (meant (St.state store.old) word.0)) printer.new) }
    ensures reads { Reads (St.state store.old) (St.state store.new) }
    ensures same_meaning { St.meaning store.new ≡ St.meaning store.old }
{
    match store.look(word) {
        Cell::Number(word) => printer.put_word(word),
        Cell::Nil | Cell::Pair(..) => Ok(()),
    }
}

/// Begins to print a name from its first word on that is not yet printed.
fn print_words<St: Store>(
    store: &mut St,
    words: Handle,
    printer: &mut Printer,
) -> Result<(), Memory>
    requires known { IsKnown (St.state store.old) words.0 }
    requires short { IsShort printer.old }
    ensures printed { (style : Style) (prods : List Production) → OnOk result (Begins style prods (St.state store.old) (St.state store.new) (a_part.Words words) printer.old printer.new) }
    ensures reads { Reads (St.state store.old) (St.state store.new) }
    ensures same_meaning { St.meaning store.new ≡ St.meaning store.old }
{
    match store.look(words) {
        Cell::Nil | Cell::Number(_) => Ok(()),
        Cell::Pair(_, word, rest) => {
            print_word(store, word, printer)?;
            printer.pending.push(Part::Words(rest))
        }
    }
}

/// Begins to print children and the closing bracket.
fn print_kids<St: Store>(
    store: &mut St,
    kids: Handle,
    first: bool,
    printer: &mut Printer,
) -> Result<(), Memory>
    requires known { IsKnown (St.state store.old) kids.0 }
    requires short { IsShort printer.old }
    ensures printed { (style : Style) (prods : List Production) → OnOk result (Begins style prods (St.state store.old) (St.state store.new) (a_part.Kids kids first) printer.old printer.new) }
    ensures reads { Reads (St.state store.old) (St.state store.new) }
    ensures same_meaning { St.meaning store.new ≡ St.meaning store.old }
{
    match store.look(kids) {
        Cell::Nil | Cell::Number(_) => printer.put(b")"),
        Cell::Pair(_, kid, rest) => {
            printer.put(comma_before(first))?;
            printer.pending.push(Part::Kids(rest, false))?;
            printer.pending.push(Part::Tree(kid))
        }
    }
}

/// Begins to print a node as its production's name and its children in brackets.
fn print_applied(
    prods: &[Production],
    production: u32,
    kids: Handle,
    printer: &mut Printer,
) -> Result<(), Memory>
    requires { IsShort printer.old }
    ensures { (s : Standing) (style : Style) → IsKnown s kids.0 → OnOk result (Prints style prods.now s (applied (production_name prods.now production) (kid_texts style prods.now (meant s kids.0))) (suc (kids_size (tree_sizes style prods.now (meant s kids.0)))) printer.old printer.new) }
{
    printer.put(name_of(prods, production))?;
    printer.put(b"(")?;
    printer.pending.push(Part::Kids(kids, true))
}

/// Begins to print a node of this production, with the list of its children.
fn print_node(
    prods: &[Production],
    style: Style,
    production: u32,
    kids: Handle,
    printer: &mut Printer,
) -> Result<(), Memory>
    requires { IsShort printer.old }
    ensures { (s : Standing) → IsKnown s kids.0 → OnOk result (Prints style prods.now s (text_of style prods.now (node production (trees_in (meant s kids.0)))) (suc (node_size (pattern_in style prods.now production) (tree_sizes style prods.now (meant s kids.0)))) printer.old printer.new) }
{
    if has_pattern(prods, production, style) {
        printer.pending.push(Part::Pieces {
            production,
            next: 0,
            kids,
        })
    } else {
        print_applied(prods, production, kids, printer)
    }
}

/// Begins to print a tree whose cell is a pair with this tag and this left side.
fn print_pair(
    prods: &[Production],
    style: Style,
    tree: Handle,
    tag: u32,
    left: Handle,
    printer: &mut Printer,
) -> Result<(), Memory>
    requires { IsShort printer.old }
    ensures { (s : Standing) (right : CellTree) → IsKnown s tree.0 → IsKnown s left.0 → meant s tree.0 ≡ pair tag (meant s left.0) right → OnOk result (Begins style prods.now s s (a_part.Tree tree) printer.old printer.new) }
{
    match tag {
        FALSE => printer.put(b"false"),
        TRUE => printer.put(b"true"),
        NAME => {
            printer.put(mark_of(style))?;
            printer.pending.push(Part::Words(tree))
        }
        _ => print_node(prods, style, tag.saturating_sub(NODE), left, printer),
    }
}

/// Begins to print a tree.
fn print_tree<St: Store>(
    store: &mut St,
    prods: &[Production],
    style: Style,
    tree: Handle,
    printer: &mut Printer,
) -> Result<(), Memory>
    requires known { IsKnown (St.state store.old) tree.0 }
    requires short { IsShort printer.old }
    ensures printed { OnOk result (Begins style prods.now (St.state store.old) (St.state store.new) (a_part.Tree tree) printer.old printer.new) }
    ensures reads { Reads (St.state store.old) (St.state store.new) }
    ensures same_meaning { St.meaning store.new ≡ St.meaning store.old }
{
    match store.look(tree) {
        Cell::Nil => printer.put(mark_of(style)),
        Cell::Number(number) => printer.put_number(number),
        Cell::Pair(tag, left, _) => print_pair(prods, style, tree, tag, left, printer),
    }
}

/// Begins to print a part: it puts some bytes of it, and opens the parts that are left of it.
pub(crate) fn print_part<St: Store>(
    store: &mut St,
    prods: &[Production],
    style: Style,
    part: Part,
    printer: &mut Printer,
) -> Result<(), Memory>
    requires known { IsKnown (St.state store.old) (handle_of part) }
    requires short { IsShort printer.old }
    ensures printed { OnOk result (Begins style prods.now (St.state store.old) (St.state store.new) part printer.old printer.new) }
    ensures reads { Reads (St.state store.old) (St.state store.new) }
    ensures same_meaning { St.meaning store.new ≡ St.meaning store.old }
{
    match part {
        Part::Tree(tree) => print_tree(store, prods, style, tree, printer),
        Part::Words(words) => print_words(store, words, printer),
        Part::Kids(kids, first) => print_kids(store, kids, first, printer),
        Part::Pieces {
            production,
            next,
            kids,
        } => print_pieces(store, prods, production, next, kids, printer),
    }
}
