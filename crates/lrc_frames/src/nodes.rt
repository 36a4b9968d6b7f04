ghost use Rattle.std.specs.Prelude.{◌≡◌};
ghost use Rattle.lrc_meaning.specs.Tree.{Tree, Trees, kind_of};
ghost use Rattle.lrc_visit_meaning.specs.Visits.{is_of_kind, are_of_kinds};
ghost use Rattle.lrc_store.specs.Cells.{CellTree, pair};
ghost use Rattle.lrc_store.specs.Standing.{Stands};
ghost use Rattle.lrc_store.specs.Words.{Reads};
ghost use Rattle.lrc_code.specs.Forms.{list_cell, tree_cell, kid_cells};
ghost use Rattle.lrc_frames.specs.Nodes.{HasNode, left_of};

use crate::lists::front_of;
use lrc_base::{Kid, Kind, Production};
use lrc_grammar::same_kind;
use lrc_store::{Cell, Handle, Store};
use sqlite_items::at;

/// The tag of a word of a name before the words behind it; those of the truth values are below it.
const NAME: u32 = 3;

/// The tag of a node of production 0; those of the others follow it.
const NODE: u32 = 256;

/// A node of a production that is there, and the list of its children.
#[derive(Debug, Clone, Copy, PartialEq, Eq)]
pub(crate) struct Node {
    pub production: u32,
    pub kids: Handle,
}

/// The node that a tree is; none where it is a leaf, or its production is not there.
pub(crate) fn node_of<St: Store>(store: &mut St, prods: &[Production], tree: Handle) -> Option<Node>
    requires { (t : Tree) × Stands (St.state store.old) tree.0 (tree_cell t) }
    ensures node { (t : Tree) → Stands (St.state store.old) tree.0 (tree_cell t) → HasNode (St.state store.new) prods.now t result }
    ensures reads { Reads (St.state store.old) (St.state store.new) }
    ensures same_meaning { St.meaning store.new ≡ St.meaning store.old }
{
    let Cell::Pair(tag, kids, _) = store.look(tree) else {
        return None;
    };
    if tag < NODE || (tag - NODE) as usize >= prods.len() {
        return None;
    }
    Some(Node {
        production: tag - NODE,
        kids,
    })
}

/// The kind of the trees of a production; none where the production is not there.
fn left_of(prods: &[Production], production: u32) -> Option<Kind>
    ensures { result ≡ left_of prods.now production }
{
    match at(prods, production as usize) {
        Some(found) => Some(Kind::Sort(found.left)),
        None => None,
    }
}

/// The kind of a tree whose cell is a pair of this tag.
fn kind_by_tag(prods: &[Production], tag: u32) -> Option<Kind>
    ensures { (t : Tree) (left right : CellTree) → tree_cell t ≡ pair tag left right → result ≡ kind_of prods.now t }
{
    if tag < NAME {
        Some(Kind::Bool)
    } else if tag < NODE {
        Some(Kind::Name)
    } else {
        left_of(prods, tag - NODE)
    }
}

/// The kind of a tree, by one look at it; none where its production is not there.
fn kind_of<St: Store>(store: &mut St, prods: &[Production], tree: Handle) -> Option<Kind>
    requires { (t : Tree) × Stands (St.state store.old) tree.0 (tree_cell t) }
    ensures kind { (t : Tree) → Stands (St.state store.old) tree.0 (tree_cell t) → result ≡ kind_of prods.now t }
    ensures reads { Reads (St.state store.old) (St.state store.new) }
    ensures same_meaning { St.meaning store.new ≡ St.meaning store.old }
{
    match store.look(tree) {
        Cell::Nil => Some(Kind::Name),
        Cell::Number(_) => Some(Kind::Int),
        Cell::Pair(tag, _, _) => kind_by_tag(prods, tag),
    }
}

/// Whether a tree is a leaf or a node of this kind.
pub(crate) fn is_of_kind<St: Store>(
    store: &mut St,
    prods: &[Production],
    tree: Handle,
    kind: Kind,
) -> bool
    requires { (t : Tree) × Stands (St.state store.old) tree.0 (tree_cell t) }
    ensures is { (t : Tree) → Stands (St.state store.old) tree.0 (tree_cell t) → result ≡ is_of_kind prods.now t kind }
    ensures reads { Reads (St.state store.old) (St.state store.new) }
    ensures same_meaning { St.meaning store.new ≡ St.meaning store.old }
{
    match kind_of(store, prods, tree) {
        Some(found) => same_kind(found, kind),
        None => false,
    }
}

/// Whether the trees of a list are as many as the children that are declared, and of their kinds.
pub(crate) fn are_of_kinds<St: Store>(
    store: &mut St,
    prods: &[Production],
    kids: &[Kid],
    list: Handle,
) -> bool
    requires { (ts : Trees) × Stands (St.state store.old) list.0 (list_cell (kid_cells ts)) }
    ensures are { (ts : Trees) → Stands (St.state store.old) list.0 (list_cell (kid_cells ts)) → result ≡ are_of_kinds prods.now ts kids.now }
    ensures reads { Reads (St.state store.old) (St.state store.new) }
    ensures same_meaning { St.meaning store.new ≡ St.meaning store.old }
{
    let mut rest = list;
    'kids: for kid in kids {
        let Some(front) = front_of(store, rest) else {
            return false;
        };
        if !is_of_kind(store, prods, front.item, kid.kind) {
            return false;
        }
        rest = front.rest;
    }
    front_of(store, rest).is_none()
}
