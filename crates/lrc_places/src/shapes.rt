ghost use Rattle.std.specs.Prelude.{◌≡◌};
ghost use Rattle.lrc_meaning.specs.Tree.{Tree, Trees};
ghost use Rattle.lrc_store.specs.Cells.{CellTree, pair};
ghost use Rattle.lrc_store.specs.Standing.{Standing, Stands, IsKnown, meant};
ghost use Rattle.lrc_store.specs.Words.{Reads};
ghost use Rattle.lrc_code.specs.Forms.{tree_cell};
ghost use Rattle.lrc_places.specs.Places.{kids_cell, IsOfShape, ShowsFirst};

use lrc_base::Kind;
use lrc_store::{Cell, Handle, Store};

/// The tags of the truth values.
const FALSE: u32 = 1;

const TRUE: u32 = 2;

/// The tag of a node of production 0; those of the others follow it.
const NODE: u32 = 256;

/// The outermost form of a tree.
#[derive(Debug, Clone, Copy, PartialEq, Eq)]
pub(crate) enum Shape {
    /// A leaf of this kind, which is no sort.
    Leaf(Kind),
    /// A node of this production, with the list of its children.
    Node(u32, Handle),
}

/// The first item of a list, and the list of the others.
#[derive(Debug, Clone, Copy, PartialEq, Eq)]
pub(crate) struct Items {
    pub first: Handle,
    pub rest: Handle,
}

/// The shape of a tree whose cell is a pair with this tag and this left side.
fn shape_of_pair(tag: u32, left: Handle) -> Shape
    ensures { (s : Standing) (t : Tree) (right : CellTree) → IsKnown s left.0 → tree_cell t ≡ pair tag (meant s left.0) right → IsOfShape s t result }
{
    if tag >= NODE {
        Shape::Node(tag - NODE, left)
    } else if tag == FALSE || tag == TRUE {
        Shape::Leaf(Kind::Bool)
    } else {
        Shape::Leaf(Kind::Name)
    }
}

/// The shape of the tree that the handle stands for, by one look.
pub(crate) fn shape_of<St: Store>(store: &mut St, tree: Handle) -> Shape
    requires { (t : Tree) × Stands (St.state store.old) tree.0 (tree_cell t) }
    ensures shape { (t : Tree) → Stands (St.state store.old) tree.0 (tree_cell t) → IsOfShape (St.state store.new) t result }
    ensures reads { Reads (St.state store.old) (St.state store.new) }
    ensures same_meaning { St.meaning store.new ≡ St.meaning store.old }
{
    match store.look(tree) {
        Cell::Nil => Shape::Leaf(Kind::Name),
        Cell::Number(_) => Shape::Leaf(Kind::Int),
        Cell::Pair(tag, left, _) => shape_of_pair(tag, left),
    }
}

/// The first child and the others of the list that the handle stands for, by one look; None of the
/// empty list.
pub(crate) fn items_of<St: Store>(store: &mut St, kids: Handle) -> Option<Items>
    requires { (ts : Trees) × Stands (St.state store.old) kids.0 (kids_cell ts) }
    ensures first { (ts : Trees) → Stands (St.state store.old) kids.0 (kids_cell ts) → ShowsFirst (St.state store.new) ts result }
    ensures reads { Reads (St.state store.old) (St.state store.new) }
    ensures same_meaning { St.meaning store.new ≡ St.meaning store.old }
{
    match store.look(kids) {
        Cell::Nil | Cell::Number(_) => None,
        Cell::Pair(_, first, rest) => Some(Items { first, rest }),
    }
}
