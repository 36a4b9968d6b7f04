ghost use Rattle.std.specs.Prelude.{◌≡◌, Some, IsSome};
ghost use Rattle.lrc_meaning.specs.Tree.{Tree, kind_of};
ghost use Rattle.lrc_store.specs.Standing.{Stands};
ghost use Rattle.lrc_store.specs.Words.{Reads};
ghost use Rattle.lrc_code.specs.Forms.{tree_cell};

use crate::shapes::{Shape, shape_of};
use lrc_base::{Kind, Production};
use lrc_store::{Handle, Store};

/// The kind of the tree, whose production is among these, by one look: a leaf's own, and of a node the
/// sort on its production's left side.
pub fn kind_of<St: Store>(store: &mut St, prods: &[Production], tree: Handle) -> Kind
    requires { (t : Tree) × Stands (St.state store.old) tree.0 (tree_cell t) × IsSome (kind_of prods.now t) }
    ensures kind { (t : Tree) → Stands (St.state store.old) tree.0 (tree_cell t) → kind_of prods.now t ≡ Some result }
    ensures reads { Reads (St.state store.old) (St.state store.new) }
    ensures same_meaning { St.meaning store.new ≡ St.meaning store.old }
{
    match shape_of(store, tree) {
        Shape::Leaf(kind) => kind,
        Shape::Node(production, _) => Kind::Sort(prods[production as usize].left),
    }
}
