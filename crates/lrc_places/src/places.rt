ghost use Rattle.std.specs.Prelude.{◌≡◌, slice_get};
ghost use Rattle.lrc_meaning.specs.Tree.{Tree, Trees, in_order, at_place};
ghost use Rattle.lrc_store.specs.Standing.{Stands};
ghost use Rattle.lrc_store.specs.Words.{Reads};
ghost use Rattle.lrc_code.specs.Forms.{tree_cell};
ghost use Rattle.lrc_places.specs.Places.{kids_cell, FindsPart};

use crate::shapes::{Shape, items_of, shape_of};
use lrc_store::{Handle, Store};

/// The child of this number, from 0, of the list that the handle stands for; None where there is no
/// such child.
fn kid_at<St: Store>(store: &mut St, kids: Handle, number: u8) -> Option<Handle>
    requires { (ts : Trees) × Stands (St.state store.old) kids.0 (kids_cell ts) }
    ensures kid { (ts : Trees) → Stands (St.state store.old) kids.0 (kids_cell ts) → FindsPart (St.state store.new) (slice_get (in_order ts) number) result }
    ensures reads { Reads (St.state store.old) (St.state store.new) }
    ensures same_meaning { St.meaning store.new ≡ St.meaning store.old }
{
    let mut items = items_of(store, kids)?;
    for _passed in 0..number {
        items = items_of(store, items.rest)?;
    }
    Some(items.first)
}

/// The part of the tree at the place; None exactly where there is no such place, as below a leaf.
///
/// The time is linear in the path and the numbers of its steps, of which none goes past the last child.
pub fn part_at<St: Store>(store: &mut St, tree: Handle, steps: &[u8]) -> Option<Handle>
    requires { (t : Tree) × Stands (St.state store.old) tree.0 (tree_cell t) }
    ensures part { (t : Tree) → Stands (St.state store.old) tree.0 (tree_cell t) → FindsPart (St.state store.new) (at_place t steps.now) result }
    ensures reads { Reads (St.state store.old) (St.state store.new) }
    ensures same_meaning { St.meaning store.new ≡ St.meaning store.old }
{
    let mut here = tree;
    for step in steps {
        let Shape::Node(_, kids) = shape_of(store, here) else {
            return None;
        };
        here = kid_at(store, kids, *step)?;
    }
    Some(here)
}
