ghost use Rattle.std.specs.Prelude.{◌≡◌, IsTrue};
ghost use Rattle.lrc_meaning.specs.Tree.{Tree, Trees, replaced, replaced_among};
ghost use Rattle.lrc_store.specs.Standing.{Stands, IsKnown, meant};
ghost use Rattle.lrc_store.specs.Words.{Tells};
ghost use Rattle.lrc_code.specs.Forms.{tree_cell, are_productions_below, are_kids_below};
ghost use Rattle.lrc_code.specs.Building.{Builds};
ghost use Rattle.lrc_places.specs.Places.{kids_cell};

use crate::shapes::{Shape, items_of, shape_of};
use lrc_code::{put_list, put_node};
use lrc_store::{Full, Handle, Store};

/// A known handle, of whose cell all parts are in the store for good.
fn told<St: Store>(store: &St, handle: Handle) -> Handle
    requires { IsKnown (St.state store.now) handle.0 }
    ensures { Tells (St.state store.now) result.0 (meant (St.state store.now) handle.0) }
{
    let _ = store.published();
    handle
}

/// A handle of the tree with another part at the place; of the tree as it is where there is no such
/// place. Its productions' numbers are below 65,280.
///
/// New nodes are made on the path, from below, and the rest is shared. The time is linear in the path
/// and the numbers of its steps, of which none goes past the last child.
///
/// # Errors
///
/// Full, only where all rows are used and a part of the new tree is in none.
#[cycle(replacing)]
pub fn replaced<St: Store>(
    store: &mut St,
    tree: Handle,
    steps: &[u8],
    part: Handle,
) -> Result<Handle, Full>
    requires tree { (t : Tree) × Stands (St.state store.old) tree.0 (tree_cell t) × IsTrue (are_productions_below 65280 t) }
    requires part { (u : Tree) × Stands (St.state store.old) part.0 (tree_cell u) }
    ensures builds { (t u : Tree) → Stands (St.state store.old) tree.0 (tree_cell t) → Stands (St.state store.old) part.0 (tree_cell u) → Builds (St.state store.old) (St.state store.new) (tree_cell (replaced t steps.now u)) result }
    ensures same_meaning { St.meaning store.new ≡ St.meaning store.old }
{
    let [step, rest @ ..] = steps else {
        return Ok(told(store, part));
    };
    let Shape::Node(production, kids) = shape_of(store, tree) else {
        return Ok(told(store, tree));
    };
    let kids = replaced_among(store, kids, *step, rest, part)?;
    put_node(store, production, kids)
}

/// A handle of the list of children with another part at the place below the child that the first step
/// names; of the list as it is where there is no such place.
#[cycle(replacing)]
fn replaced_among<St: Store>(
    store: &mut St,
    kids: Handle,
    step: u8,
    steps: &[u8],
    part: Handle,
) -> Result<Handle, Full>
    requires kids { (ts : Trees) × Stands (St.state store.old) kids.0 (kids_cell ts) × IsTrue (are_kids_below 65280 ts) }
    requires part { (u : Tree) × Stands (St.state store.old) part.0 (tree_cell u) }
    ensures builds { (ts : Trees) (u : Tree) → Stands (St.state store.old) kids.0 (kids_cell ts) → Stands (St.state store.old) part.0 (tree_cell u) → Builds (St.state store.old) (St.state store.new) (kids_cell (replaced_among ts step steps.now u)) result }
    ensures same_meaning { St.meaning store.new ≡ St.meaning store.old }
{
    let Some(items) = items_of(store, kids) else {
        return Ok(told(store, kids));
    };
    if step == 0 {
        let kid = replaced(store, items.first, steps, part)?;
        put_list(store, kid, items.rest)
    } else {
        let rest = replaced_among(store, items.rest, step - 1, steps, part)?;
        put_list(store, items.first, rest)
    }
}
