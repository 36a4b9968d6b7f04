ghost use Rattle.std.specs.Prelude.{◌≡◌, ◌<◌, ◌≤◌, ◌*◌, ℕ, length, IsTrue, OnOk};
ghost use Rattle.lrc_base.specs.declared.item.TermItem.TheVariants as i;
ghost use Rattle.lrc_base.specs.declared.limits.TheConstants.{CHILD_LIMIT};
ghost use Rattle.lrc_base.specs.Terms.{wanted};
ghost use Rattle.lrc_meaning.specs.Tree.{tree, tree_height};
ghost use Rattle.lrc_store.specs.Cells.{CellTree};
ghost use Rattle.lrc_store.specs.Standing.{IsKnown, meant};
ghost use Rattle.lrc_store.specs.Words.{Reads};
ghost use Rattle.lrc_code.specs.Forms.{list_cell, truth_cell, node_cell, tree_cell, item_cell, are_productions_below, are_kids_few};
ghost use Rattle.lrc_code.specs.Stack.{last_of, all_but, AreKnown, meant_each};
ghost use Rattle.lrc_code.specs.Building.{Builds};
ghost use Rattle.lrc_code.specs.Reading.{HasProduction, HasKid};

use crate::handles::Handles;
use crate::lists::{item_of, put_list};
use crate::names::put_name;
use crate::pairs::{nil_in, put_number, put_pair, sides_of};
use lrc_base::{Term, TermItem};
use lrc_store::{Full, Handle, Store};

/// The tags of the truth values.
const FALSE: u32 = 1;

const TRUE: u32 = 2;

/// The tag of a node of production 0; those of the others follow it.
const NODE: u32 = 256;

/// A handle of the truth value.
///
/// # Errors
///
/// Full, only where all rows are used and the truth value is in none.
pub fn put_bool<St: Store>(store: &mut St, b: bool) -> Result<Handle, Full>
    ensures builds { Builds (St.state store.old) (St.state store.new) (truth_cell b) result }
    ensures same_meaning { St.meaning store.new ≡ St.meaning store.old }
{
    let nil = nil_in(store);
    if b {
        put_pair(store, TRUE, nil, nil)
    } else {
        put_pair(store, FALSE, nil, nil)
    }
}

/// A handle of the node of this production, below 65,280, with the list of its children.
///
/// # Errors
///
/// Full, only where all rows are used and a part of the node is in none.
pub fn put_node<St: Store>(store: &mut St, production: u32, kids: Handle) -> Result<Handle, Full>
    requires below { production < 65280 }
    requires kids_known { IsKnown (St.state store.old) kids.0 }
    ensures builds { Builds (St.state store.old) (St.state store.new) (node_cell production (meant (St.state store.old) kids.0)) result }
    ensures same_meaning { St.meaning store.new ≡ St.meaning store.old }
{
    let nil = nil_in(store);
    put_pair(store, NODE + production, kids, nil)
}

/// A handle of the list of the last so many handles, which are taken off.
///
/// # Errors
///
/// Full, only where all rows are used and a part of the list is in none.
fn put_last<St: Store>(store: &mut St, stack: &mut Handles, count: u32) -> Result<Handle, Full>
    requires enough { count ≤ length stack.old.held }
    requires known { AreKnown (St.state store.old) stack.old.held }
    ensures builds { Builds (St.state store.old) (St.state store.new) (list_cell (last_of count (meant_each (St.state store.old) stack.old.held))) result }
    ensures rest { OnOk result (stack.new.held ≡ all_but count stack.old.held) }
    ensures room { stack.new.room ≡ stack.old.room }
    ensures same_meaning { St.meaning store.new ≡ St.meaning store.old }
{
    let mut list = nil_in(store);
    for _taken in 0..count {
        let last = stack.take_last();
        list = put_list(store, last, list)?;
    }
    Ok(list)
}

/// A handle of the leaf, or of the node over the last handles, which are taken off.
///
/// # Errors
///
/// Full, only where all rows are used and a part of the item is in none.
fn put_item<St: Store>(store: &mut St, stack: &mut Handles, item: &TermItem) -> Result<Handle, Full>
    requires enough { wanted item.now ≤ length stack.old.held }
    requires below { (production kids : ℕ) → item.now ≡ i.Node production kids → production < 65280 }
    requires known { AreKnown (St.state store.old) stack.old.held }
    ensures builds { Builds (St.state store.old) (St.state store.new) (item_cell item.now (meant_each (St.state store.old) stack.old.held)) result }
    ensures rest { OnOk result (stack.new.held ≡ all_but (wanted item.now) stack.old.held) }
    ensures room { stack.new.room ≡ stack.old.room }
    ensures same_meaning { St.meaning store.new ≡ St.meaning store.old }
{
    match item {
        TermItem::Int(value) => put_number(store, *value),
        TermItem::Bool(b) => put_bool(store, *b),
        TermItem::Name(name) => put_name(store, name),
        TermItem::Node(production, count) => {
            let kids = put_last(store, stack, *count)?;
            put_node(store, *production, kids)
        }
    }
}

/// A handle of the term, whose productions' numbers are below 65,280, and whose nodes have at most
/// `CHILD_LIMIT` children each. The stack, which is cleared first, has room for 8 handles for each of the
/// term's levels, and for one at least. It takes no memory, and the time is linear in the term.
///
/// # Errors
///
/// Full, only where all rows are used and a part of the term is in none.
pub fn put_term<St: Store>(store: &mut St, term: &Term, stack: &mut Handles) -> Result<Handle, Full>
    requires below { IsTrue (are_productions_below 65280 (tree term.now)) }
    requires few { IsTrue (are_kids_few CHILD_LIMIT (tree term.now)) }
    requires room { 8 * tree_height (tree term.now) ≤ stack.old.room }
    requires some_room { 1 ≤ stack.old.room }
    ensures builds { Builds (St.state store.old) (St.state store.new) (tree_cell (tree term.now)) result }
    ensures room { stack.new.room ≡ stack.old.room }
    ensures same_meaning { St.meaning store.new ≡ St.meaning store.old }
{
    stack.clear();
    for item in term.items().as_slice() {
        let handle = put_item(store, stack, item)?;
        stack.push(handle);
    }
    Ok(stack.take_last())
}

/// The number of the production of the node that the handle stands for.
pub fn production_of<St: Store>(store: &mut St, tree: Handle) -> u32
    requires known { IsKnown (St.state store.old) tree.0 }
    requires node { (production : ℕ) × HasProduction (meant (St.state store.old) tree.0) production }
    ensures production { HasProduction (meant (St.state store.old) tree.0) result }
    ensures reads { Reads (St.state store.old) (St.state store.new) }
    ensures same_meaning { St.meaning store.new ≡ St.meaning store.old }
{
    sides_of(store, tree).tag - NODE
}

/// The child of this number, from 0, of the node that the handle stands for.
pub fn kid_of<St: Store>(store: &mut St, tree: Handle, i: u32) -> Handle
    requires known { IsKnown (St.state store.old) tree.0 }
    requires kid { (kid : CellTree) × HasKid (meant (St.state store.old) tree.0) i kid }
    ensures known { IsKnown (St.state store.new) result.0 }
    ensures kid { HasKid (meant (St.state store.old) tree.0) i (meant (St.state store.new) result.0) }
    ensures reads { Reads (St.state store.old) (St.state store.new) }
    ensures same_meaning { St.meaning store.new ≡ St.meaning store.old }
{
    let kids = sides_of(store, tree).left;
    item_of(store, kids, i)
}
