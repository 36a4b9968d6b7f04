ghost use Rattle.std.specs.Prelude.{◌≡◌, ◌≤◌, ◌*◌, Some, IsTrue, length, All};
ghost use Rattle.lrc_base.specs.declared.grammar.Kind.{Kind};
ghost use Rattle.lrc_base.specs.declared.limits.TheConstants.{CHILD_LIMIT};
ghost use Rattle.lrc_meaning.specs.Tree.{Tree, tree, fits, tree_height, at_place, replaced};
ghost use Rattle.lrc_meaning.specs.Limits.{IsFew};
ghost use Rattle.lrc_store.specs.Standing.{Stands};
ghost use Rattle.lrc_code.specs.Forms.{tree_cell, are_productions_below, are_kids_few};
ghost use Rattle.lrc_code.specs.Building.{Builds};
ghost use Rattle.lrc_places.specs.Replacing.{Replaces};

use crate::kinds::kind_of;
use crate::places::part_at;
use crate::replacing::replaced;
use lrc_base::{Kind, Path, Production, Term};
use lrc_code::{Handles, put_term};
use lrc_store::{Full, Handle, Store};

/// A term, with its kind, and the place where it is to be put.
#[derive(Debug, Drop)]
pub struct Put<'a> {
    pub path: &'a Path,
    pub kind: Kind,
    pub term: &'a Term,
}

/// Why nothing was put.
#[derive(Debug, Clone, Copy, PartialEq, Eq)]
pub enum ReplaceFault {
    /// The path names no place of the tree.
    BadPath = 1,
    /// The part at the place is of another kind.
    WrongSort = 2,
    /// All rows are used, and a part of the new tree is in none.
    Full = 3,
    /// The term is higher than the limit.
    TooHigh = 4,
}

impl From<Full> for ReplaceFault {
    ghost use Rattle.lrc_places.specs.declared.putting.ReplaceFault.TheVariants.{Full};

    ghost from_gives = { λ _ fault. fault ≡ Full };

    fn from(_full: Full) -> ReplaceFault {
        ReplaceFault::Full
    }
}

/// A handle of the tree with the term at the place, which is there. All productions' numbers are below
/// 65,280, and the stack has room for the term.
fn put_at<St: Store>(
    store: &mut St,
    whole: Handle,
    put: &Put,
    stack: &mut Handles,
) -> Result<Handle, Full>
    requires whole { (t : Tree) × Stands (St.state store.old) whole.0 (tree_cell t) × IsTrue (are_productions_below 65280 t) }
    requires term { IsTrue (are_productions_below 65280 (tree put.now.term.now)) }
    requires few { IsTrue (are_kids_few CHILD_LIMIT (tree put.now.term.now)) }
    requires room { 8 * tree_height (tree put.now.term.now) ≤ stack.old.room }
    requires some_room { 1 ≤ stack.old.room }
    ensures builds { (t old : Tree) → Stands (St.state store.old) whole.0 (tree_cell t) → at_place t put.now.path.now.steps ≡ Some old → Builds (St.state store.old) (St.state store.new) (tree_cell (replaced t put.now.path.now.steps (tree put.now.term.now))) result }
    ensures room { stack.new.room ≡ stack.old.room }
    ensures same_meaning { St.meaning store.new ≡ St.meaning store.old }
{
    let term = put_term(store, put.term, stack)?;
    replaced(store, whole, put.path.steps.as_slice(), term)
}

/// A handle of the tree with the term at the place, where a part of the term's kind stands, and the term
/// is no higher than the limit.
///
/// The place, the kind of what stands there and the height are looked up before anything is put, so that
/// the store is only read where they are wrong. The time is linear in the term, the path and the numbers
/// of its steps, of which none goes past the last child. It takes no memory: the stack has room for 8
/// handles for each level of the limit, and for one at least.
///
/// # Errors
///
/// `BadPath` where the path names no place, `WrongSort` where the part at the place is of another
/// kind, `TooHigh` where it is of that kind and the term is higher than the limit, and `Full` only where
/// all rows are used and a part of the new tree is in none.
pub fn replace<St: Store>(
    store: &mut St,
    prods: &[Production],
    whole: Handle,
    put: &Put,
    limit: u32,
    stack: &mut Handles,
) -> Result<Handle, ReplaceFault>
    requires few { length prods.now ≤ 65280 }
    requires parts { All IsFew prods.now }
    requires whole { (t : Tree) × (kind : Kind) × IsTrue (fits prods.now t kind) × Stands (St.state store.old) whole.0 (tree_cell t) }
    requires term { IsTrue (fits prods.now (tree put.now.term.now) put.now.kind) }
    requires room { 8 * limit ≤ stack.old.room }
    requires some_room { 1 ≤ stack.old.room }
    ensures replaces { (t : Tree) (kind : Kind) → IsTrue (fits prods.now t kind) → Stands (St.state store.old) whole.0 (tree_cell t) → Replaces prods.now (St.state store.old) (St.state store.new) t put.now.path.now.steps (tree put.now.term.now) put.now.kind limit result }
    ensures room { stack.new.room ≡ stack.old.room }
    ensures same_meaning { St.meaning store.new ≡ St.meaning store.old }
{
    let part = part_at(store, whole, put.path.steps.as_slice()).ok_or(ReplaceFault::BadPath)?;
    if kind_of(store, prods, part) != put.kind {
        return Err(ReplaceFault::WrongSort);
    }
    if limit < put.term.height() {
        return Err(ReplaceFault::TooHigh);
    }
    Ok(put_at(store, whole, put, stack)?)
}
