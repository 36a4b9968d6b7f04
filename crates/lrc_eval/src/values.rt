ghost use Rattle.std.specs.Prelude.{◌≡◌};
ghost use Rattle.lrc_meaning.specs.Tree.{Tree};
ghost use Rattle.lrc_store.specs.Cells.{nil, number};
ghost use Rattle.lrc_store.specs.Standing.{IsKnown, Stands, meant};
ghost use Rattle.lrc_store.specs.Words.{Reads, Tells};
ghost use Rattle.lrc_code.specs.Forms.{tree_cell};
ghost use Rattle.lrc_code.specs.Building.{Builds};
ghost use Rattle.lrc_eval.specs.Values.{Means};

use lrc_code::put_bool;
use lrc_store::{Cell, Full, Handle, Store};

/// The tags of the truth values.
const FALSE: u32 = 1;

const TRUE: u32 = 2;

/// A value while a visit runs.
#[derive(Debug, Clone, Copy, PartialEq, Eq)]
pub enum Val {
    Int(i64),
    Bool(bool),
    /// A name or a tree, by a handle of its cell.
    Ref(Handle),
    /// No value yet.
    Unset,
}

/// A known handle, of whose cell all parts are in the store for good.
fn told<St: Store>(store: &St, handle: Handle) -> Handle
    requires { IsKnown (St.state store.now) handle.0 }
    ensures { Tells (St.state store.now) result.0 (meant (St.state store.now) handle.0) }
{
    let _ = store.published();
    handle
}

/// The handle of the empty list, which is known in every store.
pub fn empty_list<St: Store>(store: &St) -> Handle
    ensures { Tells (St.state store.now) result.0 nil }
{
    let _ = store.published();
    Handle::NIL
}

/// A handle of a number's cell.
fn number_handle<St: Store>(store: &mut St, value: i64) -> Result<Handle, Full>
    ensures builds { Builds (St.state store.old) (St.state store.new) (number value) result }
    ensures same_meaning { St.meaning store.new ≡ St.meaning store.old }
{
    store.int(value)
}

/// A handle of the cell of the value, which is set.
///
/// # Errors
///
/// Full, only where all rows are used and a part of the cell is in none.
pub fn value_handle<St: Store>(store: &mut St, value: Val) -> Result<Handle, Full>
    requires { (t : Tree) × Means (St.state store.old) value t }
    ensures builds { (t : Tree) → Means (St.state store.old) value t → Builds (St.state store.old) (St.state store.new) (tree_cell t) result }
    ensures same_meaning { St.meaning store.new ≡ St.meaning store.old }
{
    match value {
        Val::Int(number) => number_handle(store, number),
        Val::Bool(b) => put_bool(store, b),
        Val::Ref(handle) => Ok(told(store, handle)),
        Val::Unset => unreachable!(),
    }
}

/// The value that a tree's cell stands for, by one look at it.
pub fn value_of_handle<St: Store>(store: &mut St, handle: Handle) -> Val
    requires { (t : Tree) × Stands (St.state store.old) handle.0 (tree_cell t) }
    ensures means { (t : Tree) → Stands (St.state store.old) handle.0 (tree_cell t) → Means (St.state store.new) result t }
    ensures reads { Reads (St.state store.old) (St.state store.new) }
    ensures same_meaning { St.meaning store.new ≡ St.meaning store.old }
{
    match store.look(handle) {
        Cell::Number(number) => Val::Int(number),
        Cell::Pair(FALSE, _, _) => Val::Bool(false),
        Cell::Pair(TRUE, _, _) => Val::Bool(true),
        Cell::Nil | Cell::Pair(_, _, _) => Val::Ref(handle),
    }
}
