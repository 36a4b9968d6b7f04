ghost use Rattle.std.specs.Prelude.{◌≡◌, List, map};
ghost use Rattle.lrc_store.specs.Cells.{CellTree};
ghost use Rattle.lrc_code.specs.Forms.{list_cell};
ghost use Rattle.lrc_code.specs.Building.{Builds};
ghost use Rattle.lrc_frames.specs.Writing.{HoldsCell, AreHeld, AreHeldEach};

use lrc_base::List;
use lrc_code::put_list;
use lrc_eval::{Val, empty_list, value_handle};
use lrc_store::{Full, Handle, Store};

/// A handle of the cell that a value of a frame holds, be it a value's or a binding's.
///
/// # Errors
///
/// Full, only where all rows are used and a part of the cell is in none.
fn cell_handle<St: Store>(store: &mut St, value: Val) -> Result<Handle, Full>
    requires { (cell : CellTree) × HoldsCell (St.state store.old) value cell }
    ensures builds { (cell : CellTree) → HoldsCell (St.state store.old) value cell → Builds (St.state store.old) (St.state store.new) cell result }
    ensures same_meaning { St.meaning store.new ≡ St.meaning store.old }
{
    if let Val::Ref(handle) = value {
        let _ = store.published();
        return Ok(handle);
    }
    value_handle(store, value)
}

/// A handle of the list of what stands at these numbers of a frame, made from the last to the first.
///
/// # Errors
///
/// Full, only where all rows are used and a part of the list is in none.
pub(crate) fn put_items<St: Store>(
    store: &mut St,
    frame: &[Val],
    numbers: &[u32],
) -> Result<Handle, Full>
    requires { (cells : List CellTree) × AreHeld (St.state store.old) frame.now numbers.now cells }
    ensures builds { (cells : List CellTree) → AreHeld (St.state store.old) frame.now numbers.now cells → Builds (St.state store.old) (St.state store.new) (list_cell cells) result }
    ensures same_meaning { St.meaning store.new ≡ St.meaning store.old }
{
    let mut list = empty_list(store);
    for done in 0..numbers.len() {
        let number = numbers[numbers.len() - 1 - done];
        let item = cell_handle(store, frame[number as usize])?;
        list = put_list(store, item, list)?;
    }
    Ok(list)
}

/// A handle of the list of bindings, each the list of what stands at its numbers of a frame, made from
/// the last to the first.
///
/// # Errors
///
/// Full, only where all rows are used and a part of the list is in none.
pub(crate) fn put_bindings<St: Store>(
    store: &mut St,
    frame: &[Val],
    lists: &[List<u32>],
) -> Result<Handle, Full>
    requires { (rows : List (List CellTree)) × AreHeldEach (St.state store.old) frame.now lists.now rows }
    ensures builds { (rows : List (List CellTree)) → AreHeldEach (St.state store.old) frame.now lists.now rows → Builds (St.state store.old) (St.state store.new) (list_cell (map list_cell rows)) result }
    ensures same_meaning { St.meaning store.new ≡ St.meaning store.old }
{
    let mut list = empty_list(store);
    for done in 0..lists.len() {
        let numbers = &lists[lists.len() - 1 - done];
        let binding = put_items(store, frame, numbers.as_slice())?;
        list = put_list(store, binding, list)?;
    }
    Ok(list)
}
