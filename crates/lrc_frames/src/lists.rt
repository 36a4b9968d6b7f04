ghost use Rattle.std.specs.Prelude.{◌≡◌, List};
ghost use Rattle.lrc_store.specs.Cells.{CellTree};
ghost use Rattle.lrc_store.specs.Standing.{Stands};
ghost use Rattle.lrc_store.specs.Words.{Reads};
ghost use Rattle.lrc_code.specs.Forms.{list_cell};
ghost use Rattle.lrc_frames.specs.Lists.{HasFront};

use lrc_store::{Cell, Handle, Store};

/// The first item of a list, and the list behind it.
#[derive(Debug, Clone, Copy, PartialEq, Eq)]
pub(crate) struct Front {
    pub item: Handle,
    pub rest: Handle,
}

/// The front of the list that the handle stands for, by one look at it; none where it is empty.
pub(crate) fn front_of<St: Store>(store: &mut St, list: Handle) -> Option<Front>
    requires { (items : List CellTree) × Stands (St.state store.old) list.0 (list_cell items) }
    ensures front { (items : List CellTree) → Stands (St.state store.old) list.0 (list_cell items) → HasFront (St.state store.new) items result }
    ensures reads { Reads (St.state store.old) (St.state store.new) }
    ensures same_meaning { St.meaning store.new ≡ St.meaning store.old }
{
    match store.look(list) {
        Cell::Pair(_, item, rest) => Some(Front { item, rest }),
        Cell::Nil => None,
        Cell::Number(_) => unreachable!(),
    }
}
