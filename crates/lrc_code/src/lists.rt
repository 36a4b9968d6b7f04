ghost use Rattle.std.specs.Prelude.{◌≡◌};
ghost use Rattle.lrc_store.specs.Cells.{CellTree};
ghost use Rattle.lrc_store.specs.Standing.{IsKnown, meant};
ghost use Rattle.lrc_store.specs.Words.{Reads};
ghost use Rattle.lrc_code.specs.Forms.{more_cell};
ghost use Rattle.lrc_code.specs.Building.{Builds};
ghost use Rattle.lrc_code.specs.Reading.{HasItem};

use crate::pairs::{put_pair, sides_of};
use lrc_store::{Full, Handle, Store};

/// The tag of an item before a list.
const LIST: u32 = 4;

/// A handle of the list with this item before the rest.
///
/// # Errors
///
/// Full, only where all rows are used and a part of the list is in none.
pub fn put_list<St: Store>(store: &mut St, first: Handle, rest: Handle) -> Result<Handle, Full>
    requires first_known { IsKnown (St.state store.old) first.0 }
    requires rest_known { IsKnown (St.state store.old) rest.0 }
    ensures builds { Builds (St.state store.old) (St.state store.new) (more_cell (meant (St.state store.old) first.0) (meant (St.state store.old) rest.0)) result }
    ensures same_meaning { St.meaning store.new ≡ St.meaning store.old }
{
    put_pair(store, LIST, first, rest)
}

/// The item of this number, from 0, of the list that the handle stands for.
pub fn item_of<St: Store>(store: &mut St, list: Handle, i: u32) -> Handle
    requires known { IsKnown (St.state store.old) list.0 }
    requires item { (item : CellTree) × HasItem (meant (St.state store.old) list.0) i item }
    ensures known { IsKnown (St.state store.new) result.0 }
    ensures item { HasItem (meant (St.state store.old) list.0) i (meant (St.state store.new) result.0) }
    ensures reads { Reads (St.state store.old) (St.state store.new) }
    ensures same_meaning { St.meaning store.new ≡ St.meaning store.old }
{
    let mut rest = list;
    for _passed in 0..i {
        rest = sides_of(store, rest).right;
    }
    sides_of(store, rest).left
}
