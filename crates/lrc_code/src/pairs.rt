ghost use Rattle.std.specs.Prelude.{◌≡◌, ◌≤◌};
ghost use Rattle.lrc_store.specs.Cells.{CellTree, nil, number, pair};
ghost use Rattle.lrc_store.specs.Standing.{IsKnown, meant};
ghost use Rattle.lrc_store.specs.Words.{Tells, Reads};
ghost use Rattle.lrc_code.specs.Building.{Builds};
ghost use Rattle.lrc_code.specs.Reading.{IsNumber, IsPair, HasSides};

use lrc_store::{Cell, Full, Handle, Store};

/// The tag of a pair, and its sides.
#[derive(Debug, Clone, Copy, PartialEq, Eq)]
pub(crate) struct Sides {
    pub tag: u32,
    pub left: Handle,
    pub right: Handle,
}

/// The handle of nil, which is known in every store.
pub(crate) fn nil_in<St: Store>(store: &St) -> Handle
    ensures { Tells (St.state store.now) result.0 nil }
{
    let _ = store.published();
    Handle::NIL
}

/// A handle of the number.
pub(crate) fn put_number<St: Store>(store: &mut St, value: i64) -> Result<Handle, Full>
    ensures builds { Builds (St.state store.old) (St.state store.new) (number value) result }
    ensures same_meaning { St.meaning store.new ≡ St.meaning store.old }
{
    store.int(value)
}

/// A handle of the pair.
pub(crate) fn put_pair<St: Store>(
    store: &mut St,
    tag: u32,
    left: Handle,
    right: Handle,
) -> Result<Handle, Full>
    requires tag_from { 1 ≤ tag }
    requires tag_to { tag ≤ 65535 }
    requires left_known { IsKnown (St.state store.old) left.0 }
    requires right_known { IsKnown (St.state store.old) right.0 }
    ensures builds { Builds (St.state store.old) (St.state store.new) (pair tag (meant (St.state store.old) left.0) (meant (St.state store.old) right.0)) result }
    ensures same_meaning { St.meaning store.new ≡ St.meaning store.old }
{
    store.cell(tag, left, right)
}

/// The number that the handle stands for.
pub(crate) fn number_of<St: Store>(store: &mut St, handle: Handle) -> i64
    requires known { IsKnown (St.state store.old) handle.0 }
    requires number { IsNumber (meant (St.state store.old) handle.0) }
    ensures value { meant (St.state store.old) handle.0 ≡ number result }
    ensures reads { Reads (St.state store.old) (St.state store.new) }
    ensures same_meaning { St.meaning store.new ≡ St.meaning store.old }
{
    match store.look(handle) {
        Cell::Number(value) => value,
        Cell::Nil | Cell::Pair(..) => unreachable!(),
    }
}

/// The tag and the sides of the pair that the handle stands for.
pub(crate) fn sides_of<St: Store>(store: &mut St, handle: Handle) -> Sides
    requires known { IsKnown (St.state store.old) handle.0 }
    requires pair { IsPair (meant (St.state store.old) handle.0) }
    ensures sides { HasSides (St.state store.new) (meant (St.state store.old) handle.0) result }
    ensures reads { Reads (St.state store.old) (St.state store.new) }
    ensures same_meaning { St.meaning store.new ≡ St.meaning store.old }
{
    match store.look(handle) {
        Cell::Pair(tag, left, right) => Sides { tag, left, right },
        Cell::Nil | Cell::Number(_) => unreachable!(),
    }
}
