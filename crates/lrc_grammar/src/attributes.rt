ghost use Rattle.std.specs.Prelude.{◌≡◌};
ghost use Rattle.lrc_meaning.specs.Grammar.{attrs_of_sort, attrs_of};

use lrc_base::{Attr, Kind, Sort};
use sqlite_items::at;

/// The attributes of the sort of this number; none where there is no such sort.
pub fn attrs_of_sort(sorts: &[Sort], number: u32) -> &[Attr]
    ensures { result.now ≡ attrs_of_sort sorts.now number }
{
    match at(sorts, number as usize) {
        Some(sort) => sort.attrs.as_slice(),
        None => &[],
    }
}

/// The attributes of a kind: those of its sort.
pub fn attrs_of(sorts: &[Sort], kind: Kind) -> &[Attr]
    ensures { result.now ≡ attrs_of sorts.now kind }
{
    match kind {
        Kind::Int | Kind::Bool | Kind::Name => &[],
        Kind::Sort(number) => attrs_of_sort(sorts, number),
    }
}
