ghost use Rattle.std.specs.Prelude.{◌≡◌, length, IfOk, OnErr};
ghost use Rattle.lrc_store.specs.Standing.{Stands};
ghost use Rattle.bench_store.specs.Numbers.{numbers};

use lrc_store::{Full, Handle, Store};

/// The tag of an item before a list.
const LIST: u32 = 4;

/// Puts the list of the numbers below `items`, the last of them first.
///
/// # Errors
///
/// Full, only where all rows are used.
pub fn put_numbers<S: Store>(store: &mut S, items: u32) -> Result<Handle, Full>
    ensures full { OnErr result (length (S.state store.new).made ≡ (S.state store.new).quota) }
    ensures ok { IfOk result (λ list. Stands (S.state store.new) list.0 (numbers items)) }
{
    let _rows = store.published();
    let mut list = Handle::NIL;
    for number in 0..items {
        let first = store.int(i64::from(number))?;
        list = store.cell(LIST, first, list)?;
    }
    Ok(list)
}
