//! A plain store: it shares rows, refuses a cell past its last row, and forgets nothing.

ghost use Rattle.std.specs.Prelude.{◌≡◌};
ghost use Rattle.lrc_store.specs.Cells.{number};
ghost use Rattle.lrc_store.specs.Standing.{Stands};
ghost use Rattle.lrc_store.specs.Words.{Keeps};
ghost use Rattle.lrc_plain.specs.Plain.{state_of};

use crate::remembered::{OwnCell, is_found, is_shared, two_numbers};
use lrc_plain::PlainStore;
use lrc_store::{Handle, Store};
use std::test::Fail;

/// Remembers a number as its own result.
fn remember_itself(store: &mut PlainStore<OwnCell>, call: Handle, value: i64)
    requires { Stands (state_of store.old) call.0 (number value) }
    ensures { Keeps (state_of store.old) (state_of store.new) }
{
    store.remember(call, call);
}

#[test]
fn shares_rows(rt: HostRuntime) -> Result<(), Fail> {
    let mut store = PlainStore::new(rt.alloc(), 2)?;
    let shared = is_shared(&mut store).is_ok_and(|shared| shared);
    assert!(rt; shared);
    assert_eq!(rt; store.published(), 2);
    let refused = store.int(2).is_err();
    assert!(rt; refused);
    Ok(())
}

#[test]
fn recalls_what_was_remembered(rt: HostRuntime) -> Result<(), Fail> {
    let mut store = PlainStore::with_meaning(rt.alloc(), OwnCell, 2)?;
    let Ok((five, six)) = two_numbers(&mut store, 5, 6) else {
        panic!(rt; "there are rows for two cells")
    };
    let unknown = is_found(store.recall(six), six);
    remember_itself(&mut store, six, 6);
    let found = is_found(store.recall(six), six);
    store.forget(1);
    let kept = is_found(store.recall(six), six);
    let other = is_found(store.recall(five), five);
    assert!(rt; !unknown && found && kept && !other);
    assert_eq!(rt; store.missed(), 2);
    Ok(())
}
