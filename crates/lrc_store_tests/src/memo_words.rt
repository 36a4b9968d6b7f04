//! A store over a shared table: its pass, its memo words, which any thread may overwrite, and both on two threads.

ghost use Rattle.std.specs.Prelude.{◌≡◌, IfOk, IsTrue};
ghost use Rattle.lrc_store.specs.Cells.{number};
ghost use Rattle.lrc_store.specs.Standing.{Stands, IsKnown};
ghost use Rattle.lrc_store.specs.Words.{Keeps};
ghost use Rattle.lrc_table.specs.Passes.{IsOf};
ghost use Rattle.lrc_memo.specs.Shared.{shared_standing};

use crate::remembered::{OwnCell, is_found, is_missed, is_shared, two_numbers};
use lrc_memo::SharedStore;
use lrc_store::{Full, Handle, Meaning, Recall, Store};
use lrc_table::{Pass, Table};
use std::test::Fail;
use std::thread::join;

/// Puts two cells, over any store: the store that comes back is over the same table.
fn put_two<S: Store>(store: &mut S) -> Result<Handle, Full>
    ensures same_identity { (S.state store.new).identity ≡ (S.state store.old).identity }
    ensures same_meaning { S.meaning store.new ≡ S.meaning store.old }
{
    let one = store.int(1)?;
    store.cell(3, one, one)
}

/// The pass of a table comes back from code over any store as a pass of this table.
fn pass_back<M: Meaning>(table: &Table<M>, pass: Pass<M>) -> (Result<Handle, Full>, Pass<M>)
    requires { IsOf pass table.now }
    ensures { IsOf result.1 table.now }
{
    let mut store = SharedStore::new(table, pass);
    let answer = put_two(&mut store);
    (answer, store.into_pass())
}

/// Remembers a number as its own result.
fn remember_itself(store: &mut SharedStore<OwnCell>, call: Handle, value: i64)
    requires { Stands (shared_standing store.old) call.0 (number value) }
    ensures keeps { Keeps (shared_standing store.old) (shared_standing store.new) }
    ensures same_table { store.new.table ≡ store.old.table }
{
    store.remember(call, call);
}

/// Puts the first numbers, remembers each, recalls it and clears a place, by a pass that is given
/// back. The answer is whether there were rows for all, and no other result was found.
fn take_turns(table: &Table<OwnCell>, pass: Pass<OwnCell>, count: u32) -> (bool, Pass<OwnCell>)
    requires { IsOf pass table.now }
    ensures { IsOf result.1 table.now }
{
    let mut store = SharedStore::new(table, pass);
    let mut right = true;
    for value in 0..count {
        right = take_turn(&mut store, i64::from(value)) && right;
    }
    (right, store.into_pass())
}

/// Puts a number, remembers it, recalls it and clears a place: whether there was a row for it, and no
/// other result was found.
fn take_turn(store: &mut SharedStore<OwnCell>, value: i64) -> bool
    ensures { store.new.table ≡ store.old.table }
{
    let Ok(handle) = store.int(value) else {
        return false;
    };
    remember_itself(store, handle, value);
    let right = match store.recall(handle) {
        Recall::Found(found) => found == handle,
        Recall::Missed(_) => true,
    };
    store.evict(value.cast_unsigned());
    right
}

#[test]
fn generic_code_runs_over_it(rt: HostRuntime) -> Result<(), Fail> {
    let (table, pass) = Table::new(rt.alloc(), OwnCell, 1, 2, 3)?;
    let mut store = SharedStore::new(&table, pass);
    let shared = is_shared(&mut store).is_ok_and(|shared| shared);
    assert!(rt; shared);
    let refused = store.int(2).is_err();
    assert!(rt; refused && store.published() == 2);
    let pass = store.into_pass();
    assert!(rt; pass.published() == 2 && table.memo_words() == 3);
    Ok(())
}

#[test]
fn a_pass_comes_back_of_its_own_table(rt: HostRuntime) -> Result<(), Fail> {
    let (table, pass) = Table::new(rt.alloc(), OwnCell, 1, 2, 3)?;
    let (answer, pass) = pass_back(&table, pass);
    let (again, pass) = pass_back(&table, pass);
    assert!(rt; answer.is_ok() && again.is_ok() && pass.published() == 2);
    Ok(())
}

#[test]
fn a_memo_word_is_overwritten(rt: HostRuntime) -> Result<(), Fail> {
    let (table, pass) = Table::new(rt.alloc(), OwnCell, 1, 2, 1)?;
    let mut store = SharedStore::new(&table, pass);
    let Ok((five, six)) = two_numbers(&mut store, 5, 6) else {
        panic!(rt; "there are rows for two cells")
    };
    assert!(rt; five == Handle(1) && six == Handle(2));
    remember_itself(&mut store, five, 5);
    let found = is_found(store.recall(five), five);
    remember_itself(&mut store, six, 6);
    let overwritten = is_missed(store.recall(five), 8_589_934_594);
    store.evict(7);
    let forgotten = is_missed(store.recall(six), 0);
    assert!(rt; found && overwritten && forgotten);
    assert_eq!(rt; store.missed(), 2);
    Ok(())
}

#[test]
fn two_threads_remember_and_evict(rt: HostRuntime) -> Result<(), Fail> {
    const COUNT: u32 = 20_000;
    let (table, mut pass) = Table::new(rt.alloc(), OwnCell, 2, COUNT, 3)?;
    let other = pass.split(&table, COUNT);
    let shared = &table;
    let ((right, mut pass), (right_too, other)) = join(
        &rt,
        move || -> (bool, Pass<OwnCell>)
            requires { IsOf pass shared.now }
            ensures { IsOf result.1 shared.entry.now }
        { take_turns(shared, pass, COUNT) },
        move || -> (bool, Pass<OwnCell>)
            requires { IsOf other shared.now }
            ensures { IsOf result.1 shared.entry.now }
        { take_turns(shared, other, COUNT) },
    );
    assert!(rt; right && right_too);
    let made = u64::from(pass.published()) + u64::from(other.published());
    assert_eq!(rt; made, u64::from(COUNT));
    pass.meet(&table, other);
    Ok(())
}
