//! Rounds of calls on a table and on a store over it.
ghost use Rattle.std.specs.Prelude.{◌≡◌, IfOk, All};
ghost use Rattle.lrc_store.specs.Standing.{IsKnown};
ghost use Rattle.lrc_table.specs.Passes.{IsOf};
ghost use Rattle.lrc_memo.specs.Shared.{shared_standing};
ghost use Rattle.bench_table.specs.Numbers.{AreNumbers};

use crate::itself::Itself;
use lrc_memo::SharedStore;
use lrc_store::{Handle, Store};
use lrc_table::{Pass, Table};
use std::alloc::{AllocError, Global};
use std::ops::Range;
use std::thread::{Threads, join};

/// Puts each number of the range.
fn put_all(pass: &mut Pass<Itself>, table: &Table<Itself>, numbers: Range<u32>)
    requires { IsOf pass.old table.now }
    ensures { IsOf pass.new table.now }
{
    for number in numbers {
        let _ = pass.int(table, i64::from(number));
    }
}

/// Puts the numbers of the range in each round, each half of them in a thread of its own.
#[cycle(spread)]
pub fn spread<R: Threads + Sync>(
    rt: &R,
    table: &Table<Itself>,
    mut pass: Pass<Itself>,
    numbers: Range<u32>,
    rounds: u32,
    levels: u32,
) -> Pass<Itself>
    requires { IsOf pass table.now }
    ensures { IsOf result table.now }
{
    if levels == 0 {
        for _ in 0..rounds {
            put_all(&mut pass, table, numbers.start..numbers.end);
        }
        return pass;
    }
    let unused = pass.quota() - pass.published();
    let middle = numbers.start.midpoint(numbers.end);
    let other = pass.split(table, numbers.end.saturating_sub(middle).min(unused));
    let (lower, upper) = (numbers.start..middle, middle..numbers.end);
    let below = levels - 1;
    let (mut pass, other) = join(
        rt,
        move || -> Pass<Itself>
            requires { IsOf pass table.now }
            ensures { IsOf result table.entry.now }
        { spread(rt, table, pass, lower, rounds, below) },
        move || -> Pass<Itself>
            requires { IsOf other table.now }
            ensures { IsOf result table.entry.now }
        { spread(rt, table, other, upper, rounds, below) },
    );
    pass.meet(table, other);
    pass
}

/// Puts a number, and its handle behind the others where there was a row for it.
fn put_behind(
    store: &mut SharedStore<Itself>,
    handles: &mut Vec<Handle>,
    number: u32,
) -> Result<(), AllocError>
    requires { AreNumbers (shared_standing store.old) handles.old.items }
    ensures { AreNumbers (shared_standing store.new) handles.new.items }
{
    if let Ok(handle) = store.int(i64::from(number)) {
        handles.push(handle)?;
    }
    Ok(())
}

/// The handles of the first numbers.
///
/// # Errors
///
/// Want of memory.
pub fn handles_of(
    alloc: Global,
    store: &mut SharedStore<Itself>,
    count: u32,
) -> Result<Vec<Handle>, AllocError>
    ensures { IfOk result (λ handles. AreNumbers (shared_standing store.new) handles.items) }
{
    let mut handles = Vec::with_capacity(alloc, count as usize)?;
    for number in 0..count {
        put_behind(store, &mut handles, number)?;
    }
    Ok(handles)
}

/// Remembers each number as its own result, if it is told to.
fn remember_all(store: &mut SharedStore<Itself>, handles: &[Handle], remember: bool)
    requires { AreNumbers (shared_standing store.old) handles.now }
    ensures { AreNumbers (shared_standing store.new) handles.now }
{
    if !remember {
        return;
    }
    for handle in handles {
        store.remember(*handle, *handle);
    }
}

/// Recalls each number.
fn recall_all(store: &mut SharedStore<Itself>, handles: &[Handle])
    requires { AreNumbers (shared_standing store.old) handles.now }
    ensures { AreNumbers (shared_standing store.new) handles.now }
{
    for handle in handles {
        let _ = store.recall(*handle);
    }
}

/// Remembers each number first, if it is told to, and then recalls each in so many rounds.
pub fn recall_rounds(
    store: &mut SharedStore<Itself>,
    handles: &[Handle],
    remember: bool,
    rounds: u32,
)
    requires { AreNumbers (shared_standing store.old) handles.now }
{
    remember_all(store, handles, remember);
    for _ in 0..rounds {
        recall_all(store, handles);
    }
}
