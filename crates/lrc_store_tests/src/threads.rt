//! Four passes on four threads make the same lists at once: each cell has one row.

ghost use Rattle.std.specs.Prelude.{IfOk};
ghost use Rattle.lrc_store.specs.Standing.{IsKnown};
ghost use Rattle.lrc_table.specs.Passes.{IsOf};
ghost use Rattle.lrc_table.specs.Standings.{standing};

use lrc_store::{Full, Handle, Meaning, NoMeaning};
use lrc_table::{Pass, Table};
use std::alloc::Global;
use std::test::Fail;
use std::thread::{Threads, join};

/// A number before a list.
fn item<M: Meaning>(
    pass: &mut Pass<M>,
    table: &Table<M>,
    value: u32,
    list: Handle,
) -> Result<Handle, Full>
    requires of { IsOf pass.old table.now }
    requires known { IsKnown (standing pass.old.view) list.0 }
    ensures of { IsOf pass.new table.now }
    ensures known { IfOk result (λ handle. IsKnown (standing pass.new.view) handle.0) }
{
    let number = pass.int(table, i64::from(value))?;
    let _rows = pass.published();
    pass.cell(table, 4, number, list)
}

/// The lists of the first numbers, each a number before the list that was made before it, as far as
/// there are rows and memory, by a pass that is given back.
fn lists<M: Meaning>(
    alloc: Global,
    mut pass: Pass<M>,
    table: &Table<M>,
    count: u32,
) -> (Vec<Handle>, Pass<M>)
    requires { IsOf pass table.now }
    ensures { IsOf result.1 table.now }
{
    let mut made = Vec::new(alloc);
    let mut list = Handle::NIL;
    let _rows = pass.published();
    for value in 0..count {
        match item(&mut pass, table, value, list) {
            Ok(longer) if made.push(longer).is_ok() => list = longer,
            _ => return (made, pass),
        }
    }
    (made, pass)
}

/// The same lists by two passes on two threads.
fn lists_twice<M: Meaning + Send + Sync, R: Threads + Sync>(
    rt: &R,
    alloc: Global,
    pass: Pass<M>,
    other: Pass<M>,
    table: &Table<M>,
    count: u32,
) -> ((Vec<Handle>, Pass<M>), (Vec<Handle>, Pass<M>))
    requires of { IsOf pass table.now }
    requires other_of { IsOf other table.now }
    ensures of { IsOf result.0.1 table.now }
    ensures other_of { IsOf result.1.1 table.now }
{
    join(
        rt,
        move || -> (Vec<Handle>, Pass<M>)
            requires { IsOf pass table.now }
            ensures { IsOf result.1 table.entry.now }
        { lists(alloc, pass, table, count) },
        move || -> (Vec<Handle>, Pass<M>)
            requires { IsOf other table.now }
            ensures { IsOf result.1 table.entry.now }
        { lists(alloc, other, table, count) },
    )
}

#[test]
fn four_passes_make_the_same_lists(rt: HostRuntime) -> Result<(), Fail> {
    const COUNT: u32 = 20_000;
    let (table, mut pass) = Table::new(rt.alloc(), NoMeaning, 4, 2 * COUNT, 1)?;
    let second = pass.split(&table, 2 * COUNT);
    let third = pass.split(&table, 2 * COUNT);
    let fourth = pass.split(&table, 2 * COUNT);
    let (handle, shared, alloc) = (&rt, &table, rt.alloc());
    let (((one, mut pass), (two, second)), ((three, third), (four, fourth))) = join(
        &rt,
        move || -> (
            (Vec<Handle>, Pass<NoMeaning>),
            (Vec<Handle>, Pass<NoMeaning>),
        )
            requires of { IsOf pass shared.now }
            requires other_of { IsOf second shared.now }
            ensures of { IsOf result.0.1 shared.entry.now }
            ensures other_of { IsOf result.1.1 shared.entry.now }
        { lists_twice(handle, alloc, pass, second, shared, COUNT) },
        move || -> (
            (Vec<Handle>, Pass<NoMeaning>),
            (Vec<Handle>, Pass<NoMeaning>),
        )
            requires of { IsOf third shared.now }
            requires other_of { IsOf fourth shared.now }
            ensures of { IsOf result.0.1 shared.entry.now }
            ensures other_of { IsOf result.1.1 shared.entry.now }
        { lists_twice(handle, alloc, third, fourth, shared, COUNT) },
    );
    let made = u64::from(pass.published()) + u64::from(second.published());
    let made_too = u64::from(third.published()) + u64::from(fourth.published());
    assert_eq!(rt; made + made_too, u64::from(2 * COUNT));
    pass.meet(&table, second);
    pass.meet(&table, third);
    pass.meet(&table, fourth);
    assert!(rt; one.len() == COUNT as usize && one == two && one == three && one == four);
    let mut rows: Vec<u32> = one.iter().map(|handle| handle.0).collect(rt.alloc())?;
    rows.sort_unstable();
    assert!(rt; rows.windows(2).all(|pair| pair[0] < pair[1]));
    Ok(())
}
