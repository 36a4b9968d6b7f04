//! The nine cells of the sum of 1 and 2 in a shared table: by two passes at once, and with a row too few.

ghost use Rattle.std.specs.Prelude.{IfOk};
ghost use Rattle.lrc_store.specs.Standing.{IsKnown};
ghost use Rattle.lrc_store.specs.Words.{Keeps};
ghost use Rattle.lrc_table.specs.Passes.{IsOf};
ghost use Rattle.lrc_table.specs.Standings.{standing};

use lrc_store::{Full, Handle, Meaning, NoMeaning};
use lrc_table::{Pass, Table};
use std::test::Fail;
use std::thread::join;

/// The cells of a leaf that holds a number: the number, the list of it, and the node.
fn leaf<M: Meaning>(pass: &mut Pass<M>, table: &Table<M>, value: i64) -> Result<Handle, Full>
    requires { IsOf pass.old table.now }
    ensures of { IsOf pass.new table.now }
    ensures keeps { Keeps (standing pass.old.view) (standing pass.new.view) }
    ensures known { IfOk result (λ handle. IsKnown (standing pass.new.view) handle.0) }
{
    let number = pass.int(table, value)?;
    let _rows = pass.published();
    let list = pass.cell(table, 4, number, Handle::NIL)?;
    let _rows = pass.published();
    pass.cell(table, 256, list, Handle::NIL)
}

/// The eight cells of the children of the sum of 1 and 2.
fn children<M: Meaning>(pass: &mut Pass<M>, table: &Table<M>) -> Result<Handle, Full>
    requires { IsOf pass.old table.now }
    ensures of { IsOf pass.new table.now }
    ensures known { IfOk result (λ handle. IsKnown (standing pass.new.view) handle.0) }
{
    let one = leaf(pass, table, 1)?;
    let two = leaf(pass, table, 2)?;
    let _rows = pass.published();
    let rest = pass.cell(table, 4, two, Handle::NIL)?;
    pass.cell(table, 4, one, rest)
}

/// The nine cells of the sum of 1 and 2, by a pass that is given back.
fn sum<M: Meaning>(mut pass: Pass<M>, table: &Table<M>) -> (Result<Handle, Full>, Pass<M>)
    requires { IsOf pass table.now }
    ensures of { IsOf result.1 table.now }
    ensures known { IfOk result.0 (λ handle. IsKnown (standing result.1.view) handle.0) }
{
    let list = match children(&mut pass, table) {
        Ok(list) => list,
        Err(full) => return (Err(full), pass),
    };
    let _rows = pass.published();
    let root = pass.cell(table, 257, list, Handle::NIL);
    (root, pass)
}

#[test]
fn two_passes_make_one_sum(rt: HostRuntime) -> Result<(), Fail> {
    let (table, mut pass) = Table::new(rt.alloc(), NoMeaning, 2, 9, 1)?;
    let other = pass.split(&table, 9);
    let shared = &table;
    let ((one, mut pass), (two, other)) = join(
        &rt,
        move || -> (Result<Handle, Full>, Pass<NoMeaning>)
            requires { IsOf pass shared.now }
            ensures of { IsOf result.1 shared.entry.now }
            ensures known { IfOk result.0 (λ handle. IsKnown (standing result.1.view) handle.0) }
        { sum(pass, shared) },
        move || -> (Result<Handle, Full>, Pass<NoMeaning>)
            requires { IsOf other shared.now }
            ensures of { IsOf result.1 shared.entry.now }
            ensures known { IfOk result.0 (λ handle. IsKnown (standing result.1.view) handle.0) }
        { sum(other, shared) },
    );
    let made = u64::from(pass.published()) + u64::from(other.published());
    assert_eq!(rt; made, 9);
    pass.meet(&table, other);
    let (Ok(one), Ok(two)) = (one, two) else {
        panic!(rt; "there are rows for all cells")
    };
    let same = pass.same(one, two);
    assert!(rt; same);
    Ok(())
}

#[test]
fn the_ninth_cell_is_refused(rt: HostRuntime) -> Result<(), Fail> {
    let (table, mut pass) = Table::new(rt.alloc(), NoMeaning, 1, 8, 1)?;
    let Ok(list) = children(&mut pass, &table) else {
        panic!(rt; "there are rows for eight cells")
    };
    let before = pass.look(&table, list);
    let _rows = pass.published();
    let root = pass.cell(&table, 257, list, Handle::NIL);
    let after = pass.look(&table, list);
    assert!(rt; root.is_err() && before == after);
    assert!(rt; pass.published() == 8 && pass.quota() == 8);
    Ok(())
}

#[test]
fn the_smallest_table(rt: HostRuntime) -> Result<(), Fail> {
    let (table, mut pass) = Table::new(rt.alloc(), NoMeaning, 1, 1, 1)?;
    let first = pass.int(&table, -5).is_ok_and(|handle| handle == Handle(1));
    let again = pass.int(&table, -5).is_ok_and(|handle| handle == Handle(1));
    let refused = pass.int(&table, 6).is_err();
    assert!(rt; first && again && refused);
    Ok(())
}
