//! Handles of the cells of values, and the values that are read off them.

ghost use Rattle.std.specs.Prelude.{IfOk};
ghost use Rattle.lrc_meaning.specs.Tree.{Tree};
ghost use Rattle.lrc_store.specs.Standing.{Standing};
ghost use Rattle.lrc_eval.specs.Values.{Means};

use crate::nodes::store_with_five;
use lrc_eval::{Val, value_handle, value_of_handle};
use lrc_plain::PlainStore;
use lrc_store::{Full, Handle, Store};
use std::alloc::Global;
use std::test::Fail;

/// The value that is read off the cell of a value.
fn read_back<S: Store>(store: &mut S, value: Val) -> Result<Val, Full>
    requires { (t : Tree) × Means (S.state store.old) value t }
{
    let handle = value_handle(store, value)?;
    Ok(value_of_handle(store, handle))
}

/// What is read back of a number or a truth value in a store of its own, and how many rows it takes there.
fn read_back_alone(alloc: Global, value: Val) -> Result<(Val, u32), Fail>
    requires { (t : Tree) × ((s : Standing) → Means s value t) }
{
    let mut store = PlainStore::new(alloc, 2)?;
    let back = read_back(&mut store, value).ok().ok_or("full")?;
    Ok((back, store.published()))
}

#[test]
fn a_number_is_read_back(rt: HostRuntime) -> Result<(), Fail> {
    let (back, rows) = read_back_alone(rt.alloc(), Val::Int(-7))?;
    assert!(rt; back == Val::Int(-7));
    assert_eq!(rt; rows, 1);
    Ok(())
}

#[test]
fn truth_values_are_read_back(rt: HostRuntime) -> Result<(), Fail> {
    let (no, _) = read_back_alone(rt.alloc(), Val::Bool(false))?;
    let (yes, rows) = read_back_alone(rt.alloc(), Val::Bool(true))?;
    assert!(rt; no == Val::Bool(false) && yes == Val::Bool(true));
    assert_eq!(rt; rows, 1);
    Ok(())
}

/// A node's handle, what is read back of it, and how many rows are used then.
fn node_read_back(alloc: Global) -> Result<(Handle, Val, u32), Fail> {
    let (mut store, node) = store_with_five(alloc, 3)?;
    let back = read_back(&mut store, Val::Ref(node)).ok().ok_or("full")?;
    Ok((node, back, store.published()))
}

#[test]
fn a_node_is_its_own_value(rt: HostRuntime) -> Result<(), Fail> {
    let (node, back, rows) = node_read_back(rt.alloc())?;
    assert!(rt; back == Val::Ref(node));
    assert_eq!(rt; rows, 3);
    Ok(())
}
