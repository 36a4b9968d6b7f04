//! Constructor applications: their rows, and what is refused in a store with too few.
//!
//! Of `Add(Num(n), Num(9))` over the node `Num(5)`, whose three rows are there and are those of `Num(n)` too, rows
//! are made for the number 9, the list of it and its node, for the two lists of arguments, and for the node: six.

ghost use Rattle.std.specs.Prelude.{IfOk};
ghost use Rattle.lrc_meaning.specs.Expression.{expression};
ghost use Rattle.lrc_eval.specs.Evaluating.{IsNode};
ghost use Rattle.lrc_visit_tests.specs.Nodes.{over_five, ReadsNum};

use crate::expressions::{add, leaf, num, number};
use crate::nodes::{evaluated, store_with_five};
use lrc_base::Expr;
use lrc_eval::Val;
use lrc_store::{Full, Handle, Store};
use std::alloc::Global;
use std::test::Fail;

/// `Add(Num(n), Num(9))`
fn sum(alloc: Global) -> Result<Expr, Fail>
    ensures { IfOk result (λ expr. ReadsNum (expression expr)) }
{
    let left = num(alloc, leaf())?;
    let right = num(alloc, number(9))?;
    add(alloc, left, right)
}

/// What an expression gives over the node `Num(5)`, asked twice, and how many rows are used then.
fn twice<S: Store>(
    store: &mut S,
    expr: &Expr,
    node: Handle,
) -> Result<(Option<Val>, Option<Val>, u32), Full>
    requires node { IsNode (S.state store.old) node over_five }
    requires reads { ReadsNum (expression expr.now) }
{
    let first = evaluated(store, expr, node)?;
    let again = evaluated(store, expr, node)?;
    Ok((first, again, store.published()))
}

/// The same of the sum in a store of nine rows; none where it is full.
fn sum_twice(alloc: Global) -> Result<Option<(Option<Val>, Option<Val>, u32)>, Fail> {
    let sum = sum(alloc)?;
    let (mut store, node) = store_with_five(alloc, 9)?;
    Ok(twice(&mut store, &sum, node).ok())
}

/// Whether an expression is refused over the node `Num(5)`, how many rows are used then, and what its number is.
fn refused<S: Store>(store: &mut S, expr: &Expr, node: Handle) -> (bool, u32, Option<Option<Val>>)
    requires node { IsNode (S.state store.old) node over_five }
    requires reads { ReadsNum (expression expr.now) }
{
    let refused = evaluated(store, expr, node).is_err();
    let rows = store.published();
    (refused, rows, evaluated(store, &leaf(), node).ok())
}

/// The same of the sum in a store of eight rows.
fn sum_refused(alloc: Global) -> Result<(bool, u32, Option<Option<Val>>), Fail> {
    let sum = sum(alloc)?;
    let (mut store, node) = store_with_five(alloc, 8)?;
    Ok(refused(&mut store, &sum, node))
}

#[test]
fn a_node_is_made_once(rt: HostRuntime) -> Result<(), Fail> {
    let (first, again, rows) = sum_twice(rt.alloc())?.ok_or("full")?;
    assert!(rt; matches!(first, Some(Val::Ref(_))));
    assert!(rt; first == again);
    assert_eq!(rt; rows, 9);
    Ok(())
}

#[test]
fn a_node_without_a_row_is_refused(rt: HostRuntime) -> Result<(), Fail> {
    let (refused, rows, kept) = sum_refused(rt.alloc())?;
    assert!(rt; refused);
    assert_eq!(rt; rows, 8);
    assert!(rt; kept == Some(Some(Val::Int(5))));
    Ok(())
}
