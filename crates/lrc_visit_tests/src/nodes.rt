//! A store with the node `Num(5)`, and expressions over it.

ghost use Rattle.std.specs.Prelude.{◌≡◌, ◌≤◌, ◌^◌, IfOk};
ghost use Rattle.lrc_meaning.specs.Tree.{tree};
ghost use Rattle.lrc_meaning.specs.Expression.{expression};
ghost use Rattle.lrc_plain.specs.Plain.{state_of};
ghost use Rattle.lrc_eval.specs.Evaluating.{IsNode};
ghost use Rattle.lrc_visit_tests.specs.Nodes.{num_five, over_five, ReadsNum};

use crate::terms::term_of;
use lrc_base::{Expr, Term, TermItem};
use lrc_code::{Handles, put_term};
use lrc_eval::{Val, evaluate};
use lrc_plain::PlainStore;
use lrc_store::{Full, Handle, NoMeaning, Store};
use std::alloc::Global;
use std::test::Fail;

/// The production of a node over a number.
pub(crate) const NUM: u32 = 0;

/// `Num(5)`
pub(crate) fn num_five(alloc: Global) -> Result<Term, Fail>
    ensures { IfOk result (λ term. tree term ≡ num_five) }
{
    term_of(alloc, &[TermItem::Int(5), TermItem::Node(NUM, 1)])
}

/// A handle of the node `Num(5)`, which takes three rows: its number, the list of that, and the node.
fn put_five<S: Store>(store: &mut S, term: &Term, stack: &mut Handles) -> Result<Handle, Full>
    requires five { tree term.now ≡ num_five }
    requires room { 8 ≤ stack.old.room }
    ensures { IfOk result (λ node. IsNode (S.state store.new) node over_five) }
{
    put_term(store, term, stack)
}

/// A store of so many rows with the node `Num(5)`, which this term is.
fn store_with(
    alloc: Global,
    rows: u32,
    term: &Term,
) -> Result<(PlainStore<NoMeaning>, Handle), Fail>
    requires some { 1 ≤ rows }
    requires limit { rows ≤ 2 ^ 24 }
    requires five { tree term.now ≡ num_five }
    ensures { IfOk result (λ made. IsNode (state_of made.0) made.1 over_five) }
{
    let mut store = PlainStore::new(alloc, rows)?;
    let mut stack = Handles::with_room(alloc, 8)?;
    let node = put_five(&mut store, term, &mut stack).ok().ok_or("full")?;
    Ok((store, node))
}

/// A store of so many rows, from 3 on, with the node `Num(5)`.
pub(crate) fn store_with_five(
    alloc: Global,
    rows: u32,
) -> Result<(PlainStore<NoMeaning>, Handle), Fail>
    requires some { 1 ≤ rows }
    requires limit { rows ≤ 2 ^ 24 }
    ensures { IfOk result (λ made. IsNode (state_of made.0) made.1 over_five) }
{
    let term = num_five(alloc)?;
    store_with(alloc, rows, &term)
}

/// What an expression gives over the node `Num(5)`, which stays known.
pub(crate) fn evaluated<S: Store>(
    store: &mut S,
    expr: &Expr,
    node: Handle,
) -> Result<Option<Val>, Full>
    requires node { IsNode (S.state store.old) node over_five }
    requires reads { ReadsNum (expression expr.now) }
    ensures { IsNode (S.state store.new) node over_five }
{
    evaluate(store, expr, &[], node)
}

/// What an expression gives over the node `Num(5)`, and how many rows are used then.
fn value_with_rows<S: Store>(
    store: &mut S,
    expr: &Expr,
    node: Handle,
) -> Result<(Option<Val>, u32), Full>
    requires node { IsNode (S.state store.old) node over_five }
    requires reads { ReadsNum (expression expr.now) }
{
    let value = evaluated(store, expr, node)?;
    Ok((value, store.published()))
}

/// The same in a store of so many rows; none where it is full.
fn value_if_not_full(
    alloc: Global,
    expr: &Expr,
    rows: u32,
) -> Result<Option<(Option<Val>, u32)>, Fail>
    requires some { 1 ≤ rows }
    requires limit { rows ≤ 2 ^ 24 }
    requires reads { ReadsNum (expression expr.now) }
{
    let (mut store, node) = store_with_five(alloc, rows)?;
    Ok(value_with_rows(&mut store, expr, node).ok())
}

/// The same in a store that has rows enough.
pub(crate) fn value_and_rows(
    alloc: Global,
    expr: Expr,
    rows: u32,
) -> Result<(Option<Val>, u32), Fail>
    requires some { 1 ≤ rows }
    requires limit { rows ≤ 2 ^ 24 }
    requires reads { ReadsNum (expression expr) }
{
    let answer = value_if_not_full(alloc, &expr, rows)?;
    Ok(answer.ok_or("full")?)
}
