//! The number 7, put at places of the node `Num(5)`, and what is refused.
//!
//! In the place of the number 5 it takes three rows: its own, the list of it, and that of the node `Num(7)`.

ghost use Rattle.std.specs.Prelude.{◌≡◌, ◌≤◌, ◌*◌, ◌^◌, pos, List, [], ◌∷◌, length, All, IfOk, IsTrue};
ghost use Rattle.lrc_base.specs.declared.grammar.Kind.TheVariants as k;
ghost use Rattle.lrc_base.specs.declared.grammar.Production.{Production};
ghost use Rattle.lrc_meaning.specs.Limits.{IsFew};
ghost use Rattle.lrc_meaning.specs.Tree.{tree, int, fits};
ghost use Rattle.lrc_eval.specs.Evaluating.{IsNode};
ghost use Rattle.lrc_visit_tests.specs.Nodes.{num_five, over_five};

use crate::nodes::{num_five, store_with_five};
use crate::terms::term_of;
use lrc_base::{Bytes, Kid, Kind, List, NameText, Path, Production, Term, TermItem};
use lrc_code::Handles;
use lrc_eval::{Val, value_of_handle};
use lrc_places::{Put, ReplaceFault, part_at, replace};
use lrc_store::{Handle, Store};
use std::alloc::Global;
use std::test::Fail;

/// The production of the node `Num(5)`, over a number.
fn num_production(alloc: Global) -> Result<Production, Fail>
    ensures fits { IfOk result (λ num. IsTrue (fits (num ∷ []) num_five (k.Sort 0))) }
    ensures few { IfOk result IsFew }
{
    let number = Kid {
        name: NameText::of(b"n").ok_or("no name")?,
        kind: Kind::Int,
    };
    Ok(Production {
        name: NameText::of(b"Num").ok_or("no name")?,
        left: 0,
        kids: List::from_vec(vec![in alloc; number]?),
        extras: List::new(alloc),
        equations: List::new(alloc),
        pattern: None,
    })
}

/// The number 7.
fn seven(alloc: Global) -> Result<Term, Fail>
    ensures { IfOk result (λ term. tree term ≡ int (pos 7)) }
{
    term_of(alloc, &[TermItem::Int(7)])
}

/// What stands at the place of the new tree, where the term was put there in the node `Num(5)`.
fn put_and_read<S: Store>(
    store: &mut S,
    prods: &[Production],
    node: Handle,
    put: &Put,
    limit: u32,
    stack: &mut Handles,
) -> Result<Option<Val>, ReplaceFault>
    requires few { length prods.now ≤ 65280 }
    requires parts { All IsFew prods.now }
    requires node { IsNode (S.state store.old) node over_five }
    requires fits { IsTrue (fits prods.now num_five (k.Sort 0)) }
    requires term { IsTrue (fits prods.now (tree put.now.term.now) put.now.kind) }
    requires room { 8 * limit ≤ stack.old.room }
    requires some_room { 1 ≤ stack.old.room }
{
    let whole = replace(store, prods, node, put, limit, stack)?;
    let Some(part) = part_at(store, whole, put.path.steps.as_slice()) else {
        return Ok(None);
    };
    Ok(Some(value_of_handle(store, part)))
}

/// An answer, and how many rows are used then.
type Answer = (Result<Option<Val>, ReplaceFault>, u32);

/// The same in a store of so many rows, with terms of at most one node on their longest path.
fn put_along(alloc: Global, put: &Put, limit: u32, rows: u32) -> Result<Answer, Fail>
    requires some { 1 ≤ rows }
    requires most { rows ≤ 2 ^ 24 }
    requires low { limit ≤ 1 }
    requires term { (prods : List Production) → IsTrue (fits prods num_five (k.Sort 0)) → IsTrue (fits prods (tree put.now.term.now) put.now.kind) }
{
    let prods = [num_production(alloc)?];
    let (mut store, node) = store_with_five(alloc, rows)?;
    let mut stack = Handles::with_room(alloc, 8)?;
    let answer = put_and_read(&mut store, &prods, node, put, limit, &mut stack);
    Ok((answer, store.published()))
}
/// The number 7 put along these steps.
fn seven_put_along(alloc: Global, steps: &[u8], rows: u32) -> Result<Answer, Fail>
    requires some { 1 ≤ rows }
    requires most { rows ≤ 2 ^ 24 }
{
    let path = Path {
        steps: Bytes::from_slice(alloc, steps)?,
    };
    let term = seven(alloc)?;
    let put = Put {
        path: &path,
        kind: Kind::Int,
        term: &term,
    };
    put_along(alloc, &put, 1, rows)
}

/// The node `Num(5)` put in its own place, where a term may have so many nodes on its longest path.
fn five_put(alloc: Global, limit: u32) -> Result<Answer, Fail>
    requires { limit ≤ 1 }
{
    let path = Path {
        steps: Bytes::new(alloc),
    };
    let term = num_five(alloc)?;
    let put = Put {
        path: &path,
        kind: Kind::Sort(0),
        term: &term,
    };
    put_along(alloc, &put, limit, 6)
}

#[test]
fn a_number_is_put(rt: HostRuntime) -> Result<(), Fail> {
    let (answer, rows) = seven_put_along(rt.alloc(), &[0], 6)?;
    assert!(rt; answer == Ok(Some(Val::Int(7))));
    assert_eq!(rt; rows, 6);
    Ok(())
}

#[test]
fn there_is_no_second_child(rt: HostRuntime) -> Result<(), Fail> {
    let (answer, rows) = seven_put_along(rt.alloc(), &[1], 6)?;
    assert!(rt; answer == Err(ReplaceFault::BadPath));
    assert_eq!(rt; rows, 3);
    Ok(())
}

#[test]
fn the_node_is_no_number(rt: HostRuntime) -> Result<(), Fail> {
    let (answer, rows) = seven_put_along(rt.alloc(), &[], 6)?;
    assert!(rt; answer == Err(ReplaceFault::WrongSort));
    assert_eq!(rt; rows, 3);
    Ok(())
}

/// The node `Num(7)` is the part without a row.
#[test]
fn a_new_tree_without_a_row_is_refused(rt: HostRuntime) -> Result<(), Fail> {
    let (answer, rows) = seven_put_along(rt.alloc(), &[0], 5)?;
    assert!(rt; answer == Err(ReplaceFault::Full));
    assert_eq!(rt; rows, 5);
    Ok(())
}

#[test]
fn a_term_that_is_too_high_is_refused(rt: HostRuntime) -> Result<(), Fail> {
    let (answer, rows) = five_put(rt.alloc(), 0)?;
    assert!(rt; answer == Err(ReplaceFault::TooHigh));
    assert_eq!(rt; rows, 3);
    let (answer, rows) = five_put(rt.alloc(), 1)?;
    assert!(rt; answer.is_ok());
    assert_eq!(rt; rows, 3);
    Ok(())
}
