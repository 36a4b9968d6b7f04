//! A sum, names and truth values as cells of a plain store, and what is read back of calls, results and nodes.

ghost use Rattle.std.specs.Prelude.{◌≡◌, ◌≤◌, IfOk};
ghost use Rattle.lrc_store.specs.Cells.{nil};
ghost use Rattle.lrc_store.specs.Words.{Tells};
ghost use Rattle.lrc_meaning.specs.Tree.{tree};
ghost use Rattle.lrc_store_tests.specs.Sums.{one_and_two};

use crate::terms::term_of;
use lrc_base::{NameText, Term, TermItem};
use lrc_code::{
    CallParts, Handles, ResultParts, call_parts, kid_of, production_of, put_bool, put_call,
    put_list, put_name, put_node, put_result, put_term, result_parts,
};
use lrc_plain::PlainStore;
use lrc_store::{Full, Handle, Store};
use std::alloc::Global;
use std::test::Fail;

const NUM: u32 = 0;

const ADD: u32 = 1;

/// `Add(Num(1), Num(2))`
fn sum(alloc: Global) -> Result<Term, Fail>
    ensures { IfOk result (λ term. tree term ≡ one_and_two) }
{
    let items = [
        TermItem::Int(1),
        TermItem::Node(NUM, 1),
        TermItem::Int(2),
        TermItem::Node(NUM, 1),
        TermItem::Node(ADD, 2),
    ];
    term_of(alloc, &items)
}

/// A handle of `Add(Num(1), Num(2))`, which takes nine rows.
fn put_sum<S: Store>(store: &mut S, term: &Term, stack: &mut Handles) -> Result<Handle, Full>
    requires sum { tree term.now ≡ one_and_two }
    requires room { 16 ≤ stack.old.room }
    ensures { stack.new.room ≡ stack.old.room }
{
    put_term(store, term, stack)
}

/// The handle of nil, which is known in every store.
fn nil_in<S: Store>(store: &S) -> Handle
    ensures { Tells (S.state store.now) result.0 nil }
{
    let _ = store.published();
    Handle::NIL
}

/// The parts of a call of visit 3 of the number 5, with empty lists.
fn parts_of_a_call<S: Store>(store: &mut S) -> Result<CallParts, Full> {
    let tree = store.int(5)?;
    let nil = nil_in(store);
    let call = put_call(store, tree, 3, nil, nil)?;
    Ok(call_parts(store, call))
}

/// The parts of a result of height 9, with empty lists.
fn parts_of_a_result<S: Store>(store: &mut S) -> Result<ResultParts, Full> {
    let nil = nil_in(store);
    let outcome = put_result(store, 9, nil, nil)?;
    Ok(result_parts(store, outcome))
}

/// The production of a node over the number 5, and whether that is its child.
fn parts_of_a_node<S: Store>(store: &mut S) -> Result<(u32, bool), Full> {
    let five = store.int(5)?;
    let nil = nil_in(store);
    let kids = put_list(store, five, nil)?;
    let node = put_node(store, 7, kids)?;
    let production = production_of(store, node);
    let kid = kid_of(store, node, 0);
    Ok((production, store.same(kid, five)))
}

#[test]
fn a_tree_put_twice_has_one_handle(rt: HostRuntime) -> Result<(), Fail> {
    let term = sum(rt.alloc())?;
    let mut store = PlainStore::new(rt.alloc(), 9)?;
    let mut stack = Handles::with_room(rt.alloc(), 16)?;
    let first = put_sum(&mut store, &term, &mut stack).ok();
    let again = put_sum(&mut store, &term, &mut stack).ok();
    assert!(rt; first.is_some());
    assert!(rt; first == again);
    assert_eq!(rt; store.published(), 9);
    Ok(())
}

#[test]
fn the_ninth_row_of_eight_is_refused(rt: HostRuntime) -> Result<(), Fail> {
    let term = sum(rt.alloc())?;
    let mut store = PlainStore::new(rt.alloc(), 8)?;
    let mut stack = Handles::with_room(rt.alloc(), 16)?;
    let refused = put_sum(&mut store, &term, &mut stack).is_err();
    assert!(rt; refused);
    assert_eq!(rt; store.published(), 8);
    Ok(())
}

#[test]
fn names_of_one_byte_and_of_nine(rt: HostRuntime) -> Result<(), Fail> {
    let mut store = PlainStore::new(rt.alloc(), 6)?;
    let short = NameText::of(b"a").ok_or("no name")?;
    let long = NameText::of(b"abcdefghi").ok_or("no name")?;
    let put = put_name(&mut store, &short).is_ok();
    assert!(rt; put);
    assert_eq!(rt; store.published(), 2);
    let put = put_name(&mut store, &long).is_ok();
    assert!(rt; put);
    assert_eq!(rt; store.published(), 6);
    Ok(())
}

#[test]
fn truth_values_are_two_cells(rt: HostRuntime) -> Result<(), Fail> {
    let mut store = PlainStore::new(rt.alloc(), 2)?;
    let no = put_bool(&mut store, false).ok();
    let yes = put_bool(&mut store, true).ok();
    let again = put_bool(&mut store, false).ok();
    assert!(rt; no.is_some() && yes.is_some());
    assert!(rt; no == again && no != yes);
    assert_eq!(rt; store.published(), 2);
    Ok(())
}

#[test]
fn parts_are_read_back(rt: HostRuntime) -> Result<(), Fail> {
    let mut store = PlainStore::new(rt.alloc(), 20)?;
    let call = parts_of_a_call(&mut store).ok().ok_or("full")?;
    assert_eq!(rt; call.visit, 3);
    assert!(rt; call.inherited == Handle::NIL);
    let outcome = parts_of_a_result(&mut store).ok().ok_or("full")?;
    assert_eq!(rt; outcome.height, 9);
    let (production, has_kid) = parts_of_a_node(&mut store).ok().ok_or("full")?;
    assert_eq!(rt; production, 7);
    assert!(rt; has_kid);
    Ok(())
}
