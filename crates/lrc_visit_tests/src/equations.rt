//! What operators and conditions give: numbers, truth values, or nothing.

ghost use Rattle.lrc_eval.specs.Evaluating.{IsNode};
ghost use Rattle.lrc_visit_tests.specs.Nodes.{over_five};

use crate::expressions::{first_chosen, leaf, num, number, operation, same_names, truth};
use crate::nodes::{store_with_five, value_and_rows};
use lrc_base::{Expr, Op};
use lrc_eval::{Val, evaluate};
use lrc_store::{Full, Handle, Store};
use std::test::Fail;

/// What the occurrence of number 0 gives, which has this value, over the node `Num(5)`.
fn occurrence<S: Store>(store: &mut S, node: Handle, value: i64) -> Result<Option<Val>, Full>
    requires { IsNode (S.state store.old) node over_five }
{
    evaluate(store, &Expr::Occ(0), &[Val::Int(value)], node)
}

#[test]
fn a_sum_over_the_leaf(rt: HostRuntime) -> Result<(), Fail> {
    let sum = operation(rt.alloc(), Op::Add, leaf(), number(2))?;
    let (value, _) = value_and_rows(rt.alloc(), sum, 3)?;
    assert!(rt; value == Some(Val::Int(7)));
    Ok(())
}

/// Five times 2^63 - 1 is 2^63 - 5 and twice 2^64.
#[test]
fn a_product_wraps(rt: HostRuntime) -> Result<(), Fail> {
    let product = operation(rt.alloc(), Op::Mul, leaf(), number(i64::MAX))?;
    let (value, _) = value_and_rows(rt.alloc(), product, 3)?;
    assert!(rt; value == Some(Val::Int(9_223_372_036_854_775_803)));
    Ok(())
}

#[test]
fn five_is_not_less_than_two(rt: HostRuntime) -> Result<(), Fail> {
    let less = operation(rt.alloc(), Op::Less, leaf(), number(2))?;
    let (value, _) = value_and_rows(rt.alloc(), less, 3)?;
    assert!(rt; value == Some(Val::Bool(false)));
    Ok(())
}

#[test]
fn a_truth_value_is_no_summand(rt: HostRuntime) -> Result<(), Fail> {
    let sum = operation(rt.alloc(), Op::Add, truth(true), number(1))?;
    let (value, _) = value_and_rows(rt.alloc(), sum, 3)?;
    assert!(rt; value.is_none());
    Ok(())
}

/// A name of two bytes takes two rows, beside the three of the node: its one word, and the pair of that.
#[test]
fn a_name_equals_itself(rt: HostRuntime) -> Result<(), Fail> {
    let same = same_names(rt.alloc(), b"ab", b"ab")?;
    let (value, rows) = value_and_rows(rt.alloc(), same, 5)?;
    assert!(rt; value == Some(Val::Bool(true)));
    assert_eq!(rt; rows, 5);
    Ok(())
}

#[test]
fn two_names_differ(rt: HostRuntime) -> Result<(), Fail> {
    let same = same_names(rt.alloc(), b"ab", b"ba")?;
    let (value, rows) = value_and_rows(rt.alloc(), same, 7)?;
    assert!(rt; value == Some(Val::Bool(false)));
    assert_eq!(rt; rows, 7);
    Ok(())
}

#[test]
fn the_branch_not_taken_makes_nothing(rt: HostRuntime) -> Result<(), Fail> {
    let other = num(rt.alloc(), number(9))?;
    let chosen = first_chosen(rt.alloc(), 1, other)?;
    let (value, rows) = value_and_rows(rt.alloc(), chosen, 16)?;
    assert!(rt; value == Some(Val::Int(1)));
    assert_eq!(rt; rows, 3);
    Ok(())
}

#[test]
fn an_occurrence_has_its_value(rt: HostRuntime) -> Result<(), Fail> {
    let (mut store, node) = store_with_five(rt.alloc(), 3)?;
    let value = occurrence(&mut store, node, 40).ok();
    assert!(rt; value == Some(Some(Val::Int(40))));
    Ok(())
}
