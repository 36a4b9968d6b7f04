//! An expression whose kinds are right always has a value.

ghost use Rattle.std.specs.Prelude.{◌≡◌, IfOk, pos};
ghost use Rattle.lrc_base.specs.declared.expr.Op.TheVariants as o;
ghost use Rattle.lrc_meaning.specs.Tree.{int};
ghost use Rattle.lrc_meaning.specs.Expression.{expression, binary, leaf, literal};
ghost use Rattle.lrc_eval.specs.Evaluating.{IsNode};
ghost use Rattle.lrc_visit_tests.specs.Nodes.{over_five};

use crate::nodes::store_with_five;
use lrc_base::{Boxed, Expr, Op};
use lrc_eval::{Val, eval};
use lrc_store::{Full, Handle, Store};
use std::alloc::Global;
use std::test::Fail;

/// `n + 2`
#[tactic(auto, using(lrc_meaning::proofs::ExpressionLemmas::expression_equations))]
fn two_more(alloc: Global) -> Result<Expr, Fail>
    ensures { IfOk result (λ expr. expression expr ≡ binary o.Add (leaf 0) (literal (int (pos 2)))) }
{
    let number = Boxed::new(alloc, Expr::Leaf(0))?;
    Ok(Expr::Op(Op::Add, number, Boxed::new(alloc, Expr::Int(2))?))
}

/// What `n + 2` gives over the node `Num(5)`.
fn evaluated<S: Store>(store: &mut S, expr: &Expr, node: Handle) -> Result<Val, Full>
    requires node { IsNode (S.state store.old) node over_five }
    requires expression { expression expr.now ≡ binary o.Add (leaf 0) (literal (int (pos 2))) }
{
    eval(store, expr, &[], node)
}

/// The same in a store of three rows; none where it is full.
fn value(alloc: Global) -> Result<Option<Val>, Fail> {
    let sum = two_more(alloc)?;
    let (mut store, node) = store_with_five(alloc, 3)?;
    Ok(evaluated(&mut store, &sum, node).ok())
}

#[test]
fn two_more_than_five(rt: HostRuntime) -> Result<(), Fail> {
    let value = value(rt.alloc())?;
    assert!(rt; value == Some(Val::Int(7)));
    Ok(())
}
