//! Expressions over a node `Num(n)`, by their parts.

ghost use Rattle.std.specs.Prelude.{IfOk};
ghost use Rattle.lrc_meaning.specs.Expression.{expression};
ghost use Rattle.lrc_visit_tests.specs.Nodes.{ReadsNum};

use crate::nodes::NUM;
use lrc_base::{Boxed, Expr, List, NameText, Op};
use std::alloc::Global;
use std::test::Fail;

/// The production of a node over two nodes.
const ADD: u32 = 1;

/// The number of the node, `n`.
pub(crate) fn leaf() -> Expr
    ensures { ReadsNum (expression result) }
{
    Expr::Leaf(0)
}

/// A number.
pub(crate) fn number(value: i64) -> Expr
    ensures { ReadsNum (expression result) }
{
    Expr::Int(value)
}

/// A truth value.
pub(crate) fn truth(value: bool) -> Expr
    ensures { ReadsNum (expression result) }
{
    Expr::Bool(value)
}

/// A name literal of these bytes, which are a name.
fn name(bytes: &[u8]) -> Result<Expr, Fail>
    ensures { IfOk result (λ expr. ReadsNum (expression expr)) }
{
    Ok(Expr::Name(NameText::of(bytes).ok_or("no name")?))
}

/// `left op right`
pub(crate) fn operation(alloc: Global, op: Op, left: Expr, right: Expr) -> Result<Expr, Fail>
    requires left { ReadsNum (expression left) }
    requires right { ReadsNum (expression right) }
    ensures { IfOk result (λ expr. ReadsNum (expression expr)) }
{
    Ok(Expr::Op(op, Boxed::new(alloc, left)?, Boxed::new(alloc, right)?))
}

/// `'left == 'right`, of two names.
pub(crate) fn same_names(alloc: Global, left: &[u8], right: &[u8]) -> Result<Expr, Fail>
    ensures { IfOk result (λ expr. ReadsNum (expression expr)) }
{
    let left = name(left)?;
    let right = name(right)?;
    operation(alloc, Op::Equal, left, right)
}

/// `if true then number else other`
pub(crate) fn first_chosen(alloc: Global, number: i64, other: Expr) -> Result<Expr, Fail>
    requires { ReadsNum (expression other) }
    ensures { IfOk result (λ expr. ReadsNum (expression expr)) }
{
    Ok(Expr::If(
        Boxed::new(alloc, Expr::Bool(true))?,
        Boxed::new(alloc, Expr::Int(number))?,
        Boxed::new(alloc, other)?,
    ))
}

/// `Num(arg)`
pub(crate) fn num(alloc: Global, arg: Expr) -> Result<Expr, Fail>
    requires { ReadsNum (expression arg) }
    ensures { IfOk result (λ expr. ReadsNum (expression expr)) }
{
    Ok(Expr::Make(NUM, List::from_vec(vec![in alloc; arg]?)))
}

/// `Add(left, right)`
pub(crate) fn add(alloc: Global, left: Expr, right: Expr) -> Result<Expr, Fail>
    requires left { ReadsNum (expression left) }
    requires right { ReadsNum (expression right) }
    ensures { IfOk result (λ expr. ReadsNum (expression expr)) }
{
    Ok(Expr::Make(ADD, List::from_vec(vec![in alloc; left, right]?)))
}
