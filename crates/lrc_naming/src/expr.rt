ghost use Rattle.std.specs.Prelude.{◌≡◌, None, Some, map, option_map, IfOk};
ghost use Rattle.lrc_base.specs.declared.expr.Expr.TheVariants as e;
ghost use Rattle.lrc_meaning.specs.Naming.{occurrence_number, or_leaf, named_expr, each_some};
ghost use Rattle.lrc_naming.specs.Counted.{IsCounted};
ghost use Rattle.lrc_naming.specs.Names.{Names};

use crate::fault::NamingFault;
use crate::occurrence::{leaf_number, occurrence_number};
use crate::scope::Scope;
use crate::written::written_number;
use lrc_base::{Boxed, Expr, List, Memory, NameText, Op, RawExpr};
use std::alloc::Global;

/// A left attribute, a local or a nonterminal attribute, or else the leaf of this name.
fn named_one(scope: &Scope<'_>, name: NameText) -> Option<Expr>
    requires { IsCounted scope.now }
    ensures { result ≡ or_leaf scope.now.kids name (occurrence_number scope.now.occurrences None name) }
{
    match occurrence_number(scope.occurrences, None, name) {
        Some(number) => Some(Expr::Occ(number)),
        None => Some(Expr::Leaf(leaf_number(scope.kids, name)?)),
    }
}

/// The attribute of a symbol.
fn named_two(scope: &Scope<'_>, owner: NameText, name: NameText) -> Option<Expr>
    requires { IsCounted scope.now }
    ensures { result ≡ option_map e.Occ (occurrence_number scope.now.occurrences (Some owner) name) }
{
    Some(Expr::Occ(occurrence_number(scope.occurrences, Some(owner), name)?))
}

fn operated(alloc: Global, op: Op, left: Expr, right: Expr) -> Result<Expr, Memory>
    ensures { IfOk result (λ expr. expr ≡ e.Op op left right) }
{
    Ok(Expr::Op(op, Boxed::new(alloc, left)?, Boxed::new(alloc, right)?))
}

fn choice(alloc: Global, condition: Expr, then: Expr, other: Expr) -> Result<Expr, Memory>
    ensures { IfOk result (λ expr. expr ≡ e.If condition then other) }
{
    let condition = Boxed::new(alloc, condition)?;
    Ok(Expr::If(
        condition,
        Boxed::new(alloc, then)?,
        Boxed::new(alloc, other)?,
    ))
}

/// The expression that is written, by numbers.
///
/// # Errors
///
/// `Unnamed` where a name is unknown. Want of memory.
#[cycle(expr)]
#[tactic(auto, using(crate::proofs::NamingLemmas::named_expr_equations))]
pub fn named_expr(alloc: Global, scope: &Scope<'_>, raw: &RawExpr) -> Result<Expr, NamingFault>
    requires { IsCounted scope.now }
    ensures { Names result (named_expr scope.now raw.now) }
{
    match raw {
        RawExpr::Int(value) => Ok(Expr::Int(*value)),
        RawExpr::Bool(value) => Ok(Expr::Bool(*value)),
        RawExpr::Name(name) => Ok(Expr::Name(*name)),
        RawExpr::One(name) => named_one(scope, *name).ok_or(NamingFault::Unnamed),
        RawExpr::Two(owner, name) => named_two(scope, *owner, *name).ok_or(NamingFault::Unnamed),
        RawExpr::Op(op, left, right) => {
            let left = named_expr(alloc, scope, left.get())?;
            let right = named_expr(alloc, scope, right.get())?;
            Ok(operated(alloc, *op, left, right)?)
        }
        RawExpr::If(condition, then, other) => {
            let condition = named_expr(alloc, scope, condition.get())?;
            let then = named_expr(alloc, scope, then.get())?;
            let other = named_expr(alloc, scope, other.get())?;
            Ok(choice(alloc, condition, then, other)?)
        }
        RawExpr::Make(name, args) => {
            let number = written_number(scope.prods, *name).ok_or(NamingFault::Unnamed)?;
            let args = named_exprs(alloc, scope, args.as_slice())?;
            Ok(Expr::Make(number, args))
        }
    }
}

#[cycle(expr)]
#[tactic(auto, using(crate::proofs::NamingLemmas::named_expr_equations))]
fn named_exprs(alloc: Global, scope: &Scope<'_>, raw: &[RawExpr]) -> Result<List<Expr>, NamingFault>
    requires { IsCounted scope.now }
    ensures { Names result (each_some (map (named_expr scope.now) raw.now)) }
{
    let mut named = List::new(alloc);
    for part in raw {
        let expr = named_expr(alloc, scope, part)?;
        named.push(expr)?;
    }
    Ok(named)
}
