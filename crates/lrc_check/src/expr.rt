ghost use Rattle.std.specs.Prelude.{◌≡◌, ◌&&◌, None, Some, map, cond, find, bytes_eq};
ghost use Rattle.std.specs.Option.{option_copied};
ghost use Rattle.lrc_fault_meaning.specs.Faults.{wrong_kind, target_fault, checked, both_are_numbers, operated, choice, constructed, are_right, found_of, expr_faults, same_kind};
ghost use Rattle.lrc_check.specs.Verdict.{verdict, Finds, FindsAll, kids_of, is_of_kind};

use crate::fault::{GrammarFault, GrammarKind};
use crate::kind::same_kind;
use crate::names::prod_named;
use crate::reading::{read_alone, read_of};
use crate::scope::Scope;
use crate::target::Target;
use lrc_base::{NameText, Op, RawExpr, RawKid, RawKind, RawProd};
use sqlite_items::at;

/// The kind that a node gives where its parts are right.
fn checked(
    place: NameText,
    target: &Target,
    right: bool,
    gives: RawKind,
) -> Result<RawKind, GrammarFault>
    ensures { Finds (checked (target_fault wrong_kind place target.now) right gives) result }
{
    if right {
        Ok(gives)
    } else {
        Err(GrammarFault::at(GrammarKind::WrongKind, place, target))
    }
}

/// Whether both kinds are `Int`.
fn are_numbers(left: RawKind, right: RawKind) -> bool
    ensures { result ≡ both_are_numbers left right }
{
    same_kind(left, RawKind::Int) && same_kind(right, RawKind::Int)
}

/// `+ - *` take numbers and give a number, `<` takes numbers, `==` two of one kind.
fn operated(
    place: NameText,
    target: &Target,
    op: Op,
    left: RawKind,
    right: RawKind,
) -> Result<RawKind, GrammarFault>
    ensures { Finds (operated (target_fault wrong_kind place target.now) op left right) result }
{
    match op {
        Op::Add | Op::Sub | Op::Mul => {
            checked(place, target, are_numbers(left, right), RawKind::Int)
        }
        Op::Less => checked(place, target, are_numbers(left, right), RawKind::Bool),
        Op::Equal => checked(place, target, same_kind(left, right), RawKind::Bool),
    }
}

/// A condition takes a truth value, and two of one kind.
fn chosen(
    place: NameText,
    target: &Target,
    condition: RawKind,
    then: RawKind,
    other: RawKind,
) -> Result<RawKind, GrammarFault>
    ensures { Finds (choice (target_fault wrong_kind place target.now) (Some condition) (Some then) (Some other)) result }
{
    let is_truth = same_kind(condition, RawKind::Bool);
    let agree = same_kind(then, other);
    checked(place, target, is_truth && agree, then)
}

/// The children of a production; none where there is no production.
fn kids_of(prod: Option<&RawProd>) -> &[RawKid]
    ensures { result.now ≡ kids_of (option_copied prod.entry) }
{
    match prod {
        Some(prod) => prod.kids.as_slice(),
        None => &[],
    }
}

/// Whether there is a child, and it is of this kind.
fn is_of_kind(kid: Option<&RawKid>, kind: RawKind) -> bool
    ensures { result ≡ is_of_kind (option_copied kid.entry) kind }
{
    match kid {
        Some(kid) => same_kind(kind, kid.kind),
        None => false,
    }
}

/// The kind of an expression, or the first fault in it: of the parts of a node from left to right,
/// and then of the node. The target is named where kinds do not agree.
#[cycle(expr)]
#[tactic(auto, using(crate::proofs::FoundLemmas::found_equations))]
pub fn expr_kind(
    scope: &Scope<'_>,
    target: &Target,
    expr: &RawExpr,
) -> Result<RawKind, GrammarFault>
    ensures { Finds (found_of scope.now.grammar scope.now.prod (target_fault wrong_kind scope.now.prod.name target.now) expr.now) result }
{
    match expr {
        RawExpr::Int(_) => Ok(RawKind::Int),
        RawExpr::Bool(_) => Ok(RawKind::Bool),
        RawExpr::Name(_) => Ok(RawKind::Name),
        RawExpr::One(name) => read_alone(scope, *name),
        RawExpr::Two(owner, name) => read_of(scope, *owner, *name),
        RawExpr::Op(op, left, right) => {
            let left = expr_kind(scope, target, left.get())?;
            let right = expr_kind(scope, target, right.get())?;
            operated(scope.place(), target, *op, left, right)
        }
        RawExpr::If(condition, then, other) => {
            let condition = expr_kind(scope, target, condition.get())?;
            let then = expr_kind(scope, target, then.get())?;
            let other = expr_kind(scope, target, other.get())?;
            chosen(scope.place(), target, condition, then, other)
        }
        RawExpr::Make(name, args) => {
            let found = prod_named(scope.prods(), *name);
            let right = are_args_right(scope, target, args.as_slice(), kids_of(found))?;
            match found {
                None => Err(GrammarFault::new(GrammarKind::Unknown, scope.place(), *name)),
                Some(prod) => checked(scope.place(), target, right, RawKind::Named(prod.left)),
            }
        }
    }
}

/// Whether the arguments are as many as the children and of their kinds, or the first fault in them.
#[cycle(expr)]
fn are_args_right(
    scope: &Scope<'_>,
    target: &Target,
    args: &[RawExpr],
    kids: &[RawKid],
) -> Result<bool, GrammarFault>
    ensures { FindsAll (map (found_of scope.now.grammar scope.now.prod (target_fault wrong_kind scope.now.prod.name target.now)) args.now) kids.now result }
{
    let mut right = args.len() == kids.len();
    for (i, arg) in args.iter().enumerate() {
        let kind = match expr_kind(scope, target, arg) {
            Err(fault) => return Err(fault),
            Ok(kind) => kind,
        };
        let agrees = is_of_kind(at(kids, i), kind);
        right = right && agrees;
    }
    Ok(right)
}

/// The expression of an equation whose target is of this kind.
pub fn check_expr(
    scope: &Scope<'_>,
    target: &Target,
    kind: RawKind,
    expr: &RawExpr,
) -> Result<(), GrammarFault>
    ensures { result ≡ verdict (expr_faults scope.now.grammar scope.now.prod (target_fault wrong_kind scope.now.prod.name target.now) kind expr.now) }
{
    let found = expr_kind(scope, target, expr)?;
    if same_kind(found, kind) {
        Ok(())
    } else {
        Err(GrammarFault::at(GrammarKind::WrongKind, scope.place(), target))
    }
}
