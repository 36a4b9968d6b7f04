ghost use Rattle.std.specs.Prelude.{◌≡◌, List};
ghost use Rattle.lrc_base.specs.declared.grammar.Kind.{Kind};
ghost use Rattle.lrc_base.specs.declared.grammar.Production.{Production};
ghost use Rattle.lrc_meaning.specs.Expression.{expression};
ghost use Rattle.lrc_meaning.specs.Grammar.{Occurrence};
ghost use Rattle.lrc_eval.specs.Evaluating.{Inputs};
ghost use Rattle.lrc_eval.specs.Kinds.{AreGivenOfKinds, EvaluatesTo};

use crate::expression::evaluate;
use crate::values::Val;
use lrc_base::Expr;
use lrc_store::{Full, Handle, Store};

/// The value of an expression whose kinds are right, which is of its kind: over the values of the
/// occurrences, by number, and the children of the node that the handle stands for. Each occurrence
/// that the expression reads, in any branch, is set.
///
/// # Errors
///
/// Full, only where all rows are used and a part of what the expression builds is in none.
pub fn eval<St: Store>(
    store: &mut St,
    expr: &Expr,
    values: &[Val],
    node: Handle,
) -> Result<Val, Full>
    requires given { (x : Inputs) × (prods : List Production) × (occurrences : List Occurrence) × (kind : Kind) × AreGivenOfKinds (St.state store.old) values.now node prods occurrences x (expression expr.now) kind }
    ensures evaluates { (x : Inputs) (prods : List Production) (occurrences : List Occurrence) (kind : Kind) → AreGivenOfKinds (St.state store.old) values.now node prods occurrences x (expression expr.now) kind → EvaluatesTo (St.state store.old) (St.state store.new) prods x (expression expr.now) kind result }
    ensures same_meaning { St.meaning store.new ≡ St.meaning store.old }
{
    match evaluate(store, expr, values, node)? {
        Some(value) => Ok(value),
        None => unreachable!(),
    }
}
