ghost use Rattle.std.specs.Prelude.{◌≡◌, map};
ghost use Rattle.lrc_meaning.specs.Tree.{Tree};
ghost use Rattle.lrc_meaning.specs.Expression.{expression, binary, choice, make, expression_row};
ghost use Rattle.lrc_store.specs.Standing.{IsKnown, meant};
ghost use Rattle.lrc_store.specs.Words.{Reads};
ghost use Rattle.lrc_code.specs.Forms.{tree_cell};
ghost use Rattle.lrc_code.specs.Reading.{HasKid};
ghost use Rattle.lrc_eval.specs.Values.{Means};
ghost use Rattle.lrc_eval.specs.Evaluating.{Inputs, AreGiven, AreGivenForEach, NamesValue, Evaluates, EvaluatesEach};

use crate::operators::operated;
use crate::values::{Val, empty_list, value_handle, value_of_handle};
use lrc_base::{Expr, NameText, Op};
use lrc_call_meaning::name_is_spelled;
use lrc_code::{kid_of, put_list, put_name, put_node};
use lrc_store::{Full, Handle, Store};

/// The value of the leaf that is the child of this number, from 0, of a node.
fn leaf_value<St: Store>(store: &mut St, node: Handle, i: u32) -> Val
    requires known { IsKnown (St.state store.old) node.0 }
    requires leaf { (t : Tree) × HasKid (meant (St.state store.old) node.0) i (tree_cell t) }
    ensures means { (t : Tree) → HasKid (meant (St.state store.old) node.0) i (tree_cell t) → Means (St.state store.new) result t }
    ensures reads { Reads (St.state store.old) (St.state store.new) }
    ensures same_meaning { St.meaning store.new ≡ St.meaning store.old }
{
    let leaf = kid_of(store, node, i);
    value_of_handle(store, leaf)
}

/// The value that a name is: a handle of its cell.
fn name_value<St: Store>(store: &mut St, name: &NameText) -> Result<Val, Full>
    ensures names { NamesValue (St.state store.old) (St.state store.new) name.now result }
    ensures same_meaning { St.meaning store.new ≡ St.meaning store.old }
{
    name_is_spelled(name);
    Ok(Val::Ref(put_name(store, name)?))
}

/// The value of an expression over the values of the occurrences, by number, and the children of the
/// node that the handle stands for; none where an operator or a condition meets a value of another
/// kind. Each occurrence that the expression reads, in any branch, is set, and each leaf that it reads
/// is a child whose kind is no sort.
///
/// Of a choice only the branch that is taken is evaluated. All arguments of a node are evaluated before
/// a cell of their list is made.
///
/// # Errors
///
/// Full, only where all rows are used and a part of what the expression builds is in none.
#[cycle(evaluate)]
pub fn evaluate<St: Store>(
    store: &mut St,
    expr: &Expr,
    values: &[Val],
    node: Handle,
) -> Result<Option<Val>, Full>
    requires given { (x : Inputs) × AreGiven (St.state store.old) values.now node x (expression expr.now) }
    ensures evaluates { (x : Inputs) → AreGiven (St.state store.old) values.now node x (expression expr.now) → Evaluates (St.state store.old) (St.state store.new) x (expression expr.now) result }
    ensures same_meaning { St.meaning store.new ≡ St.meaning store.old }
{
    match expr {
        Expr::Int(number) => Ok(Some(Val::Int(*number))),
        Expr::Bool(b) => Ok(Some(Val::Bool(*b))),
        Expr::Name(name) => Ok(Some(name_value(store, name)?)),
        Expr::Occ(i) => Ok(Some(values[*i as usize])),
        Expr::Leaf(i) => Ok(Some(leaf_value(store, node, *i))),
        Expr::Op(op, left, right) => operation(store, *op, left.get(), right.get(), values, node),
        Expr::If(condition, then, other) => {
            chosen(
                store,
                condition.get(),
                then.get(),
                other.get(),
                values,
                node,
            )
        }
        Expr::Make(production, args) => made(store, *production, args.as_slice(), values, node),
    }
}

/// What an operator gives of two expressions.
#[cycle(evaluate)]
fn operation<St: Store>(
    store: &mut St,
    op: Op,
    left: &Expr,
    right: &Expr,
    values: &[Val],
    node: Handle,
) -> Result<Option<Val>, Full>
    requires given { (x : Inputs) × AreGiven (St.state store.old) values.now node x (binary op (expression left.now) (expression right.now)) }
    ensures evaluates { (x : Inputs) → AreGiven (St.state store.old) values.now node x (binary op (expression left.now) (expression right.now)) → Evaluates (St.state store.old) (St.state store.new) x (binary op (expression left.now) (expression right.now)) result }
    ensures same_meaning { St.meaning store.new ≡ St.meaning store.old }
{
    let Some(left) = evaluate(store, left, values, node)? else {
        return Ok(None);
    };
    let Some(right) = evaluate(store, right, values, node)? else {
        return Ok(None);
    };
    Ok(operated(store, op, left, right))
}

/// The value of the branch that the condition chooses; the other one is not evaluated.
#[cycle(evaluate)]
fn chosen<St: Store>(
    store: &mut St,
    condition: &Expr,
    then: &Expr,
    other: &Expr,
    values: &[Val],
    node: Handle,
) -> Result<Option<Val>, Full>
    requires given { (x : Inputs) × AreGiven (St.state store.old) values.now node x (choice (expression condition.now) (expression then.now) (expression other.now)) }
    ensures evaluates { (x : Inputs) → AreGiven (St.state store.old) values.now node x (choice (expression condition.now) (expression then.now) (expression other.now)) → Evaluates (St.state store.old) (St.state store.new) x (choice (expression condition.now) (expression then.now) (expression other.now)) result }
    ensures same_meaning { St.meaning store.new ≡ St.meaning store.old }
{
    let Some(condition) = evaluate(store, condition, values, node)? else {
        return Ok(None);
    };
    match condition {
        Val::Bool(true) => evaluate(store, then, values, node),
        Val::Bool(false) => evaluate(store, other, values, node),
        Val::Int(_) | Val::Ref(_) | Val::Unset => Ok(None),
    }
}

/// The node of a production whose children are the values of the arguments.
#[cycle(evaluate)]
fn made<St: Store>(
    store: &mut St,
    production: u32,
    args: &[Expr],
    values: &[Val],
    node: Handle,
) -> Result<Option<Val>, Full>
    requires given { (x : Inputs) × AreGiven (St.state store.old) values.now node x (make production (expression_row (map expression args.now))) }
    ensures evaluates { (x : Inputs) → AreGiven (St.state store.old) values.now node x (make production (expression_row (map expression args.now))) → Evaluates (St.state store.old) (St.state store.new) x (make production (expression_row (map expression args.now))) result }
    ensures same_meaning { St.meaning store.new ≡ St.meaning store.old }
{
    let Some(kids) = arguments(store, args, values, node)? else {
        return Ok(None);
    };
    Ok(Some(Val::Ref(put_node(store, production, kids)?)))
}

/// A handle of the list of the arguments' values. They are all evaluated before the last one is put.
#[cycle(evaluate)]
fn arguments<St: Store>(
    store: &mut St,
    args: &[Expr],
    values: &[Val],
    node: Handle,
) -> Result<Option<Handle>, Full>
    requires given { (x : Inputs) × AreGivenForEach (St.state store.old) values.now node x (expression_row (map expression args.now)) }
    ensures evaluates { (x : Inputs) → AreGivenForEach (St.state store.old) values.now node x (expression_row (map expression args.now)) → EvaluatesEach (St.state store.old) (St.state store.new) x (expression_row (map expression args.now)) result }
    ensures same_meaning { St.meaning store.new ≡ St.meaning store.old }
{
    let [first, rest @ ..] = args else {
        return Ok(Some(empty_list(store)));
    };
    let Some(value) = evaluate(store, first, values, node)? else {
        return Ok(None);
    };
    let Some(list) = arguments(store, rest, values, node)? else {
        return Ok(None);
    };
    let item = value_handle(store, value)?;
    Ok(Some(put_list(store, item, list)?))
}
