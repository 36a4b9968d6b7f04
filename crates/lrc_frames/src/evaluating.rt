ghost use Rattle.std.specs.Prelude.{◌≡◌, length};
ghost use Rattle.lrc_grammar.specs.Grammar.{grammar_of};
ghost use Rattle.lrc_frames.specs.Frames.{Run};
ghost use Rattle.lrc_frames.specs.Steps.{Evaluates};
ghost use Rattle.lrc_frames.specs.Writing.{CanEvaluate};

use crate::body::Body;
use lrc_eval::{Val, evaluate};
use lrc_functions::Functions;
use lrc_store::{Full, Store};

/// Evaluates an occurrence of the body's production by the equation of this number, and puts its value
/// into the frame; whether it has one. It has none where there is no equation, or where an operator or a
/// condition meets a value of another kind.
///
/// # Errors
///
/// Full, only where all rows are used and a part of what the equation builds is in none.
pub fn evaluate_into<St: Store>(
    store: &mut St,
    functions: &Functions,
    frame: &mut [Val],
    body: Body,
    occurrence: u32,
    equation: Option<usize>,
) -> Result<bool, Full>
    requires { (r : Run) × CanEvaluate (grammar_of functions.now.plan.grammar) functions.now.plan.parts.sorts (St.state store.old) frame.old body occurrence equation r }
    ensures evaluates { (r : Run) → CanEvaluate (grammar_of functions.now.plan.grammar) functions.now.plan.parts.sorts (St.state store.old) frame.old body occurrence equation r → Evaluates (grammar_of functions.now.plan.grammar) functions.now.plan.parts.sorts (St.state store.old) (St.state store.new) frame.new body r occurrence result }
    ensures room { length frame.new ≡ length frame.old }
    ensures same_meaning { St.meaning store.new ≡ St.meaning store.old }
{
    let Some(number) = equation else {
        return Ok(false);
    };
    let production = &functions.plan.grammar.prods.as_slice()[body.production as usize];
    let equation = &production.equations.as_slice()[number];
    let Some(value) = evaluate(store, &equation.expr, frame, body.tree)? else {
        return Ok(false);
    };
    frame[occurrence as usize] = value;
    Ok(true)
}
