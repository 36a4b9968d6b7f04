ghost use Rattle.std.specs.Prelude.{◌≡◌, ◌-◌, ◌<◌, ◌^◌, ℕ, suc, List, length, IfOk, OnErr};
ghost use Rattle.lrc_meaning.specs.Grammar as meaning;
ghost use Rattle.lrc_order_meaning.specs.declared.Partition.{Partition};
ghost use Rattle.lrc_grammar.specs.Grammar.{grammar_of};
ghost use Rattle.lrc_visit_meaning.specs.Values.{Call};
ghost use Rattle.lrc_visit_meaning.specs.Demand.{reach};
ghost use Rattle.lrc_store.specs.Words.{Gains, LacksOne};
ghost use Rattle.lrc_call_meaning.specs.Reached.{cells_of};
ghost use Rattle.lrc_functions.specs.declared.function.Operation.TheVariants as operation;
ghost use Rattle.lrc_bodies.specs.Bodies.{IsMeaningOf, Runs};
ghost use Rattle.lrc_bodies.specs.Counting.{IsWhole};
ghost use Rattle.lrc_bodies.specs.Advancing.{IsAtEnd, EndsWith, Faces, Advances, MovesOn, CountsOn};

use crate::mark::Mark;
use crate::remembered::VisitMeaning;
use lrc_eval::Val;
use lrc_frames::{evaluate_into, finish, make_call};
use lrc_functions::{Callee, Function, Functions, Operation};
use lrc_machine::Moved;
use lrc_store::{Full, Handle, Store};

/// Evaluates an occurrence by the equation of this number, and goes on behind it.
///
/// # Errors
///
/// Full, only where all rows are used and a cell of what the call meets is in none.
fn evaluate_next<St: Store>(
    functions: &Functions,
    store: &mut St,
    frame: &mut [Val],
    mark: Mark,
    occurrence: u32,
    equation: Option<usize>,
) -> Result<Moved<Mark>, Full>
    requires { (fuel : ℕ) × (c : Call) × Faces (grammar_of functions.now.plan.grammar) functions.now.plan.parts.sorts functions.now.productions (St.state store.old) frame.old fuel c mark (operation.Eval occurrence equation) }
    ensures advances { (fuel : ℕ) (c : Call) → Faces (grammar_of functions.now.plan.grammar) functions.now.plan.parts.sorts functions.now.productions (St.state store.old) frame.old fuel c mark (operation.Eval occurrence equation) → Advances (grammar_of functions.now.plan.grammar) functions.now.plan.parts.sorts functions.now.productions (St.state store.old) (St.state store.new) frame.new fuel c mark result }
    ensures room { length frame.new ≡ length frame.old }
    ensures same_meaning { St.meaning store.new ≡ St.meaning store.old }
{
    if !evaluate_into(store, functions, frame, mark.body, occurrence, equation)? {
        return Ok(Moved::Deep);
    }
    Ok(Moved::Went(Mark {
        at: mark.at + 1,
        ..mark
    }))
}

/// Makes the call of a visit of a symbol, and waits for its result.
///
/// # Errors
///
/// Full, only where all rows are used and a cell of what the call meets is in none.
fn visit_next<St: Store>(
    functions: &Functions,
    store: &mut St,
    frame: &[Val],
    mark: Mark,
    callee: &Callee,
) -> Result<Moved<Mark>, Full>
    requires { (fuel : ℕ) × (c : Call) × Faces (grammar_of functions.now.plan.grammar) functions.now.plan.parts.sorts functions.now.productions (St.state store.old) frame.now fuel c mark (operation.Visit callee.now) }
    ensures advances { (fuel : ℕ) (c : Call) → Faces (grammar_of functions.now.plan.grammar) functions.now.plan.parts.sorts functions.now.productions (St.state store.old) frame.now fuel c mark (operation.Visit callee.now) → Advances (grammar_of functions.now.plan.grammar) functions.now.plan.parts.sorts functions.now.productions (St.state store.old) (St.state store.new) frame.now fuel c mark result }
    ensures same_meaning { St.meaning store.new ≡ St.meaning store.old }
{
    match make_call(store, functions, frame, mark.body, callee)? {
        Some(call) => Ok(Moved::Asked(mark, call)),
        None => Ok(Moved::Deep),
    }
}

/// Makes the result of a body at its end, and remembers it.
///
/// # Errors
///
/// Full, only where all rows are used and a cell of what the call meets is in none.
fn end_body<St: Store<M = VisitMeaning>>(
    store: &mut St,
    frame: &[Val],
    function: &Function,
    mark: Mark,
) -> Result<Handle, Full>
    requires { (g : meaning.Grammar) × (parts : List Partition) × (fuel : ℕ) × (c : Call) × IsAtEnd g parts (St.state store.old) frame.now fuel c mark function.now (St.meaning store.old) }
    ensures ends { (g : meaning.Grammar) (parts : List Partition) (fuel : ℕ) (c : Call) → IsAtEnd g parts (St.state store.old) frame.now fuel c mark function.now (St.meaning store.old) → EndsWith g parts (St.state store.old) (St.state store.new) fuel c result }
    ensures same_meaning { St.meaning store.new ≡ St.meaning store.old }
{
    let _ = store.published();
    let outcome = finish(store, frame, function, mark.height + 1)?;
    store.remember(mark.call, outcome);
    Ok(outcome)
}

/// Does the next action of a body that stands at a level, and so has fuel level + 1, or ends it.
///
/// # Errors
///
/// Full, only where all rows are used and a cell of what the call meets is in none.
pub fn advance_body<St: Store<M = VisitMeaning>>(
    functions: &Functions,
    store: &mut St,
    frame: &mut [Val],
    level: u32,
    mark: Mark,
) -> Result<Moved<Mark>, Full>
    requires meaning { IsMeaningOf functions.now (St.meaning store.old) }
    requires low { level < 2 ^ 32 - 1 }
    requires body { (c : Call) × Runs (grammar_of functions.now.plan.grammar) functions.now.plan.parts.sorts (St.state store.old) frame.old level c mark }
    ensures gains { (c : Call) → Runs (grammar_of functions.now.plan.grammar) functions.now.plan.parts.sorts (St.state store.old) frame.old level c mark → Gains (St.state store.old) (St.state store.new) (cells_of (reach (grammar_of functions.now.plan.grammar) functions.now.plan.parts.sorts (suc level) c)) }
    ensures moves { (c : Call) → Runs (grammar_of functions.now.plan.grammar) functions.now.plan.parts.sorts (St.state store.old) frame.old level c mark → IfOk result (MovesOn (grammar_of functions.now.plan.grammar) functions.now.plan.parts.sorts functions.now.productions (St.state store.new) frame.new level c mark) }
    ensures full { (c : Call) → Runs (grammar_of functions.now.plan.grammar) functions.now.plan.parts.sorts (St.state store.old) frame.old level c mark → OnErr result (LacksOne (St.state store.new) (cells_of (reach (grammar_of functions.now.plan.grammar) functions.now.plan.parts.sorts (suc level) c))) }
    ensures counts { (c : Call) → Runs (grammar_of functions.now.plan.grammar) functions.now.plan.parts.sorts (St.state store.old) frame.old level c mark → IfOk result (CountsOn (St.state store.old) (St.state store.new) c) }
    ensures wholes { (c : Call) → Runs (grammar_of functions.now.plan.grammar) functions.now.plan.parts.sorts (St.state store.old) frame.old level c mark → IsWhole (grammar_of functions.now.plan.grammar) functions.now.plan.parts.sorts (St.state store.old).memo → IsWhole (grammar_of functions.now.plan.grammar) functions.now.plan.parts.sorts (St.state store.new).memo }
    ensures room { length frame.new ≡ length frame.old }
    ensures same_meaning { St.meaning store.new ≡ St.meaning store.old }
{
    let function = functions.function(mark.body.production, mark.body.visit);
    let operations = function.operations.as_slice();
    if operations.len() <= mark.at {
        return Ok(Moved::Ended(end_body(store, frame, function, mark)?));
    }
    match &operations[mark.at] {
        Operation::Eval(occurrence, equation) => {
            evaluate_next(functions, store, frame, mark, *occurrence, *equation)
        }
        Operation::Visit(callee) => visit_next(functions, store, frame, mark, callee),
    }
}
