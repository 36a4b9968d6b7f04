ghost use Rattle.std.specs.Prelude.{◌≡◌, ◌<◌, ◌^◌, ℕ, suc, List, length};
ghost use Rattle.lrc_grammar.specs.Grammar.{grammar_of};
ghost use Rattle.lrc_visit_meaning.specs.Values.{Call};
ghost use Rattle.lrc_visit_meaning.specs.Demand.{reach};
ghost use Rattle.lrc_store.specs.Standing.{Standing};
ghost use Rattle.lrc_store.specs.Words.{Gains};
ghost use Rattle.lrc_call_meaning.specs.Reached.{cells_of};
ghost use Rattle.lrc_eval.specs.declared.values.Val as values;
ghost use Rattle.lrc_functions.specs.Functions.{callee_of};
ghost use Rattle.lrc_machine.specs.Counts.{IsKept};
ghost use Rattle.lrc_bodies.specs.Bodies.{Gives, Runs, WaitsAt, left_at};

use crate::mark::Mark;
use lrc_eval::Val;
use lrc_frames::take_result;
use lrc_functions::{Callee, Functions, Operation};
use lrc_store::{Handle, Store};

/// The visit of a symbol at which a body waits.
fn visit_at(functions: &Functions, mark: Mark) -> &Callee
    requires { (s : Standing) × (frame : List values.Val) × (fuel : ℕ) × (c : Call) × (d : Call) × WaitsAt (grammar_of functions.now.plan.grammar) functions.now.plan.parts.sorts s frame fuel c mark d }
    ensures place { mark.at < 2 ^ 63 }
    ensures callee { (s : Standing) (frame : List values.Val) (fuel : ℕ) (c d : Call) (w : WaitsAt (grammar_of functions.now.plan.grammar) functions.now.plan.parts.sorts s frame fuel c mark d) → result.now ≡ callee_of (grammar_of functions.now.plan.grammar).sorts functions.now.plan.parts.sorts w.run.production w.symbol w.visit_there }
{
    let function = functions.function(mark.body.production, mark.body.visit);
    match &function.operations.as_slice()[mark.at] {
        Operation::Visit(callee) => callee,
        Operation::Eval(..) => unreachable!(),
    }
}

/// The mark behind the visit for whose result a body waits, over a frame that has what the visit gave.
pub fn resume_body<St: Store>(
    functions: &Functions,
    store: &mut St,
    frame: &mut [Val],
    mark: Mark,
    given: Handle,
) -> Mark
    requires body { (fuel : ℕ) × (fuel < 2 ^ 32) × (c : Call) × (d : Call) × WaitsAt (grammar_of functions.now.plan.grammar) functions.now.plan.parts.sorts (St.state store.old) frame.old fuel c mark d × Gives (grammar_of functions.now.plan.grammar) functions.now.plan.parts.sorts (St.state store.old) fuel d given.0 }
    ensures gains { (fuel : ℕ) (c d : Call) → WaitsAt (grammar_of functions.now.plan.grammar) functions.now.plan.parts.sorts (St.state store.old) frame.old fuel c mark d → Gives (grammar_of functions.now.plan.grammar) functions.now.plan.parts.sorts (St.state store.old) fuel d given.0 → Gains (St.state store.old) (St.state store.new) (cells_of (reach (grammar_of functions.now.plan.grammar) functions.now.plan.parts.sorts (suc fuel) c)) }
    ensures runs { (fuel : ℕ) → fuel < 2 ^ 32 → (c d : Call) → WaitsAt (grammar_of functions.now.plan.grammar) functions.now.plan.parts.sorts (St.state store.old) frame.old fuel c mark d → Gives (grammar_of functions.now.plan.grammar) functions.now.plan.parts.sorts (St.state store.old) fuel d given.0 → Runs (grammar_of functions.now.plan.grammar) functions.now.plan.parts.sorts (St.state store.new) frame.new fuel c result × (left_at functions.now.productions result < left_at functions.now.productions mark) }
    ensures kept { IsKept (St.state store.old) (St.state store.new) }
    ensures room { length frame.new ≡ length frame.old }
    ensures same_meaning { St.meaning store.new ≡ St.meaning store.old }
{
    let callee = visit_at(functions, mark);
    let height = take_result(store, frame, callee, given);
    Mark {
        at: mark.at + 1,
        height: mark.height.max(height),
        ..mark
    }
}
