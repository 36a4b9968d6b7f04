ghost use Rattle.std.specs.Prelude.{◌≡◌, ◌↔◌, ◌≤◌, ℕ, suc, pos, None, IsTrue, length};
ghost use Rattle.lrc_grammar.specs.Grammar.{grammar_of};
ghost use Rattle.lrc_visit_meaning.specs.Values as plain;
ghost use Rattle.lrc_visit_meaning.specs.Values.{Call};
ghost use Rattle.lrc_visit_meaning.specs.Visits.{plain_visit};
ghost use Rattle.lrc_visit_meaning.specs.Demand.{reach};
ghost use Rattle.lrc_store.specs.Standing.{Stands};
ghost use Rattle.lrc_store.specs.Words.{Gains, Reads};
ghost use Rattle.lrc_call_meaning.specs.Forms.{call_form, result_form};
ghost use Rattle.lrc_call_meaning.specs.Reached.{cells_of};
ghost use Rattle.lrc_machine.specs.Steps.{Opens};
ghost use Rattle.lrc_machine.specs.Counts.{IsKept, IsMissed};
ghost use Rattle.lrc_machine.specs.declared.bodies.Opened.TheVariants as opened;
ghost use Rattle.lrc_bodies.specs.Bodies.{Asks, Gives, Runs, HasRoom, IsMeaningOf, left_at, most_left};

use crate::mark::Mark;
use crate::remembered::VisitMeaning;
use lrc_eval::Val;
use lrc_frames::begin;
use lrc_functions::Functions;
use lrc_machine::Opened;
use lrc_store::{Cell, Handle, Recall, Store};

/// The height of a result, of any height.
fn height_of<St: Store>(store: &mut St, outcome: Handle) -> i64
    requires result { (r : plain.Result) × Stands (St.state store.old) outcome.0 (result_form r) }
    ensures height { (r : plain.Result) → Stands (St.state store.old) outcome.0 (result_form r) → result ≡ pos r.height }
    ensures reads { Reads (St.state store.old) (St.state store.new) }
    ensures same_meaning { St.meaning store.new ≡ St.meaning store.old }
{
    let Cell::Pair(_, left, _) = store.look(outcome) else {
        unreachable!();
    };
    let Cell::Number(height) = store.look(left) else {
        unreachable!();
    };
    height
}

/// Whether a height is no more than level + 1.
fn is_low(height: i64, level: u32) -> bool
    ensures { (n : ℕ) → height ≡ pos n → IsTrue result ↔ (n ≤ suc level) }
{
    height <= i64::from(level) + 1
}

/// The body of a call at its start, over a frame that is filled for it; Deep where the call has no
/// result with any fuel.
fn start_body<St: Store>(
    functions: &Functions,
    store: &mut St,
    frame: &mut [Val],
    call: Handle,
) -> Opened<Mark>
    requires room { HasRoom functions.now.counts frame.old }
    requires call { (c : Call) × Asks (grammar_of functions.now.plan.grammar) functions.now.plan.parts.sorts (St.state store.old) c call.0 }
    ensures opens { (fuel : ℕ) (c : Call) → Asks (grammar_of functions.now.plan.grammar) functions.now.plan.parts.sorts (St.state store.old) c call.0 → Opens (Gives (grammar_of functions.now.plan.grammar) functions.now.plan.parts.sorts (St.state store.new) (suc fuel) c) (λ m. Runs (grammar_of functions.now.plan.grammar) functions.now.plan.parts.sorts (St.state store.new) frame.new fuel c m × (left_at functions.now.productions m ≤ most_left functions.now.productions)) (plain_visit (grammar_of functions.now.plan.grammar) functions.now.plan.parts.sorts (suc fuel) c ≡ None) result }
    ensures no_hit { (given : Handle) → ¬ (result ≡ opened.Hit given) }
    ensures room { length frame.new ≡ length frame.old }
    ensures reads { Reads (St.state store.old) (St.state store.new) }
    ensures same_meaning { St.meaning store.new ≡ St.meaning store.old }
{
    match begin(store, functions, frame, call) {
        Some(body) => Opened::Begun(Mark {
            call,
            body,
            at: 0,
            height: 0,
        }),
        None => Opened::Deep,
    }
}

/// Opens a call with fuel level + 1: what is remembered of it, or its body at the start.
pub fn open_body<St: Store<M = VisitMeaning>>(
    functions: &Functions,
    store: &mut St,
    frame: &mut [Val],
    level: u32,
    call: Handle,
) -> Opened<Mark>
    requires meaning { IsMeaningOf functions.now (St.meaning store.old) }
    requires room { HasRoom functions.now.counts frame.old }
    requires call { (c : Call) × Asks (grammar_of functions.now.plan.grammar) functions.now.plan.parts.sorts (St.state store.old) c call.0 }
    ensures gains { (c : Call) → Asks (grammar_of functions.now.plan.grammar) functions.now.plan.parts.sorts (St.state store.old) c call.0 → Gains (St.state store.old) (St.state store.new) (cells_of (reach (grammar_of functions.now.plan.grammar) functions.now.plan.parts.sorts (suc level) c)) }
    ensures opens { (c : Call) → Asks (grammar_of functions.now.plan.grammar) functions.now.plan.parts.sorts (St.state store.old) c call.0 → Opens (Gives (grammar_of functions.now.plan.grammar) functions.now.plan.parts.sorts (St.state store.new) (suc level) c) (λ m. Runs (grammar_of functions.now.plan.grammar) functions.now.plan.parts.sorts (St.state store.new) frame.new level c m × (left_at functions.now.productions m ≤ most_left functions.now.productions)) (plain_visit (grammar_of functions.now.plan.grammar) functions.now.plan.parts.sorts (suc level) c ≡ None) result }
    ensures counts { (c : Call) → Asks (grammar_of functions.now.plan.grammar) functions.now.plan.parts.sorts (St.state store.old) c call.0 → Opens (λ _. IsKept (St.state store.old) (St.state store.new)) (λ _. IsMissed (St.state store.old) (St.state store.new) (call_form c)) ((St.state store.new).memo ≡ (St.state store.old).memo) result }
    ensures room { length frame.new ≡ length frame.old }
    ensures same_meaning { St.meaning store.new ≡ St.meaning store.old }
{
    match store.recall(call) {
        Recall::Found(outcome) => {
            if is_low(height_of(store, outcome), level) {
                Opened::Hit(outcome)
            } else {
                Opened::Deep
            }
        }
        Recall::Missed(_) => start_body(functions, store, frame, call),
    }
}
