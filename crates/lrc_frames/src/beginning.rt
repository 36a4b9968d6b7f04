ghost use Rattle.std.specs.Prelude.{◌≡◌, ◌≤◌, ℕ, List, length, Contains};
ghost use Rattle.lrc_base.specs.declared.grammar.Production as production;
ghost use Rattle.lrc_meaning.specs.Tree.{Trees};
ghost use Rattle.lrc_meaning.specs.Grammar as meaning;
ghost use Rattle.lrc_grammar.specs.Grammar.{grammar_of};
ghost use Rattle.lrc_order_meaning.specs.declared.Partition.{Partition};
ghost use Rattle.lrc_visit_meaning.specs.Values.{Call};
ghost use Rattle.lrc_store.specs.Standing.{Stands};
ghost use Rattle.lrc_store.specs.Words.{Reads};
ghost use Rattle.lrc_code.specs.Forms.{tree_cell};
ghost use Rattle.lrc_call_meaning.specs.Forms.{call_form};
ghost use Rattle.lrc_call_meaning.specs.Spelled.{IsSpelledCall};
ghost use Rattle.lrc_frames.specs.Beginning.{IsOfNodeIf, HandsIn, HandedIf};
ghost use Rattle.lrc_frames.specs.Steps.{BeginsIf};

use crate::bindings::fill_each;
use crate::body::Body;
use crate::filling::fill;
use crate::nodes::{are_of_kinds, node_of};
use crate::reading::Reading;
use lrc_code::{CallParts, call_parts};
use lrc_eval::Val;
use lrc_functions::{Function, Functions};
use lrc_plan::{Plan, visits_of};
use lrc_store::{Handle, Store};

/// The production of the node that a call visits; none where the tree is no node of a production that
/// is there, the visit is none of its left side's, or the children are not as many as declared, or not
/// of their kinds.
fn visited_production<St: Store>(
    store: &mut St,
    plan: &Plan,
    tree: Handle,
    visit: u32,
) -> Option<u32>
    requires { (c : Call) × Stands (St.state store.old) tree.0 (tree_cell c.tree) }
    ensures visited { (c : Call) → Stands (St.state store.old) tree.0 (tree_cell c.tree) → visit ≡ c.visit → IsOfNodeIf (grammar_of plan.now.grammar) plan.now.parts.sorts c result }
    ensures reads { Reads (St.state store.old) (St.state store.new) }
    ensures same_meaning { St.meaning store.new ≡ St.meaning store.old }
{
    let prods = plan.grammar.prods.as_slice();
    let node = node_of(store, prods, tree)?;
    let production = &prods[node.production as usize];
    if visit == 0 || visits_of(plan.parts.sorts(), production.left) < visit {
        return None;
    }
    if are_of_kinds(store, prods, production.kids.as_slice(), node.kids) {
        Some(node.production)
    } else {
        None
    }
}

/// Puts what a call hands in into the frame, for the function of its visit over so many occurrences;
/// whether it hands in as much as the function takes.
fn hand_in<St: Store>(
    store: &mut St,
    frame: &mut [Val],
    function: &Function,
    occurrences: usize,
    lists: &CallParts,
) -> bool
    requires { (g : meaning.Grammar) × (parts : List Partition) × (body : Body) × (p : production.Production) × (kids : Trees) × (c : Call) × HandsIn g parts (St.state store.old) frame.old body p kids c function.now occurrences lists.now }
    ensures handed { (g : meaning.Grammar) (parts : List Partition) (body : Body) (p : production.Production) (kids : Trees) (c : Call) → HandsIn g parts (St.state store.old) frame.old body p kids c function.now occurrences lists.now → HandedIf g parts (St.state store.new) frame.new body p kids c result }
    ensures room { length frame.new ≡ length frame.old }
    ensures reads { Reads (St.state store.old) (St.state store.new) }
    ensures same_meaning { St.meaning store.new ≡ St.meaning store.old }
{
    let values = function.inherited.as_slice();
    if !fill(store, frame, values, lists.inherited, Reading::Values) {
        return false;
    }
    let items = function.earlier.as_slice();
    fill_each(
        store,
        frame,
        items,
        lists.bindings,
        Reading::Either(occurrences),
    )
}

/// The body of a call at its start, over a frame that is filled with what the call hands in; None where
/// the call visits no node, or is none.
pub fn begin<St: Store>(
    store: &mut St,
    functions: &Functions,
    frame: &mut [Val],
    call: Handle,
) -> Option<Body>
    requires call { (c : Call) × IsSpelledCall c × Stands (St.state store.old) call.0 (call_form c) }
    requires room { (n : ℕ) → Contains functions.now.counts n → n ≤ length frame.old }
    ensures begins { (c : Call) → IsSpelledCall c → Stands (St.state store.old) call.0 (call_form c) → BeginsIf (grammar_of functions.now.plan.grammar) functions.now.plan.parts.sorts (St.state store.new) frame.new c result }
    ensures room { length frame.new ≡ length frame.old }
    ensures reads { Reads (St.state store.old) (St.state store.new) }
    ensures same_meaning { St.meaning store.new ≡ St.meaning store.old }
{
    let parts = call_parts(store, call);
    let plan = &functions.plan;
    let Some(production) = visited_production(store, plan, parts.tree, parts.visit) else {
        return None;
    };
    let function = functions.function(production, parts.visit);
    let occurrences = plan.grammar.signature(production).occurrences.len();
    if !hand_in(store, frame, function, occurrences, &parts) {
        return None;
    }
    Some(Body {
        production,
        visit: parts.visit,
        tree: parts.tree,
    })
}
