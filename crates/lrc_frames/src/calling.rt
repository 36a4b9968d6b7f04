ghost use Rattle.std.specs.Prelude.{◌≡◌, ℕ};
ghost use Rattle.lrc_grammar.specs.Grammar.{grammar_of};
ghost use Rattle.lrc_meaning.specs.Tree.{Tree};
ghost use Rattle.lrc_store.specs.Standing.{Standing, IsKnown};
ghost use Rattle.lrc_store.specs.Words.{Reads};
ghost use Rattle.lrc_eval.specs.Values.{Means};
ghost use Rattle.lrc_frames.specs.Frames.{Run};
ghost use Rattle.lrc_frames.specs.Steps.{Calls};
ghost use Rattle.lrc_frames.specs.Writing.{StandsAt, FindsTree, FindsNode, CanCall};

use crate::body::Body;
use crate::items::put_items;
use crate::nodes::is_of_kind;
use lrc_base::{Kind, Origin, Production};
use lrc_code::{kid_of, put_call};
use lrc_eval::Val;
use lrc_functions::{Callee, Functions};
use lrc_store::{Full, Handle, Store};

/// The handle that a value is; None where it is a number or a truth value.
fn handle_in(value: Val) -> Option<Handle>
    ensures { (s : Standing) (t : Tree) → Means s value t → FindsTree s t result }
{
    let Val::Ref(handle) = value else {
        return None;
    };
    Some(handle)
}

/// The tree at an origin; None where it is a number or a truth value of an occurrence.
fn origin_tree<St: Store>(
    store: &mut St,
    frame: &[Val],
    body: Body,
    origin: Origin,
) -> Option<Handle>
    requires known { IsKnown (St.state store.old) body.tree.0 }
    requires tree { (t : Tree) × StandsAt (St.state store.old) frame.now body origin t }
    ensures finds { (t : Tree) → StandsAt (St.state store.old) frame.now body origin t → FindsTree (St.state store.new) t result }
    ensures reads { Reads (St.state store.old) (St.state store.new) }
    ensures same_meaning { St.meaning store.new ≡ St.meaning store.old }
{
    match origin {
        Origin::Child(number) => Some(kid_of(store, body.tree, number)),
        Origin::Value(occurrence) => handle_in(frame[occurrence as usize]),
    }
}

/// The tree of a symbol, where it is a node of the symbol's sort.
fn symbol_tree<St: Store>(
    store: &mut St,
    prods: &[Production],
    frame: &[Val],
    body: Body,
    callee: &Callee,
) -> Option<Handle>
    requires known { IsKnown (St.state store.old) body.tree.0 }
    requires tree { (t : Tree) × StandsAt (St.state store.old) frame.now body callee.now.tree t }
    ensures finds { (t : Tree) → StandsAt (St.state store.old) frame.now body callee.now.tree t → FindsNode prods.now (St.state store.new) callee.now.sort t result }
    ensures reads { Reads (St.state store.old) (St.state store.new) }
    ensures same_meaning { St.meaning store.new ≡ St.meaning store.old }
{
    let tree = origin_tree(store, frame, body, callee.tree)?;
    if is_of_kind(store, prods, tree, Kind::Sort(callee.sort)) {
        Some(tree)
    } else {
        None
    }
}

/// A handle of the call of a visit of a symbol; None where the symbol's tree is no node of its sort, and
/// then no cell is made.
///
/// # Errors
///
/// Full, only where all rows are used and a part of the call is in none.
pub fn make_call<St: Store>(
    store: &mut St,
    functions: &Functions,
    frame: &[Val],
    body: Body,
    callee: &Callee,
) -> Result<Option<Handle>, Full>
    requires { (r : Run) × (n : ℕ) × (v : ℕ) × CanCall (grammar_of functions.now.plan.grammar) functions.now.plan.parts.sorts (St.state store.old) frame.now body callee.now r n v }
    ensures calls { (r : Run) (n v : ℕ) → CanCall (grammar_of functions.now.plan.grammar) functions.now.plan.parts.sorts (St.state store.old) frame.now body callee.now r n v → Calls (grammar_of functions.now.plan.grammar) functions.now.plan.parts.sorts (St.state store.old) (St.state store.new) r n v result }
    ensures same_meaning { St.meaning store.new ≡ St.meaning store.old }
{
    let prods = functions.plan.grammar.prods.as_slice();
    let Some(tree) = symbol_tree(store, prods, frame, body, callee) else {
        return Ok(None);
    };
    let inherited = put_items(store, frame, callee.inherited.as_slice())?;
    let bindings = put_items(store, frame, callee.earlier.as_slice())?;
    Ok(Some(put_call(store, tree, callee.visit, inherited, bindings)?))
}
