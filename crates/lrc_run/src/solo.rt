ghost use Rattle.std.specs.Prelude.{◌≡◌, ◌≤◌, ◌^◌, IsTrue, IfOk};
ghost use Rattle.lrc_order_meaning.specs.Ordered.{HasOrder};
ghost use Rattle.lrc_grammar.specs.Grammar.{grammar_of};
ghost use Rattle.lrc_store.specs.Standing.{IsSound};
ghost use Rattle.lrc_plain.specs.Plain.{state_of, meaning_of, IsNew};
ghost use Rattle.lrc_bodies.specs.Bodies.{IsMeaningOf};
ghost use Rattle.lrc_job.specs.Fitting.{script_fits};
ghost use Rattle.lrc_run.specs.Solo.{IsSolo};

use crate::gate::{OpenGate, Ticket};
use crate::playing::play;
use crate::reply::Out;
use lrc_base::{Memory, Script};
use lrc_bodies::VisitMeaning;
use lrc_functions::Functions;
use lrc_plain::PlainStore;
use lrc_store::Store;
use std::alloc::Global;

/// A store with so many rows for the visits of a plan, in which nothing is yet.
fn own_store(
    alloc: Global,
    functions: &Functions,
    rows: u32,
) -> Result<PlainStore<VisitMeaning>, Memory>
    requires some { 1 ≤ rows }
    requires limit { rows ≤ 2 ^ 24 }
    ensures new { IfOk result (λ store. IsNew (state_of store) rows × IsSound (state_of store)) }
    ensures meaning { IfOk result (λ store. IsMeaningOf functions.now (meaning_of store)) }
{
    let meaning = VisitMeaning::new(alloc, functions.plan())?;
    let store = PlainStore::with_meaning(alloc, meaning, rows)?;
    let _made = store.published();
    Ok(store)
}

/// Plays a session over a store of its own with so many rows, from 1 to 16,777,216, and hands the
/// store back.
///
/// # Errors
///
/// Want of memory.
pub fn run_solo(
    alloc: Global,
    functions: &Functions,
    script: &Script,
    rows: u32,
    depth: u32,
) -> Result<(Out, PlainStore<VisitMeaning>), Memory>
    requires some { 1 ≤ rows }
    requires limit { rows ≤ 2 ^ 24 }
    requires fits { IsTrue (script_fits functions.now.plan.grammar.prods functions.now.plan.grammar.start script.now) }
    ensures solo { HasOrder (grammar_of functions.now.plan.grammar) functions.now.plan.parts → IfOk result (λ run. IsSolo functions.now depth rows script.now run.0 (state_of run.1)) }
{
    let mut store = own_store(alloc, functions, rows)?;
    let ticket = Ticket {
        gate: &OpenGate,
        session: 1,
    };
    let out = play(alloc, &ticket, &mut store, functions, depth, script)?;
    Ok((out, store))
}
