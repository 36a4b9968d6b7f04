ghost use Rattle.std.specs.Prelude.{◌≡◌, ◌≤◌, ◌*◌, ◌^◌, length, IsTrue, IfOk};
ghost use Rattle.std.specs.List.{list_all};
ghost use Rattle.lrc_order_meaning.specs.Ordered.{HasOrder};
ghost use Rattle.lrc_grammar.specs.Grammar.{grammar_of};
ghost use Rattle.lrc_job.specs.Fitting.{script_fits};
ghost use Rattle.lrc_threads.specs.Sessions.{AreAnswered};

use crate::finals::finals_of;
use crate::halves::session_runs;
use crate::outs::{Outs, Sizes};
use lrc_base::{List, Memory, Script};
use lrc_bodies::VisitMeaning;
use lrc_functions::Functions;
use lrc_run::Gate;
use lrc_table::Table;
use std::alloc::Global;
use std::thread::Threads;

/// Runs at most 64 sessions on threads over one table, in which each has so many rows. The gate is told of
/// each reply before it is computed.
///
/// # Errors
///
/// Want of memory.
pub fn run_sessions<R: Threads + Sync, G: Gate + Sync>(
    rt: &R,
    alloc: Global,
    functions: &Functions,
    sessions: &[Script],
    sizes: Sizes,
    gate: &G,
) -> Result<Outs, Memory>
    requires some_row { 1 ≤ sizes.rows }
    requires rows { sizes.rows * length sessions.now ≤ 2 ^ 24 }
    requires some_memo { 1 ≤ sizes.memo }
    requires memo { sizes.memo ≤ 2 ^ 24 }
    requires sessions { length sessions.now ≤ 64 }
    requires fits { IsTrue (list_all (script_fits functions.now.plan.grammar.prods functions.now.plan.grammar.start) sessions.now) }
    ensures answered { HasOrder (grammar_of functions.now.plan.grammar) functions.now.plan.parts → IfOk result (λ outs. AreAnswered functions.now sizes.depth sizes.rows sessions.now outs) }
{
    if sessions.is_empty() {
        return Ok(Outs {
            sessions: List::new(alloc),
            finals: List::new(alloc),
        });
    }
    let meaning = VisitMeaning::new(alloc, functions.plan())?;
    let count = sessions.len() as u32;
    let (table, pass) = Table::new(alloc, meaning, count, sizes.rows, sizes.memo)?;
    let (played, pass) = session_runs(rt, alloc, &table, functions, sizes, gate, pass, sessions, 1);
    let played = played?;
    let _rows = pass.published();
    let finals = finals_of(alloc, played.lasts.as_slice())?;
    Ok(Outs {
        sessions: played.sessions,
        finals,
    })
}
