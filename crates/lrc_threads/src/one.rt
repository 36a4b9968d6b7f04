//! One session, over a pass of the table that all share.
ghost use Rattle.std.specs.Prelude.{◌∷◌, [], IsTrue, IfOk};
ghost use Rattle.lrc_order_meaning.specs.Ordered.{HasOrder};
ghost use Rattle.lrc_session.specs.Sessions.{grammar};
ghost use Rattle.lrc_bodies.specs.Bodies.{IsMeaningOf};
ghost use Rattle.lrc_job.specs.Fitting.{script_fits};
ghost use Rattle.lrc_table.specs.Passes.{IsOf};
ghost use Rattle.lrc_table.specs.Standings.{standing};
ghost use Rattle.lrc_threads.specs.Halves.{IsReady, IsPlayed, Answers};

use crate::outs::{Played, Sizes};
use lrc_base::{Memory, Script};
use lrc_bodies::VisitMeaning;
use lrc_functions::Functions;
use lrc_memo::SharedStore;
use lrc_run::{Gate, Out, Ticket, play, runs_out_of_rows};
use lrc_store::Store;
use lrc_table::{Pass, Table};
use std::alloc::Global;

/// Plays the session with this number by a pass with rows for it, which comes back.
fn play_alone<G: Gate>(
    alloc: Global,
    table: &Table<VisitMeaning>,
    functions: &Functions,
    sizes: Sizes,
    gate: &G,
    pass: Pass<VisitMeaning>,
    script: &Script,
    number: u32,
) -> (Result<Out, Memory>, Pass<VisitMeaning>)
    requires meaning { IsMeaningOf functions.now table.now.meaning }
    requires ready { IsReady sizes.rows table.now pass 1 }
    requires fits { IsTrue (script_fits functions.now.plan.grammar.prods functions.now.plan.grammar.start script.now) }
    ensures is_of { IsOf result.1 table.now }
    ensures played { HasOrder (grammar functions.now) functions.now.plan.parts → IfOk result.0 (IsPlayed functions.now sizes (standing result.1.view) script.now) }
{
    runs_out_of_rows();
    let ticket = Ticket {
        gate,
        session: number,
    };
    let mut store = SharedStore::new(table, pass);
    let _rows = store.published();
    let out = play(alloc, &ticket, &mut store, functions, sizes.depth, script);
    (out, store.into_pass())
}

/// What the session with this number is answered, and its pass.
pub(crate) fn one_session<G: Gate>(
    alloc: Global,
    table: &Table<VisitMeaning>,
    functions: &Functions,
    sizes: Sizes,
    gate: &G,
    pass: Pass<VisitMeaning>,
    script: &Script,
    number: u32,
) -> (Result<Played, Memory>, Pass<VisitMeaning>)
    requires meaning { IsMeaningOf functions.now table.now.meaning }
    requires ready { IsReady sizes.rows table.now pass 1 }
    requires fits { IsTrue (script_fits functions.now.plan.grammar.prods functions.now.plan.grammar.start script.now) }
    ensures is_of { IsOf result.1 table.now }
    ensures answers { IfOk result.0 (Answers functions.now sizes (standing result.1.view) (script.now ∷ [])) }
{
    let (out, pass) = play_alone(alloc, table, functions, sizes, gate, pass, script, number);
    (Played::of(alloc, out), pass)
}
