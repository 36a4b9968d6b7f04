//! Sessions in a row, by halves, each half on a thread of its own.
ghost use Rattle.std.specs.Prelude.{◌+◌, ◌*◌, ◌≤◌, ◌^◌, length, IfOk};
ghost use Rattle.std.specs.Thread.{IsSync};
ghost use Rattle.lrc_bodies.specs.Bodies.{IsMeaningOf};
ghost use Rattle.lrc_table.specs.Passes.{IsOf};
ghost use Rattle.lrc_table.specs.Standings.{standing};
ghost use Rattle.lrc_threads.specs.Halves.{IsReady, AreFitting, Answers};

use crate::one::one_session;
use crate::outs::{Played, Sizes};
use lrc_base::{Memory, Script};
use lrc_bodies::VisitMeaning;
use lrc_functions::Functions;
use lrc_run::Gate;
use lrc_table::{Pass, Table};
use std::alloc::Global;
use std::thread::{Threads, join};

/// A pass with rows for the last of the sessions that a pass has rows for; that one keeps the rows for
/// the others.
fn split_off(
    table: &Table<VisitMeaning>,
    rows: u32,
    pass: &mut Pass<VisitMeaning>,
    left: usize,
    right: usize,
) -> Pass<VisitMeaning>
    requires ready { IsReady rows table.now pass.old (left + right) }
    requires few { rows * (left + right) ≤ 2 ^ 24 }
    requires some { 1 ≤ rows }
    ensures kept { IsReady rows table.now pass.new left }
    ensures given { IsReady rows table.now result right }
{
    pass.split(table, rows * right as u32)
}

/// Plays at most 64 sessions, the first of which has this number, by a pass with rows for each of them,
/// which comes back and knows their last trees.
#[cycle(session_runs)]
pub(crate) fn session_runs<R: Threads + Sync, G: Gate + Sync>(
    rt: &R,
    alloc: Global,
    table: &Table<VisitMeaning>,
    functions: &Functions,
    sizes: Sizes,
    gate: &G,
    mut pass: Pass<VisitMeaning>,
    scripts: &[Script],
    first: u32,
) -> (Result<Played, Memory>, Pass<VisitMeaning>)
    requires sync { IsSync R.row × IsSync G.row }
    requires meaning { IsMeaningOf functions.now table.now.meaning }
    requires ready { IsReady sizes.rows table.now pass (length scripts.now) }
    requires fits { AreFitting functions.now scripts.now }
    requires rows { sizes.rows * length scripts.now ≤ 2 ^ 24 }
    requires some { 1 ≤ length scripts.now }
    requires some_row { 1 ≤ sizes.rows }
    requires numbers { first + length scripts.now ≤ 65 }
    ensures is_of { IsOf result.1 table.now }
    ensures answers { IfOk result.0 (Answers functions.now sizes (standing result.1.view) scripts.now) }
{
    if scripts.len() == 1 {
        return one_session(
            alloc,
            table,
            functions,
            sizes,
            gate,
            pass,
            &scripts[0],
            first,
        );
    }
    let (left, right) = scripts.split_at(scripts.len() / 2);
    let other = split_off(table, sizes.rows, &mut pass, left.len(), right.len());
    let next = first + left.len() as u32;
    let ((one, mut pass), (two, other)) = join(
        rt,
        move || -> (Result<Played, Memory>, Pass<VisitMeaning>)
            requires sync { IsSync R.row × IsSync G.row }
            requires meaning { IsMeaningOf functions.now table.now.meaning }
            requires ready { IsReady sizes.rows table.now pass (length left.now) }
            requires fits { AreFitting functions.now left.now }
            requires rows { sizes.rows * length left.now ≤ 2 ^ 24 }
            requires some { 1 ≤ length left.now }
            requires some_row { 1 ≤ sizes.rows }
            requires numbers { first + length left.now ≤ 65 }
            ensures is_of { IsOf result.1 table.entry.now }
            ensures answers { IfOk result.0 (Answers functions.entry.now sizes (standing result.1.view) left.entry.now) }
        { session_runs(rt, alloc, table, functions, sizes, gate, pass, left, first) },
        move || -> (Result<Played, Memory>, Pass<VisitMeaning>)
            requires sync { IsSync R.row × IsSync G.row }
            requires meaning { IsMeaningOf functions.now table.now.meaning }
            requires ready { IsReady sizes.rows table.now other (length right.now) }
            requires fits { AreFitting functions.now right.now }
            requires rows { sizes.rows * length right.now ≤ 2 ^ 24 }
            requires some { 1 ≤ length right.now }
            requires some_row { 1 ≤ sizes.rows }
            requires numbers { next + length right.now ≤ 65 }
            ensures is_of { IsOf result.1 table.entry.now }
            ensures answers { IfOk result.0 (Answers functions.entry.now sizes (standing result.1.view) right.entry.now) }
        { session_runs(rt, alloc, table, functions, sizes, gate, other, right, next) },
    );
    pass.meet(table, other);
    (Played::joined(one, two), pass)
}
