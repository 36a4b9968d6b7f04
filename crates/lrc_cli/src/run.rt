ghost use Rattle.std.specs.Prelude.{◌≡◌, ◌≢◌, ◌≤◌, ◌*◌, ◌⊎◌, ◌<◌, ℕ, List, [], ◌∷◌, length, map, IfOk, IfErr};
ghost use Rattle.lrc_grammar.specs.Grammar.{grammar_of};
ghost use Rattle.lrc_job.specs.Job.{session};
ghost use Rattle.lrc_words.specs.declared.command.Verb.TheVariants as v;
ghost use Rattle.lrc_words.specs.CommandLine.{IsWithinRanges};
ghost use Rattle.lrc_failures.specs.declared.failure.Failure.TheVariants as f;
ghost use Rattle.lrc_cli.specs.Headline.{IsOrderedBy, HasRoom, HaveRoom, IsRunOf, IsRunWithRoom, IsSoloOf, IsSoloWithRoom, IsSummaryWithRoom, IsSummaryOf};
ghost use Rattle.lrc_cli.specs.Causes.{row_limit, IsCause};
ghost use Rattle.lrc_cli.specs.Running.{AreOutsOf};

use crate::job::job_of;
use crate::prepared::prepared;
use crate::summary::summary_text;
use crate::text::{counted_text, sessions_text};
use lrc_base::{Bytes, Memory, Script};
use lrc_failures::Failure;
use lrc_functions::Functions;
use lrc_gen::gen_job;
use lrc_gen_laws::{generated_grammar_is_ordered, generated_job_is_accepted};
use lrc_job::Accepted;
use lrc_laws::attribution_is_unique;
use lrc_plan::Plan;
use lrc_reader::one_job;
use lrc_run::{OpenGate, run_solo};
use lrc_threads::{Outs, Sizes, run_sessions};
use lrc_words::Command;
use std::alloc::Global;
use std::thread::Threads;

/// What the sessions of a job are answered over one table, by the plan of its grammar.
///
/// # Errors
///
/// Want of memory.
fn outs_of<R: Threads + Sync>(
    rt: &R,
    alloc: Global,
    command: &Command,
    accepted: &Accepted,
    plan: Plan,
) -> Result<Outs, Memory>
    requires within { IsWithinRanges command.now }
    requires rows { command.now.rows * length accepted.now.sessions ≤ row_limit }
    requires few { length accepted.now.sessions ≤ 64 }
    requires grammar { grammar_of plan.grammar ≡ grammar_of accepted.now.grammar }
    requires parts { IsOrderedBy (grammar_of accepted.now.grammar) plan.parts }
    ensures { IfOk result (AreOutsOf (grammar_of accepted.now.grammar) plan.parts command.now.rows command.now.depth (map session accepted.now.sessions)) }
{
    let functions = Functions::new(alloc, plan)?;
    let sizes = Sizes {
        rows: command.rows,
        memo: command.memo,
        depth: command.depth,
    };
    let sessions = accepted.sessions.as_slice();
    run_sessions(rt, alloc, &functions, sessions, sizes, &OpenGate)
}

/// The text of a run of a job: a block of replies for each session, and then its final.
///
/// # Errors
///
/// The first fault of the text, then of the job, then that there are too many rows, and that its grammar is
/// not ordered; and want of memory.
pub fn run_text<R: Threads + Sync>(
    rt: &R,
    alloc: Global,
    command: &Command,
    bytes: &[u8],
) -> Result<Bytes, Failure>
    requires within { IsWithinRanges command.now }
    requires run { command.now.verb ≡ v.Run }
    ensures output { IfOk result (λ text. IsRunOf bytes.now command.now.rows command.now.depth text) }
    ensures cause { IfErr result (IsCause command.now bytes.now) }
{
    let job = job_of(alloc, bytes)?;
    let (accepted, plan) = prepared(alloc, command, &job)?;
    let outs = outs_of(rt, alloc, command, &accepted, plan)?;
    Ok(sessions_text(alloc, &outs)?)
}

/// The one session of a job.
fn only_session(accepted: &Accepted) -> &Script
    requires { length accepted.now.sessions ≡ 1 }
    ensures { accepted.now.sessions ≡ result.now ∷ [] }
{
    let [script] = accepted.sessions.as_slice() else {
        unreachable!()
    };
    script
}

/// The text of a run of the one session of a job over a store of its own, with counts.
///
/// # Errors
///
/// The first fault of the text, then of the job, then that there are too many rows, that there is another
/// number of sessions, and that its grammar is not ordered; and want of memory.
pub fn solo_text(alloc: Global, command: &Command, bytes: &[u8]) -> Result<Bytes, Failure>
    requires within { IsWithinRanges command.now }
    requires solo { command.now.verb ≡ v.Solo }
    ensures output { IfOk result (λ text. IsSoloOf bytes.now command.now.rows command.now.depth text) }
    ensures cause { IfErr result (IsCause command.now bytes.now) }
{
    let job = job_of(alloc, bytes)?;
    let (accepted, plan) = prepared(alloc, command, &job)?;
    let functions = Functions::new(alloc, plan)?;
    let script = only_session(&accepted);
    let (out, _store) = run_solo(alloc, &functions, script, command.rows, command.depth)?;
    Ok(counted_text(alloc, &out)?)
}

/// The summary of a run of a generated job.
///
/// # Errors
///
/// That there are too many rows, and want of memory.
pub fn generated_text<R: Threads + Sync>(
    rt: &R,
    alloc: Global,
    command: &Command,
) -> Result<Bytes, Failure>
    requires within { IsWithinRanges command.now }
    requires generated { command.now.verb ≡ v.Gen }
    ensures output { IfOk result (λ text. IsSummaryOf command.now text) }
    ensures cause { IfErr result (λ failure. ((failure ≡ f.TooManyRows) × (row_limit < command.now.rows * command.now.sessions)) ⊎ (failure ≡ f.Memory)) }
{
    generated_job_is_accepted();
    generated_grammar_is_ordered();
    let job = gen_job(alloc, command.seed, command.nodes, command.sessions)?;
    let (accepted, plan) = prepared(alloc, command, &job)?;
    let outs = outs_of(rt, alloc, command, &accepted, plan)?;
    Ok(summary_text(alloc, &outs)?)
}

/// The text of a run where no reply is `full` is fixed by the bytes of the job and the most nodes on a
/// path, whatever the rows: the bytes denote one job, and each of its sessions has one list of replies. With
/// counts it is so too, by the partitions of the grammar, from which these are read off; and the summary of a
/// generated job by its seed and its numbers.
pub fn one_text()
    ensures one { (bytes text other : List ℕ) (depth : ℕ) → IsRunWithRoom bytes depth text → IsRunWithRoom bytes depth other → text ≡ other }
    ensures room { (bytes text : List ℕ) (rows depth : ℕ) (is : IsRunOf bytes rows depth text) → HaveRoom is.run.replies → IsRunWithRoom bytes depth text }
    ensures one_solo { (bytes text other : List ℕ) (depth : ℕ) (is : IsSoloWithRoom bytes depth text) (again : IsSoloWithRoom bytes depth other) → is.run.parts.sorts ≡ again.run.parts.sorts → text ≡ other }
    ensures solo_room { (bytes text : List ℕ) (rows depth : ℕ) (is : IsSoloOf bytes rows depth text) → HasRoom is.run.replies → IsSoloWithRoom bytes depth text }
    ensures one_summary { (seed nodes sessions depth : ℕ) (text other : List ℕ) → IsSummaryWithRoom seed nodes sessions depth text → IsSummaryWithRoom seed nodes sessions depth other → text ≡ other }
{
    one_job();
    attribution_is_unique();
}
