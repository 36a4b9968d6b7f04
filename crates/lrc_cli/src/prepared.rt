ghost use Rattle.std.specs.Prelude.{◌≡◌, ◌≢◌, ◌↔◌, ◌<◌, ◌≤◌, ◌*◌, false, length, map, Ok, IsTrue, IfOk, IfErr, OnOk, MatchBool};
ghost use Rattle.lrc_meaning.specs.Limits.{KeepsLimits};
ghost use Rattle.lrc_grammar.specs.Grammar.{grammar_of};
ghost use Rattle.lrc_job.specs.Job.{session, HasSessions};
ghost use Rattle.lrc_words.specs.declared.command.Verb.TheVariants as v;
ghost use Rattle.lrc_cli.specs.Causes.{row_limit, RunsSessions, TakesSessions, KeepsRows, IsCountFault, IsJobCause};
ghost use Rattle.lrc_cli.specs.Headline.{IsOrderedBy};

use crate::order::plan_of;
use lrc_base::Job;
use lrc_base::limits::ROW_LIMIT;
use lrc_failures::Failure;
use lrc_job::{Accepted, accept};
use lrc_plan::Plan;
use lrc_words::{Command, Verb};
use std::alloc::Global;

/// Whether sessions of so many rows each have more than a table has.
fn are_rows_too_many(rows: u32, sessions: usize) -> bool
    ensures { IsTrue result ↔ row_limit < rows * sessions }
{
    u64::from(rows).saturating_mul(sessions as u64) > u64::from(ROW_LIMIT)
}

/// Whether the command runs the sessions of a job.
fn runs_sessions(verb: Verb) -> bool
    ensures { MatchBool result (RunsSessions verb) (¬ RunsSessions verb) }
{
    match verb {
        Verb::Run | Verb::Solo | Verb::Gen => true,
        Verb::Check | Verb::Plan => false,
    }
}

/// Whether the command runs so many sessions, and their rows are too many.
fn has_many_rows(command: &Command, sessions: usize) -> bool
    ensures many { IsTrue result → RunsSessions command.now.verb × (row_limit < command.now.rows * sessions) }
    ensures few { result ≡ false → RunsSessions command.now.verb → command.now.rows * sessions ≤ row_limit }
{
    if !runs_sessions(command.verb) {
        return false;
    }
    are_rows_too_many(command.rows, sessions)
}

/// Whether the command runs one session, and there is another number of them.
fn takes_others(verb: Verb, sessions: usize) -> bool
    ensures { MatchBool result ((verb ≡ v.Solo) × (sessions ≢ 1)) (TakesSessions verb sessions) }
{
    verb == Verb::Solo && sessions != 1
}

/// Whether the command takes so many sessions.
///
/// # Errors
///
/// That their rows are too many, and then that the command takes one session.
fn takes(command: &Command, sessions: usize) -> Result<(), Failure>
    ensures rows { OnOk result (KeepsRows command.now sessions) }
    ensures fault { IfErr result (IsCountFault command.now sessions) }
{
    if has_many_rows(command, sessions) {
        return Err(Failure::TooManyRows);
    }
    if takes_others(command.verb, sessions) {
        return Err(Failure::NotOneSession);
    }
    Ok(())
}

/// A job that can be done: what is accepted of it, and the plan of its grammar.
///
/// # Errors
///
/// The first fault of the job, then that the command does not take so many sessions, and that the grammar is
/// not ordered; and want of memory.
pub fn prepared(alloc: Global, command: &Command, job: &Job) -> Result<(Accepted, Plan), Failure>
    requires { KeepsLimits job.now.grammar }
    ensures accepted { IfOk result (λ done. HasSessions job.now (grammar_of done.0.grammar) (Ok (map session done.0.sessions))) }
    ensures rows { IfOk result (λ done. KeepsRows command.now (length done.0.sessions)) }
    ensures grammar { IfOk result (λ done. grammar_of done.1.grammar ≡ grammar_of done.0.grammar) }
    ensures parts { IfOk result (λ done. IsOrderedBy (grammar_of done.0.grammar) done.1.parts) }
    ensures cause { IfErr result (IsJobCause command.now job.now) }
{
    let accepted = accept(alloc, job)?;
    let sessions = accepted.sessions.len();
    takes(command, sessions)?;
    let plan = plan_of(alloc, &accepted.grammar)?;
    Ok((accepted, plan))
}
