ghost use Rattle.std.specs.Prelude.{◌≡◌, IsTrue, None, Some, Ok, IfOk, IfErr, map};
ghost use Rattle.std.specs.List.{list_all};
ghost use Rattle.lrc_meaning.specs.Limits.{KeepsLimits};
ghost use Rattle.lrc_meaning.specs.Naming.{named_grammar};
ghost use Rattle.lrc_fault_meaning.specs.Faults.{first_fault};
ghost use Rattle.lrc_grammar.specs.Grammar.{grammar_of};
ghost use Rattle.lrc_job.specs.Fitting.{script_fits};
ghost use Rattle.lrc_job.specs.Job.{session, HasSessions, IsFaultOf, IsGrammarFaultOf};

use crate::fault::AcceptFault;
use crate::sessions::sessions_of;
use lrc_base::{Job, List, RawGrammar, Script};
use lrc_check::{GrammarKind, check};
use lrc_grammar::Grammar;
use std::alloc::Global;

/// A job that is accepted: its grammar, and its sessions over it, whose trees fit the start sort and
/// whose puts have terms that fit the kinds beside them.
#[derive(Debug, Drop)]
pub struct Accepted {
    pub grammar: Grammar,
    pub sessions: List<Script>,
    pub ghost fitting: { IsTrue (list_all (script_fits grammar.prods grammar.start) sessions) },
}

/// The grammar of a job.
fn job_grammar(alloc: Global, raw: &RawGrammar) -> Result<Grammar, AcceptFault>
    requires { KeepsLimits raw.now }
    ensures ok { IfOk result (λ g. (first_fault raw.now ≡ None) × (named_grammar raw.now ≡ Some (grammar_of g))) }
    ensures err { IfErr result (IsGrammarFaultOf raw.now) }
{
    match check(alloc, raw) {
        Ok(grammar) => Ok(grammar),
        Err(fault) if fault.kind == GrammarKind::Memory => Err(AcceptFault::Memory),
        Err(fault) => Err(AcceptFault::Grammar(fault)),
    }
}

/// The job that is written, by numbers.
///
/// # Errors
///
/// The first fault: of the grammar, and else of its sessions in order, in each the fault of its tree,
/// that it is not of the start sort, and the faults of the terms of its edits. Want of memory.
pub fn accept(alloc: Global, job: &Job) -> Result<Accepted, AcceptFault>
    requires { KeepsLimits job.now.grammar }
    ensures ok { IfOk result (λ a. HasSessions job.now (grammar_of a.grammar) (Ok (map session a.sessions))) }
    ensures err { IfErr result (IsFaultOf job.now) }
{
    let grammar = job_grammar(alloc, &job.grammar)?;
    match sessions_of(alloc, &grammar, job.sessions.as_slice()) {
        Ok(sessions) => Ok(Accepted { grammar, sessions }),
        Err(fault) => Err(fault),
    }
}
