ghost use Rattle.std.specs.Prelude.{◌≡◌, IsTrue, IfOk, map};
ghost use Rattle.std.specs.List.{list_all};
ghost use Rattle.lrc_grammar.specs.Grammar.{grammar_of};
ghost use Rattle.lrc_job.specs.Fitting.{script_fits};
ghost use Rattle.lrc_job.specs.Job.{session, session_of, sessions_of, Agrees};

use crate::edits::edits_of;
use crate::fault::AcceptFault;
use crate::terms::opening;
use lrc_base::{List, RawScript, Script};
use lrc_grammar::Grammar;
use std::alloc::Global;

/// The session of this number: its tree, and then its edits.
fn session_of(
    alloc: Global,
    grammar: &Grammar,
    number: u32,
    raw: &RawScript,
) -> Result<Script, AcceptFault>
    ensures found { Agrees session (session_of (grammar_of grammar.now) number raw.now) result }
    ensures fitting { IfOk result (λ s. IsTrue (script_fits grammar.now.prods grammar.now.start s)) }
{
    let tree = opening(alloc, grammar, number, &raw.tree)?;
    let edits = edits_of(alloc, grammar, number, raw.edits.as_slice())?;
    Ok(Script { tree, edits })
}

/// The sessions, numbered from 1.
pub fn sessions_of(
    alloc: Global,
    grammar: &Grammar,
    raw: &[RawScript],
) -> Result<List<Script>, AcceptFault>
    ensures found { Agrees (map session) (sessions_of (grammar_of grammar.now) 1 raw.now) result }
    ensures fitting { IfOk result (λ made. IsTrue (list_all (script_fits grammar.now.prods grammar.now.start) made)) }
{
    let mut sessions = List::new(alloc);
    let mut number = 1_u32;
    for script in raw {
        let made = session_of(alloc, grammar, number, script)?;
        sessions.push(made)?;
        number = number.saturating_add(1);
    }
    Ok(sessions)
}
