ghost use Rattle.std.specs.Prelude.{◌≡◌, ◌≢◌, Ok, Some, Err, IsTrue, IfOk, MatchResult};
ghost use Rattle.lrc_meaning.specs.Tree.{tree, kind_of, fits};
ghost use Rattle.lrc_grammar.specs.Grammar.{grammar_of};
ghost use Rattle.lrc_job.specs.Resolved.{resolved, and_then};
ghost use Rattle.lrc_job.specs.declared.fault.AcceptFault.TheVariants as variant;
ghost use Rattle.lrc_job.specs.Job.{term_at, of_start, Agrees};

use crate::fault::AcceptFault;
use crate::term::resolve;
use crate::term_fault::TermFault;
use lrc_base::{Kind, RawTerm, Term};
use lrc_grammar::{Grammar, same_kind};
use std::alloc::Global;

/// The term at this edit of this session, with its kind.
pub fn term_at(
    alloc: Global,
    grammar: &Grammar,
    session: u32,
    edit: u32,
    raw: &RawTerm,
) -> Result<(Kind, Term), AcceptFault>
    ensures found { MatchResult result
        (λ t. (term_at session edit (resolved grammar.now.prods raw.now) ≡ Ok (tree t.1)) × (kind_of grammar.now.prods (tree t.1) ≡ Some t.0))
        (λ e. e ≢ variant.Memory → term_at session edit (resolved grammar.now.prods raw.now) ≡ Err e) }
    ensures fitting { IfOk result (λ t. IsTrue (fits grammar.now.prods (tree t.1) t.0)) }
{
    match resolve(alloc, grammar, raw) {
        Ok(found) => Ok(found),
        Err(TermFault::Memory) => Err(AcceptFault::Memory),
        Err(fault) => Err(AcceptFault::Term {
            session,
            edit,
            fault,
        }),
    }
}

/// The tree that a session opens with, which is of the start sort.
pub fn opening(
    alloc: Global,
    grammar: &Grammar,
    session: u32,
    raw: &RawTerm,
) -> Result<Term, AcceptFault>
    ensures found { Agrees tree (and_then (of_start (grammar_of grammar.now) session) (term_at session 0 (resolved grammar.now.prods raw.now))) result }
    ensures fitting { IfOk result (λ t. IsTrue (fits grammar.now.prods (tree t) (Kind.Sort grammar.now.start))) }
{
    let (kind, term) = term_at(alloc, grammar, session, 0, raw)?;
    if !same_kind(kind, Kind::Sort(grammar.start)) {
        return Err(AcceptFault::NotStart { session });
    }
    Ok(term)
}
