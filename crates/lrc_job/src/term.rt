ghost use Rattle.std.specs.Prelude.{◌≡◌, IfOk};
ghost use Rattle.lrc_meaning.specs.Tree.{tree};
ghost use Rattle.lrc_job.specs.TermLaws.{NamesFitting};
ghost use Rattle.lrc_job.specs.Resolved.{resolved, IsResolved};

use crate::found::{Found, found_of};
use crate::term_fault::TermFault;
use lrc_base::{Kind, RawTerm, Term};
use lrc_grammar::Grammar;
use std::alloc::Global;

/// The term that is written, with its kind, over a grammar's productions.
///
/// Nodes are examined children first, from left to right, and then the node. Time is linear in the
/// term, but for the search of a production by its name; it needs no stack for the term's height.
///
/// # Errors
///
/// At the first node at fault: no production has its name; else the number of its children differs;
/// else a child has another kind, the first such. Want of memory.
pub fn resolve(alloc: Global, grammar: &Grammar, raw: &RawTerm) -> Result<(Kind, Term), TermFault>
    ensures found { IsResolved grammar.now.prods (resolved grammar.now.prods raw.now) result }
    ensures fitting { IfOk result (λ t. NamesFitting grammar.now.prods raw.now (tree t.1) t.0) }
{
    let Found { build, kinds } = found_of(alloc, grammar.prods.as_slice(), raw.items().as_slice())?;
    let kind = kinds[0];
    match build.finish() {
        Some(term) => Ok((kind, term)),
        None => unreachable!(),
    }
}
