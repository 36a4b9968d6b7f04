ghost use Rattle.std.specs.Prelude.{◌≡◌, ◌≢◌, None, Some, option_map, IfOk, IfErr};
ghost use Rattle.lrc_meaning.specs.Limits.{KeepsLimits};
ghost use Rattle.lrc_meaning.specs.Naming.{named_grammar};
ghost use Rattle.lrc_grammar.specs.Grammar.{grammar_of};
ghost use Rattle.lrc_fault_meaning.specs.Faults as faults;
ghost use Rattle.lrc_check.specs.Verdict.{answered, no_memory};

use crate::fault::GrammarFault;
use crate::first::first_fault;
use lrc_base::{AllocError, Memory, RawGrammar};
use lrc_fault_laws::no_fault_is_well_formed;
use lrc_grammar::Grammar;
use lrc_naming::{NamingFault, named_grammar};
use std::alloc::Global;

/// The grammar that is written, where it has no fault.
fn faultless(alloc: Global, raw: &RawGrammar) -> Result<Grammar, Memory>
    requires limits { KeepsLimits raw.now }
    requires right { faults.first_fault raw.now ≡ None }
    ensures { IfOk result (λ g. named_grammar raw.now ≡ Some (grammar_of g)) }
{
    no_fault_is_well_formed();
    match named_grammar(alloc, raw) {
        Ok(numbered) => Grammar::of(alloc, numbered.sorts, numbered.prods, numbered.start),
        Err(NamingFault::Memory) => Err(AllocError),
        Err(NamingFault::Unnamed) => unreachable!(),
    }
}

/// The grammar that is written, each name by its number.
///
/// # Errors
///
/// The first fault: of sorts, of the heads of productions, of the start, of what productions
/// declare, of the items of each production, and of the equations that it lacks. Want of memory, which
/// stands at `start`.
pub fn check(alloc: Global, raw: &RawGrammar) -> Result<Grammar, GrammarFault>
    requires { KeepsLimits raw.now }
    ensures ok { IfOk result (λ g. (faults.first_fault raw.now ≡ None) × (named_grammar raw.now ≡ Some (grammar_of g))) }
    ensures err { IfErr result (λ fault. fault ≢ no_memory → option_map answered (faults.first_fault raw.now) ≡ Some fault) }
{
    if let Some(fault) = first_fault(alloc, raw)? {
        return Err(fault);
    }
    Ok(faultless(alloc, raw)?)
}
