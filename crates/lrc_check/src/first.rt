ghost use Rattle.std.specs.Prelude.{◌≡◌, ◌++◌, [], map, flat_map, option_map, IfOk};
ghost use Rattle.lrc_base.specs.declared.raw.RawProd.{RawProd};
ghost use Rattle.lrc_fault_meaning.specs.Faults.{sort_faults, head_faults, start_faults, declaration_faults, body_faults, each_after, faults, first, first_fault};
ghost use Rattle.lrc_check.specs.Verdict.{verdict, answered, name_faults};

use crate::declarations::check_declarations;
use crate::declared::declared_by;
use crate::equations::check_items;
use crate::fault::GrammarFault;
use crate::heads::check_heads;
use crate::missing::check_missing;
use crate::scope::Scope;
use crate::sorts::check_sorts;
use crate::start::check_start;
use lrc_base::{Memory, RawGrammar, RawProd};
use std::alloc::Global;

/// The names that are declared: sorts, heads of productions, the start, and what productions declare.
#[tactic(auto, using(crate::proofs::ListLemmas::verdicts))]
fn check_names(raw: &RawGrammar) -> Result<(), GrammarFault>
    ensures { result ≡ verdict (name_faults raw.now) }
{
    let sorts = raw.sorts.as_slice();
    if let Err(fault) = check_sorts(sorts) {
        return Err(fault);
    }
    if let Err(fault) = check_heads(sorts, raw.prods.as_slice()) {
        return Err(fault);
    }
    if let Err(fault) = check_start(sorts, raw.start) {
        return Err(fault);
    }
    check_declarations(sorts, raw.prods.as_slice())
}

/// The items of a production, and then the equations that are missing.
#[tactic(auto, using(crate::proofs::ListLemmas::verdicts))]
fn check_body(scope: &Scope<'_>) -> Result<(), GrammarFault>
    ensures { result ≡ verdict (body_faults scope.now.grammar scope.now.prod) }
{
    if let Err(fault) = check_items(scope) {
        return Err(fault);
    }
    check_missing(scope)
}

/// The first fault in the body of a production.
#[tactic(auto, using(crate::proofs::ListLemmas::first_is))]
fn body_fault(
    alloc: Global,
    raw: &RawGrammar,
    prod: &RawProd,
) -> Result<Option<GrammarFault>, Memory>
    ensures { IfOk result (λ found. found ≡ option_map answered (first (body_faults raw.now prod.now))) }
{
    let declared = declared_by(alloc, prod.items.as_slice())?;
    let scope = Scope::new(raw, prod, declared.as_slice());
    match check_body(&scope) {
        Ok(()) => Ok(None),
        Err(fault) => Ok(Some(fault)),
    }
}

/// The first fault in the bodies of the productions.
#[tactic(auto, using(crate::proofs::ListLemmas::first_is))]
fn first_body_fault(alloc: Global, raw: &RawGrammar) -> Result<Option<GrammarFault>, Memory>
    ensures { IfOk result (λ found. found ≡ option_map answered (first (flat_map (body_faults raw.now) raw.now.prods))) }
{
    for prod in raw.prods.as_slice() {
        if let Some(fault) = body_fault(alloc, raw, prod)? {
            return Ok(Some(fault));
        }
    }
    Ok(None)
}

/// The first fault of a grammar as it is written; None where it has none.
///
/// The order is sorts, heads of productions, the start, what productions declare, and then the
/// items of each production and the equations that it lacks. Time is linear in what is written, but
/// for the search of names among those of a production, of sorts and of productions.
///
/// # Errors
///
/// Want of memory.
#[tactic(auto, using(crate::proofs::ListLemmas::first_is))]
pub fn first_fault(alloc: Global, raw: &RawGrammar) -> Result<Option<GrammarFault>, Memory>
    ensures { IfOk result (λ found. found ≡ option_map answered (first_fault raw.now)) }
{
    if let Err(fault) = check_names(raw) {
        return Ok(Some(fault));
    }
    first_body_fault(alloc, raw)
}
