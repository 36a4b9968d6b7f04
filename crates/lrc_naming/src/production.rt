ghost use Rattle.std.specs.Prelude.{◌≡◌, ◌≤◌, length, All};
ghost use Rattle.lrc_meaning.specs.Limits.{KeepsLimits};
ghost use Rattle.lrc_meaning.specs.Naming.{named_with, named_production};
ghost use Rattle.lrc_naming.specs.Counted.{HasFewAttrs, HasFewParts};
ghost use Rattle.lrc_naming.specs.Names.{Names};

use crate::equation::named_equations;
use crate::extra::named_extras;
use crate::fault::NamingFault;
use crate::kind::{named_kids, sort_number};
use crate::pattern::named_pattern;
use crate::scope::Scope;
use lrc_base::limits::{CHILD_LIMIT, LOCAL_LIMIT, PRODUCTION_LIMIT};
use lrc_base::{Extra, Kid, List, Production, RawGrammar, RawProd, Sort};
use lrc_grammar::occurrences_and_symbols;
use std::alloc::Global;

/// The production whose left sort, children, locals and nonterminal attributes are known.
#[tactic(auto, using(crate::proofs::CountLemmas::occurrence_bounds))]
fn named_with(
    alloc: Global,
    raw: &[RawProd],
    sorts: &[Sort],
    prod: &RawProd,
    left: u32,
    kids: List<Kid>,
    extras: List<Extra>,
) -> Result<Production, NamingFault>
    requires prods { length raw.now ≤ PRODUCTION_LIMIT }
    requires attrs { All HasFewAttrs sorts.now }
    requires kids { length kids ≤ CHILD_LIMIT }
    requires extras { length extras ≤ LOCAL_LIMIT }
    ensures { Names result (named_with raw.now sorts.now prod.now left kids extras) }
{
    let (occurrences, _symbols) = occurrences_and_symbols(
        alloc,
        sorts,
        left,
        kids.as_slice(),
        extras.as_slice(),
    )?;
    let scope = Scope {
        prods: raw,
        occurrences: occurrences.as_slice(),
        kids: kids.as_slice(),
    };
    let equations = named_equations(alloc, &scope, prod.items.as_slice())?;
    let pattern = named_pattern(alloc, kids.as_slice(), prod.items.as_slice())?;
    Ok(Production {
        name: prod.name,
        left,
        kids,
        extras,
        equations,
        pattern,
    })
}

/// The production that is written, by numbers.
///
/// # Errors
///
/// `Unnamed` where a name is unknown, or where two patterns stand. Want of memory.
pub fn named_production(
    alloc: Global,
    raw: &RawGrammar,
    sorts: &[Sort],
    prod: &RawProd,
) -> Result<Production, NamingFault>
    requires limits { KeepsLimits raw.now }
    requires attrs { All HasFewAttrs sorts.now }
    requires parts { HasFewParts prod.now }
    ensures { Names result (named_production raw.now sorts.now prod.now) }
{
    let raw_sorts = raw.sorts.as_slice();
    let left = sort_number(raw_sorts, prod.left).ok_or(NamingFault::Unnamed)?;
    let kids = named_kids(alloc, raw_sorts, prod.kids.as_slice())?;
    let extras = named_extras(alloc, raw_sorts, prod.items.as_slice())?;
    named_with(alloc, raw.prods.as_slice(), sorts, prod, left, kids, extras)
}
