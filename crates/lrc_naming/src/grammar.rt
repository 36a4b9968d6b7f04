ghost use Rattle.std.specs.Prelude.{◌<◌, ◌≤◌, ◌^◌, length, map, All, IfOk};
ghost use Rattle.lrc_meaning.specs.Naming.{named_sort, named_production, named_grammar, each_some};
ghost use Rattle.lrc_meaning.specs.Limits.{KeepsLimits};
ghost use Rattle.lrc_naming.specs.Counted.{HasFewAttrs};
ghost use Rattle.lrc_naming.specs.Names.{Names, NamesAs};
ghost use Rattle.lrc_naming.specs.Numbered.{grammar};

use crate::fault::NamingFault;
use crate::kind::{named_sort, sort_number};
use crate::production::named_production;
use lrc_base::limits::PRODUCTION_LIMIT;
use lrc_base::{List, Production, RawGrammar, RawSort, Sort};
use std::alloc::Global;

/// A grammar by numbers, not yet checked: its sorts, its productions, and the number of the start
/// sort.
#[derive(Debug, Drop)]
pub struct Numbered {
    pub sorts: List<Sort>,
    pub prods: List<Production>,
    pub start: u32,
}

fn named_sorts(alloc: Global, sorts: &[RawSort]) -> Result<List<Sort>, NamingFault>
    requires { length sorts.now < 2 ^ 32 }
    ensures { Names result (each_some (map (named_sort sorts.now) sorts.now)) }
{
    let mut named = List::new(alloc);
    for sort in sorts {
        let sort = named_sort(alloc, sorts, sort)?;
        named.push(sort)?;
    }
    Ok(named)
}

fn named_productions(
    alloc: Global,
    raw: &RawGrammar,
    sorts: &[Sort],
) -> Result<List<Production>, NamingFault>
    requires limits { KeepsLimits raw.now }
    requires attrs { All HasFewAttrs sorts.now }
    ensures { Names result (each_some (map (named_production raw.now sorts.now) raw.now.prods)) }
{
    let mut named = List::new(alloc);
    for prod in raw.prods.as_slice() {
        let prod = named_production(alloc, raw, sorts, prod)?;
        named.push(prod)?;
    }
    Ok(named)
}

/// The grammar that is written, by numbers.
///
/// # Errors
///
/// `Unnamed` where a name is unknown, or where a production has two patterns. Want of memory.
pub fn named_grammar(alloc: Global, raw: &RawGrammar) -> Result<Numbered, NamingFault>
    requires { KeepsLimits raw.now }
    ensures numbers { NamesAs grammar result (named_grammar raw.now) }

    // as many productions as are written
    ensures within { IfOk result (λ named. length named.prods ≤ PRODUCTION_LIMIT) }
{
    let raw_sorts = raw.sorts.as_slice();
    let sorts = named_sorts(alloc, raw_sorts)?;
    let prods = named_productions(alloc, raw, sorts.as_slice())?;
    let start = sort_number(raw_sorts, raw.start).ok_or(NamingFault::Unnamed)?;
    Ok(Numbered {
        sorts,
        prods,
        start,
    })
}
