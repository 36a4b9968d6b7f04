ghost use Rattle.std.specs.Prelude.{◌≡◌, [], All, IfOk, OnOk, IfErr};
ghost use Rattle.lrc_grammar.specs.Grammar.{grammar_of};
ghost use Rattle.lrc_order_meaning.specs.Ordered.{IsGivenThere, IsOrdered, ArePartitions};
ghost use Rattle.lrc_ordered.specs.Faults.{IsOrderFault};

use crate::cycles::first_cycle;
use crate::extend::extended;
use crate::faults::OrderFault;
use crate::induce::acyclic_induced;
use crate::partitions::{Partitions, partition_sorts};
use lrc_base::{Given, List};
use lrc_grammar::Grammar;
use std::alloc::Global;

/// The partitions of a grammar that is ordered with given pairs of attributes, each of a sort that is
/// there. The partitions keep the given list.
///
/// # Errors
///
/// Induced exactly where the induced dependencies of some production have a cycle: the first one, and
/// its least occurrence on one. Else Extended, likewise, where the extended dependencies have a cycle.
/// Else want of memory.
pub fn ordered_with(
    alloc: Global,
    grammar: &Grammar,
    given: &List<Given>,
) -> Result<Partitions, OrderFault>
    requires { All (IsGivenThere grammar.now.sorts) given.now }
    ensures ordered { OnOk result (IsOrdered (grammar_of grammar.now) given.now) }
    ensures given { IfOk result (λ found. found.given ≡ given.now) }
    ensures partitions { IfOk result (λ found. ArePartitions (grammar_of grammar.now) found) }
    ensures fault { IfErr result (IsOrderFault (grammar_of grammar.now) given.now) }
{
    let tables = acyclic_induced(alloc, grammar, given.as_slice())?;
    let Ok(found) = partition_sorts(alloc, grammar, given.as_slice(), &tables) else {
        return Err(OrderFault::Memory);
    };
    let relations = extended(tables.relations, found.sorts(), tables.places.as_slice());
    match first_cycle(relations.as_slice()) {
        Some(cycle) => Err(OrderFault::Extended {
            production: cycle.production,
            occurrence: cycle.occurrence,
        }),
        None => Ok(found),
    }
}

/// The partitions of a grammar that is ordered without given pairs.
///
/// # Errors
///
/// As [`ordered_with`].
pub fn ordered(alloc: Global, grammar: &Grammar) -> Result<Partitions, OrderFault>
    ensures ordered { OnOk result (IsOrdered (grammar_of grammar.now) []) }
    ensures given { IfOk result (λ found. found.given ≡ []) }
    ensures partitions { IfOk result (λ found. ArePartitions (grammar_of grammar.now) found) }
    ensures fault { IfErr result (IsOrderFault (grammar_of grammar.now) []) }
{
    ordered_with(alloc, grammar, &List::new(alloc))
}
