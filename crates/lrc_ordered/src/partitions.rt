ghost use Rattle.std.specs.Prelude.{◌≡◌, ◌<◌, ◌↔◌, length, Some, slice_get, All, IsTrue, IfOk, IfSome};
ghost use Rattle.lrc_graph.specs.Pairs.{Has};
ghost use Rattle.lrc_grammar.specs.Grammar.{grammar_of};
ghost use Rattle.lrc_order_meaning.specs.Induced.{Leads};
ghost use Rattle.lrc_order_meaning.specs.Ordered.{IsSmall, IsGivenThere, IsAcyclic, ArePartitions};
ghost use Rattle.lrc_ordered.specs.Setup.{AreInduced};

use crate::induce::Tables;
use crate::partition::partition;
use lrc_base::{Given, List, Memory};
use lrc_grammar::Grammar;
use lrc_order_meaning::Partition;
use std::alloc::Global;
use std::marker::Model;

/// What the ordered test finds: for each sort its visits and which attribute comes before which. It
/// keeps the pairs that were given.
#[derive(Debug, Drop)]
pub struct Partitions {
    given: List<Given>,
    sorts: List<Partition>,
}

impl Model for Partitions {
    ghost use Rattle.lrc_order_meaning.specs.Ordered as order;

    ghost Value = { order.Partitions };

    ghost view = { λ p. record { given = p.given; sorts = p.sorts } };
}

impl Partitions {
    /// What was found of each sort, by number.
    pub fn sorts(&self) -> &[Partition]
        ensures { result.now ≡ self.now.sorts }
    {
        self.sorts.as_slice()
    }

    /// How many visits a sort has, at least one.
    pub fn visits(&self, sort: u32) -> u32
        requires { sort < length self.now.sorts }
        ensures { IfSome (slice_get self.now.sorts sort) (λ found. result ≡ found.visits) }
    {
        self.sorts.as_slice()[sort as usize].visits
    }

    /// The visit, counted from 1, that takes an inherited attribute or gives a synthesised one.
    pub fn visit_of(&self, sort: u32, attr: u32) -> u32
        requires sort { sort < length self.now.sorts }
        requires attribute { IfSome (slice_get self.now.sorts sort) (λ found. attr < length found.visit_of) }
        ensures { IfSome (slice_get self.now.sorts sort) (λ found. slice_get found.visit_of attr ≡ Some result) }
    {
        self.sorts.as_slice()[sort as usize].visit_of.as_slice()[attr as usize]
    }

    /// Whether the first attribute of a sort comes before the second.
    pub fn before(&self, sort: u32, first: u32, then: u32) -> bool
        requires sort { sort < length self.now.sorts }
        requires attributes { IfSome (slice_get self.now.sorts sort) (λ found. (first < found.before.points) × (then < found.before.points)) }
        ensures { IfSome (slice_get self.now.sorts sort) (λ found. IsTrue result ↔ Has found.before first then) }
    {
        self.sorts.as_slice()[sort as usize].before.has(first, then)
    }

    /// Equal partitions.
    ///
    /// # Errors
    ///
    /// Want of memory.
    pub fn copy(&self, alloc: Global) -> Result<Partitions, Memory>
        ensures { IfOk result (λ copy. copy ≡ self.now) }
    {
        Ok(Partitions {
            given: List::from_slice(alloc, self.given.as_slice())?,
            sorts: copied(alloc, self.sorts.as_slice())?,
        })
    }
}

/// Equal items.
fn copied(alloc: Global, sorts: &[Partition]) -> Result<List<Partition>, Memory>
    ensures { IfOk result (λ copy. copy ≡ sorts.now) }
{
    let mut copy = List::new(alloc);
    for found in sorts {
        copy.push(Partition {
            visits: found.visits,
            visit_of: List::from_slice(alloc, found.visit_of.as_slice())?,
            before: found.before.copy(alloc)?,
        })?;
    }
    Ok(copy)
}

/// The partitions of a grammar with given pairs, by the tables of its induced dependencies, which have
/// no cycle.
///
/// # Errors
///
/// Want of memory.
pub fn partition_sorts(
    alloc: Global,
    grammar: &Grammar,
    given: &[Given],
    tables: &Tables,
) -> Result<Partitions, Memory>
    requires small { IsSmall (grammar_of grammar.now) }
    requires there { All (IsGivenThere grammar.now.sorts) given.now }
    requires tables { AreInduced (grammar_of grammar.now) given.now tables.now.places tables.now.needs tables.now.relations.items tables.now.sorts.items }
    requires acyclic { All (λ p. IsAcyclic (Leads (grammar_of grammar.now) given.now p)) grammar.now.prods }
    ensures given { IfOk result (λ found. found.given ≡ given.now) }
    ensures are { IfOk result (λ found. ArePartitions (grammar_of grammar.now) found) }
{
    let mut sorts = List::new(alloc);
    let declared = grammar.sorts.as_slice();
    for sort in 0..declared.len() {
        let attrs = declared[sort].attrs.as_slice();
        sorts.push(partition(alloc, attrs, &tables.sorts[sort])?)?;
    }
    Ok(Partitions {
        given: List::from_slice(alloc, given)?,
        sorts,
    })
}
