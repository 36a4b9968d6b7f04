ghost use Rattle.std.specs.Prelude.{◌≡◌, ℕ, ◌<◌, ◌⊎◌, ◌↔◌, length, Contains, All, IfOk, OnOk, IfErr};
ghost use Rattle.lrc_order_meaning.specs.Ordered.{IsSmall, IsGivenThere, IsAcyclic};
ghost use Rattle.lrc_order_meaning.specs.Induced.{Leads};
ghost use Rattle.lrc_ordered.specs.Faults.{IsInducedFault};
ghost use Rattle.lrc_grammar.specs.Grammar.{grammar_of};
ghost use Rattle.lrc_ordered.specs.Setup.{AreInduced, IsIn};
ghost use Rattle.lrc_ordered.specs.Tables.{table_at, HasAt, AreTables, AreSettled};
ghost use Rattle.lrc_base.specs.declared.grammar.Given as base;

use crate::cycles::first_cycle;
use crate::faults::OrderFault;
use crate::settle::settle;
use crate::setup::{add_given, all_needs, all_places, closed_tables, empty_tables};
use lrc_base::{Given, List, Memory};
use lrc_grammar::Grammar;
use lrc_graph::Relation;
use lrc_order_meaning::{Need, Place};
use std::alloc::Global;

/// The tables of the induced dependencies of a grammar.
#[derive(Debug, Drop)]
pub struct Tables {
    /// The places of each production.
    pub places: List<List<Place>>,
    /// The direct dependencies of each production.
    pub needs: List<List<Need>>,
    /// For each production the closed relation on its occurrences.
    pub relations: Vec<Relation>,
    /// For each sort the relation on its attributes.
    pub sorts: Vec<Relation>,
}

/// Tables of sorts with the given pairs of those that stand at some place.
fn with_given(mut tables: Vec<Relation>, places: &[List<Place>], given: &[Given]) -> Vec<Relation>
    requires { All (λ (g : base.Given). (g.sort < length tables.items) × (g.first < (table_at tables.items g.sort).points) × (g.then < (table_at tables.items g.sort).points)) given.now }
    ensures number { length result.items ≡ length tables.items }
    ensures points { (s : ℕ) → (table_at result.items s).points ≡ (table_at tables.items s).points }
    ensures pairs { (s x y : ℕ) → HasAt result.items s x y ↔ (HasAt tables.items s x y ⊎ (Contains given.now (record { sort = s; first = x; then = y }) × IsIn places.now s)) }
{
    add_given(&mut tables, places, given);
    tables
}

/// Tables of productions and sorts with all that follows from them.
fn settled(
    mut relations: Vec<Relation>,
    mut sorts: Vec<Relation>,
    places: &[List<Place>],
) -> (Vec<Relation>, Vec<Relation>)
    requires { AreTables relations.items sorts.items places.now }
    ensures { AreSettled relations.items result.0.items sorts.items result.1.items places.now }
{
    settle(&mut relations, &mut sorts, places);
    (relations, sorts)
}

/// The induced dependencies of a grammar with given pairs.
///
/// # Errors
///
/// Want of memory.
pub fn induced(alloc: Global, grammar: &Grammar, given: &[Given]) -> Result<Tables, Memory>
    requires small { IsSmall (grammar_of grammar.now) }
    requires there { All (IsGivenThere grammar.now.sorts) given.now }
    ensures { IfOk result (λ t. AreInduced (grammar_of grammar.now) given.now t.places t.needs t.relations.items t.sorts.items) }
{
    let sorts = grammar.sorts.as_slice();
    let prods = grammar.prods.as_slice();
    let places = all_places(alloc, grammar)?;
    let needs = all_needs(alloc, sorts, prods, places.as_slice())?;
    let relations = closed_tables(alloc, grammar, needs.as_slice())?;
    let handed = with_given(empty_tables(alloc, sorts)?, places.as_slice(), given);
    let (relations, sorts) = settled(relations, handed, places.as_slice());
    Ok(Tables {
        places,
        needs,
        relations,
        sorts,
    })
}

/// The tables of the induced dependencies of a grammar with given pairs, where they have no cycle.
///
/// # Errors
///
/// Induced exactly where some production has a cycle: the first one, and its least occurrence on one.
/// Else want of memory.
pub fn acyclic_induced(
    alloc: Global,
    grammar: &Grammar,
    given: &[Given],
) -> Result<Tables, OrderFault>
    requires small { IsSmall (grammar_of grammar.now) }
    requires there { All (IsGivenThere grammar.now.sorts) given.now }
    ensures tables { IfOk result (λ t. AreInduced (grammar_of grammar.now) given.now t.places t.needs t.relations.items t.sorts.items) }
    ensures acyclic { OnOk result (All (λ p. IsAcyclic (Leads (grammar_of grammar.now) given.now p)) grammar.now.prods) }
    ensures fault { IfErr result (IsInducedFault (grammar_of grammar.now) given.now) }
{
    let Ok(tables) = induced(alloc, grammar, given) else {
        return Err(OrderFault::Memory);
    };
    match first_cycle(tables.relations.as_slice()) {
        Some(cycle) => Err(OrderFault::Induced {
            production: cycle.production,
            occurrence: cycle.occurrence,
        }),
        None => Ok(tables),
    }
}
