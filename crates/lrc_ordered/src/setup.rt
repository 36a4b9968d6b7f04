ghost use Rattle.std.specs.Prelude.{◌≡◌, ℕ, ◌<◌, ◌⊎◌, ◌↔◌, map, length, All, Contains, IfOk, IsTrue, vec_items};
ghost use Rattle.std.specs.List.{AllZip};
ghost use Rattle.lrc_base.specs.declared.grammar.Sort as base;
ghost use Rattle.lrc_base.specs.declared.grammar.Given as base_given;
ghost use Rattle.lrc_graph.specs.Pairs.{Pairs, Has, HasExactly};
ghost use Rattle.lrc_meaning.specs.Grammar.{occurrences_of};
ghost use Rattle.lrc_order_meaning.specs.Needs as order;
ghost use Rattle.lrc_order_meaning.specs.Needs.{need};
ghost use Rattle.lrc_ordered.specs.Setup.{IsNeedBelow, HasNeeds, IsEmptyTable, IsAmong, IsIn};
ghost use Rattle.lrc_ordered.specs.Tables.{table_at, HasAt};

use crate::needs::needs_of;
use crate::places::places_of;
use lrc_base::{Given, List, Memory, Production, Sort};
use lrc_grammar::Grammar;
use lrc_graph::Relation;
use lrc_order_meaning::{Need, Place};
use std::alloc::Global;

/// The places of each production.
#[tactic(auto, using(crate::proofs::SetupLemmas::signed_steps))]
pub fn all_places(alloc: Global, grammar: &Grammar) -> Result<List<List<Place>>, Memory>
    ensures { IfOk result (λ all. all ≡ map (order.places_of grammar.now.sorts) grammar.now.prods) }
{
    let prods = grammar.prods.as_slice();
    let signatures = grammar.signatures.as_slice();
    let mut all = List::new(alloc);
    for i in 0..prods.len() {
        all.push(places_of(alloc, &prods[i], &signatures[i])?)?;
    }
    Ok(all)
}

/// The direct dependencies of each production.
pub fn all_needs(
    alloc: Global,
    sorts: &[Sort],
    prods: &[Production],
    places: &[List<Place>],
) -> Result<List<List<Need>>, Memory>
    requires few { All (λ p. length (occurrences_of sorts.now p) < 1024) prods.now }
    requires places { places.now ≡ map (order.places_of sorts.now) prods.now }
    ensures { IfOk result (λ all. all ≡ map (order.needs_of sorts.now) prods.now) }
{
    let mut all = List::new(alloc);
    for i in 0..prods.len() {
        all.push(needs_of(alloc, sorts, &prods[i], places[i].as_slice())?)?;
    }
    Ok(all)
}

/// Pairs the occurrences of needs.
pub fn add_needs(relation: &mut Relation, needs: &[Need])
    requires { All (IsNeedBelow relation.old.points) needs.now }
    ensures points { relation.new.points ≡ relation.old.points }
    ensures pairs { HasExactly relation.new (λ x y. Has relation.old x y ⊎ Contains needs.now (need x y)) }
{
    for need in needs {
        relation.add(need.first, need.then);
    }
}

/// The relation of needs over so many occurrences.
fn needs_table(alloc: Global, points: u32, needs: &[Need]) -> Result<Relation, Memory>
    requires few { points < 1024 }
    requires within { All (IsNeedBelow points) needs.now }
    ensures points { IfOk result (λ r. r.points ≡ points) }
    ensures pairs { IfOk result (λ r. HasExactly r (λ x y. Contains needs.now (need x y))) }
{
    let mut relation = Relation::new(alloc, points)?;
    add_needs(&mut relation, needs);
    Ok(relation)
}

/// For each production the closed relation of its needs.
#[tactic(auto, using(crate::proofs::SetupLemmas::signed_steps))]
pub fn closed_tables(
    alloc: Global,
    grammar: &Grammar,
    needs: &[List<Need>],
) -> Result<Vec<Relation>, Memory>
    requires few { All (λ p. length (occurrences_of grammar.now.sorts p) < 1024) grammar.now.prods }
    requires needs { needs.now ≡ map (order.needs_of grammar.now.sorts) grammar.now.prods }
    ensures { IfOk result (λ tables. AllZip (HasNeeds grammar.now.sorts) grammar.now.prods tables.items) }
{
    let signatures = grammar.signatures.as_slice();
    let mut tables = Vec::new(alloc);
    for i in 0..signatures.len() {
        let points = signatures[i].occurrences.len() as u32;
        let mut relation = needs_table(alloc, points, needs[i].as_slice())?;
        relation.close();
        tables.push(relation)?;
    }
    Ok(tables)
}

/// For each sort a relation over its attributes, without pairs.
pub fn empty_tables(alloc: Global, sorts: &[Sort]) -> Result<Vec<Relation>, Memory>
    requires { All (λ (s : base.Sort). length s.attrs < 1024) sorts.now }
    ensures { IfOk result (λ tables. AllZip IsEmptyTable sorts.now tables.items) }
{
    let mut tables = Vec::new(alloc);
    for sort in sorts {
        tables.push(Relation::new(alloc, sort.attrs.len() as u32)?)?;
    }
    Ok(tables)
}

/// Whether one of the places is of this sort.
fn is_among(places: &[Place], sort: u32) -> bool
    ensures { IsTrue result ↔ IsAmong places.now sort }
{
    for place in places {
        if place.sort == sort {
            return true;
        }
    }
    false
}

/// Whether this sort stands at a place of some production.
fn is_in(places: &[List<Place>], sort: u32) -> bool
    ensures { IsTrue result ↔ IsIn places.now sort }
{
    for list in places {
        if is_among(list.as_slice(), sort) {
            return true;
        }
    }
    false
}

/// Pairs the attributes of each given pair of a sort that stands at some place.
pub fn add_given(tables: &mut [Relation], places: &[List<Place>], given: &[Given])
    requires { All (λ (g : base_given.Given). (g.sort < length tables.old) × (g.first < (table_at tables.old g.sort).points) × (g.then < (table_at tables.old g.sort).points)) given.now }
    ensures number { length tables.new ≡ length tables.old }
    ensures points { (s : ℕ) → (table_at tables.new s).points ≡ (table_at tables.old s).points }
    ensures pairs { (s x y : ℕ) → HasAt tables.new s x y ↔ (HasAt tables.old s x y ⊎ (Contains given.now (record { sort = s; first = x; then = y }) × IsIn places.now s)) }
{
    'given: for pair in given {
        if is_in(places, pair.sort) {
            tables[pair.sort as usize].add(pair.first, pair.then);
        }
    }
}
