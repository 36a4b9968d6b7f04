ghost use Rattle.std.specs.Prelude.{◌≡◌, ℕ, ◌+◌, ◌*◌, ◌/◌, ◌-◌, ◌<◌, ◌≤◌, ◌↔◌, List, length, map, slice_index, IsTrue, IfOk};
ghost use Rattle.lrc_base.specs.declared.grammar.Given as base;
ghost use Rattle.lrc_meaning.specs.Grammar as meaning;
ghost use Rattle.lrc_graph.specs.Pairs.{Has, HasExactly, IsTransitive};
ghost use Rattle.lrc_order_meaning.specs.Ordered.{IsAcyclic, IsPartition};
ghost use Rattle.lrc_ordered.specs.Numbered.{IsTableOf, ComesBefore, Added};

use crate::visits::fill_sets;
use lrc_base::{Attr, List, Memory};
use lrc_graph::Relation;
use lrc_order_meaning::Partition;
use std::alloc::Global;

/// What the ordered test finds of a sort with these attributes and induced dependencies.
///
/// # Errors
///
/// Want of memory.
pub fn partition(alloc: Global, attrs: &[Attr], induced: &Relation) -> Result<Partition, Memory>
    requires few { length attrs.now < 1024 }
    requires attributes { induced.now.points ≡ length attrs.now }
    requires transitive { IsTransitive (Has induced.now) }
    requires acyclic { IsAcyclic (Has induced.now) }
    ensures { IfOk result (λ found. (g : meaning.Grammar) (given : List base.Given) (s : ℕ) → IsTableOf g given s attrs.now induced.now → IsPartition g given s found) }
{
    let mut sets = vec![in alloc; 0u32; attrs.len()]?;
    let visits = fill_sets(&mut sets, attrs, induced);
    let visit_of = visits_of(alloc, &sets, visits)?;
    let before = order_of(alloc, induced, &sets)?;
    Ok(Partition {
        visits,
        visit_of,
        before,
    })
}

/// The visit of each attribute, by the number of its set.
fn visits_of(alloc: Global, sets: &[u32], visits: u32) -> Result<List<u32>, Memory>
    requires few { visits ≤ 1024 }
    requires within { (a : ℕ) → slice_index sets.now a ≤ 2 * visits }
    ensures { IfOk result (λ list. list ≡ map (λ set. visits + 1 - (set + 1) / 2) sets.now) }
{
    let mut visit_of = List::new(alloc);
    for set in sets {
        visit_of.push(visits + 1 - (*set + 1) / 2)?;
    }
    Ok(visit_of)
}

/// Which attribute comes before which.
fn order_of(alloc: Global, induced: &Relation, sets: &[u32]) -> Result<Relation, Memory>
    requires sets { length sets.now ≡ induced.now.points }
    requires few { (a : ℕ) → slice_index sets.now a ≤ 2048 }
    ensures points { IfOk result (λ before. before.points ≡ induced.now.points) }
    ensures pairs { IfOk result (λ before. HasExactly before (ComesBefore induced.now sets.now)) }
{
    let mut before = Relation::new(alloc, induced.points())?;
    add_order(&mut before, induced, sets);
    Ok(before)
}

/// Pairs each two attributes of which the first comes before the second.
fn add_order(before: &mut Relation, induced: &Relation, sets: &[u32])
    requires points { before.old.points ≡ induced.now.points }
    requires sets { length sets.now ≡ induced.now.points }
    requires few { (a : ℕ) → slice_index sets.now a ≤ 2048 }
    ensures { Added before.old before.new (ComesBefore induced.now sets.now) }
{
    'attributes: for first in 0..induced.points() {
        add_row(before, induced, sets, first);
    }
}

/// Pairs one attribute with each that it comes before.
fn add_row(before: &mut Relation, induced: &Relation, sets: &[u32], first: u32)
    requires points { before.old.points ≡ induced.now.points }
    requires sets { length sets.now ≡ induced.now.points }
    requires few { (a : ℕ) → slice_index sets.now a ≤ 2048 }
    requires attribute { first < induced.now.points }
    ensures { Added before.old before.new (λ x y. (x ≡ first) × ComesBefore induced.now sets.now x y) }
{
    'attributes: for then in 0..induced.points() {
        add_pair(before, induced, sets, first, then);
    }
}

/// Pairs two attributes where the first comes before the second.
fn add_pair(before: &mut Relation, induced: &Relation, sets: &[u32], first: u32, then: u32)
    requires points { before.old.points ≡ induced.now.points }
    requires sets { length sets.now ≡ induced.now.points }
    requires few { (a : ℕ) → slice_index sets.now a ≤ 2048 }
    requires attributes { (first < induced.now.points) × (then < induced.now.points) }
    ensures { Added before.old before.new (λ x y. (x ≡ first) × (y ≡ then) × ComesBefore induced.now sets.now x y) }
{
    let is_before = induced.has(first, then) || sets[first as usize] == sets[then as usize] + 1;
    if is_before {
        before.add(first, then);
    }
}
