ghost use Rattle.std.specs.Prelude.{◌≡◌, ℕ, ◌+◌, ◌<◌, ◌≤◌, ◌^◌, ◌++◌, [], All, length, map, filter, flat_map, slice_index_or, IfOk, OnOk};
ghost use Rattle.std.specs.List.{range_with_len};
ghost use Rattle.lrc_meaning.specs.Grammar.{attrs_of_sort};
ghost use Rattle.lrc_order_meaning.specs.declared.Need as order_need;
ghost use Rattle.lrc_order_meaning.specs.Needs.{need};
ghost use Rattle.lrc_plan_meaning.specs.Items.{comes_before, ordered_at, extended_of, firsts_of};

use crate::parts::comes_before;
use crate::site::Site;
use lrc_base::{List, Memory, Sort};
use lrc_grammar::attrs_of_sort;
use lrc_order_meaning::{Need, Partition, Place};
use lrc_ordered::needs_of;
use lrc_plan_meaning::Bound;
use std::alloc::Global;

/// Puts a pair of an attribute's occurrence at a place with each that comes after it behind the others.
fn push_after(
    pairs: &mut List<Need>,
    parts: &[Partition],
    place: Place,
    count: u32,
    first: u32,
) -> Result<(), Memory>
    requires few { place.start + count < 2 ^ 32 }
    requires attribute { first < count }
    ensures { OnOk result (pairs.new ≡ pairs.old ++ map (λ y. need (place.start + first) (place.start + y)) (filter (comes_before parts.now place.sort first) (range_with_len 0 count))) }
{
    'attributes: for then in 0..count {
        if comes_before(parts, place.sort, first, then) {
            pairs.push(Need {
                first: place.start + first,
                then: place.start + then,
            })?;
        }
    }
    Ok(())
}

/// Puts the pairs of a place's occurrences whose attributes come one before the other behind the
/// others.
fn push_ordered(
    pairs: &mut List<Need>,
    sorts: &[Sort],
    parts: &[Partition],
    place: Place,
) -> Result<(), Memory>
    requires { place.start + length (attrs_of_sort sorts.now place.sort) < 2 ^ 32 }
    ensures { OnOk result (pairs.new ≡ pairs.old ++ ordered_at sorts.now parts.now place) }
{
    let count = attrs_of_sort(sorts, place.sort).len() as u32;
    'attributes: for first in 0..count {
        push_after(pairs, parts, place, count, first)?;
    }
    Ok(())
}

/// The extended dependencies of a production.
pub fn extended(alloc: Global, site: &Site<'_>) -> Result<List<Need>, Memory>
    ensures { IfOk result (λ pairs. pairs ≡ extended_of site.now.sorts.now site.now.parts.now site.now.production.now) }
{
    let mut pairs = needs_of(alloc, site.sorts, site.production, site.places)?;
    'places: for place in site.places {
        push_ordered(&mut pairs, site.sorts, site.parts, *place)?;
    }
    Ok(pairs)
}

/// So many empty lists.
fn empty_lists(alloc: Global, count: usize) -> Result<Vec<List<Bound>>, Memory>
    ensures { IfOk result (λ lists. lists.items ≡ map (λ o. firsts_of [] o) (range_with_len 0 count)) }
{
    let mut lists = Vec::new(alloc);
    'lists: for _list in 0..count {
        lists.push(List::new(alloc))?;
    }
    Ok(lists)
}

/// For each occurrence the values of those that are paired with it.
pub fn firsts(alloc: Global, pairs: &[Need], count: usize) -> Result<Vec<List<Bound>>, Memory>
    requires { All (λ (n : order_need.Need). n.then < count) pairs.now }
    ensures { IfOk result (λ lists. lists.items ≡ map (firsts_of pairs.now) (range_with_len 0 count)) }
{
    let mut lists = empty_lists(alloc, count)?;
    'pairs: for pair in pairs {
        lists[pair.then as usize].push(Bound::Value(pair.first))?;
    }
    Ok(lists)
}
