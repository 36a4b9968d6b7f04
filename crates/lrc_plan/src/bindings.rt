ghost use Rattle.std.specs.Prelude.{◌≡◌, ℕ, ◌+◌, ◌-◌, ◌<◌, ◌≤◌, ◌^◌, ◌&&◌, ◌++◌, [], All, length, map, filter, flat_map, slice_index, slice_index_or, IfOk, OnOk};
ghost use Rattle.std.specs.List.{range_with_len};
ghost use Rattle.lrc_plan_meaning.specs.declared.Bound.TheVariants as b;
ghost use Rattle.lrc_plan_meaning.specs.Bindings.{bindings_at};
ghost use Rattle.lrc_plan.specs.ItemSets.{holds};
ghost use Rattle.lrc_plan.specs.Handing.{shared, shared_from, all_shared, listed_items};

use crate::item_set::ItemSet;
use lrc_base::{List, Memory};
use lrc_plan_meaning::Bound;
use std::alloc::Global;

/// Puts the values of so many occurrences behind the others.
fn push_occurrences(items: &mut List<Bound>, occurrences: u32) -> Result<(), Memory>
    ensures { OnOk result (items.new ≡ items.old ++ map b.Value (range_with_len 0 occurrences)) }
{
    'occurrences: for occurrence in 0..occurrences {
        items.push(Bound::Value(occurrence))?;
    }
    Ok(())
}

/// Puts the bindings of a symbol from one of its visits to the later ones behind the others.
fn push_later_bindings(
    items: &mut List<Bound>,
    symbol: u32,
    from: u32,
    visits: u32,
) -> Result<(), Memory>
    ensures { OnOk result (items.new ≡ items.old ++ map (b.Kid symbol from) (range_with_len (from + 1) (visits - from))) }
{
    'visits: for earlier in from..visits {
        items.push(Bound::Kid(symbol, from, earlier + 1))?;
    }
    Ok(())
}

/// Puts the bindings of a symbol with so many visits behind the others.
fn push_bindings(items: &mut List<Bound>, symbol: u32, visits: u32) -> Result<(), Memory>
    ensures { OnOk result (items.new ≡ items.old ++ bindings_at symbol visits) }
{
    'visits: for earlier in 0..visits {
        push_later_bindings(items, symbol, earlier + 1, visits)?;
    }
    Ok(())
}

/// All items of a production with so many occurrences, whose symbols have so many visits.
pub fn all_items(alloc: Global, occurrences: u32, visits: &[u32]) -> Result<List<Bound>, Memory>
    requires { length visits.now < 2 ^ 32 }
    ensures { IfOk result (λ items. items ≡ listed_items occurrences visits.now) }
{
    let mut items = List::new(alloc);
    push_occurrences(&mut items, occurrences)?;
    'symbols: for symbol in 0..visits.len() {
        push_bindings(&mut items, symbol as u32, visits[symbol])?;
    }
    Ok(items)
}

/// The items that are in both sets.
fn shared(
    alloc: Global,
    items: &[Bound],
    gained: &ItemSet,
    used: &ItemSet,
) -> Result<List<Bound>, Memory>
    ensures { IfOk result (λ both. both ≡ shared items.now gained.now used.now) }
{
    let mut both = List::new(alloc);
    'items: for item in items {
        if gained.has(*item) && used.has(*item) {
            both.push(*item)?;
        }
    }
    Ok(both)
}

/// The bindings from a visit: of what it gained, what each visit from this one on uses.
fn shared_from(
    alloc: Global,
    items: &[Bound],
    gained: &ItemSet,
    used: &[ItemSet],
    first: usize,
) -> Result<List<List<Bound>>, Memory>
    ensures { IfOk result (λ lists. lists ≡ shared_from items.now gained.now used.now first) }
{
    let mut lists = List::new(alloc);
    'visits: for visit in first..used.len() {
        lists.push(shared(alloc, items, gained, &used[visit])?)?;
    }
    Ok(lists)
}

/// The bindings between the visits of a production that gain and use so.
pub fn bindings(
    alloc: Global,
    items: &[Bound],
    gained: &[ItemSet],
    used: &[ItemSet],
) -> Result<List<List<List<Bound>>>, Memory>
    ensures { IfOk result (λ lists. lists ≡ all_shared items.now gained.now used.now) }
{
    let mut lists = List::new(alloc);
    'visits: for visit in 0..gained.len() {
        lists.push(shared_from(alloc, items, &gained[visit], used, visit + 1)?)?;
    }
    Ok(lists)
}
