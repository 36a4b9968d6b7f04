ghost use Rattle.std.specs.Prelude.{◌≡◌, ◌+◌, ◌-◌, ◌<◌, ◌≤◌, ◌^◌, ◌++◌, length, map, true, false, IfOk, OnOk};
ghost use Rattle.std.specs.List.{range_with_len};
ghost use Rattle.lrc_meaning.specs.Grammar.{attrs_of_sort};
ghost use Rattle.lrc_plan_meaning.specs.declared.Bound.TheVariants as b;
ghost use Rattle.lrc_order_meaning.specs.Needs.{symbols_of};
ghost use Rattle.lrc_plan_meaning.specs.Items.{visits_of, values_of_visit, symbol_at, taken, given_back};

use crate::parts::{Block, visits_of};
use crate::site::Site;
use lrc_base::{List, Memory};
use lrc_grammar::attrs_of_sort;
use lrc_plan_meaning::Bound;
use std::alloc::Global;

/// Puts the values of a block's attributes, where those of its sort start at this occurrence, behind the
/// others.
pub fn push_values(
    items: &mut List<Bound>,
    site: &Site<'_>,
    block: Block,
    start: u32,
) -> Result<(), Memory>
    requires { start + length (attrs_of_sort site.now.sorts.now block.sort) < 2 ^ 32 }
    ensures { OnOk result (items.new ≡ items.old ++ values_of_visit site.now.sorts.now site.now.parts.now block.inherited block.sort start block.visit) }
{
    let attrs = attrs_of_sort(site.sorts, block.sort);
    'attributes: for attr in 0..attrs.len() as u32 {
        if block.has(site.parts, attrs, attr) {
            items.push(Bound::Value(start + attr))?;
        }
    }
    Ok(())
}

/// Puts the bindings of a symbol from the visits before this one to it behind the others.
fn push_earlier(items: &mut List<Bound>, symbol: u32, visit: u32) -> Result<(), Memory>
    ensures { OnOk result (items.new ≡ items.old ++ map (λ u. b.Kid symbol u visit) (range_with_len 1 (visit - 1))) }
{
    'visits: for earlier in 1..visit {
        items.push(Bound::Kid(symbol, earlier, visit))?;
    }
    Ok(())
}

/// Puts the bindings of a symbol that has so many visits from this one to those after it behind the
/// others.
fn push_later(items: &mut List<Bound>, symbol: u32, visit: u32, visits: u32) -> Result<(), Memory>
    ensures { OnOk result (items.new ≡ items.old ++ map (λ w. b.Kid symbol visit w) (range_with_len (visit + 1) (visits - visit))) }
{
    'visits: for earlier in visit..visits {
        items.push(Bound::Kid(symbol, visit, earlier + 1))?;
    }
    Ok(())
}

/// What a visit of a symbol takes.
pub fn taken(alloc: Global, site: &Site<'_>, symbol: u32, visit: u32) -> Result<List<Bound>, Memory>
    requires { symbol < length (symbols_of site.now.sorts.now site.now.production.now) }
    ensures { IfOk result (λ items. items ≡ taken site.now.sorts.now site.now.parts.now (symbol_at site.now.sorts.now site.now.production.now symbol) symbol visit) }
{
    let place = site.symbol(symbol);
    let mut items = List::new(alloc);
    if let Some(tree) = place.tree {
        items.push(Bound::Value(tree))?;
    }
    let block = Block {
        sort: place.sort,
        visit,
        inherited: true,
    };
    push_values(&mut items, site, block, place.start)?;
    push_earlier(&mut items, symbol, visit)?;
    Ok(items)
}

/// What a visit of a symbol gives.
pub fn given_back(
    alloc: Global,
    site: &Site<'_>,
    symbol: u32,
    visit: u32,
) -> Result<List<Bound>, Memory>
    requires { symbol < length (symbols_of site.now.sorts.now site.now.production.now) }
    ensures { IfOk result (λ items. items ≡ given_back site.now.sorts.now site.now.parts.now (symbol_at site.now.sorts.now site.now.production.now symbol) symbol visit) }
{
    let place = site.symbol(symbol);
    let block = Block {
        sort: place.sort,
        visit,
        inherited: false,
    };
    let mut items = List::new(alloc);
    push_values(&mut items, site, block, place.start)?;
    push_later(&mut items, symbol, visit, visits_of(site.parts, place.sort))?;
    Ok(items)
}
