ghost use Rattle.std.specs.Prelude.{◌≡◌, ◌++◌, filter, flat_map, position, option_to_list, OnOk, IfOk};
ghost use Rattle.std.specs.List.{list_any};
ghost use Rattle.lrc_augment.specs.Filled.{Symbol, has_synthesised, copy_down, copies_down, copy_of_only, copy_up, copies};

use crate::attrs::{has_inherited, has_synthesised};
use crate::symbols::Symbol;
use crate::targets::{has_of_symbol, has_own};
use lrc_base::{List, Memory, NameText, RawAttr, RawExpr, RawItem};
use std::alloc::Global;

/// The copy to an attribute of a symbol, where it is inherited, has no item, and the left side has
/// such an attribute.
fn copy_down(
    items: &[RawItem],
    left: &[RawAttr],
    symbol: NameText,
    attr: &RawAttr,
) -> Option<RawItem>
    ensures { copy_down items.now left.now symbol attr.now ≡ option_to_list result }
{
    let is_copied = attr.inherited
        && !has_of_symbol(items, symbol, attr.name)
        && has_inherited(left, attr);
    if !is_copied {
        return None;
    }
    Some(RawItem::OfKid(symbol, attr.name, RawExpr::One(attr.name)))
}

fn add_copies_to(
    copies: &mut List<RawItem>,
    items: &[RawItem],
    left: &[RawAttr],
    symbol: &Symbol<'_>,
) -> Result<(), Memory>
    ensures { OnOk result (copies.new ≡ copies.old ++ copies_down items.now left.now symbol.now) }
{
    for attr in symbol.attrs {
        if let Some(copy) = copy_down(items, left, symbol.name, attr) {
            copies.push(copy)?;
        }
    }
    Ok(())
}

fn add_copies_down(
    copies: &mut List<RawItem>,
    items: &[RawItem],
    left: &[RawAttr],
    symbols: &[Symbol<'_>],
) -> Result<(), Memory>
    ensures { OnOk result (copies.new ≡ copies.old ++ flat_map (copies_down items.now left.now) symbols.now) }
{
    for symbol in symbols {
        add_copies_to(copies, items, left, symbol)?;
    }
    Ok(())
}

/// The place of the first symbol with a synthesised attribute of this one's name and kind.
fn place_with(symbols: &[Symbol<'_>], attr: &RawAttr) -> Option<usize>
    ensures { result ≡ position (λ (c : Symbol). has_synthesised c.attrs attr.now) symbols.now }
{
    symbols
        .iter()
        .position(|symbol| has_synthesised(symbol.attrs, attr))
}

fn any_with(symbols: &[Symbol<'_>], attr: &RawAttr) -> bool
    ensures { result ≡ list_any (λ (c : Symbol). has_synthesised c.attrs attr.now) symbols.now }
{
    symbols
        .iter()
        .any(|symbol| has_synthesised(symbol.attrs, attr))
}

/// The copy from the only symbol with a synthesised attribute of this one's name and kind.
fn copy_of_only(symbols: &[Symbol<'_>], attr: &RawAttr) -> Option<RawItem>
    ensures { copy_of_only attr.now.name (filter (λ (c : Symbol). has_synthesised c.attrs attr.now) symbols.now) ≡ option_to_list result }
{
    let place = place_with(symbols, attr)?;
    if any_with(&symbols[place + 1..], attr) {
        return None;
    }
    let symbol = &symbols[place];
    Some(RawItem::Own(attr.name, RawExpr::Two(symbol.name, attr.name)))
}

/// The copy to an attribute of the left side, where it is synthesised, has no item, and one symbol
/// alone has such an attribute.
fn copy_up(items: &[RawItem], symbols: &[Symbol<'_>], attr: &RawAttr) -> Option<RawItem>
    ensures { copy_up items.now symbols.now attr.now ≡ option_to_list result }
{
    if attr.inherited || has_own(items, attr.name) {
        return None;
    }
    copy_of_only(symbols, attr)
}

fn add_copies_up(
    copies: &mut List<RawItem>,
    items: &[RawItem],
    left: &[RawAttr],
    symbols: &[Symbol<'_>],
) -> Result<(), Memory>
    ensures { OnOk result (copies.new ≡ copies.old ++ flat_map (copy_up items.now symbols.now) left.now) }
{
    for attr in left {
        if let Some(copy) = copy_up(items, symbols, attr) {
            copies.push(copy)?;
        }
    }
    Ok(())
}

/// The copies of a production with these items: down to its symbols, and then up to its left side.
///
/// # Errors
///
/// Want of memory.
pub fn copies_of(
    alloc: Global,
    items: &[RawItem],
    left: &[RawAttr],
    symbols: &[Symbol<'_>],
) -> Result<List<RawItem>, Memory>
    ensures { IfOk result (λ made. made ≡ copies items.now left.now symbols.now) }
{
    let mut copies = List::new(alloc);
    add_copies_down(&mut copies, items, left, symbols)?;
    add_copies_up(&mut copies, items, left, symbols)?;
    Ok(copies)
}
