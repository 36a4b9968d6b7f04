ghost use Rattle.std.specs.Prelude.{◌≡◌, ◌++◌, flat_map, OnOk, IfOk};
ghost use Rattle.lrc_augment.specs.Filled.{symbol_of_kid, symbol_of_item, symbols};

use crate::attrs::attrs_named;
use lrc_base::{List, Memory, NameText, RawAttr, RawItem, RawKid, RawKind, RawProd, RawSort};
use std::alloc::Global;
use std::marker::Model;

/// A symbol of a production, a child or a nonterminal attribute, with the attributes of its sort.
#[derive(Debug, Drop)]
pub struct Symbol<'a> {
    pub name: NameText,
    pub attrs: &'a [RawAttr],
}

impl<'a> Model for Symbol<'a> {
    ghost use Rattle.lrc_augment.specs.Filled as meaning;
    ghost use Rattle.std.specs.Coded.{codes};
    ghost use Rattle.lrc_base.specs.contracts.raw.RawAttr as a;

    ghost Value = { meaning.Symbol };

    ghost coded = { Prim.hlevel (codes, a.the_row.coded) };

    ghost view = { λ s. record { name = s.name; attrs = s.attrs.now } };
}

fn add_kids<'a>(
    symbols: &mut List<Symbol<'a>>,
    sorts: &'a [RawSort],
    kids: &[RawKid],
) -> Result<(), Memory>
    ensures { OnOk result (symbols.new ≡ symbols.old ++ flat_map (symbol_of_kid sorts.now) kids.now) }
{
    for kid in kids {
        if let RawKind::Named(sort) = kid.kind {
            symbols.push(Symbol {
                name: kid.name,
                attrs: attrs_named(sorts, sort),
            })?;
        }
    }
    Ok(())
}

fn add_attached<'a>(
    symbols: &mut List<Symbol<'a>>,
    sorts: &'a [RawSort],
    items: &[RawItem],
) -> Result<(), Memory>
    ensures { OnOk result (symbols.new ≡ symbols.old ++ flat_map (symbol_of_item sorts.now) items.now) }
{
    for item in items {
        if let RawItem::Attach(name, sort, _) = item {
            symbols.push(Symbol {
                name: *name,
                attrs: attrs_named(sorts, *sort),
            })?;
        }
    }
    Ok(())
}

/// The symbols of a production: children whose kind is a sort, and then nonterminal attributes.
///
/// # Errors
///
/// Want of memory.
pub fn symbols_of<'a>(
    alloc: Global,
    sorts: &'a [RawSort],
    prod: &RawProd,
) -> Result<List<Symbol<'a>>, Memory>
    ensures { IfOk result (λ all. all ≡ symbols sorts.now prod.now) }
{
    let mut all = List::new(alloc);
    add_kids(&mut all, sorts, prod.kids.as_slice())?;
    add_attached(&mut all, sorts, prod.items.as_slice())?;
    Ok(all)
}
