ghost use Rattle.std.specs.Prelude.{◌≡◌, [], map, flat_map};
ghost use Rattle.std.specs.List.{list_any};
ghost use Rattle.lrc_base.specs.declared.raw.RawProd.{RawProd};
ghost use Rattle.lrc_fault_meaning.specs.Faults.{is_among, declared_by, declared_name, names_before, is_pattern, declaration_faults, each_after};
ghost use Rattle.lrc_check.specs.Verdict.{verdict};
ghost use Rattle.lrc_check.specs.Declares.{declares};

use crate::fault::{GrammarFault, GrammarKind};
use crate::kind::check_kind;
use crate::names::{attrs_named, has_attr, has_kid};
use crate::words::text_word;
use lrc_base::{NameText, RawItem, RawKind, RawProd, RawSort};

fn declares(item: &RawItem, name: NameText) -> bool
    ensures { result ≡ declares name item.now }
{
    match item {
        RawItem::Local(declared, _, _) | RawItem::Attach(declared, _, _) => name == *declared,
        RawItem::Own(_, _) | RawItem::OfKid(_, _, _) | RawItem::Pattern(_) => false,
    }
}

fn any_declares(items: &[RawItem], name: NameText) -> bool
    ensures { result ≡ list_any (declares name) items.now }
{
    items.iter().any(|item| declares(item, name))
}

/// Whether one of the items declares this name.
fn has_declared(items: &[RawItem], name: NameText) -> bool
    ensures { result ≡ is_among (map declared_name (flat_map declared_by items.now)) name }
{
    any_declares(items, name)
}

/// Whether a left attribute, a child, or one of these items has the name.
#[tactic(auto, using(crate::proofs::ListLemmas::amongs))]
fn is_taken(sorts: &[RawSort], prod: &RawProd, before: &[RawItem], name: NameText) -> bool
    ensures { result ≡ is_among (names_before sorts.now prod.now before.now) name }
{
    has_attr(attrs_named(sorts, prod.left), name)
        || has_kid(prod.kids.as_slice(), name)
        || has_declared(before, name)
}

fn is_pattern(item: &RawItem) -> bool
    ensures { result ≡ is_pattern item.now }
{
    matches!(item, RawItem::Pattern(_))
}

fn has_pattern(items: &[RawItem]) -> bool
    ensures { result ≡ list_any is_pattern items.now }
{
    items.iter().any(|item| is_pattern(item))
}

/// What an item declares, behind those before it: its name is new in the production, and its kind
/// is known; there is one pattern at most.
fn check_declaration(
    sorts: &[RawSort],
    prod: &RawProd,
    before: &[RawItem],
    item: &RawItem,
) -> Result<(), GrammarFault>
    ensures { result ≡ verdict (declaration_faults sorts.now prod.now before.now item.now) }
{
    match item {
        RawItem::Local(name, _, _) | RawItem::Attach(name, _, _)
            if is_taken(sorts, prod, before, *name) => {
            Err(GrammarFault::new(GrammarKind::Twice, prod.name, *name))
        }
        RawItem::Local(_, kind, _) => check_kind(sorts, prod.name, *kind),
        RawItem::Attach(_, sort, _) => check_kind(sorts, prod.name, RawKind::Named(*sort)),
        RawItem::Pattern(_) if has_pattern(before) => {
            Err(GrammarFault::new(GrammarKind::Twice, prod.name, text_word()))
        }
        RawItem::Own(_, _) | RawItem::OfKid(_, _, _) | RawItem::Pattern(_) => Ok(()),
    }
}

fn check_items(sorts: &[RawSort], prod: &RawProd, items: &[RawItem]) -> Result<(), GrammarFault>
    ensures { result ≡ verdict (each_after (declaration_faults sorts.now prod.now) [] items.now) }
{
    for (i, item) in items.iter().enumerate() {
        if let Err(fault) = check_declaration(sorts, prod, &items[..i], item) {
            return Err(fault);
        }
    }
    Ok(())
}

/// What the productions declare, in order.
pub fn check_declarations(sorts: &[RawSort], prods: &[RawProd]) -> Result<(), GrammarFault>
    ensures { result ≡ verdict (flat_map (λ (p : RawProd). each_after (declaration_faults sorts.now p) [] p.items) prods.now) }
{
    for prod in prods {
        if let Err(fault) = check_items(sorts, prod, prod.items.as_slice()) {
            return Err(fault);
        }
    }
    Ok(())
}
