ghost use Rattle.std.specs.Prelude.{◌≡◌, Some, None};
ghost use Rattle.std.specs.List.{list_any};
ghost use Rattle.lrc_fault_meaning.specs.Faults.{has_target};
ghost use Rattle.lrc_augment.specs.Targets.{is_own, is_of_symbol};

use lrc_base::{NameText, RawItem};

fn is_own(item: &RawItem, name: NameText) -> bool
    ensures { result ≡ is_own name item.now }
{
    match item {
        RawItem::Own(other, _) => name == *other,
        RawItem::Local(_, _, _)
        | RawItem::Attach(_, _, _)
        | RawItem::OfKid(_, _, _)
        | RawItem::Pattern(_) => false,
    }
}

fn is_of_symbol(item: &RawItem, symbol: NameText, name: NameText) -> bool
    ensures { result ≡ is_of_symbol symbol name item.now }
{
    match item {
        RawItem::OfKid(owner, other, _) => symbol == *owner && name == *other,
        RawItem::Local(_, _, _)
        | RawItem::Attach(_, _, _)
        | RawItem::Own(_, _)
        | RawItem::Pattern(_) => false,
    }
}

fn any_own(items: &[RawItem], name: NameText) -> bool
    ensures { result ≡ list_any (is_own name) items.now }
{
    items.iter().any(|item| is_own(item, name))
}

fn any_of_symbol(items: &[RawItem], symbol: NameText, name: NameText) -> bool
    ensures { result ≡ list_any (is_of_symbol symbol name) items.now }
{
    items.iter().any(|item| is_of_symbol(item, symbol, name))
}

/// Whether there is an item for this attribute of the left side.
pub fn has_own(items: &[RawItem], name: NameText) -> bool
    ensures { result ≡ has_target items.now (record { owner = None; name = name }) }
{
    any_own(items, name)
}

/// Whether there is an item for this attribute of this symbol.
pub fn has_of_symbol(items: &[RawItem], symbol: NameText, name: NameText) -> bool
    ensures { result ≡ has_target items.now (record { owner = Some symbol; name = name }) }
{
    any_of_symbol(items, symbol, name)
}
