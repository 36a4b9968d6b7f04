ghost use Rattle.std.specs.Prelude.{◌≡◌, ◌<◌, ◌^◌, length, option_map, true, false, IfOk};
ghost use Rattle.lrc_base.specs.declared.grammar.Kind.TheVariants as k;
ghost use Rattle.lrc_meaning.specs.Naming.{sort_number, named_kind, named_extra, named_extras};
ghost use Rattle.lrc_naming.specs.Names.{Names, NamesPart};

use crate::fault::NamingFault;
use crate::kind::{named_kind, sort_number};
use lrc_base::{Extra, Kind, List, NameText, RawItem, RawKind, RawSort};
use std::alloc::Global;

fn named_local(sorts: &[RawSort], name: NameText, kind: RawKind) -> Option<Extra>
    requires { length sorts.now < 2 ^ 32 }
    ensures { result ≡ option_map (λ found. record { name = name; attached = false; kind = found }) (named_kind sorts.now kind) }
{
    let kind = named_kind(sorts, kind)?;
    Some(Extra {
        name,
        attached: false,
        kind,
    })
}

fn named_attached(sorts: &[RawSort], name: NameText, sort: NameText) -> Option<Extra>
    requires { length sorts.now < 2 ^ 32 }
    ensures { result ≡ option_map (λ s. record { name = name; attached = true; kind = k.Sort s }) (sort_number sorts.now sort) }
{
    let number = sort_number(sorts, sort)?;
    Some(Extra {
        name,
        attached: true,
        kind: Kind::Sort(number),
    })
}

/// The local or nonterminal attribute that an item declares; None where it declares none.
fn named_extra(sorts: &[RawSort], item: &RawItem) -> Result<Option<Extra>, NamingFault>
    requires { length sorts.now < 2 ^ 32 }
    ensures { NamesPart result (named_extra sorts.now item.now) }
{
    let extra = match item {
        RawItem::Local(name, kind, _) => named_local(sorts, *name, *kind),
        RawItem::Attach(name, sort, _) => named_attached(sorts, *name, *sort),
        RawItem::Own(_, _) | RawItem::OfKid(_, _, _) | RawItem::Pattern(_) => return Ok(None),
    };
    Ok(Some(extra.ok_or(NamingFault::Unnamed)?))
}

/// The locals and nonterminal attributes that are declared, in order.
///
/// # Errors
///
/// `Unnamed` where a sort is unknown. Want of memory.
pub fn named_extras(
    alloc: Global,
    sorts: &[RawSort],
    items: &[RawItem],
) -> Result<List<Extra>, NamingFault>
    requires { length sorts.now < 2 ^ 32 }
    ensures { Names result (named_extras sorts.now items.now) }
{
    let mut named = List::new(alloc);
    for item in items {
        if let Some(extra) = named_extra(sorts, item)? {
            named.push(extra)?;
        }
    }
    Ok(named)
}
