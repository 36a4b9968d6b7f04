ghost use Rattle.std.specs.Prelude.{◌≡◌, ◌<◌, ◌^◌, length, map};
ghost use Rattle.lrc_meaning.specs.Naming.{sort_number, named_kind, named_attr, named_sort, named_kid, each_some};
ghost use Rattle.lrc_naming.specs.Names.{Names};

use crate::fault::NamingFault;
use lrc_base::{Attr, Kid, Kind, List, NameText, RawAttr, RawKid, RawKind, RawSort, Sort};
use std::alloc::Global;

/// The number of the first sort of this name.
pub fn sort_number(sorts: &[RawSort], name: NameText) -> Option<u32>
    requires { length sorts.now < 2 ^ 32 }
    ensures { result ≡ sort_number sorts.now name }
{
    let place = sort_place(sorts, name)?;
    Some(place as u32)
}

fn sort_place(sorts: &[RawSort], name: NameText) -> Option<usize>
    ensures { result ≡ sort_number sorts.now name }
{
    sorts.iter().position(|sort| sort.name == name)
}

/// The kind that is written; None where it names no sort.
pub fn named_kind(sorts: &[RawSort], kind: RawKind) -> Option<Kind>
    requires { length sorts.now < 2 ^ 32 }
    ensures { result ≡ named_kind sorts.now kind }
{
    match kind {
        RawKind::Int => Some(Kind::Int),
        RawKind::Bool => Some(Kind::Bool),
        RawKind::Name => Some(Kind::Name),
        RawKind::Named(name) => Some(Kind::Sort(sort_number(sorts, name)?)),
    }
}

fn named_attr(sorts: &[RawSort], attr: &RawAttr) -> Option<Attr>
    requires { length sorts.now < 2 ^ 32 }
    ensures { result ≡ named_attr sorts.now attr.now }
{
    let kind = named_kind(sorts, attr.kind)?;
    Some(Attr {
        name: attr.name,
        inherited: attr.inherited,
        kind,
    })
}

fn named_attrs(
    alloc: Global,
    sorts: &[RawSort],
    attrs: &[RawAttr],
) -> Result<List<Attr>, NamingFault>
    requires { length sorts.now < 2 ^ 32 }
    ensures { Names result (each_some (map (named_attr sorts.now) attrs.now)) }
{
    let mut named = List::new(alloc);
    for attr in attrs {
        let attr = named_attr(sorts, attr).ok_or(NamingFault::Unnamed)?;
        named.push(attr)?;
    }
    Ok(named)
}

/// The sort that is written, its attributes' kinds by number.
///
/// # Errors
///
/// `Unnamed` where a kind names no sort. Want of memory.
pub fn named_sort(alloc: Global, sorts: &[RawSort], sort: &RawSort) -> Result<Sort, NamingFault>
    requires { length sorts.now < 2 ^ 32 }
    ensures { Names result (named_sort sorts.now sort.now) }
{
    let attrs = named_attrs(alloc, sorts, sort.attrs.as_slice())?;
    Ok(Sort {
        name: sort.name,
        attrs,
    })
}

fn named_kid(sorts: &[RawSort], kid: &RawKid) -> Option<Kid>
    requires { length sorts.now < 2 ^ 32 }
    ensures { result ≡ named_kid sorts.now kid.now }
{
    let kind = named_kind(sorts, kid.kind)?;
    Some(Kid {
        name: kid.name,
        kind,
    })
}

/// The children that are written, in order.
///
/// # Errors
///
/// `Unnamed` where a kind names no sort. Want of memory.
pub fn named_kids(
    alloc: Global,
    sorts: &[RawSort],
    kids: &[RawKid],
) -> Result<List<Kid>, NamingFault>
    requires { length sorts.now < 2 ^ 32 }
    ensures { Names result (each_some (map (named_kid sorts.now) kids.now)) }
{
    let mut named = List::new(alloc);
    for kid in kids {
        let kid = named_kid(sorts, kid).ok_or(NamingFault::Unnamed)?;
        named.push(kid)?;
    }
    Ok(named)
}
