ghost use Rattle.std.specs.Prelude.{◌≡◌, not, is_none, bytes_eq, map, find};
ghost use Rattle.std.specs.List.{list_any};
ghost use Rattle.std.specs.Option.{option_copied};
ghost use Rattle.lrc_base.specs.declared.raw.RawAttr.{RawAttr};
ghost use Rattle.lrc_base.specs.declared.raw.RawSort.{RawSort};
ghost use Rattle.lrc_meaning.specs.Naming.{sort_number};
ghost use Rattle.lrc_base.specs.declared.raw.RawKid.{RawKid};
ghost use Rattle.lrc_base.specs.declared.raw.RawProd.{RawProd};
ghost use Rattle.lrc_fault_meaning.specs.Faults.{is_among, kid_names, attrs_named};

use lrc_base::{NameText, RawAttr, RawKid, RawProd, RawSort};

/// The place of the first sort of this name.
fn sort_place(sorts: &[RawSort], name: NameText) -> Option<usize>
    ensures { result ≡ sort_number sorts.now name }
{
    sorts.iter().position(|sort| sort.name == name)
}

/// Whether there is a sort of this name.
pub fn is_sort_known(sorts: &[RawSort], name: NameText) -> bool
    ensures { result ≡ not (is_none (sort_number sorts.now name)) }
{
    sort_place(sorts, name).is_some()
}

fn any_sort(sorts: &[RawSort], name: NameText) -> bool
    ensures { result ≡ list_any (λ (s : RawSort). bytes_eq name s.name) sorts.now }
{
    sorts.iter().any(|sort| name == sort.name)
}

/// Whether one of the sorts has this name.
pub fn has_sort(sorts: &[RawSort], name: NameText) -> bool
    ensures { result ≡ is_among (map (λ (s : RawSort). s.name) sorts.now) name }
{
    any_sort(sorts, name)
}

fn any_attr(attrs: &[RawAttr], name: NameText) -> bool
    ensures { result ≡ list_any (λ (a : RawAttr). bytes_eq name a.name) attrs.now }
{
    attrs.iter().any(|attr| name == attr.name)
}

/// Whether one of the attributes has this name.
pub fn has_attr(attrs: &[RawAttr], name: NameText) -> bool
    ensures { result ≡ is_among (map (λ (a : RawAttr). a.name) attrs.now) name }
{
    any_attr(attrs, name)
}

fn any_kid(kids: &[RawKid], name: NameText) -> bool
    ensures { result ≡ list_any (λ (k : RawKid). bytes_eq name k.name) kids.now }
{
    kids.iter().any(|kid| name == kid.name)
}

/// Whether one of the children has this name.
pub fn has_kid(kids: &[RawKid], name: NameText) -> bool
    ensures { result ≡ is_among (kid_names kids.now) name }
{
    any_kid(kids, name)
}

fn any_prod(prods: &[RawProd], name: NameText) -> bool
    ensures { result ≡ list_any (λ (p : RawProd). bytes_eq name p.name) prods.now }
{
    prods.iter().any(|prod| name == prod.name)
}

/// Whether one of the productions has this name.
pub fn has_prod(prods: &[RawProd], name: NameText) -> bool
    ensures { result ≡ is_among (map (λ (p : RawProd). p.name) prods.now) name }
{
    any_prod(prods, name)
}

/// The first sort of this name.
fn sort_named(sorts: &[RawSort], name: NameText) -> Option<&RawSort>
    ensures { option_copied result ≡ find (λ (s : RawSort). bytes_eq s.name name) sorts.now }
{
    sorts.iter().find(|sort| sort.name == name)
}

/// The attributes of the sort of this name; none where there is no such sort.
pub fn attrs_named(sorts: &[RawSort], name: NameText) -> &[RawAttr]
    ensures { result.now ≡ attrs_named sorts.now name }
{
    match sort_named(sorts, name) {
        Some(sort) => sort.attrs.as_slice(),
        None => &[],
    }
}

/// The first attribute of this name.
pub fn attr_named(attrs: &[RawAttr], name: NameText) -> Option<&RawAttr>
    ensures { option_copied result ≡ find (λ (a : RawAttr). bytes_eq a.name name) attrs.now }
{
    attrs.iter().find(|attr| attr.name == name)
}

/// The first child of this name.
pub fn kid_named(kids: &[RawKid], name: NameText) -> Option<&RawKid>
    ensures { option_copied result ≡ find (λ (k : RawKid). bytes_eq k.name name) kids.now }
{
    kids.iter().find(|kid| kid.name == name)
}

/// The first production of this name.
pub fn prod_named(prods: &[RawProd], name: NameText) -> Option<&RawProd>
    ensures { option_copied result ≡ find (λ (p : RawProd). bytes_eq p.name name) prods.now }
{
    prods.iter().find(|prod| prod.name == name)
}
