ghost use Rattle.std.specs.Prelude.{◌≡◌, find, bytes_eq};
ghost use Rattle.std.specs.Option.{option_copied};
ghost use Rattle.lrc_base.specs.declared.raw.RawSort.{RawSort};
ghost use Rattle.lrc_fault_meaning.specs.Faults.{attrs_named, same_kind};
ghost use Rattle.lrc_augment.specs.Filled.{same_name_and_kind, has_inherited, has_synthesised};

use lrc_base::{NameText, RawAttr, RawKind, RawSort};

/// The first sort of this name.
fn sort_named(sorts: &[RawSort], name: NameText) -> Option<&RawSort>
    ensures { option_copied result ≡ find (λ (s : RawSort). bytes_eq s.name name) sorts.now }
{
    sorts.iter().find(|sort| sort.name == name)
}

/// The attributes of the sort of this name; none where there is no such sort.
pub fn attrs_named(sorts: &[RawSort], name: NameText) -> &[RawAttr]
    ensures { result.now ≡ attrs_named sorts.now name }
{
    match sort_named(sorts, name) {
        Some(sort) => sort.attrs.as_slice(),
        None => &[],
    }
}

/// Whether the kind is the sort of this name.
fn is_named(kind: RawKind, name: NameText) -> bool
    ensures { result ≡ same_kind kind (RawKind.Named name) }
{
    match kind {
        RawKind::Named(other) => other == name,
        RawKind::Int | RawKind::Bool | RawKind::Name => false,
    }
}

/// Whether the two kinds are one, as they are written.
fn same_kind(left: RawKind, right: RawKind) -> bool
    ensures { result ≡ same_kind left right }
{
    match right {
        RawKind::Int => matches!(left, RawKind::Int),
        RawKind::Bool => matches!(left, RawKind::Bool),
        RawKind::Name => matches!(left, RawKind::Name),
        RawKind::Named(name) => is_named(left, name),
    }
}

fn same_name_and_kind(left: &RawAttr, right: &RawAttr) -> bool
    ensures { result ≡ same_name_and_kind left.now right.now }
{
    left.name == right.name && same_kind(left.kind, right.kind)
}

/// Whether an inherited one among the attributes has the name and kind of this one.
pub fn has_inherited(attrs: &[RawAttr], attr: &RawAttr) -> bool
    ensures { result ≡ has_inherited attrs.now attr.now }
{
    attrs
        .iter()
        .any(|other| other.inherited && same_name_and_kind(attr, other))
}

/// Whether a synthesised one among the attributes has the name and kind of this one.
pub fn has_synthesised(attrs: &[RawAttr], attr: &RawAttr) -> bool
    ensures { result ≡ has_synthesised attrs.now attr.now }
{
    attrs.iter().any(|other| !other.inherited && same_name_and_kind(attr, other))
}
