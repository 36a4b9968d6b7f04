ghost use Rattle.std.specs.Prelude.{◌≡◌, ◌<◌, ◌^◌, length};
ghost use Rattle.lrc_meaning.specs.Tree.{is_sort};
ghost use Rattle.lrc_meaning.specs.Naming.{same_owner, is_called, occurrence_number, leaf_number};
ghost use Rattle.lrc_naming.specs.Counted.{is_leaf_of};

use lrc_base::{Kid, Kind, NameText, Occurrence};

/// Whether the owners of two occurrences are the same symbol, or both have none.
pub fn same_owner(left: Option<NameText>, right: Option<NameText>) -> bool
    ensures { result ≡ same_owner left right }
{
    match (left, right) {
        (None, None) => true,
        (Some(a), Some(b)) => a == b,
        (None, Some(_)) | (Some(_), None) => false,
    }
}

fn is_called(occurrence: &Occurrence, owner: Option<NameText>, name: NameText) -> bool
    ensures { result ≡ is_called owner name occurrence.now }
{
    same_owner(occurrence.owner, owner) && occurrence.name == name
}

/// The number of the first occurrence that is called so.
pub fn occurrence_number(
    occurrences: &[Occurrence],
    owner: Option<NameText>,
    name: NameText,
) -> Option<u32>
    requires { length occurrences.now < 2 ^ 32 }
    ensures { result ≡ occurrence_number occurrences.now owner name }
{
    let place = occurrence_place(occurrences, owner, name)?;
    Some(place as u32)
}

fn occurrence_place(
    occurrences: &[Occurrence],
    owner: Option<NameText>,
    name: NameText,
) -> Option<usize>
    ensures { result ≡ occurrence_number occurrences.now owner name }
{
    occurrences
        .iter()
        .position(|occurrence| is_called(occurrence, owner, name))
}

fn is_leaf_of(kid: &Kid, name: NameText) -> bool
    ensures { result ≡ is_leaf_of name kid.now }
{
    kid.name == name && !matches!(kid.kind, Kind::Sort(_))
}

/// The number of the first child of this name that is a leaf.
pub fn leaf_number(kids: &[Kid], name: NameText) -> Option<u32>
    requires { length kids.now < 2 ^ 32 }
    ensures { result ≡ leaf_number kids.now name }
{
    let place = leaf_place(kids, name)?;
    Some(place as u32)
}

fn leaf_place(kids: &[Kid], name: NameText) -> Option<usize>
    ensures { result ≡ leaf_number kids.now name }
{
    kids.iter().position(|kid| is_leaf_of(kid, name))
}
