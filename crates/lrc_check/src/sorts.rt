ghost use Rattle.std.specs.Prelude.{◌≡◌, []};
ghost use Rattle.lrc_fault_meaning.specs.Faults.{attr_faults, sort_faults, each_after};
ghost use Rattle.lrc_check.specs.Verdict.{verdict};

use crate::fault::{GrammarFault, GrammarKind};
use crate::kind::check_kind;
use crate::names::{has_attr, has_sort};
use lrc_base::{NameText, RawAttr, RawSort};

/// An attribute behind those before it: its name is new, and its kind is known.
fn check_attr(
    sorts: &[RawSort],
    place: NameText,
    before: &[RawAttr],
    attr: &RawAttr,
) -> Result<(), GrammarFault>
    ensures { result ≡ verdict (attr_faults sorts.now place before.now attr.now) }
{
    if has_attr(before, attr.name) {
        return Err(GrammarFault::new(GrammarKind::Twice, place, attr.name));
    }
    check_kind(sorts, place, attr.kind)
}

fn check_attrs(sorts: &[RawSort], place: NameText, attrs: &[RawAttr]) -> Result<(), GrammarFault>
    ensures { result ≡ verdict (each_after (attr_faults sorts.now place) [] attrs.now) }
{
    for (i, attr) in attrs.iter().enumerate() {
        if let Err(fault) = check_attr(sorts, place, &attrs[..i], attr) {
            return Err(fault);
        }
    }
    Ok(())
}

/// A sort behind those before it: its name is new, and its attributes are right.
fn check_sort(sorts: &[RawSort], before: &[RawSort], sort: &RawSort) -> Result<(), GrammarFault>
    ensures { result ≡ verdict (sort_faults sorts.now before.now sort.now) }
{
    if has_sort(before, sort.name) {
        return Err(GrammarFault::new(GrammarKind::Twice, sort.name, sort.name));
    }
    check_attrs(sorts, sort.name, sort.attrs.as_slice())
}

/// The sorts in order.
pub fn check_sorts(sorts: &[RawSort]) -> Result<(), GrammarFault>
    ensures { result ≡ verdict (each_after (sort_faults sorts.now) [] sorts.now) }
{
    for (i, sort) in sorts.iter().enumerate() {
        if let Err(fault) = check_sort(sorts, &sorts[..i], sort) {
            return Err(fault);
        }
    }
    Ok(())
}
