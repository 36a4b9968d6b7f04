ghost use Rattle.std.specs.Prelude.{◌≡◌};
ghost use Rattle.lrc_fault_meaning.specs.Faults.{kind_faults, same_kind};
ghost use Rattle.lrc_check.specs.Verdict.{verdict};

use crate::fault::{GrammarFault, GrammarKind};
use crate::names::is_sort_known;
use lrc_base::{NameText, RawKind, RawSort};

/// Whether the kind is the sort of this name.
fn is_named(kind: RawKind, name: NameText) -> bool
    ensures { result ≡ same_kind kind (RawKind.Named name) }
{
    match kind {
        RawKind::Named(other) => other == name,
        RawKind::Int | RawKind::Bool | RawKind::Name => false,
    }
}

/// Whether the two kinds are one.
pub fn same_kind(left: RawKind, right: RawKind) -> bool
    ensures { result ≡ same_kind left right }
{
    match right {
        RawKind::Int => matches!(left, RawKind::Int),
        RawKind::Bool => matches!(left, RawKind::Bool),
        RawKind::Name => matches!(left, RawKind::Name),
        RawKind::Named(name) => is_named(left, name),
    }
}

/// A kind that is written: the sort that it names is there.
pub fn check_kind(sorts: &[RawSort], place: NameText, kind: RawKind) -> Result<(), GrammarFault>
    ensures { result ≡ verdict (kind_faults sorts.now place kind) }
{
    match kind {
        RawKind::Named(name) if !is_sort_known(sorts, name) => {
            Err(GrammarFault::new(GrammarKind::Unknown, place, name))
        }
        _ => Ok(()),
    }
}
