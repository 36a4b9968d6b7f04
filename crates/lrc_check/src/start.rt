ghost use Rattle.std.specs.Prelude.{◌≡◌};
ghost use Rattle.lrc_fault_meaning.specs.Faults.{first_inherited, start_faults};
ghost use Rattle.lrc_check.specs.Verdict.{verdict};

use crate::fault::{GrammarFault, GrammarKind};
use crate::names::{attrs_named, is_sort_known};
use crate::words::start_word;
use lrc_base::{NameText, RawAttr, RawSort};

/// None of the attributes is inherited.
fn check_synthesised(place: NameText, attrs: &[RawAttr]) -> Result<(), GrammarFault>
    ensures { result ≡ verdict (first_inherited place attrs.now) }
{
    for attr in attrs {
        if attr.inherited {
            return Err(GrammarFault::new(GrammarKind::StartInherits, place, attr.name));
        }
    }
    Ok(())
}

/// The start sort is there and inherits nothing.
pub fn check_start(sorts: &[RawSort], start: NameText) -> Result<(), GrammarFault>
    ensures { result ≡ verdict (start_faults sorts.now start) }
{
    let place = start_word();
    if !is_sort_known(sorts, start) {
        return Err(GrammarFault::new(GrammarKind::Unknown, place, start));
    }
    check_synthesised(place, attrs_named(sorts, start))
}
