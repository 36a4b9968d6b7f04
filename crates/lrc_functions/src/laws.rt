ghost use Rattle.lrc_functions.specs.Laws.{NumbersTellItems, CountTellsItems};

/// The numbers of a production's items tell them apart, and are below their count. This does nothing;
/// its contract is the law.
pub fn numbers_tell_items()
    ensures items { NumbersTellItems }
    ensures count { CountTellsItems }
{}
