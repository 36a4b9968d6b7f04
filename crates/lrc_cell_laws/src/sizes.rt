ghost use Rattle.lrc_cell_laws.specs.Laws.{SizesExist, SizesAreUnique, SizesAgree, SizesGrow};

/// How many different cells a list has: each list has so many of them, and one number only; lists
/// with the same members have the same, and one within another has no more.
pub fn cells_have_one_size()
    ensures exists { SizesExist }
    ensures one { SizesAreUnique }
    ensures agree { SizesAgree }
    ensures grow { SizesGrow }
{}
