ghost use Rattle.lrc_cell_laws.specs.Laws.{CellsAreClosed, CallsAmongCells};

/// The cells of what was met hold with each cell its parts, and nil is none of them.
pub fn reached_cells_are_closed()
    ensures { CellsAreClosed }
{}

/// Where each call that was met has a visit from 1 to 223, the cells of calls, by their tags, are just
/// those of the calls that were met: no value, list or result has such a tag within.
pub fn calls_are_told_by_tags()
    ensures { CallsAmongCells }
{}
