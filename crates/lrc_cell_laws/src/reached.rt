ghost use Rattle.lrc_cell_laws.specs.Laws.{NestedIsLower, ResultsAreOfCalls, ReachHasTags, DemandIsCells, ReachIsSpelled, ResultsAreSpelled};

/// In the visit of a call that has a result each other call that is met has a lower result, and
/// meets nothing that the call does not meet. In any visit each result that is met is that of a call that
/// is met.
pub fn nested_visits_are_lower()
    ensures calls { NestedIsLower }
    ensures results { ResultsAreOfCalls }
{}

/// Over an ordered grammar within the limits each call that is met in the visit of a call with a visit
/// from 1 to 223 has a visit from 1 to 223, so that its number fits its tag.
pub fn visits_have_tags()
    ensures { ReachHasTags }
{}

/// Over an ordered grammar the cells that the visit of the root of a tree of the start sort meets, with
/// fuel up to a limit, are those that the tree's evaluation demands within that limit: read off its
/// attribution, where it has one that is no higher.
pub fn demand_is_cells_of_reach()
    ensures { DemandIsCells }
{}

/// Where the literals of a grammar are spelled, all that the visit of a spelled call meets is spelled,
/// calls, results and made trees alike, and so is its result.
pub fn visits_are_spelled()
    ensures reach { ReachIsSpelled }
    ensures results { ResultsAreSpelled }
{}
