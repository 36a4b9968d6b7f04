ghost use Rattle.lrc_cell_laws.specs.Meaning.{IsSingle, IsFilled, ReachesClosed, ReachesWhatIsMet, MayBeRemembered};

/// What the pairs of a call's cell and a result's cell that may be remembered mean: a call has one result
/// at most, neither is nil, and the cells that they reach, which are read off the two cells, are those of
/// all that the visit meets: closed under parts, without nil.
pub fn remembered_calls_have_a_meaning()
    ensures single { IsSingle }
    ensures filled { IsFilled }
    ensures closed { ReachesClosed }
    ensures reach { ReachesWhatIsMet }
{}

/// Where the literals of a grammar are spelled, what the plain visit of a spelled call gives, with
/// whatever fuel, may be remembered, if the call's visit is at most 223.
pub fn results_may_be_remembered()
    ensures { MayBeRemembered }
{}
