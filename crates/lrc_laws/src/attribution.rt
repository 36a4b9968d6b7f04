ghost use Rattle.lrc_laws.specs.Laws.{OrderedIsSound, VisitsAreFew, AttributionsAreUnique, VisitsGiveAttributes, VisitsAreAsHigh, DemandIsReach};

/// The greedy visit sequences of an ordered grammar, with its given pairs, are sound.
pub fn ordered_plans_are_sound()
    ensures { OrderedIsSound }
{}

/// Over an ordered grammar twice the number of a sort's visits is at most two more than the number of
/// its attributes.
pub fn visits_are_few()
    ensures { VisitsAreFew }
{}

/// Over an ordered grammar a tree of the start sort has one attribution at most, of whatever height,
/// trees of nonterminal attributes and endless expansion included.
pub fn attribution_is_unique()
    ensures { AttributionsAreUnique }
{}

/// Over an ordered grammar the attributes of a tree within a limit of its attribution's height are
/// exactly what the visit of its root computes with that fuel, and that visit is as high as the
/// attribution.
pub fn visits_compute_the_attribution()
    ensures attributes { VisitsGiveAttributes }
    ensures height { VisitsAreAsHigh }
{}

/// Over an ordered grammar the demand of an attribution, read off the decorated tree, has exactly what
/// the visit of the root meets: calls of visits, their results, and the trees and names that are made.
pub fn demand_is_reach()
    ensures { DemandIsReach }
{}
