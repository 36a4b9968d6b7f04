ghost use Rattle.lrc_laws.specs.Laws.{MoreFuelGivesTheSame, LessFuelGivesNone, MoreFuelMeetsTheSame};

/// The height in the result of a visit is the least fuel at which the visit has a result; more fuel
/// changes nothing, neither the result nor what is met on the way to it.
pub fn height_is_least_fuel()
    ensures more { MoreFuelGivesTheSame }
    ensures less { LessFuelGivesNone }
    ensures reach { MoreFuelMeetsTheSame }
{}
