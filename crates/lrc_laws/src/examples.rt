ghost use Rattle.std.specs.Prelude.{ℕ, pos, [], ◌∷◌};
ghost use Rattle.lrc_meaning.specs.Tree.{int};
ghost use Rattle.lrc_meaning.specs.Attribution.{Decorated, IsAttribution, Attributes};
ghost use Rattle.lrc_visit_meaning.specs.Examples.{endless, loop, one};

/// In the endless grammar `Loop()` has no attribution, of whatever height, since it attaches itself;
/// `One()` has one.
pub fn endless_expansion_has_no_attribution()
    ensures none { (d : Decorated) → ¬ IsAttribution endless loop d }
    ensures one { Attributes endless 1 one (int (pos 1) ∷ []) }
{}
