ghost use Rattle.std.specs.Prelude.{List};
ghost use Rattle.lrc_base.specs.declared.grammar.Sort.{Sort};
ghost use Rattle.lrc_base.specs.declared.raw.RawGrammar.{RawGrammar};
ghost use Rattle.lrc_augment.specs.declared.order.RawOrder.{RawOrder};
ghost use Rattle.lrc_augment.specs.Laws.{FilledOnce, CompleteStays, PairsAreThere};

/// A filled grammar that is filled again is itself.
pub fn filled_twice_is_filled()
    ensures { (g : RawGrammar) → FilledOnce g }
{}

/// A grammar in which no equation is missing is left as it is.
pub fn complete_grammar_stays()
    ensures { (g : RawGrammar) → CompleteStays g }
{}

/// The pairs that order lines name are of sorts and attributes that are there.
pub fn given_pairs_are_there()
    ensures { (sorts : List Sort) (lines : List RawOrder) → PairsAreThere sorts lines }
{}
