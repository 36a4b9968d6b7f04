use lrc_base::{Kid, Occurrence, RawProd};
use std::marker::Model;

/// The names that an expression of a production may use: productions, the production's occurrences,
/// and its children.
#[derive(Debug, Drop)]
pub struct Scope<'a> {
    pub prods: &'a [RawProd],
    pub occurrences: &'a [Occurrence],
    pub kids: &'a [Kid],
}

impl<'a> Model for Scope<'a> {
    ghost use Rattle.lrc_meaning.specs.Naming as naming;
    ghost use Rattle.lrc_base.specs.contracts.raw.RawExpr as e;
    ghost use Rattle.std.specs.Coded.{codes};

    ghost Value = { naming.Known };

    ghost coded = { Prim.hlevel (codes, e.the_row.coded) };

    ghost view = { λ s. record { prods = s.prods.now; occurrences = s.occurrences.now; kids = s.kids.now } };
}
