//! Dependencies between attributes, and when a grammar is ordered: definitions, in `specs/`, and the
//! plain data that they speak of.
//!
//! After Kastens, Ordered Attributed Grammars (1980).
#![tactic(auto)]

ghost use Rattle.std.specs.Prelude.{[]};
ghost use Rattle.lrc_meaning.specs.Examples.{declarations};
ghost use Rattle.lrc_order_meaning.specs.Induced.{Induced};
ghost use Rattle.lrc_order_meaning.specs.Signed.{TellsSymbols};
ghost use Rattle.lrc_order_meaning.specs.Sets.{IsVisits, IsVisitOf};
ghost use Rattle.lrc_order_meaning.specs.Ordered.{IsInducedCycle};
ghost use Rattle.lrc_order_meaning.specs.Examples.{crossing};
ghost use Rattle.lrc_order_meaning.specs.Laws.{AreTransitive, OneLookTells, NoneIsEmpty, SetsComeInTurn};

use lrc_base::List;
use lrc_graph::Relation;

/// An occurrence of a production, `first`, that is needed before another, `then`.
#[derive(Debug, Clone, Copy, PartialEq, Eq)]
pub struct Need {
    pub first: u32,
    pub then: u32,
}

/// A place of a sort in a production: the left side, or a symbol. The occurrences of its attributes
/// stand in a row from `start` on. At a nonterminal attribute `tree` is the occurrence of its value.
#[derive(Debug, Clone, Copy, PartialEq, Eq)]
pub struct Place {
    pub sort: u32,
    pub start: u32,
    pub tree: Option<u32>,
}

/// What the ordered test finds of a sort.
#[derive(Debug, Drop)]
pub struct Partition {
    /// How many visits it has, at least one.
    pub visits: u32,
    /// The visit of each attribute, counted from 1.
    pub visit_of: List<u32>,
    /// Which attribute comes before which.
    pub before: Relation,
}

/// In the declarations grammar the items' declarations come before their environment. So they have two
/// visits: the first gives the declarations, the second takes the environment and gives what is bad.
pub fn items_have_two_visits()
    ensures induced { Induced declarations [] 1 0 1 }
    ensures visits { IsVisits declarations [] 1 2 }
    ensures decls { IsVisitOf declarations [] 1 2 0 1 }
    ensures env { IsVisitOf declarations [] 1 2 1 2 }
    ensures bad { IsVisitOf declarations [] 1 2 2 2 }
{}

/// The crossing grammar has no circular tree, but it is not ordered: over all contexts of X together
/// its first attribute needs itself.
pub fn crossing_is_not_ordered()
    ensures { IsInducedCycle crossing [] 0 1 }
{}

/// The induced dependencies of a sort are transitive, where the given pairs are of attributes that are
/// there; so an attribute is in a greatest set exactly where it and each that must come after it and is
/// not earlier are of the set's direction.
pub fn one_look_tells_a_set()
    ensures transitive { AreTransitive }
    ensures greatest { OneLookTells }
{}

/// Among the sets of a sort up to the last that has a member none is empty but perhaps the first; so an
/// attribute comes before each one of a set of lower number, step by step through the sets between.
pub fn sets_come_in_turn()
    ensures none_is_empty { NoneIsEmpty }
    ensures in_turn { SetsComeInTurn }
{}

/// The signature of a production tells the places of its symbols.
pub fn a_signature_tells_each_symbol()
    ensures { TellsSymbols }
{}
