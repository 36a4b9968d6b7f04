//! Visit sequences and bindings: definitions, in `specs/`, and the plain data that they speak of.
//!
//! After Kastens, Ordered Attributed Grammars (1980), and Pennings, Generating Incremental Attribute
//! Evaluators (1994).
#![tactic(auto)]

ghost use Rattle.std.specs.Prelude.{◌≡◌, [], ◌∷◌};
ghost use Rattle.lrc_meaning.specs.Examples.{declarations};
ghost use Rattle.lrc_plan_meaning.specs.Sequences.{segments_of};
ghost use Rattle.lrc_plan_meaning.specs.Bindings.{binding};
ghost use Rattle.lrc_plan_meaning.specs.Laws.{ExtendedAreRead};
ghost use Rattle.lrc_plan_meaning.specs.Examples.{partitions, top, declaration, top_segments, declaration_segments, handed};

use lrc_base::List;
use lrc_order_meaning::Place;

/// What a visit does next: evaluate the occurrence of this number, or make a visit, counted from 1, of
/// the symbol of this number.
#[derive(Debug, Clone, Copy, PartialEq, Eq)]
pub enum Action {
    Eval(u32),
    Visit(u32, u32),
}

/// An item that can be available in a production: the value of an occurrence, or the binding of a
/// symbol from one of its visits to another. A binding is a list of items.
#[derive(Debug, Clone, Copy, PartialEq, Eq)]
pub enum Bound {
    Value(u32),
    Kid(u32, u32, u32),
}

/// An action with what it needs and what it makes.
#[derive(Debug, Drop)]
pub struct Step {
    pub action: Action,
    pub needs: List<Bound>,
    pub makes: List<Bound>,
}

/// What is known of a production before any tree is visited. Segments are those of visits 1, 2, .. of
/// its left side; bindings are by the visit that hands on, then by the later visit that takes.
#[derive(Debug, Drop)]
pub struct Sequences {
    pub symbols: List<Place>,
    pub actions: List<List<Action>>,
    pub steps: List<List<Step>>,
    pub bindings: List<List<List<Bound>>>,
}

/// In the declarations grammar the top visits its items twice, with their declarations as their
/// environment between the visits. A declaration hands its local, and the binding of the rest, from
/// its first visit to its second.
pub fn declarations_are_visited_twice()
    ensures top { segments_of declarations.sorts partitions top ≡ top_segments }
    ensures declaration { segments_of declarations.sorts partitions declaration ≡ declaration_segments }
    ensures binding { binding declarations.sorts partitions declaration 1 2 ≡ handed }
{}

/// The pairs of occurrences that are read off the partitions of a grammar are the extended
/// dependencies of its productions.
pub fn extended_dependencies_are_read_off()
    ensures { ExtendedAreRead }
{}
