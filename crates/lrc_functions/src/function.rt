use lrc_base::{List, Origin};

/// A visit of a symbol. Items of the production are given by their numbers.
#[derive(Debug, Drop)]
pub struct Callee {
    /// The visit, counted from 1.
    pub visit: u32,
    /// The sort of the symbol.
    pub sort: u32,
    /// Where the symbol's tree stands.
    pub tree: Origin,
    /// The values that the visit takes, those of its inherited attributes.
    pub inherited: List<u32>,
    /// The bindings that it takes, from visits 1, 2, .. before it.
    pub earlier: List<u32>,
    /// The values that it gives, those of its synthesised attributes.
    pub synthesised: List<u32>,
    /// The bindings that it gives, to the visits after it.
    pub later: List<u32>,
}

/// What a visit function does next.
#[derive(Debug, Drop)]
pub enum Operation {
    /// Evaluate the occurrence of this number by the equation of this number; None where it has none.
    Eval(u32, Option<usize>),
    /// Make a visit of a symbol.
    Visit(Callee),
}

/// A visit of a production's left side as a function. Items of the production are given by their
/// numbers.
#[derive(Debug, Drop)]
pub struct Function {
    /// The values that the visit takes, those of its inherited attributes.
    pub inherited: List<u32>,
    /// What is in the bindings that it takes, from visits 1, 2, .. before it.
    pub earlier: List<List<u32>>,
    pub operations: List<Operation>,
    /// The values that it gives, those of its synthesised attributes.
    pub synthesised: List<u32>,
    /// What is in the bindings that it gives, to the visits after it.
    pub later: List<List<u32>>,
}
