use crate::grammar::Kind;
use crate::name::NameText;
use sqlite_items::Items;

/// What stands at an occurrence of a production: an attribute of the left side or of a symbol, or the
/// value of a local or a nonterminal attribute.
#[derive(Debug, Clone, Copy)]
pub struct Occurrence {
    /// The symbol whose attribute it is; None for an attribute of the left side, and for the value of a
    /// local or a nonterminal attribute.
    pub owner: Option<NameText>,
    pub name: NameText,
    pub kind: Kind,
    /// Whether the production's equations define it.
    pub is_defined: bool,
    /// Whether the production's equations may read it.
    pub is_read: bool,
}

/// Where the tree of a symbol stands.
#[derive(Debug, Clone, Copy, PartialEq, Eq)]
pub enum Origin {
    /// It is the child of this number.
    Child(u32),
    /// It is the value of this occurrence, a nonterminal attribute.
    Value(u32),
}

/// A symbol of a production: a child whose kind is a sort, or a nonterminal attribute. The occurrences
/// of its attributes stand in a row from `start` on.
#[derive(Debug, Clone, Copy)]
pub struct Symbol {
    pub name: NameText,
    pub sort: u32,
    pub origin: Origin,
    pub start: u32,
}

/// What a production's equations and visits speak of, each by its number: its occurrences, the first
/// equation of each of them, and its symbols.
#[derive(Debug, Drop)]
pub struct Signature {
    pub occurrences: Items<Occurrence>,
    /// By occurrence the number of the equation that defines it.
    pub equations: Items<Option<usize>>,
    pub symbols: Items<Symbol>,
}
