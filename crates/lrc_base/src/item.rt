//! The items of flat terms.

ghost use Rattle.std.specs.Prelude.{◌≡◌};
ghost use Rattle.lrc_base.specs.Terms.{wanted};
ghost use Rattle.lrc_base.specs.RawTerms.{raw_wanted};

use crate::name::NameText;

/// An item of a term: a leaf, or a node by the number of its production, whose children stand before it.
#[derive(Debug, Clone, Copy)]
pub enum TermItem {
    Int(i64),
    Bool(bool),
    Name(NameText),
    /// The number of a production, and how many children the node has.
    Node(u32, u32),
}

/// An item of a term as it is written: the same by the name of the production.
#[derive(Debug, Clone, Copy)]
pub enum RawTermItem {
    Int(i64),
    Bool(bool),
    Name(NameText),
    /// The name of a production, and how many children the node has.
    Node(NameText, u32),
}

impl TermItem {
    /// How many of the terms before it the item takes as its children.
    pub fn wanted(&self) -> u32
        ensures { result ≡ wanted self.now }
    {
        match self {
            TermItem::Int(_) | TermItem::Bool(_) | TermItem::Name(_) => 0,
            TermItem::Node(_, kids) => *kids,
        }
    }
}

impl RawTermItem {
    /// How many of the terms before it the item takes as its children.
    pub fn wanted(&self) -> u32
        ensures { result ≡ raw_wanted self.now }
    {
        match self {
            RawTermItem::Int(_) | RawTermItem::Bool(_) | RawTermItem::Name(_) => 0,
            RawTermItem::Node(_, kids) => *kids,
        }
    }
}
