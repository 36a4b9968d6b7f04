use crate::expr::Expr;
use crate::name::NameText;
use sqlite_items::Items;

/// What a value is: a number, a truth value, a name, or a tree of the sort of this number.
#[derive(Debug, Clone, Copy, PartialEq, Eq)]
pub enum Kind {
    Int,
    Bool,
    Name,
    Sort(u32),
}

/// An attribute of a sort, inherited or synthesised.
#[derive(Debug, Drop)]
pub struct Attr {
    pub name: NameText,
    pub inherited: bool,
    pub kind: Kind,
}

/// A sort with its attributes in order of declaration.
#[derive(Debug, Drop)]
pub struct Sort {
    pub name: NameText,
    pub attrs: Items<Attr>,
}

/// A child of a production: a leaf, or a symbol where its kind is a sort.
#[derive(Debug, Drop)]
pub struct Kid {
    pub name: NameText,
    pub kind: Kind,
}

/// A local value, or a nonterminal attribute where `attached`: a tree that is a further child.
#[derive(Debug, Drop)]
pub struct Extra {
    pub name: NameText,
    pub attached: bool,
    pub kind: Kind,
}

/// The occurrence of this number has the value of the expression.
#[derive(Debug, Drop)]
pub struct Equation {
    pub target: u32,
    pub expr: Expr,
}

/// A part of a production's pattern of text: bytes as they are, or the child of this number.
#[derive(Debug, Drop)]
pub enum Piece {
    Text(Items<u8>),
    Kid(u32),
}

/// A production; `left` is the number of the sort on its left side.
#[derive(Debug, Drop)]
pub struct Production {
    pub name: NameText,
    pub left: u32,
    pub kids: Items<Kid>,
    pub extras: Items<Extra>,
    pub equations: Items<Equation>,
    pub pattern: Option<Items<Piece>>,
}

/// A pair of attributes of a sort that is given to the ordered test: `first` comes before `then`, by
/// their numbers among the sort's attributes.
#[derive(Debug, Clone, Copy, PartialEq, Eq)]
pub struct Given {
    pub sort: u32,
    pub first: u32,
    pub then: u32,
}
