use crate::expr::Op;
use crate::name::NameText;
use sqlite_items::{Boxed, Items};

/// A kind as it is written: one of the three that are given, or the name of a sort.
#[derive(Debug, Clone, Copy)]
pub enum RawKind {
    Int,
    Bool,
    Name,
    Named(NameText),
}

/// An attribute as it is written.
#[derive(Debug, Drop)]
pub struct RawAttr {
    pub name: NameText,
    pub inherited: bool,
    pub kind: RawKind,
}

/// A sort as it is written.
#[derive(Debug, Drop)]
pub struct RawSort {
    pub name: NameText,
    pub attrs: Items<RawAttr>,
}

/// A child of a production as it is written.
#[derive(Debug, Drop)]
pub struct RawKid {
    pub name: NameText,
    pub kind: RawKind,
}

/// A part of a pattern of text as it is written: bytes, or the name of a child.
#[derive(Debug, Drop)]
pub enum RawPiece {
    Text(Items<u8>),
    Kid(NameText),
}

/// An expression as it is written.
#[derive(Debug, Drop)]
pub enum RawExpr {
    Int(i64),
    Bool(bool),
    Name(NameText),
    /// A left attribute, a child, a local or a nonterminal attribute.
    One(NameText),
    /// An attribute of a symbol, the symbol first.
    Two(NameText, NameText),
    Op(Op, Boxed<RawExpr>, Boxed<RawExpr>),
    If(Boxed<RawExpr>, Boxed<RawExpr>, Boxed<RawExpr>),
    Make(NameText, Items<RawExpr>),
}

/// An item of a production as it is written.
#[derive(Debug, Drop)]
pub enum RawItem {
    Local(NameText, RawKind, RawExpr),
    /// A nonterminal attribute, its sort and its tree.
    Attach(NameText, NameText, RawExpr),
    /// An equation of an attribute of the left side.
    Own(NameText, RawExpr),
    /// An equation of an attribute of a symbol.
    OfKid(NameText, NameText, RawExpr),
    Pattern(Items<RawPiece>),
}

/// A production as it is written.
#[derive(Debug, Drop)]
pub struct RawProd {
    pub name: NameText,
    pub left: NameText,
    pub kids: Items<RawKid>,
    pub items: Items<RawItem>,
}

/// A grammar as it is written.
#[derive(Debug, Drop)]
pub struct RawGrammar {
    pub sorts: Items<RawSort>,
    pub prods: Items<RawProd>,
    pub start: NameText,
}
