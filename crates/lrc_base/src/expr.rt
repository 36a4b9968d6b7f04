use crate::name::NameText;
use sqlite_items::{Boxed, Items};

/// An operator of two operands.
#[derive(Debug, Clone, Copy, PartialEq, Eq)]
pub enum Op {
    Add,
    Sub,
    Mul,
    Equal,
    Less,
}

/// The right side of an equation, by numbers.
#[derive(Debug, Drop)]
pub enum Expr {
    Int(i64),
    Bool(bool),
    Name(NameText),
    /// The occurrence of this number.
    Occ(u32),
    /// The child of this number, whose kind is no sort.
    Leaf(u32),
    Op(Op, Boxed<Expr>, Boxed<Expr>),
    /// A condition, and what is chosen where it is true and where it is false.
    If(Boxed<Expr>, Boxed<Expr>, Boxed<Expr>),
    /// A tree of this production.
    Make(u32, Items<Expr>),
}
