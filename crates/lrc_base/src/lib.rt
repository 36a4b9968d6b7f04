//! The types of names, terms, expressions, grammars and edits, before and after checking.
//!
//! A [`List`] is seen by contracts as the list of its items, and a [`Boxed`] as the value that it
//! holds, so that a term or an expression is plain data to a contract, without pointers in it.
#![tactic(auto)]

mod build_fault;
mod expr;
mod grammar;
mod heights;
mod item;
mod job;
pub mod limits;
mod name;
mod raw;
mod raw_term;
mod signature;
mod term;
mod term_build;

pub use build_fault::BuildFault;
pub use expr::{Expr, Op};
pub use grammar::{Attr, Equation, Extra, Given, Kid, Kind, Piece, Production, Sort};
pub use item::{RawTermItem, TermItem};
pub use job::{Edit, Job, Path, RawEdit, RawScript, Script};
pub use name::NameText;
pub use raw::{RawAttr, RawExpr, RawGrammar, RawItem, RawKid, RawKind, RawPiece, RawProd, RawSort};
pub use raw_term::{RawTerm, RawTermBuild, RawTermTree};
pub use signature::{Occurrence, Origin, Signature, Symbol};
pub use sqlite_items::{Boxed, Items};
pub use std::alloc::AllocError;
pub use term::{Term, TermTree};
pub use term_build::TermBuild;

/// A growing list. Contracts see it as the list of its items.
pub type List<T> = Items<T>;

/// A list of bytes.
pub type Bytes = Items<u8>;

/// The error for want of memory.
pub type Memory = AllocError;
