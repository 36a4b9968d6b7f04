use crate::grammar::Kind;
use crate::raw::RawGrammar;
use crate::raw_term::RawTerm;
use crate::term::Term;
use sqlite_items::Items;

/// A place of a tree: from the root, each step names a child, leaves included, from 0.
#[derive(Debug, Drop)]
pub struct Path {
    pub steps: Items<u8>,
}

/// An edit as it is written.
#[derive(Debug, Drop)]
pub enum RawEdit {
    Put(Path, RawTerm),
    /// From the first place to the second.
    Copy(Path, Path),
    Show,
    Forget(u64),
}

/// An edit; a `Put` has the kind of its term beside it.
#[derive(Debug, Drop)]
pub enum Edit {
    Put(Path, Kind, Term),
    /// From the first place to the second.
    Copy(Path, Path),
    Show,
    Forget(u64),
}

/// A session as it is written: its tree and its edits.
#[derive(Debug, Drop)]
pub struct RawScript {
    pub tree: RawTerm,
    pub edits: Items<RawEdit>,
}

/// A session: its tree and its edits.
#[derive(Debug, Drop)]
pub struct Script {
    pub tree: Term,
    pub edits: Items<Edit>,
}

/// A grammar and its sessions, as they are written.
#[derive(Debug, Drop)]
pub struct Job {
    pub grammar: RawGrammar,
    pub sessions: Items<RawScript>,
}
