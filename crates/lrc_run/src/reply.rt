use lrc_base::{Bytes, List};
use lrc_store::Handle;

/// What kind of reply an edit was answered with.
#[derive(Debug, Clone, Copy, PartialEq, Eq)]
pub enum Outcome {
    Values,
    BadPath,
    WrongSort,
    TooDeep,
    Full,
    Unopened,
    Shown,
    Forgot,
}

/// What an edit, or the opening, was answered.
#[derive(Debug, Drop)]
pub struct Line {
    pub outcome: Outcome,
    /// The first of its values, where that is a number; else 0.
    pub first: i64,
    /// The reply's text without its number.
    pub body: Bytes,
    /// How many bodies ran for it, where it has values; else 0.
    pub bodies: u64,
    /// How many cells the store had made then, where it has values; else 0.
    pub cells: u32,
}

/// What a session was answered.
#[derive(Debug, Drop)]
pub struct Out {
    /// The opening's line, and then each edit's, in order.
    pub lines: List<Line>,
    /// The session's last tree; None where the opening was refused.
    pub last: Option<Handle>,
}
