//! The limits on what is read, kept and printed. Each stands here once; code, contracts and
//! definitions cite it from here.

/// The most bytes of a job's text.
pub const TEXT_LIMIT: usize = 16_777_216;

/// The most bytes of a name.
pub const NAME_LIMIT: usize = 64;

/// The most sorts of a grammar.
pub const SORT_LIMIT: usize = 64;

/// The most attributes of a sort.
pub const ATTRIBUTE_LIMIT: usize = 16;

/// The most productions of a grammar.
pub const PRODUCTION_LIMIT: usize = 256;

/// The most children of a production.
pub const CHILD_LIMIT: usize = 8;

/// The most locals and nonterminal attributes of a production together.
pub const LOCAL_LIMIT: usize = 16;

/// The most nodes of an equation's expression.
pub const NODE_LIMIT: usize = 1000;

/// The most expressions within one another, the outermost included.
pub const LEVEL_LIMIT: usize = 1000;

/// The most terms within one another, the outermost included.
pub const TERM_LEVEL_LIMIT: usize = 1000;

/// The most sessions of a job.
pub const SESSION_LIMIT: usize = 64;

/// The most edits of a session.
pub const EDIT_LIMIT: usize = 10_000;

/// The most bytes of a value or of an unparsed tree that are printed.
pub const PRINT_LIMIT: usize = 65_536;

/// The most rows of all sessions together.
pub const ROW_LIMIT: u32 = 16_777_216;

/// The most words of the memo.
pub const MEMO_LIMIT: u32 = 16_777_216;

/// The greatest limit of depth.
pub const DEPTH_LIMIT: u32 = 1000;

/// The greatest seed of a generated job.
pub const SEED_LIMIT: u32 = 65_535;

/// The most nodes of a generated tree.
pub const TREE_LIMIT: u32 = 1_000_000;
