use lrc_base::Memory;
use lrc_lex::LexFault;
use thiserror::Error;

/// What the parts of a job are limited in.
#[derive(Debug, Clone, Copy, PartialEq, Eq)]
pub enum Limit {
    /// The sorts of a grammar.
    Sorts,
    /// The attributes of a sort.
    Attributes,
    /// The productions of a grammar.
    Productions,
    /// The children of a production.
    Children,
    /// The locals and nonterminal attributes of a production.
    Locals,
    /// The nodes of an equation's expression.
    Nodes,
    /// The sessions of a job.
    Sessions,
    /// The edits of a session.
    Edits,
}

/// Why a text denotes no job, or why none was read, numbered from 0 in this order. Places are in
/// bytes, counted from 0.
#[derive(Debug, Clone, Copy, PartialEq, Eq, Error)]
pub enum JobFault {
    /// The text has more than 16,777,216 bytes.
    #[error("longer than 16777216 bytes")]
    TooLong,
    /// The first fault among its tokens, never want of memory.
    #[error("{0}")]
    Lex(LexFault),
    /// No job begins with the tokens up to the one here; or the text ends here, too early.
    #[error("unexpected at {at}")]
    Expected { at: u32 },
    /// The token here would pass a limit.
    #[error("too many at {at}: {limit:?}")]
    LimitReached { at: u32, limit: Limit },
    /// The expression or the term that begins here is the 1,001st within one another.
    #[error("nested too deep at {at}")]
    NestedTooDeep { at: u32 },
    /// Memory ran out.
    #[error("out of memory")]
    Memory,
}

/// Why the reading of tokens stops at the next one.
#[derive(Debug, Clone, Copy, PartialEq, Eq)]
pub enum Stop {
    /// Another token is expected.
    Expected,
    /// It begins an expression or a term that would be nested too deep.
    NestedTooDeep,
    /// It would pass a limit.
    LimitReached(Limit),
    /// Memory ran out.
    Memory,
}

impl From<Memory> for Stop {
    ghost use Rattle.std.specs.Prelude.{◌≡◌};
    ghost use Rattle.lrc_reader.specs.declared.fault.Stop.TheVariants.{Memory};

    ghost from_gives = { λ _ stop. stop ≡ Memory };

    fn from(_memory: Memory) -> Stop {
        Stop::Memory
    }
}
