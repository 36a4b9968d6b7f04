use lrc_base::Memory;
use thiserror::Error;

/// Why a grammar has no syntax, numbered from 1 in this order. Productions and sorts are named by
/// their numbers.
#[derive(Debug, Clone, Copy, PartialEq, Eq, Error)]
pub enum SyntaxFault {
    /// A text in the pattern of this production has a lexical fault or a token that no pattern may
    /// hold.
    #[error("bad pattern of production {0}")]
    BadPattern(u32),
    /// A child doesn't stand exactly once in the pattern of this production.
    #[error("children in the pattern of production {0}")]
    Kids(u32),
    /// The pattern of this production has no token and no leaf, and its children aren't exactly one.
    #[error("bare pattern of production {0}")]
    Bare(u32),
    /// There is no tree of this sort.
    #[error("no tree of sort {0}")]
    NoTree(u32),
    /// Memory ran out.
    #[error("out of memory")]
    Memory,
}

impl From<Memory> for SyntaxFault {
    ghost use Rattle.std.specs.Prelude.{◌≡◌};
    ghost use Rattle.lrc_syntax.specs.declared.fault.SyntaxFault.TheVariants as variant;

    ghost from_gives = { λ _ fault. fault ≡ variant.Memory };

    fn from(_memory: Memory) -> SyntaxFault {
        SyntaxFault::Memory
    }
}

/// Why one production has no syntax.
#[derive(Debug, Clone, Copy, PartialEq, Eq)]
pub enum ProductionFault {
    BadPattern,
    Kids,
    Bare,
    Memory,
}

impl From<Memory> for ProductionFault {
    ghost use Rattle.std.specs.Prelude.{◌≡◌};
    ghost use Rattle.lrc_syntax.specs.declared.fault.ProductionFault.TheVariants as variant;

    ghost from_gives = { λ _ fault. fault ≡ variant.Memory };

    fn from(_memory: Memory) -> ProductionFault {
        ProductionFault::Memory
    }
}
