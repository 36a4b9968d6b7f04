use lrc_base::{Memory, NameText};

/// Why a term as it is written is none over a grammar's productions, numbered from 1 in this order.
#[derive(Debug, Clone, Copy, PartialEq, Eq)]
pub enum TermFault {
    /// No production has this name.
    UnknownProduction(NameText),
    /// A node of this production has another number of children.
    Arity(NameText),
    /// A node of this production has a child of another kind: the first such, by its number.
    KidKind(NameText, u32),
    /// Want of memory.
    Memory,
}

impl From<Memory> for TermFault {
    ghost use Rattle.std.specs.Prelude.{◌≡◌};
    ghost use Rattle.lrc_job.specs.declared.term_fault.TermFault.TheVariants as variant;

    ghost from_gives = { λ _ fault. fault ≡ variant.Memory };

    fn from(_memory: Memory) -> TermFault {
        TermFault::Memory
    }
}
