use crate::term_fault::TermFault;
use lrc_base::Memory;
use lrc_check::GrammarFault;

/// Why a job is not accepted. Sessions are numbered from 1.
#[derive(Debug, Clone, Copy)]
pub enum AcceptFault {
    /// The grammar's first fault, which is no want of memory.
    Grammar(GrammarFault),
    /// The fault of a session's tree at edit 0, or of the term of one of its edits, numbered from 1;
    /// it is no want of memory.
    Term {
        session: u32,
        edit: u32,
        fault: TermFault,
    },
    /// The tree of a session is not of the start sort.
    NotStart {
        session: u32,
    },
    /// Want of memory.
    Memory,
}

impl From<Memory> for AcceptFault {
    ghost use Rattle.std.specs.Prelude.{◌≡◌};
    ghost use Rattle.lrc_job.specs.declared.fault.AcceptFault.TheVariants as variant;

    ghost from_gives = { λ _ fault. fault ≡ variant.Memory };

    fn from(_memory: Memory) -> AcceptFault {
        AcceptFault::Memory
    }
}
