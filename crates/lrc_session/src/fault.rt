ghost use Rattle.std.specs.Prelude.{◌≡◌};

use lrc_base::Memory;
use lrc_places::{CopyFault, ReplaceFault};
use lrc_store::Full;
use lrc_visit::VisitFault;

/// Why no session was opened.
#[derive(Debug, Clone, Copy, PartialEq, Eq)]
pub enum StartFault {
    /// The tree has no attributes within the depth.
    TooDeep = 1,
    /// All rows are used.
    Full = 2,
    /// Memory ran out.
    Memory = 3,
}

/// Why a session was not changed.
#[derive(Debug, Clone, Copy, PartialEq, Eq)]
pub enum EditFault {
    /// A path names no place of the tree.
    BadPath = 1,
    /// What stands at the place is of another kind.
    WrongSort = 2,
    /// The changed tree has no attributes within the depth.
    TooDeep = 3,
    /// All rows are used.
    Full = 4,
}

impl From<Memory> for StartFault {
    ghost use Rattle.lrc_session.specs.declared.fault.StartFault.TheVariants.{Memory};

    ghost from_gives = { λ _ fault. fault ≡ Memory };

    fn from(_memory: Memory) -> StartFault {
        StartFault::Memory
    }
}

impl From<Full> for StartFault {
    ghost use Rattle.lrc_session.specs.declared.fault.StartFault.TheVariants.{Full};

    ghost from_gives = { λ _ fault. fault ≡ Full };

    fn from(_full: Full) -> StartFault {
        StartFault::Full
    }
}

impl From<VisitFault> for StartFault {
    ghost use Rattle.lrc_session.specs.Faults.{start_fault};

    ghost from_gives = { λ fault answer. answer ≡ start_fault fault };

    fn from(fault: VisitFault) -> StartFault {
        match fault {
            VisitFault::Full => StartFault::Full,
            VisitFault::TooDeep => StartFault::TooDeep,
        }
    }
}

impl From<Full> for EditFault {
    ghost use Rattle.lrc_session.specs.declared.fault.EditFault.TheVariants.{Full};

    ghost from_gives = { λ _ fault. fault ≡ Full };

    fn from(_full: Full) -> EditFault {
        EditFault::Full
    }
}

impl From<VisitFault> for EditFault {
    ghost use Rattle.lrc_session.specs.Faults.{edit_fault};

    ghost from_gives = { λ fault answer. answer ≡ edit_fault fault };

    fn from(fault: VisitFault) -> EditFault {
        match fault {
            VisitFault::Full => EditFault::Full,
            VisitFault::TooDeep => EditFault::TooDeep,
        }
    }
}

impl From<ReplaceFault> for EditFault {
    ghost use Rattle.lrc_session.specs.Faults.{place_fault};

    ghost from_gives = { λ fault answer. answer ≡ place_fault fault };

    fn from(fault: ReplaceFault) -> EditFault {
        match fault {
            ReplaceFault::BadPath => EditFault::BadPath,
            ReplaceFault::WrongSort => EditFault::WrongSort,
            ReplaceFault::Full => EditFault::Full,
            ReplaceFault::TooHigh => EditFault::TooDeep,
        }
    }
}

impl From<CopyFault> for EditFault {
    ghost use Rattle.lrc_session.specs.Faults.{copy_fault};

    ghost from_gives = { λ fault answer. answer ≡ copy_fault fault };

    fn from(fault: CopyFault) -> EditFault {
        match fault {
            CopyFault::BadPath => EditFault::BadPath,
            CopyFault::WrongSort => EditFault::WrongSort,
            CopyFault::Full => EditFault::Full,
        }
    }
}
