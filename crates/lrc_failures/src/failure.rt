ghost use Rattle.std.specs.Prelude.{◌≡◌};
ghost use Rattle.lrc_failures.specs.Lines.{status_of};

use lrc_base::{Memory, NameText};
use lrc_job::AcceptFault;
use lrc_outside::{Failed, TakeFault};
use lrc_reader::JobFault;

/// A cycle of dependencies: the production where it is, and the occurrence on it that is told.
#[derive(Debug, Clone, Copy)]
pub struct Cycle {
    /// Whether the dependencies are the extended ones, and not the induced ones.
    pub is_extended: bool,
    pub production: NameText,
    /// The symbol that the occurrence belongs to; None for an attribute of the left side, a local, and
    /// the value of a nonterminal attribute.
    pub owner: Option<NameText>,
    pub occurrence: NameText,
}

/// Why the program did not do its work.
#[derive(Debug, Clone, Copy)]
pub enum Failure {
    /// The words of the command line are not taken.
    Usage,
    /// The source failed.
    Read,
    /// The sink failed.
    Write,
    /// The input is no job.
    Text(JobFault),
    /// The job is not accepted.
    Accept(AcceptFault),
    /// The rows of all sessions are more than a table has.
    TooManyRows,
    /// The command takes one session, and the job has another number of them.
    NotOneSession,
    /// The grammar is not ordered.
    NotOrdered(Cycle),
    /// Want of memory.
    Memory,
}

impl Failure {
    /// The status with which the program ends.
    pub fn status(&self) -> u8
        ensures { result ≡ status_of self.now }
    {
        match self {
            Failure::Usage => 2,
            Failure::Read => 3,
            Failure::Write => 4,
            Failure::Text(_) | Failure::Accept(_) | Failure::TooManyRows | Failure::NotOneSession =>
                5,
            Failure::NotOrdered(_) => 6,
            Failure::Memory => 7,
        }
    }
}

impl From<TakeFault> for Failure {
    ghost use Rattle.std.specs.Prelude.{◌≡◌};
    ghost use Rattle.lrc_failures.specs.Taken.{failure_of};

    ghost from_gives = { λ fault failure. failure ≡ failure_of fault };

    fn from(fault: TakeFault) -> Failure {
        match fault {
            TakeFault::Failed => Failure::Read,
            TakeFault::Memory => Failure::Memory,
        }
    }
}

impl From<Failed> for Failure {
    ghost use Rattle.std.specs.Prelude.{◌≡◌};
    ghost use Rattle.lrc_failures.specs.declared.failure.Failure.TheVariants.{Write};

    ghost from_gives = { λ _ failure. failure ≡ Write };

    fn from(_failed: Failed) -> Failure {
        Failure::Write
    }
}

impl From<Memory> for Failure {
    ghost use Rattle.std.specs.Prelude.{◌≡◌};
    ghost use Rattle.lrc_failures.specs.declared.failure.Failure.TheVariants as f;

    ghost from_gives = { λ _ failure. failure ≡ f.Memory };

    fn from(_memory: Memory) -> Failure {
        Failure::Memory
    }
}

impl From<JobFault> for Failure {
    ghost use Rattle.std.specs.Prelude.{◌≡◌};
    ghost use Rattle.lrc_failures.specs.Taken.{failure_of_text};

    ghost from_gives = { λ fault failure. failure ≡ failure_of_text fault };

    fn from(fault: JobFault) -> Failure {
        match fault {
            JobFault::TooLong
            | JobFault::Lex(_)
            | JobFault::Expected { .. }
            | JobFault::LimitReached { .. }
            | JobFault::NestedTooDeep { .. } => Failure::Text(fault),
            JobFault::Memory => Failure::Memory,
        }
    }
}

impl From<AcceptFault> for Failure {
    ghost use Rattle.std.specs.Prelude.{◌≡◌};
    ghost use Rattle.lrc_failures.specs.Taken.{failure_of_job};

    ghost from_gives = { λ fault failure. failure ≡ failure_of_job fault };

    fn from(fault: AcceptFault) -> Failure {
        match fault {
            AcceptFault::Grammar(_) | AcceptFault::Term { .. } | AcceptFault::NotStart { .. } => {
                Failure::Accept(fault)
            }
            AcceptFault::Memory => Failure::Memory,
        }
    }
}
