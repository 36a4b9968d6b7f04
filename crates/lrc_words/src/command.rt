//! What the words ask for.
use clap::error::ErrorKind;
use lrc_base::Memory;
use thiserror::Error;

/// What is to be done.
#[derive(Debug, Clone, Copy, PartialEq, Eq)]
pub enum Verb {
    /// Run the job's sessions.
    Run,
    /// Run the one session of a job, with counts.
    Solo,
    /// Tell whether the grammar is ordered, with its partitions.
    Check,
    /// Print the partitions and the visit sequences.
    Plan,
    /// Run a generated job.
    Gen,
}

/// The words, read: what is to be done, and the number of each option.
#[derive(Debug, Clone, Copy, PartialEq, Eq)]
pub struct Command {
    pub verb: Verb,
    /// Rows of the table for each session, 1 to 16,777,216.
    pub rows: u32,
    /// Words of the memo, 1 to 16,777,216.
    pub memo: u32,
    /// Most nested calls, 1 to 1,000.
    pub depth: u32,
    /// Seed of a generated job, 0 to 65,535.
    pub seed: u32,
    /// Nodes of a generated tree, 1 to 1,000,000.
    pub nodes: u32,
    /// Sessions of a generated job, 1 to 64.
    pub sessions: u32,
}

/// Why the words gave no command.
#[derive(Debug, Clone, Copy, PartialEq, Eq, Drop, Error)]
pub enum WordsFault {
    /// The words are not taken, or ask for nothing that is known.
    #[error("usage")]
    Usage = 1,
    /// Memory ran out.
    #[error("out of memory")]
    Memory = 2,
}

impl From<Memory> for WordsFault {
    ghost use Rattle.std.specs.Prelude.{◌≡◌};
    ghost use Rattle.lrc_words.specs.declared.command.WordsFault.TheVariants.{Memory};

    ghost from_gives = { λ _ fault. fault ≡ Memory };

    fn from(_memory: Memory) -> WordsFault {
        WordsFault::Memory
    }
}

impl From<clap::Error> for WordsFault {
    ghost use Rattle.std.specs.Prelude.{◌≡◌, ◌≢◌};
    ghost use Rattle.clap.specs.Words.{kind_of};
    ghost use Rattle.clap.specs.declared.error.kind.ErrorKind.TheVariants.{OutOfMemory};
    ghost use Rattle.lrc_words.specs.declared.command.WordsFault.TheVariants.{Usage};

    ghost from_gives = { λ error fault. fault ≡ Usage → kind_of error ≢ OutOfMemory };

    fn from(error: clap::Error) -> WordsFault {
        if error.kind() == ErrorKind::OutOfMemory {
            WordsFault::Memory
        } else {
            WordsFault::Usage
        }
    }
}
