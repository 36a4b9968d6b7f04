use lrc_base::Memory;
use thiserror::Error;

/// Why what is written has no numbers.
#[derive(Debug, Clone, Copy, PartialEq, Eq, Error)]
pub enum NamingFault {
    /// A name is unknown, or a production has two patterns.
    #[error("a name is unknown")]
    Unnamed,
    /// Memory ran out.
    #[error("out of memory")]
    Memory,
}

impl From<Memory> for NamingFault {
    ghost use Rattle.std.specs.Prelude.{◌≡◌};
    ghost use Rattle.lrc_naming.specs.declared.fault.NamingFault.TheVariants as variant;

    ghost from_gives = { λ _ fault. fault ≡ variant.Memory };

    fn from(_memory: Memory) -> NamingFault {
        NamingFault::Memory
    }
}
