use lrc_base::{Memory, NameText};
use thiserror::Error;

/// Why order lines give no pairs, numbered from 1 in this order.
#[derive(Debug, Clone, Copy, PartialEq, Eq, Error)]
pub enum OrderLineFault {
    /// No sort has this name, or its sort has no attribute of this name.
    #[error("a name of an order line is unknown")]
    Unknown(NameText),
    /// Memory ran out.
    #[error("out of memory")]
    Memory,
}

impl From<Memory> for OrderLineFault {
    ghost use Rattle.std.specs.Prelude.{◌≡◌};
    ghost use Rattle.lrc_augment.specs.declared.fault.OrderLineFault.TheVariants as variant;

    ghost from_gives = { λ _ fault. fault ≡ variant.Memory };

    fn from(_memory: Memory) -> OrderLineFault {
        OrderLineFault::Memory
    }
}
