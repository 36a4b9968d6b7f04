/// Why a grammar is not ordered, numbered from 1 in this order: a production, by number, and its least
/// occurrence on a cycle.
#[derive(Debug, Drop, PartialEq, Eq)]
pub enum OrderFault {
    /// A cycle of induced dependencies.
    Induced { production: u32, occurrence: u32 },
    /// A cycle of extended dependencies, where there is no induced one.
    Extended { production: u32, occurrence: u32 },
    Memory,
}
