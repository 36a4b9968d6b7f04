/// The name of a cell in one store. Whether a number is a known handle is a matter of contracts
/// alone.
#[derive(Debug, Clone, Copy, PartialEq, Eq)]
pub struct Handle(pub u32);

impl Handle {
    /// The handle that stands for the cell nil in every store.
    pub const NIL: Handle = Handle(0);
}

/// The outermost form of a cell.
#[derive(Debug, Clone, Copy, PartialEq, Eq)]
pub enum Cell {
    Nil,
    Number(i64),
    /// A tag, the left cell and the right cell.
    Pair(u32, Handle, Handle),
}
