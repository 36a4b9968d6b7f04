use lrc_store::Handle;

/// A visit that runs: which production's node it visits, which visit it is, counted from 1, and the
/// node.
#[derive(Debug, Clone, Copy, PartialEq, Eq)]
pub struct Body {
    pub production: u32,
    pub visit: u32,
    pub tree: Handle,
}
