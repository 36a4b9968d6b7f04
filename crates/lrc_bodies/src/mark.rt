use lrc_frames::Body;
use lrc_store::Handle;

/// Where a body is: the call that it answers, the visit that runs, how many actions of its function it
/// has done, and the height of the highest visit that it made.
#[derive(Debug, Clone, Copy, PartialEq, Eq)]
pub struct Mark {
    pub call: Handle,
    pub body: Body,
    pub at: usize,
    pub height: u32,
}
