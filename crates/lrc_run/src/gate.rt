/// Is told of each reply before it is computed, so that a test can see which sessions run at once.
pub trait Gate {
    /// The reply to an edit of a session comes next. Sessions and edits are counted from 1, and the
    /// opening is edit 0.
    fn pass(&self, session: u32, edit: u32);
}

/// A gate that does nothing.
#[derive(Debug, Clone, Copy, Drop)]
pub struct OpenGate;

impl Gate for OpenGate {
    fn pass(&self, _session: u32, _edit: u32) {}
}

/// A session at a gate.
#[derive(Debug, Drop)]
pub struct Ticket<'a, G: Gate> {
    pub gate: &'a G,
    /// The session's number, from 1.
    pub session: u32,
}

impl<'a, G: Gate> Ticket<'a, G> {
    /// The reply to this edit comes next; the number stands still at the largest there is.
    pub(crate) fn pass(&self, edit: usize) {
        self.gate
            .pass(self.session, u32::try_from(edit).unwrap_or(u32::MAX));
    }
}
