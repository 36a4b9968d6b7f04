ghost use Rattle.std.specs.Prelude.{IfOk};
ghost use Rattle.lrc_threads.specs.Halves.{IsOnly, AreInOrder};

use lrc_base::{List, Memory};
use lrc_run::{Line, Out};
use lrc_store::Handle;
use std::alloc::Global;

/// How large a run is.
#[derive(Debug, Clone, Copy, Drop)]
pub struct Sizes {
    /// Rows of the table for each session, at least 1; at most 16,777,216 for all together.
    pub rows: u32,
    /// Words of the memo that all sessions share, 1 to 16,777,216.
    pub memo: u32,
    /// Most nested visits.
    pub depth: u32,
}

/// What the sessions of a job were answered.
#[derive(Debug, Drop)]
pub struct Outs {
    /// The lines of each session, in order.
    pub sessions: List<List<Line>>,
    /// Of each session the number of the first session, from 1, whose last tree equals its last tree;
    /// None where its opening was refused.
    pub finals: List<Option<u32>>,
}

/// What sessions in a row were answered.
#[derive(Debug, Drop)]
pub(crate) struct Played {
    /// The lines of each session, in order.
    pub sessions: List<List<Line>>,
    /// The last tree of each session; None where its opening was refused.
    pub lasts: List<Option<Handle>>,
}

impl Played {
    /// What one session was answered.
    ///
    /// # Errors
    ///
    /// Want of memory, also in the session.
    pub(crate) fn of(alloc: Global, answer: Result<Out, Memory>) -> Result<Played, Memory>
        ensures { IfOk result (IsOnly answer) }
    {
        let Out { lines, last } = answer?;
        let mut sessions = List::new(alloc);
        sessions.push(lines)?;
        let mut lasts = List::new(alloc);
        lasts.push(last)?;
        Ok(Played { sessions, lasts })
    }

    /// What the sessions of both halves were answered, in order.
    ///
    /// # Errors
    ///
    /// Want of memory, also in one of the halves.
    pub(crate) fn joined(
        left: Result<Played, Memory>,
        right: Result<Played, Memory>,
    ) -> Result<Played, Memory>
        ensures { IfOk result (AreInOrder left right) }
    {
        let mut played = left?;
        let more = right?;
        played.sessions.append(more.sessions)?;
        played.lasts.append(more.lasts)?;
        Ok(played)
    }
}
