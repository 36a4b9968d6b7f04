//! The whole of a job: its header, its grammar and its sessions.

ghost use Rattle.std.specs.Prelude.{[]};
ghost use Rattle.lrc_reader.specs.Gives.{Gives, GivesAs};
ghost use Rattle.lrc_reader.specs.Reading as reading;

use crate::cursor::Cursor;
use crate::fault::{Limit, Stop};
use crate::first::SESSIONS;
use crate::grammar::grammar;
use crate::lexeme::Mark;
use crate::session::session;
use lrc_base::limits::SESSION_LIMIT;
use lrc_base::{Job, List, RawScript};
use std::alloc::Global;

/// One session more, if there may be one more.
#[tactic(auto, unfolding(crate::specs::Reading::read_another_session))]
fn another_session(
    alloc: Global,
    cursor: &mut Cursor<'_>,
    sessions: &mut List<RawScript>,
) -> Result<(), Stop>
    ensures { GivesAs (λ _. sessions.new) result cursor.new (reading.read_another_session 0 sessions.old cursor.old) }
{
    cursor.room(sessions.len(), SESSION_LIMIT, &SESSIONS, Limit::Sessions)?;
    sessions.push(session(alloc, cursor)?)?;
    Ok(())
}

/// The sessions of a job.
#[tactic(auto, using(crate::proofs::Shorter::session_turn, crate::proofs::Shorter::session_stops, crate::proofs::Shorter::session_end, crate::proofs::Shorter::session_shorter))]
fn sessions(alloc: Global, cursor: &mut Cursor<'_>) -> Result<List<RawScript>, Stop>
    ensures { Gives result cursor.new (reading.read_sessions 0 [] cursor.old) }
{
    let mut sessions = List::new(alloc);
    'more: while cursor.sees(Mark::Session) {
        another_session(alloc, cursor, &mut sessions)?;
    }
    Ok(sessions)
}

/// The header, a grammar and sessions.
#[tactic(auto, unfolding(crate::specs::Reading::read_all))]
pub fn job(alloc: Global, cursor: &mut Cursor<'_>) -> Result<Job, Stop>
    ensures { Gives result cursor.new (reading.read_all 0 cursor.old) }
{
    cursor.expect(Mark::Lrc)?;
    cursor.one()?;
    let grammar = grammar(alloc, cursor)?;
    let sessions = sessions(alloc, cursor)?;
    Ok(Job { grammar, sessions })
}
