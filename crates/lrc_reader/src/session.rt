//! A session: its tree and its edits.

ghost use Rattle.std.specs.Prelude.{[]};
ghost use Rattle.lrc_reader.specs.Gives.{Gives, GivesAs};
ghost use Rattle.lrc_reader.specs.Reading as reading;

use crate::cursor::Cursor;
use crate::fault::{Limit, Stop};
use crate::first::EDITS;
use crate::lexeme::Mark;
use crate::term::term;
use lrc_base::limits::EDIT_LIMIT;
use lrc_base::{List, RawEdit, RawScript};
use std::alloc::Global;

/// An edit that puts a term at a place.
#[tactic(auto, unfolding(crate::specs::Reading::read_put))]
fn put(alloc: Global, cursor: &mut Cursor<'_>) -> Result<RawEdit, Stop>
    ensures { Gives result cursor.new (reading.read_put 0 cursor.old) }
{
    cursor.expect(Mark::Put)?;
    let path = cursor.path(alloc)?;
    let tree = term(alloc, cursor)?;
    cursor.expect(Mark::Semicolon)?;
    Ok(RawEdit::Put(path, tree))
}

/// An edit that copies from one place to another.
#[tactic(auto, unfolding(crate::specs::Reading::read_copy))]
fn copy(alloc: Global, cursor: &mut Cursor<'_>) -> Result<RawEdit, Stop>
    ensures { Gives result cursor.new (reading.read_copy cursor.old) }
{
    cursor.expect(Mark::Copy)?;
    let from = cursor.path(alloc)?;
    let to = cursor.path(alloc)?;
    cursor.expect(Mark::Semicolon)?;
    Ok(RawEdit::Copy(from, to))
}

/// An edit that shows the tree.
#[tactic(auto, unfolding(crate::specs::Reading::read_show))]
fn show(cursor: &mut Cursor<'_>) -> Result<RawEdit, Stop>
    ensures { Gives result cursor.new (reading.read_show cursor.old) }
{
    cursor.expect(Mark::Show)?;
    cursor.expect(Mark::Semicolon)?;
    Ok(RawEdit::Show)
}

/// An edit that lets the store forget.
#[tactic(auto, unfolding(crate::specs::Reading::read_forget))]
fn forget(cursor: &mut Cursor<'_>) -> Result<RawEdit, Stop>
    ensures { Gives result cursor.new (reading.read_forget cursor.old) }
{
    cursor.expect(Mark::Forget)?;
    let count = cursor.count()?;
    cursor.expect(Mark::Semicolon)?;
    Ok(RawEdit::Forget(count))
}

/// An edit.
#[tactic(auto, unfolding(crate::specs::Reading::read_edit, lrc_parse::specs::Reading::read_either))]
fn edit(alloc: Global, cursor: &mut Cursor<'_>) -> Result<RawEdit, Stop>
    ensures { Gives result cursor.new (reading.read_edit 0 cursor.old) }
{
    if cursor.sees(Mark::Put) {
        return put(alloc, cursor);
    }
    if cursor.sees(Mark::Copy) {
        return copy(alloc, cursor);
    }
    if cursor.sees(Mark::Show) {
        return show(cursor);
    }
    forget(cursor)
}

/// One edit more, if there may be one more.
#[tactic(auto, unfolding(crate::specs::Reading::read_another_edit))]
fn another_edit(
    alloc: Global,
    cursor: &mut Cursor<'_>,
    edits: &mut List<RawEdit>,
) -> Result<(), Stop>
    ensures { GivesAs (λ _. edits.new) result cursor.new (reading.read_another_edit 0 edits.old cursor.old) }
{
    cursor.room(edits.len(), EDIT_LIMIT, &EDITS, Limit::Edits)?;
    edits.push(edit(alloc, cursor)?)?;
    Ok(())
}

/// The edits of a session.
#[tactic(auto, using(crate::proofs::Shorter::edit_turn, crate::proofs::Shorter::edit_stops, crate::proofs::Shorter::edit_end, crate::proofs::Shorter::edit_shorter))]
fn edits(alloc: Global, cursor: &mut Cursor<'_>) -> Result<List<RawEdit>, Stop>
    ensures { Gives result cursor.new (reading.read_edits 0 [] cursor.old) }
{
    let mut edits = List::new(alloc);
    'more: while cursor.sees_one_of(&EDITS) {
        another_edit(alloc, cursor, &mut edits)?;
    }
    Ok(edits)
}

/// A session: its tree, and its edits in order.
#[tactic(auto, unfolding(crate::specs::Reading::read_session))]
pub fn session(alloc: Global, cursor: &mut Cursor<'_>) -> Result<RawScript, Stop>
    ensures { Gives result cursor.new (reading.read_session 0 cursor.old) }
{
    cursor.expect(Mark::Session)?;
    cursor.expect(Mark::On)?;
    let tree = term(alloc, cursor)?;
    cursor.expect(Mark::LeftBrace)?;
    let edits = edits(alloc, cursor)?;
    cursor.expect(Mark::RightBrace)?;
    Ok(RawScript { tree, edits })
}
