//! Productions with their children.

ghost use Rattle.lrc_reader.specs.Gives.{Gives, GivesAs};
ghost use Rattle.lrc_reader.specs.Reading as reading;

use crate::cursor::Cursor;
use crate::fault::{Limit, Stop};
use crate::first::WORDS;
use crate::item::items;
use crate::lexeme::Mark;
use crate::sort::kind;
use lrc_base::limits::CHILD_LIMIT;
use lrc_base::{List, RawKid, RawKind, RawProd};
use std::alloc::Global;

/// One child more.
#[tactic(auto, unfolding(crate::specs::Reading::read_push_kid, crate::specs::Reading::read_kid))]
fn push_child(cursor: &mut Cursor<'_>, children: &mut List<RawKid>) -> Result<(), Stop>
    ensures { GivesAs (λ _. children.new) result cursor.new (reading.read_push_kid children.old cursor.old) }
{
    let name = cursor.word()?;
    cursor.expect(Mark::Colon)?;
    let kind = kind(cursor)?;
    children.push(RawKid { name, kind })?;
    Ok(())
}

/// One child more behind a comma, if there may be one more.
#[tactic(auto, unfolding(crate::specs::Reading::read_another_kid))]
fn another_child(cursor: &mut Cursor<'_>, children: &mut List<RawKid>) -> Result<(), Stop>
    ensures { GivesAs (λ _. children.new) result cursor.new (reading.read_another_kid 0 children.old cursor.old) }
{
    cursor.expect(Mark::Comma)?;
    cursor.room(children.len(), CHILD_LIMIT, &WORDS, Limit::Children)?;
    push_child(cursor, children)
}

/// One child or more, with commas between.
#[tactic(auto, unfolding(crate::specs::Reading::read_some_kids), using(crate::proofs::Shorter::kid_turn, crate::proofs::Shorter::kid_stops, crate::proofs::Shorter::kid_end, crate::proofs::Shorter::kid_shorter))]
fn some_children(alloc: Global, cursor: &mut Cursor<'_>) -> Result<List<RawKid>, Stop>
    ensures { Gives result cursor.new (reading.read_some_kids 0 cursor.old) }
{
    let mut children = List::new(alloc);
    push_child(cursor, &mut children)?;
    'more: while cursor.sees(Mark::Comma) {
        another_child(cursor, &mut children)?;
    }
    Ok(children)
}

/// Any number of children.
#[tactic(auto, unfolding(crate::specs::Reading::read_any_kids, lrc_parse::specs::Reading::read_either))]
fn any_children(alloc: Global, cursor: &mut Cursor<'_>) -> Result<List<RawKid>, Stop>
    ensures { Gives result cursor.new (reading.read_any_kids 0 cursor.old) }
{
    if cursor.sees_one_of(&WORDS) {
        return some_children(alloc, cursor);
    }
    Ok(List::new(alloc))
}

/// The children of a production, in parentheses.
#[tactic(auto, unfolding(crate::specs::Reading::read_kids))]
fn children(alloc: Global, cursor: &mut Cursor<'_>) -> Result<List<RawKid>, Stop>
    ensures { Gives result cursor.new (reading.read_kids 0 cursor.old) }
{
    cursor.expect(Mark::LeftParen)?;
    let children = any_children(alloc, cursor)?;
    cursor.expect(Mark::RightParen)?;
    Ok(children)
}

/// A production.
#[tactic(auto, unfolding(crate::specs::Reading::read_prod))]
pub fn production(alloc: Global, cursor: &mut Cursor<'_>) -> Result<RawProd, Stop>
    ensures { Gives result cursor.new (reading.read_prod 0 cursor.old) }
{
    cursor.expect(Mark::Prod)?;
    let name = cursor.word()?;
    cursor.expect(Mark::Colon)?;
    let left = cursor.word()?;
    let kids = children(alloc, cursor)?;
    let items = items(alloc, cursor)?;
    Ok(RawProd {
        name,
        left,
        kids,
        items,
    })
}
