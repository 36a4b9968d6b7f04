//! Sorts with their attributes, and the kinds of values.

ghost use Rattle.lrc_reader.specs.Gives.{Gives, GivesAs};
ghost use Rattle.lrc_reader.specs.Reading as reading;
ghost use Rattle.std.specs.Prelude.{[]};

use crate::cursor::Cursor;
use crate::fault::{Limit, Stop};
use crate::first::DIRECTIONS;
use crate::lexeme::Mark;
use lrc_base::limits::ATTRIBUTE_LIMIT;
use lrc_base::{List, RawAttr, RawKind, RawSort};
use std::alloc::Global;

/// A kind: one of the three that are given, or the name of a sort.
#[tactic(auto, unfolding(crate::specs::Reading::read_kind, crate::specs::Reading::read_named_kind, lrc_parse::specs::Reading::read_either))]
pub fn kind(cursor: &mut Cursor<'_>) -> Result<RawKind, Stop>
    ensures { Gives result cursor.new (reading.read_kind cursor.old) }
{
    if cursor.sees(Mark::Int) {
        cursor.expect(Mark::Int)?;
        return Ok(RawKind::Int);
    }
    if cursor.sees(Mark::Bool) {
        cursor.expect(Mark::Bool)?;
        return Ok(RawKind::Bool);
    }
    if cursor.sees(Mark::Name) {
        cursor.expect(Mark::Name)?;
        return Ok(RawKind::Name);
    }
    Ok(RawKind::Named(cursor.word()?))
}

/// Whether an attribute is inherited, by its first word.
#[tactic(auto, unfolding(crate::specs::Reading::read_direction, lrc_parse::specs::Reading::read_either))]
fn direction(cursor: &mut Cursor<'_>) -> Result<bool, Stop>
    ensures { Gives result cursor.new (reading.read_direction cursor.old) }
{
    if cursor.sees(Mark::Inh) {
        cursor.expect(Mark::Inh)?;
        return Ok(true);
    }
    cursor.expect(Mark::Syn)?;
    Ok(false)
}

/// One attribute more.
#[tactic(auto, unfolding(crate::specs::Reading::read_push_attr, crate::specs::Reading::read_attr))]
fn push_attribute(cursor: &mut Cursor<'_>, attributes: &mut List<RawAttr>) -> Result<(), Stop>
    ensures { GivesAs (λ _. attributes.new) result cursor.new (reading.read_push_attr attributes.old cursor.old) }
{
    let inherited = direction(cursor)?;
    let name = cursor.word()?;
    cursor.expect(Mark::Colon)?;
    let kind = kind(cursor)?;
    cursor.expect(Mark::Semicolon)?;
    attributes.push(RawAttr {
        name,
        inherited,
        kind,
    })?;
    Ok(())
}

/// One attribute more, if there may be one more.
#[tactic(auto, unfolding(crate::specs::Reading::read_another_attr))]
fn another_attribute(cursor: &mut Cursor<'_>, attributes: &mut List<RawAttr>) -> Result<(), Stop>
    ensures { GivesAs (λ _. attributes.new) result cursor.new (reading.read_another_attr 0 attributes.old cursor.old) }
{
    cursor.room(
        attributes.len(),
        ATTRIBUTE_LIMIT,
        &DIRECTIONS,
        Limit::Attributes,
    )?;
    push_attribute(cursor, attributes)
}

/// The attributes of a sort.
#[tactic(auto, using(crate::proofs::Shorter::attr_turn, crate::proofs::Shorter::attr_stops, crate::proofs::Shorter::attr_end, crate::proofs::Shorter::attr_shorter))]
fn attributes(alloc: Global, cursor: &mut Cursor<'_>) -> Result<List<RawAttr>, Stop>
    ensures { Gives result cursor.new (reading.read_attrs 0 [] cursor.old) }
{
    let mut attributes = List::new(alloc);
    'more: while cursor.sees_one_of(&DIRECTIONS) {
        another_attribute(cursor, &mut attributes)?;
    }
    Ok(attributes)
}

/// A sort with its attributes.
#[tactic(auto, unfolding(crate::specs::Reading::read_sort))]
pub fn sort(alloc: Global, cursor: &mut Cursor<'_>) -> Result<RawSort, Stop>
    ensures { Gives result cursor.new (reading.read_sort 0 cursor.old) }
{
    cursor.expect(Mark::Sort)?;
    let name = cursor.word()?;
    cursor.expect(Mark::LeftBrace)?;
    let attrs = attributes(alloc, cursor)?;
    cursor.expect(Mark::RightBrace)?;
    Ok(RawSort { name, attrs })
}
