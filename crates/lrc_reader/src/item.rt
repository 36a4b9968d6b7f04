//! The items of a production: locals, nonterminal attributes, patterns of text and equations.

ghost use Rattle.lrc_reader.specs.Gives.{Gives, GivesAs};
ghost use Rattle.lrc_reader.specs.Reading as reading;
ghost use Rattle.lrc_reader.specs.Grammar as grammar;
ghost use Rattle.std.specs.Prelude.{◌≡◌, [], IfOk};

use crate::cursor::Cursor;
use crate::expression::expression;
use crate::fault::{Limit, Stop};
use crate::first::{DECLARATIONS, ITEMS, PIECES};
use crate::lexeme::{Lexeme, Mark};
use crate::sort::kind;
use lrc_base::limits::LOCAL_LIMIT;
use lrc_base::{List, Memory, NameText, RawItem, RawPiece};
use std::alloc::Global;

/// A local.
#[tactic(auto, unfolding(crate::specs::Reading::read_local))]
fn local(alloc: Global, cursor: &mut Cursor<'_>) -> Result<RawItem, Stop>
    ensures { Gives result cursor.new (reading.read_local 0 cursor.old) }
{
    cursor.expect(Mark::Local)?;
    let name = cursor.word()?;
    cursor.expect(Mark::Colon)?;
    let kind = kind(cursor)?;
    cursor.expect(Mark::Equals)?;
    let value = expression(alloc, cursor)?;
    cursor.expect(Mark::Semicolon)?;
    Ok(RawItem::Local(name, kind, value))
}

/// A nonterminal attribute.
#[tactic(auto, unfolding(crate::specs::Reading::read_attach))]
fn attach(alloc: Global, cursor: &mut Cursor<'_>) -> Result<RawItem, Stop>
    ensures { Gives result cursor.new (reading.read_attach 0 cursor.old) }
{
    cursor.expect(Mark::Attach)?;
    let name = cursor.word()?;
    cursor.expect(Mark::Colon)?;
    let sort = cursor.word()?;
    cursor.expect(Mark::Equals)?;
    let tree = expression(alloc, cursor)?;
    cursor.expect(Mark::Semicolon)?;
    Ok(RawItem::Attach(name, sort, tree))
}

/// A local or a nonterminal attribute.
#[tactic(auto, unfolding(crate::specs::Reading::read_declared, lrc_parse::specs::Reading::read_either))]
fn declared(alloc: Global, cursor: &mut Cursor<'_>) -> Result<RawItem, Stop>
    ensures { Gives result cursor.new (reading.read_declared 0 cursor.old) }
{
    if cursor.sees(Mark::Local) {
        return local(alloc, cursor);
    }
    attach(alloc, cursor)
}

/// What a lexeme is as a piece of a pattern.
fn piece_of(alloc: Global, lexeme: &Lexeme<'_>) -> Result<Option<RawPiece>, Memory>
    ensures { IfOk result (λ piece. piece ≡ grammar.piece_of lexeme.now) }
{
    match lexeme {
        Lexeme::Text(text) => Ok(Some(RawPiece::Text(text.bytes(alloc)?))),
        Lexeme::Word(name) => Ok(Some(RawPiece::Kid(*name))),
        _ => Ok(None),
    }
}

/// One piece of a pattern more.
#[tactic(auto, unfolding(crate::specs::Reading::read_another_piece, crate::specs::Reading::read_piece), using(crate::proofs::Next::one_took, crate::proofs::Next::one_end, crate::proofs::Next::one_other))]
fn another_piece(
    alloc: Global,
    cursor: &mut Cursor<'_>,
    pieces: &mut List<RawPiece>,
) -> Result<(), Stop>
    ensures { GivesAs (λ _. pieces.new) result cursor.new (reading.read_another_piece pieces.old cursor.old) }
{
    let Some(lexeme) = cursor.peek() else {
        return Err(Stop::Expected);
    };
    let Some(piece) = piece_of(alloc, &lexeme)? else {
        return Err(Stop::Expected);
    };
    cursor.advance();
    pieces.push(piece)?;
    Ok(())
}

/// The pieces of a pattern.
#[tactic(auto, using(crate::proofs::Shorter::piece_turn, crate::proofs::Shorter::piece_stops, crate::proofs::Shorter::piece_end, crate::proofs::Shorter::piece_shorter))]
fn pieces(alloc: Global, cursor: &mut Cursor<'_>) -> Result<List<RawPiece>, Stop>
    ensures { Gives result cursor.new (reading.read_pieces [] cursor.old) }
{
    let mut pieces = List::new(alloc);
    'more: while cursor.sees_one_of(&PIECES) {
        another_piece(alloc, cursor, &mut pieces)?;
    }
    Ok(pieces)
}

/// A pattern of text.
#[tactic(auto, unfolding(crate::specs::Reading::read_pattern))]
fn pattern(alloc: Global, cursor: &mut Cursor<'_>) -> Result<RawItem, Stop>
    ensures { Gives result cursor.new (reading.read_pattern cursor.old) }
{
    cursor.expect(Mark::Text)?;
    let pieces = pieces(alloc, cursor)?;
    cursor.expect(Mark::Semicolon)?;
    Ok(RawItem::Pattern(pieces))
}

/// The name behind a dot, if one comes next.
#[tactic(auto, unfolding(crate::specs::Reading::read_attribute_of, crate::specs::Reading::read_dot_word, lrc_parse::specs::Reading::read_optional, lrc_parse::specs::Reading::read_either, lrc_parse::specs::Reading::read_of, lrc_parse::specs::Reading::read_empty))]
fn attribute_of(cursor: &mut Cursor<'_>) -> Result<Option<NameText>, Stop>
    ensures { Gives result cursor.new (reading.read_attribute_of cursor.old) }
{
    if cursor.sees(Mark::Dot) {
        cursor.expect(Mark::Dot)?;
        return Ok(Some(cursor.word()?));
    }
    Ok(None)
}

/// An equation of an attribute of the left side or of a symbol.
#[tactic(auto, unfolding(crate::specs::Reading::read_equation))]
fn equation(alloc: Global, cursor: &mut Cursor<'_>) -> Result<RawItem, Stop>
    ensures { Gives result cursor.new (reading.read_equation 0 cursor.old) }
{
    let name = cursor.word()?;
    let attribute = attribute_of(cursor)?;
    cursor.expect(Mark::Equals)?;
    let value = expression(alloc, cursor)?;
    cursor.expect(Mark::Semicolon)?;
    match attribute {
        Some(attribute) => Ok(RawItem::OfKid(name, attribute, value)),
        None => Ok(RawItem::Own(name, value)),
    }
}

/// A pattern or an equation.
#[tactic(auto, unfolding(crate::specs::Reading::read_undeclared, lrc_parse::specs::Reading::read_either))]
fn undeclared(alloc: Global, cursor: &mut Cursor<'_>) -> Result<RawItem, Stop>
    ensures { Gives result cursor.new (reading.read_undeclared 0 cursor.old) }
{
    if cursor.sees(Mark::Text) {
        return pattern(alloc, cursor);
    }
    equation(alloc, cursor)
}

/// One local or nonterminal attribute more, if there may be one more; `count` is theirs.
#[tactic(auto, unfolding(crate::specs::Reading::read_declaration))]
fn declaration(
    alloc: Global,
    cursor: &mut Cursor<'_>,
    items: &mut List<RawItem>,
    count: &mut usize,
) -> Result<(), Stop>
    ensures { GivesAs (λ _. (items.new, count.new)) result cursor.new (reading.read_declaration 0 (items.old, count.old) cursor.old) }
{
    cursor.room(*count, LOCAL_LIMIT, &DECLARATIONS, Limit::Locals)?;
    items.push(declared(alloc, cursor)?)?;
    *count += 1;
    Ok(())
}

/// One other item more.
#[tactic(auto, unfolding(crate::specs::Reading::read_other))]
fn other(
    alloc: Global,
    cursor: &mut Cursor<'_>,
    items: &mut List<RawItem>,
    count: usize,
) -> Result<(), Stop>
    ensures { GivesAs (λ _. (items.new, count)) result cursor.new (reading.read_other 0 (items.old, count) cursor.old) }
{
    items.push(undeclared(alloc, cursor)?)?;
    Ok(())
}

/// One item more.
#[tactic(auto, unfolding(crate::specs::Reading::read_another_item, lrc_parse::specs::Reading::read_either))]
fn another_item(
    alloc: Global,
    cursor: &mut Cursor<'_>,
    items: &mut List<RawItem>,
    count: &mut usize,
) -> Result<(), Stop>
    ensures { GivesAs (λ _. (items.new, count.new)) result cursor.new (reading.read_another_item 0 (items.old, count.old) cursor.old) }
{
    if cursor.sees_one_of(&DECLARATIONS) {
        return declaration(alloc, cursor, items, count);
    }
    other(alloc, cursor, items, *count)
}

/// The items of a production, in braces.
#[tactic(auto, unfolding(crate::specs::Reading::read_items), using(crate::proofs::Shorter::item_turn, crate::proofs::Shorter::item_stops, crate::proofs::Shorter::item_end, crate::proofs::Shorter::item_shorter))]
pub fn items(alloc: Global, cursor: &mut Cursor<'_>) -> Result<List<RawItem>, Stop>
    ensures { Gives result cursor.new (reading.read_items 0 cursor.old) }
{
    cursor.expect(Mark::LeftBrace)?;
    let mut items = List::new(alloc);
    let mut count = 0;
    'more: while cursor.sees_one_of(&ITEMS) {
        another_item(alloc, cursor, &mut items, &mut count)?;
    }
    cursor.expect(Mark::RightBrace)?;
    Ok(items)
}
