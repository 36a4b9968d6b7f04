//! Terms, which are read without recursion: the nodes whose children are still being read stand in a list.

ghost use Rattle.std.specs.Prelude.{◌≡◌, ◌≤◌, None, Some, [], ◌∷◌, length, IfOk, MatchOption, OnOk};
ghost use Rattle.lrc_base.specs.RawTerms.{raw_grown, raw_wanted};
ghost use Rattle.lrc_reader.specs.Gives.{Gives, GivesAs};
ghost use Rattle.lrc_reader.specs.Grammar as grammar;
ghost use Rattle.lrc_reader.specs.Reading as reading;
ghost use Rattle.lrc_reader.specs.Steps as steps;

use crate::cursor::Cursor;
use crate::fault::Stop;
use crate::first::{LITERALS, TERMS};
use crate::lexeme::{Lexeme, Mark};
use lrc_base::limits::TERM_LEVEL_LIMIT;
use lrc_base::{BuildFault, List, Memory, NameText, RawTerm, RawTermBuild, RawTermItem};
use std::alloc::{AllocError, Global};

/// A node whose children are still being read.
#[derive(Debug, Clone, Copy)]
struct OpenNode {
    name: NameText,
    /// How many of its children have been read.
    children: u32,
}

/// What was read of a term that has begun.
#[derive(Debug, Clone, Copy)]
enum Begun {
    /// All of it, an item that takes no terms.
    Ended(RawTermItem),
    /// The name of a node with children, whose first is to follow.
    Opened(NameText),
}

/// What a literal is as an item of a term.
fn literal_item(lexeme: &Lexeme<'_>) -> Option<RawTermItem>
    ensures { MatchOption result (grammar.literal_term lexeme.now ≡ None) (λ item. (grammar.literal_term lexeme.now ≡ Some (steps.leaf_of item)) × (raw_wanted item ≡ 0)) }
{
    match lexeme {
        Lexeme::Natural(value) | Lexeme::Negative(value) => Some(RawTermItem::Int(*value)),
        Lexeme::Name(name) => Some(RawTermItem::Name(*name)),
        Lexeme::Mark(Mark::True) => Some(RawTermItem::Bool(true)),
        Lexeme::Mark(Mark::False) => Some(RawTermItem::Bool(false)),
        _ => None,
    }
}

/// A literal.
#[tactic(auto, unfolding(crate::specs::Reading::read_leaf), using(crate::proofs::Next::one_took, crate::proofs::Next::one_end, crate::proofs::Next::one_other))]
fn leaf(cursor: &mut Cursor<'_>) -> Result<RawTermItem, Stop>
    ensures gives { GivesAs steps.leaf_of result cursor.new (reading.read_leaf cursor.old) }
    ensures alone { IfOk result (λ item. raw_wanted item ≡ 0) }
{
    let Some(lexeme) = cursor.peek() else {
        return Err(Stop::Expected);
    };
    let Some(item) = literal_item(&lexeme) else {
        return Err(Stop::Expected);
    };
    cursor.advance();
    Ok(item)
}

/// A node without children, or the head of one with children.
#[tactic(auto, unfolding(crate::specs::Steps::read_head, lrc_parse::specs::Reading::read_either))]
fn head(cursor: &mut Cursor<'_>) -> Result<Begun, Stop>
    ensures gives { GivesAs steps.start_of result cursor.new (steps.read_head cursor.old) }
    ensures alone { IfOk result steps.IsAlone }
{
    let name = cursor.word()?;
    cursor.expect(Mark::LeftParen)?;
    if cursor.sees_one_of(&TERMS) {
        return Ok(Begun::Opened(name));
    }
    cursor.expect(Mark::RightParen)?;
    Ok(Begun::Ended(RawTermItem::Node(name, 0)))
}

/// The beginning of a term with at most `levels` terms within one another, itself included.
#[tactic(auto, unfolding(crate::specs::Steps::read_begin, lrc_parse::specs::Reading::read_either, lrc_parse::specs::Reading::read_nothing, lrc_parse::specs::Reading::read_of))]
fn begin(cursor: &mut Cursor<'_>, levels: usize) -> Result<Begun, Stop>
    ensures gives { GivesAs steps.start_of result cursor.new (steps.read_begin levels cursor.old) }
    ensures alone { IfOk result steps.IsAlone }
{
    if levels == 0 {
        return Err(cursor.too_deep(&TERMS));
    }
    if cursor.sees_one_of(&LITERALS) {
        return Ok(Begun::Ended(leaf(cursor)?));
    }
    head(cursor)
}

/// Whether another child follows behind one, or else its node ends.
#[tactic(auto, unfolding(crate::specs::Steps::read_next, lrc_parse::specs::Reading::read_either))]
fn another(cursor: &mut Cursor<'_>) -> Result<bool, Stop>
    ensures { Gives result cursor.new (steps.read_next cursor.old) }
{
    if cursor.sees(Mark::Comma) {
        cursor.expect(Mark::Comma)?;
        return Ok(true);
    }
    cursor.expect(Mark::RightParen)?;
    Ok(false)
}

/// Adds an item that finds the terms that it takes.
fn add(trees: &mut RawTermBuild, item: RawTermItem) -> Result<(), Memory>
    requires { raw_wanted item ≤ length trees.old }
    ensures { OnOk result (trees.new ≡ raw_grown trees.old item) }
{
    match trees.add(item) {
        Ok(()) => Ok(()),
        Err(BuildFault::Memory) => Err(AllocError),
        Err(BuildFault::TooFew) => unreachable!(),
    }
}

/// The one term that was made.
fn only(trees: RawTermBuild) -> RawTerm
    requires { length trees ≡ 1 }
    ensures { trees ≡ result ∷ [] }
{
    match trees.finish() {
        Some(term) => term,
        None => unreachable!(),
    }
}

/// A term, with at most `TERM_LEVEL_LIMIT` terms within one another. The time is linear in its tokens.
pub fn term(alloc: Global, cursor: &mut Cursor<'_>) -> Result<RawTerm, Stop>
    ensures { Gives result cursor.new (reading.read_term 0 cursor.old) }
{
    let mut trees = RawTermBuild::new(alloc);
    let mut open: List<OpenNode> = List::new(alloc);
    let mut ended = false;
    'more: loop {
        if !ended {
            match begin(cursor, TERM_LEVEL_LIMIT - open.len())? {
                Begun::Ended(item) => {
                    add(&mut trees, item)?;
                    ended = true;
                }
                Begun::Opened(name) => {
                    open.push(OpenNode { name, children: 0 })?;
                    ended = false;
                }
            }
        } else {
            let Some(node) = open.pop() else {
                return Ok(only(trees));
            };
            let children = node.children.checked_add(1).ok_or(Stop::Memory)?;
            if another(cursor)? {
                open.push(OpenNode {
                    name: node.name,
                    children,
                })?;
                ended = false;
            } else {
                add(&mut trees, RawTermItem::Node(node.name, children))?;
                ended = true;
            }
        }
    }
}
