ghost use Rattle.std.specs.Prelude.{◌≡◌, ◌<◌, ◌^◌, length, map, IfOk};
ghost use Rattle.lrc_meaning.specs.Naming.{kid_number, named_piece, named_pattern, pattern_of, each_some};
ghost use Rattle.lrc_naming.specs.Names.{Names, NamesPart};

use crate::fault::NamingFault;
use lrc_base::{Kid, List, Memory, NameText, Piece, RawItem, RawPiece};
use std::alloc::Global;

/// The number of the first child of this name.
fn kid_number(kids: &[Kid], name: NameText) -> Option<u32>
    requires { length kids.now < 2 ^ 32 }
    ensures { result ≡ kid_number kids.now name }
{
    let place = kid_place(kids, name)?;
    Some(place as u32)
}

fn kid_place(kids: &[Kid], name: NameText) -> Option<usize>
    ensures { result ≡ kid_number kids.now name }
{
    kids.iter().position(|kid| kid.name == name)
}

fn named_piece(alloc: Global, kids: &[Kid], piece: &RawPiece) -> Result<Piece, NamingFault>
    requires { length kids.now < 2 ^ 32 }
    ensures { Names result (named_piece kids.now piece.now) }
{
    match piece {
        RawPiece::Text(bytes) => Ok(Piece::Text(copied(alloc, bytes.as_slice())?)),
        RawPiece::Kid(name) => {
            let number = kid_number(kids, *name).ok_or(NamingFault::Unnamed)?;
            Ok(Piece::Kid(number))
        }
    }
}

fn copied(alloc: Global, bytes: &[u8]) -> Result<List<u8>, Memory>
    ensures { IfOk result (λ copy. copy ≡ bytes.now) }
{
    let mut copy = List::new(alloc);
    for byte in bytes {
        copy.push(*byte)?;
    }
    Ok(copy)
}

fn named_pieces(
    alloc: Global,
    kids: &[Kid],
    pieces: &[RawPiece],
) -> Result<List<Piece>, NamingFault>
    requires { length kids.now < 2 ^ 32 }
    ensures { Names result (each_some (map (named_piece kids.now) pieces.now)) }
{
    let mut named = List::new(alloc);
    for piece in pieces {
        let piece = named_piece(alloc, kids, piece)?;
        named.push(piece)?;
    }
    Ok(named)
}

/// The pattern that an item is; None where it is an equation.
fn item_pattern(
    alloc: Global,
    kids: &[Kid],
    item: &RawItem,
) -> Result<Option<List<Piece>>, NamingFault>
    requires { length kids.now < 2 ^ 32 }
    ensures { NamesPart result (map (λ pieces. each_some (map (named_piece kids.now) pieces)) (pattern_of item.now)) }
{
    match item {
        RawItem::Pattern(pieces) => Ok(Some(named_pieces(alloc, kids, pieces.as_slice())?)),
        RawItem::Local(_, _, _)
        | RawItem::Attach(_, _, _)
        | RawItem::Own(_, _)
        | RawItem::OfKid(_, _, _) => Ok(None),
    }
}

/// The pattern among the items, where there is one.
///
/// # Errors
///
/// `Unnamed` where a child is unknown, or where two patterns stand. Want of memory.
pub fn named_pattern(
    alloc: Global,
    kids: &[Kid],
    items: &[RawItem],
) -> Result<Option<List<Piece>>, NamingFault>
    requires { length kids.now < 2 ^ 32 }
    ensures { Names result (named_pattern kids.now items.now) }
{
    let mut pattern = None;
    for item in items {
        match item_pattern(alloc, kids, item)? {
            None => {}
            Some(_) if pattern.is_some() => return Err(NamingFault::Unnamed),
            Some(pieces) => pattern = Some(pieces),
        }
    }
    Ok(pattern)
}
