ghost use Rattle.std.specs.Prelude.{◌≡◌, ◌≢◌, ◌≤◌, ◌<◌, ◌++◌, ◌∷◌, [], List as Sequence, length, All, IfOk, IfErr, OnOk};
ghost use Rattle.lrc_syntax.specs.declared.part.Part.{Part};
ghost use Rattle.lrc_syntax.specs.declared.part.Part.TheVariants as part;
ghost use Rattle.lrc_syntax.specs.declared.fault.ProductionFault.TheVariants as variant;
ghost use Rattle.lrc_syntax.specs.Spelling.{symbol, behind_comma, plain_parts, IsPieceSpelling, ArePartsOf};
ghost use Rattle.lrc_syntax.specs.Faults.{AreTerminals, IsBadPiece, HasBadText, IsPieceReady};

use crate::fault::ProductionFault;
use crate::part::{Lexeme, Part};
use crate::text::text_parts;
use lrc_base::limits::CHILD_LIMIT;
use lrc_base::{Kid, Kind, List, Memory, NameText, Piece};
use lrc_lex::TokenClass;
use std::alloc::Global;

/// A symbol of one byte.
fn symbol(byte: u8) -> Part
    requires { 1 ≤ byte }
    ensures { result ≡ part.Token (symbol (byte ∷ [])) }
{
    match NameText::of(&[byte]) {
        Some(bytes) => Part::Token(Lexeme {
            class: TokenClass::Symbol,
            bytes,
        }),
        None => unreachable!(),
    }
}

/// Adds a child, behind a comma unless it is the first.
fn push_behind_comma(parts: &mut List<Part>, number: u32, kind: Kind) -> Result<(), Memory>
    ensures { OnOk result (parts.new ≡ parts.old ++ behind_comma number kind) }
{
    if number > 0 {
        parts.push(symbol(b','))?;
    }
    parts.push(Part::Child(number, kind))
}

/// The parts of a production without a pattern: its name, and in brackets its children, with commas
/// between them.
pub fn plain_parts(alloc: Global, name: NameText, kids: &[Kid]) -> Result<List<Part>, Memory>
    requires { length kids.now ≤ CHILD_LIMIT }
    ensures { IfOk result (λ parts. parts ≡ plain_parts name kids.now) }
{
    let mut parts = List::new(alloc);
    parts.push(Part::Token(Lexeme {
        class: TokenClass::Word,
        bytes: name,
    }))?;
    parts.push(symbol(b'('))?;
    for number in 0..kids.len() {
        push_behind_comma(&mut parts, number as u32, kids[number].kind)?;
    }
    parts.push(symbol(b')'))?;
    Ok(parts)
}

/// Adds the parts of a piece of a pattern.
fn push_piece(
    alloc: Global,
    kids: &[Kid],
    piece: &Piece,
    parts: &mut List<Part>,
) -> Result<(), ProductionFault>
    requires { IsPieceReady kids.now piece.now }
    ensures parts { OnOk result ((front : Sequence Part) × IsPieceSpelling kids.now piece.now front × AreTerminals front × (parts.new ≡ parts.old ++ front)) }
    ensures right { OnOk result (¬ IsBadPiece piece.now) }
    ensures bad { IfErr result (λ fault. fault ≢ variant.Memory → (fault ≡ variant.BadPattern) × IsBadPiece piece.now) }
{
    match piece {
        Piece::Text(bytes) => {
            let tokens = text_parts(alloc, bytes.as_slice())?;
            parts.append(tokens)?;
            Ok(())
        }
        Piece::Kid(number) => {
            let kind = kids[*number as usize].kind;
            parts.push(Part::Child(*number, kind))?;
            Ok(())
        }
    }
}

/// The parts of a pattern, in its order.
///
/// # Errors
///
/// `BadPattern` where a text of it has a lexical fault, or a token that no pattern may hold. Want of
/// memory.
pub fn pattern_parts(
    alloc: Global,
    kids: &[Kid],
    pieces: &[Piece],
) -> Result<List<Part>, ProductionFault>
    requires { All (IsPieceReady kids.now) pieces.now }
    ensures parts { IfOk result (λ parts. ArePartsOf kids.now pieces.now parts) }
    ensures terminals { IfOk result (λ parts. AreTerminals parts) }
    ensures right { IfOk result (λ _. ¬ HasBadText pieces.now) }
    ensures bad { IfErr result (λ fault. fault ≢ variant.Memory → (fault ≡ variant.BadPattern) × HasBadText pieces.now) }
{
    let mut parts = List::new(alloc);
    for piece in pieces {
        push_piece(alloc, kids, piece, &mut parts)?;
    }
    Ok(parts)
}
