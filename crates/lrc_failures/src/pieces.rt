ghost use Rattle.lrc_failures.specs.Gains.{Gains};
ghost use Rattle.lrc_failures.specs.Pieces.{piece_text, pieces_text};

use itoa::Buffer;
use lrc_base::NameText;
use lrc_outside::{Failed, Sink, put_all};

/// A piece of a line.
#[derive(Debug, Clone, Copy)]
pub enum Piece<'a> {
    /// Bytes as they are.
    Text(&'a [u8]),
    /// The bytes of a name.
    Name(&'a NameText),
    /// A number in decimal.
    Number(u32),
}

fn put_piece<O: Sink>(out: &mut O, piece: &Piece) -> Result<(), Failed>
    ensures { Gains (O.held out.old) (O.held out.new) (O.faults out.old) (O.faults out.new) result (piece_text piece.now) }
{
    match piece {
        Piece::Text(bytes) => put_all(out, bytes),
        Piece::Name(name) => put_all(out, name.bytes()),
        Piece::Number(number) => {
            let mut buffer = Buffer::new();
            put_all(out, buffer.format(*number).as_bytes())
        }
    }
}

/// Appends the text of the pieces. It takes no memory.
///
/// # Errors
///
/// `Failed` where the sink failed. A part of the text, from its front, may then have been appended.
pub fn put_pieces<O: Sink>(out: &mut O, pieces: &[Piece]) -> Result<(), Failed>
    ensures { Gains (O.held out.old) (O.held out.new) (O.faults out.old) (O.faults out.new) result (pieces_text pieces.now) }
{
    for piece in pieces {
        put_piece(out, piece)?;
    }
    Ok(())
}
