ghost use Rattle.std.specs.Prelude.{◌≡◌, ◌↔◌, ◌<◌, ◌^◌, ◌==◌, IsTrue, length, count_by};
ghost use Rattle.lrc_syntax.specs.Faults.{is_child, MissesChild};

use lrc_base::Piece;

fn is_child(piece: &Piece, number: usize) -> bool
    ensures { result ≡ is_child number piece.now }
{
    match piece {
        Piece::Text(_) => false,
        Piece::Kid(child) => *child as usize == number,
    }
}

/// How often the child of this number stands in a pattern.
fn occurrences(pieces: &[Piece], number: usize) -> usize
    ensures { result ≡ count_by (is_child number) pieces.now }
{
    let mut count = 0;
    for piece in pieces {
        if is_child(piece, number) {
            count += 1;
        }
    }
    count
}

/// Whether some child, by its number below `children`, doesn't stand exactly once in a pattern.
pub fn misses_child(pieces: &[Piece], children: usize) -> bool
    ensures { IsTrue result ↔ MissesChild children pieces.now }
{
    for number in 0..children {
        if occurrences(pieces, number) != 1 {
            return true;
        }
    }
    false
}
