ghost use Rattle.std.specs.Prelude.{◌≡◌, ◌<◌};
ghost use Rattle.lrc_plain.specs.Home.{mixed, IsBucketOf};

use lrc_store::Cell;

/// Mixes three words, so that close ones part.
#[tactic(auto, unfolding(crate::specs::Home::mixed))]
#[inline(always)]
fn mix(tag: u64, one: u64, other: u64) -> u64
    ensures { result ≡ mixed tag one other }
{
    let first = tag
        .wrapping_mul(11_400_714_819_323_198_485)
        .wrapping_add(one);
    let second = (first ^ (first >> 29))
        .wrapping_mul(13_787_848_793_156_543_929)
        .wrapping_add(other);
    second ^ (second >> 32)
}

/// The bucket of a cell among this many.
#[tactic(auto, unfolding(crate::specs::Home::home_of))]
#[inline(always)]
pub fn home(cell: Cell, buckets: usize) -> usize
    requires { 0 < buckets }
    ensures { IsBucketOf result cell buckets }
{
    let mixed = match cell {
        Cell::Nil => mix(0, 0, 0),
        Cell::Number(value) => mix(0, value.cast_unsigned(), 0),
        Cell::Pair(tag, left, right) => mix(u64::from(tag), u64::from(left.0), u64::from(right.0)),
    };
    (mixed % buckets as u64) as usize
}
