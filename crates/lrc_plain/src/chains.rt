ghost use Rattle.std.specs.Prelude.{◌≡◌, ◌+◌, ◌<◌, ◌≤◌, ◌^◌, ◌++◌, ◌∷◌, [], ℕ, length, MatchOption, vec_len, vec_capacity};
ghost use Rattle.lrc_plain.specs.declared.chains.Row.{Row};
ghost use Rattle.lrc_plain.specs.Chains.{IsChained, IsHeaded, IsAt};
ghost use Rattle.lrc_plain.specs.Home.{IsBucketOf};

use lrc_store::{Cell, Handle};
use std::mem::size_of;

/// A row of an index: a cell, and the last earlier row of the same bucket, as its place plus one, or 0.
#[derive(Debug, Clone, Copy)]
pub struct Row {
    pub cell: Cell,
    pub earlier: u32,
}

// With its two heads and its outcome, a row takes at most 48 bytes.
const _: () = prove!(size_of::<Row>() + 2 * size_of::<u32>() + size_of::<u32>() <= 48);

/// The handle of the row of a cell, whose bucket this is: the row's place plus one.
#[inline(always)]
pub fn find(rows: &[Row], heads: &[u32], bucket: usize, cell: Cell) -> Option<Handle>
    requires bucket { IsBucketOf bucket cell (length heads.now) }
    requires chained { IsChained rows.now (length heads.now) }
    requires headed { IsHeaded rows.now heads.now }
    ensures { MatchOption result ((i : ℕ) → ¬ IsAt rows.now cell i) (λ handle. (i : ℕ) × (handle.0 ≡ i + 1) × IsAt rows.now cell i) }
{
    let mut place = heads[bucket];
    while place > 0 {
        let row = rows[place as usize - 1];
        if row.cell == cell {
            return Some(Handle(place));
        }
        place = row.earlier;
    }
    None
}

/// Puts a row behind the others, where there is room, and names it; the bucket is the cell's.
#[inline(always)]
pub fn link(rows: &mut Vec<Row>, heads: &mut Vec<u32>, bucket: usize, cell: Cell) -> Handle
    requires bucket { IsBucketOf bucket cell (length heads.old.items) }
    requires room { vec_len rows.old < vec_capacity rows.old }
    requires limit { vec_len rows.old < 2 ^ 24 }
    requires chained { IsChained rows.old.items (length heads.old.items) }
    requires headed { IsHeaded rows.old.items heads.old.items }
    ensures row { (row : Row) × (row.cell ≡ cell) × (rows.new.items ≡ rows.old.items ++ row ∷ []) }
    ensures buckets { length heads.new.items ≡ length heads.old.items }
    ensures chained { IsChained rows.new.items (length heads.new.items) }
    ensures headed { IsHeaded rows.new.items heads.new.items }
    ensures room { vec_capacity rows.old ≤ vec_capacity rows.new }
    ensures handle { result.0 ≡ vec_len rows.old + 1 }
{
    let place = rows.len() as u32 + 1;
    let earlier = heads[bucket];
    heads[bucket] = place;
    append(rows, Row { cell, earlier });
    Handle(place)
}

/// Puts a row behind the others, where there is room.
#[inline(always)]
fn append(rows: &mut Vec<Row>, row: Row)
    requires { vec_len rows.old < vec_capacity rows.old }
    ensures row { rows.new.items ≡ rows.old.items ++ row ∷ [] }
    ensures room { vec_capacity rows.old ≤ vec_capacity rows.new }
{
    let _pushed = rows.push(row);
}
