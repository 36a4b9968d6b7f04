ghost use Rattle.std.specs.Prelude.{◌≡◌, ◌<◌, ◌≤◌, ◌^◌};
ghost use Rattle.lrc_rule.specs.Layout.{IsLayout, HasRoom, word_count, bucket_at, part_at, memo_at};

/// How many words of each kind a table has.
#[derive(Debug, Clone, Copy, PartialEq, Eq)]
pub struct Layout {
    /// The least power of two that is at least twice the rows.
    pub buckets: u32,
    pub rows: u32,
    pub memo: u32,
}

/// The first three words of a row.
#[derive(Debug, Clone, Copy, PartialEq, Eq)]
pub struct Content {
    /// The tag of a pair, or 0 for a number.
    pub tag: u64,
    /// The left handle, or the number's 64 bits.
    pub left: u64,
    /// The right handle, or 0.
    pub right: u64,
}

impl Layout {
    /// The layout of a table with this many rows and memo words, each from 1 to 16,777,216.
    pub fn of(rows: u32, memo: u32) -> Layout
        requires some_row { 1 ≤ rows }
        requires rows { rows ≤ 2 ^ 24 }
        requires some_memo { 1 ≤ memo }
        requires memo { memo ≤ 2 ^ 24 }
        ensures layout { IsLayout result }
        ensures counts { (result.rows ≡ rows) × (result.memo ≡ memo) }
    {
        Layout {
            buckets: (2 * rows).next_power_of_two(),
            rows,
            memo,
        }
    }

    /// How many words there are.
    #[tactic(auto, unfolding(crate::specs::Layout::word_count))]
    pub fn size(self) -> usize
        requires { IsLayout self }
        ensures { HasRoom self result }
    {
        self.buckets as usize + 4 * self.rows as usize + self.memo as usize
    }

    /// Which word is the bucket at a place.
    #[tactic(auto, unfolding(crate::specs::Layout::word_count, crate::specs::Layout::bucket_at))]
    pub fn bucket(self, place: u32) -> usize
        requires { place < self.buckets }
        ensures index { result ≡ bucket_at self place }
        ensures within { result < word_count self }
    {
        place as usize
    }

    /// Which word is a part of a row, from 0 to 3: its tag, its left word, its right word, its depth.
    #[tactic(auto, unfolding(crate::specs::Layout::word_count, crate::specs::Layout::part_at))]
    pub fn part(self, row: u32, part: usize) -> usize
        requires layout { IsLayout self }
        requires row { row < self.rows }
        requires part { part < 4 }
        ensures index { result ≡ part_at self row part }
        ensures within { result < word_count self }
    {
        self.buckets as usize + (4 * row as usize + part)
    }

    /// Which word is the memo word at a place.
    #[tactic(auto, unfolding(crate::specs::Layout::word_count, crate::specs::Layout::memo_at))]
    pub fn memo_word(self, place: u32) -> usize
        requires layout { IsLayout self }
        requires place { place < self.memo }
        ensures index { result ≡ memo_at self place }
        ensures within { result < word_count self }
    {
        self.buckets as usize + 4 * self.rows as usize + place as usize
    }
}
