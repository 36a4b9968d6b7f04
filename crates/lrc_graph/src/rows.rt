ghost use Rattle.std.specs.Prelude.{◌≡◌, ◌≢◌, ℕ, ◌+◌, ◌*◌, ◌<◌, ◌≤◌, length, slice_index, bit_or};

/// Joins row `from` into row `into` of a table whose rows have `width` words.
pub fn join_row(table: &mut [u64], width: usize, into: usize, from: usize)
    requires into { into * width + width ≤ length table.old }
    requires from { from * width + width ≤ length table.old }
    ensures joined { (k : ℕ) → k < width → slice_index table.new (into * width + k)
        ≡ bit_or (slice_index table.old (into * width + k)) (slice_index table.old (from * width + k)) }
    ensures others { (row k : ℕ) → row ≢ into → k < width
        → slice_index table.new (row * width + k) ≡ slice_index table.old (row * width + k) }
{
    'words: for k in 0..width {
        table[into * width + k] |= table[from * width + k];
    }
}
