//! The heights of the terms that no node has taken yet.

ghost use Rattle.std.specs.Prelude.{◌≡◌, ◌≤◌, length, OnOk, OnErr};
ghost use Rattle.lrc_base.specs.Forest.{joined};
ghost use Rattle.lrc_base.specs.Terms.{above, greatest};

use std::alloc::AllocError;

/// The greatest of the heights; 0 of none.
fn greatest(heights: &[u32]) -> u32
    ensures { result ≡ greatest heights.now }
{
    let mut found = 0;
    for height in heights {
        if *height > found {
            found = *height;
        }
    }
    found
}

/// Takes the last `count` heights, and puts that of a node over them in their place.
///
/// # Errors
///
/// Want of memory, with the heights as they were.
pub fn join(heights: &mut Vec<u32>, count: usize) -> Result<(), AllocError>
    requires { count ≤ length heights.old.items }
    ensures joined { OnOk result (heights.new.items ≡ joined above count heights.old.items) }
    ensures unchanged { OnErr result (heights.new.items ≡ heights.old.items) }
{
    let first = heights.len() - count;
    let height = greatest(&heights[first..])
        .checked_add(1)
        .ok_or(AllocError)?;
    if count == 0 {
        heights.push(height)?;
    } else {
        heights[first] = height;
        heights.truncate(first + 1);
    }
    Ok(())
}
