//! The sums by which readings are shown: what stands in brackets, and how deep.

use lrc_parse::{Sign, value_of_sum};
use std::test::Fail;

#[test]
fn brackets_count_as_numbers(rt: HostRuntime) -> Result<(), Fail> {
    let signs = [
        Sign::Open,
        Sign::Number(250),
        Sign::Plus,
        Sign::Number(7),
        Sign::Close,
        Sign::Plus,
        Sign::Number(2),
    ];
    assert_eq!(rt; value_of_sum(&signs, 1).ok(), Some(3));
    assert_eq!(rt; value_of_sum(&signs, 0).ok(), None);
    Ok(())
}
