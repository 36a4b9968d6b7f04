//! The layout of a shared table: homes of rows and of calls, and where each word lies.

use lrc_rule::{Layout, home, place};
use lrc_store::Handle;
use std::test::Fail;

#[test]
fn homes_are_those_of_the_format(rt: HostRuntime) -> Result<(), Fail> {
    assert!(rt; home(0, 0, 0, 16) == 0);
    assert!(rt; home(0, 1, 0, 16) == 4);
    assert!(rt; place(Handle(7), 3) == 1);
    Ok(())
}

#[test]
fn the_smallest_layout(rt: HostRuntime) -> Result<(), Fail> {
    let layout = Layout::of(1, 1);
    assert!(rt; layout.buckets == 2 && layout.size() == 7);
    assert!(rt; layout.bucket(1) == 1 && layout.part(0, 3) == 5 && layout.memo_word(0) == 6);
    assert!(rt; Layout::of(9, 1).buckets == 32 && Layout::of(8, 1).buckets == 16);
    Ok(())
}
