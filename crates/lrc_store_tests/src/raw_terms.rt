//! What a builder of terms as they are written refuses, and what it leaves.
use lrc_base::{BuildFault, NameText, RawTermBuild, RawTermItem};
use std::test::Fail;

#[test]
fn a_node_as_it_is_written_takes_what_is_there(rt: HostRuntime) -> Result<(), Fail> {
    let name = NameText::of(b"Add").ok_or("no name")?;
    let mut build = RawTermBuild::new(rt.alloc());
    let first = build.add(RawTermItem::Int(1));
    assert!(rt; first == Ok(()));
    let refused = build.add(RawTermItem::Node(name, 2));
    assert!(rt; refused == Err(BuildFault::TooFew));
    let second = build.add(RawTermItem::Bool(true));
    assert!(rt; second == Ok(()));
    let taken = build.add(RawTermItem::Node(name, 2));
    assert!(rt; taken == Ok(()));
    let term = build.finish().ok_or("no term")?;
    assert_eq!(rt; term.items().len(), 3);
    Ok(())
}

#[test]
fn one_term_as_it_is_written_has_to_be_left(rt: HostRuntime) -> Result<(), Fail> {
    let none = RawTermBuild::new(rt.alloc());
    assert!(rt; none.finish().is_none());
    let mut two = RawTermBuild::new(rt.alloc());
    two.add(RawTermItem::Int(1)).ok().ok_or("an item")?;
    two.add(RawTermItem::Int(2)).ok().ok_or("an item")?;
    assert!(rt; two.finish().is_none());
    Ok(())
}
