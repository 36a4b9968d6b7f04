//! Relations of seventy points, so that a row has two words: paths, and pairs that close a cycle.

use lrc_graph::Relation;
use std::test::Fail;

/// A path over two words of a row: 0 to 64, 64 to 69, and 69 to 1.
#[test]
fn closes_a_path(rt: HostRuntime) -> Result<(), Fail> {
    let mut relation = Relation::new(rt.alloc(), 70)?;
    relation.add(0, 64);
    relation.add(64, 69);
    relation.add(69, 1);
    relation.close();
    assert!(rt; relation.has(0, 1));
    assert!(rt; !relation.has(1, 0));
    assert!(rt; !relation.has(0, 0));
    assert_eq!(rt; relation.first_on_cycle(), None);
    Ok(())
}

/// A new pair closes a cycle of 64, 69 and 1, which 0 only leads to.
#[test]
fn closes_again_after_a_pair(rt: HostRuntime) -> Result<(), Fail> {
    let mut relation = Relation::new(rt.alloc(), 70)?;
    relation.add(0, 64);
    relation.add(64, 69);
    relation.add(69, 1);
    relation.close();
    assert!(rt; relation.close_more(1, 64));
    assert!(rt; !relation.close_more(0, 69));
    assert!(rt; !relation.has(64, 0));
    assert_eq!(rt; relation.first_on_cycle(), Some(1));
    Ok(())
}
