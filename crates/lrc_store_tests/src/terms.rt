//! Terms by their items, what a builder refuses, copies, and heights.

ghost use Rattle.std.specs.Prelude.{◌≡◌, [], ◌∷◌, IfOk};
ghost use Rattle.lrc_base.specs.Terms.{forest};

use lrc_base::{BuildFault, NameText, Term, TermBuild, TermItem};
use std::alloc::Global;
use std::test::Fail;

const ROOT: u32 = 0;

const NUM: u32 = 1;

const VAR: u32 = 2;

const ADD: u32 = 3;

const LET: u32 = 5;

/// The term of these items.
#[tactic(auto, using(lrc_base::proofs::ItemLemmas::forest_none, lrc_base::proofs::ItemLemmas::forest_next, lrc_base::proofs::ItemLemmas::forest_all))]
pub(crate) fn term_of(alloc: Global, items: &[TermItem]) -> Result<Term, Fail>
    ensures { IfOk result (λ term. forest items.now ≡ term ∷ []) }
{
    let mut build = TermBuild::new(alloc);
    'items: for item in items {
        build.add(*item).ok().ok_or("an item")?;
    }
    Ok(build.finish().ok_or("no term")?)
}

/// `Root(Let('x, Num(3), Add(Var('x), Num(4))))`
fn let_tree(alloc: Global) -> Result<Term, Fail> {
    let name = TermItem::Name(NameText::of(b"x").ok_or("no name")?);
    let items = [
        name,
        TermItem::Int(3),
        TermItem::Node(NUM, 1),
        name,
        TermItem::Node(VAR, 1),
        TermItem::Int(4),
        TermItem::Node(NUM, 1),
        TermItem::Node(ADD, 2),
        TermItem::Node(LET, 3),
        TermItem::Node(ROOT, 1),
    ];
    term_of(alloc, &items)
}

/// A tree with this many nodes on its one path.
fn deep_tree(alloc: Global, nodes: u32) -> Result<Term, Fail> {
    let mut build = TermBuild::new(alloc);
    build.add(TermItem::Bool(true)).ok().ok_or("a leaf")?;
    for _node in 0..nodes {
        build.add(TermItem::Node(ROOT, 1)).ok().ok_or("a node")?;
    }
    Ok(build.finish().ok_or("no term")?)
}

#[test]
fn a_copy_is_equal(rt: HostRuntime) -> Result<(), Fail> {
    let alloc = rt.alloc();
    let tree = let_tree(alloc)?;
    let copy = tree.copy(alloc)?;
    let shown = format!(in alloc; "{copy:?}")?;
    let wanted = format!(in alloc; "{tree:?}")?;
    assert_eq!(rt; shown.as_str(), wanted.as_str());
    Ok(())
}

#[test]
fn a_copy_of_a_deep_tree_is_equal(rt: HostRuntime) -> Result<(), Fail> {
    let alloc = rt.alloc();
    let tree = deep_tree(alloc, 1000)?;
    let copy = tree.copy(alloc)?;
    let shown = format!(in alloc; "{copy:?}")?;
    let wanted = format!(in alloc; "{tree:?}")?;
    assert_eq!(rt; shown.as_str(), wanted.as_str());
    Ok(())
}

#[test]
fn heights_count_nodes_alone(rt: HostRuntime) -> Result<(), Fail> {
    let alloc = rt.alloc();
    let leaf = term_of(alloc, &[TermItem::Int(7)])?;
    assert_eq!(rt; leaf.height(), 0);
    let childless = term_of(alloc, &[TermItem::Node(NUM, 0)])?;
    assert_eq!(rt; childless.height(), 1);
    assert_eq!(rt; let_tree(alloc)?.height(), 4);
    assert_eq!(rt; deep_tree(alloc, 1000)?.height(), 1000);
    Ok(())
}

#[test]
fn a_node_of_too_many_children_is_refused(rt: HostRuntime) -> Result<(), Fail> {
    let mut build = TermBuild::new(rt.alloc());
    let first = build.add(TermItem::Int(1));
    assert!(rt; first == Ok(()));
    let refused = build.add(TermItem::Node(ADD, 2));
    assert!(rt; refused == Err(BuildFault::TooFew));
    let taken = build.add(TermItem::Node(NUM, 1));
    assert!(rt; taken == Ok(()));
    let term = build.finish().ok_or("no term")?;
    assert_eq!(rt; term.items().len(), 2);
    Ok(())
}

#[test]
fn one_term_has_to_be_left(rt: HostRuntime) -> Result<(), Fail> {
    let none = TermBuild::new(rt.alloc());
    assert!(rt; none.finish().is_none());
    let mut two = TermBuild::new(rt.alloc());
    two.add(TermItem::Int(1)).ok().ok_or("an item")?;
    two.add(TermItem::Int(2)).ok().ok_or("an item")?;
    assert!(rt; two.finish().is_none());
    Ok(())
}
