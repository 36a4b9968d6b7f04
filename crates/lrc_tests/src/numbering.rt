//! Names as numbers: occurrences, locals and attached trees, and the children of patterns.

use crate::jobs::SUMS;
use lrc_base::{Expr, Op, Piece};
use lrc_naming::{NamingFault, Numbered, named_grammar};
use lrc_reader::read_job;
use std::alloc::Global;
use std::test::Fail;

/// The occurrences of `Twice` are `value`, `look`, `look.value` and `twice`.
const DOUBLES: &[u8] = b"lrc 1
sort S { syn value: Int; }
prod Num: S (n: Int) { value = n; }
prod Twice: S (n: Int) {
  attach look: S = Num(n);
  local twice: Int = look.value + look.value;
  value = if true then twice else n;
  text \"<\" n;
}
start S;
";

/// Nothing is called `m`.
const UNKNOWN: &[u8] = b"lrc 1
sort S { syn value: Int; }
prod Num: S (n: Int) { value = m; }
start S;
";

/// The grammar of a text by numbers.
fn numbered(alloc: Global, text: &[u8]) -> Result<Numbered, Fail> {
    let job = read_job(alloc, text)?;
    Ok(named_grammar(alloc, &job.grammar)?)
}

#[test]
fn sums_are_numbered(rt: HostRuntime) -> Result<(), Fail> {
    let named = numbered(rt.alloc(), SUMS)?;
    assert_eq!(rt; named.start, 0);
    let add = named.prods.get(1).expect(&rt, "three productions");
    let equation = add.equations.get(0).expect(&rt, "an equation");
    assert_eq!(rt; equation.target, 0);
    match &equation.expr {
        Expr::Op(Op::Add, left, right) => {
            assert!(rt; matches!(left.get(), Expr::Occ(1)));
            assert!(rt; matches!(right.get(), Expr::Occ(2)));
        }
        _ => panic!(rt; "a sum of two occurrences"),
    }
    Ok(())
}

#[test]
fn locals_attached_trees_and_patterns_are_numbered(rt: HostRuntime) -> Result<(), Fail> {
    let named = numbered(rt.alloc(), DOUBLES)?;
    let twice = named.prods.get(1).expect(&rt, "two productions");
    assert_eq!(rt; twice.extras.len(), 2);
    let attached = twice.equations.get(0).expect(&rt, "three equations");
    assert_eq!(rt; attached.target, 1);
    assert!(rt; matches!(attached.expr, Expr::Make(0, _)));
    let local = twice.equations.get(1).expect(&rt, "three equations");
    assert_eq!(rt; local.target, 3);
    let own = twice.equations.get(2).expect(&rt, "three equations");
    match &own.expr {
        Expr::If(_, then, other) => {
            assert!(rt; matches!(then.get(), Expr::Occ(3)));
            assert!(rt; matches!(other.get(), Expr::Leaf(0)));
        }
        _ => panic!(rt; "a choice"),
    }
    match twice.pattern.as_ref() {
        Some(pieces) => assert!(rt; matches!(pieces.get(1), Some(Piece::Kid(0)))),
        None => panic!(rt; "a pattern"),
    }
    Ok(())
}

#[test]
fn an_unknown_name_has_no_number(rt: HostRuntime) -> Result<(), Fail> {
    let job = read_job(rt.alloc(), UNKNOWN)?;
    let named = named_grammar(rt.alloc(), &job.grammar);
    assert!(rt; matches!(named, Err(NamingFault::Unnamed)));
    Ok(())
}
