//! `check` and `plan`: the visits of each sort, the visit sequences and bindings, and the faults of grammars.

use crate::jobs::{CROSSING, DECLARATIONS, LETS, PAIRING};
use crate::top_call::{assert_answer, done, refused};
use std::test::Fail;

#[test]
fn declarations_are_checked(rt: HostRuntime) -> Result<(), Fail> {
    let parts = b"Prog [>bad]\nItems [>decls] [env>bad]\n";
    assert_answer(&rt, rt.alloc(), &["check"], DECLARATIONS, done(parts))
}

#[test]
fn declarations_are_planned(rt: HostRuntime) -> Result<(), Fail> {
    let plan = b"Prog [>bad]
Items [>decls] [env>bad]
prod Top
  1: visit b 1; eval b.env; visit b 2; eval bad
prod None
  1: eval decls
  2: eval bad
  bind 1 2:
prod Decl
  1: eval mine; visit rest 1; eval decls
  2: eval rest.env; visit rest 2; eval bad
  bind 1 2: mine; rest 1 2
";
    assert_answer(&rt, rt.alloc(), &["plan"], DECLARATIONS, done(plan))
}

#[test]
fn lets_are_planned(rt: HostRuntime) -> Result<(), Fail> {
    let plan = b"Prog [>val]
Exp [env>val]
Env [key>found]
prod Root
  1: eval e.env; visit e 1; eval val
prod Num
  1: eval val
prod Var
  1: eval look; eval look.key; visit look 1; eval val
prod Add
  1: eval l.env; eval r.env; visit l 1; visit r 1; eval val
prod Neg
  1: eval e.env; visit e 1; eval val
prod Let
  1: eval e.env; visit e 1; eval b.env; visit b 1; eval val
prod Empty
  1: eval found
prod Bind
  1: eval rest.key; visit rest 1; eval found
";
    assert_answer(&rt, rt.alloc(), &["plan"], LETS, done(plan))
}

#[test]
fn grammars_that_are_not_ordered(rt: HostRuntime) -> Result<(), Fail> {
    let reads_itself =
        b"lrc 1 sort A { syn s: Int; } prod P: A () { local x: Int = x; s = x; } start A;";
    let faults = [
        (CROSSING, b"lrc: not ordered: induced A x.i1\n".as_slice()),
        (PAIRING, b"lrc: not ordered: extended T x.b\n"),
        (reads_itself, b"lrc: not ordered: induced P x\n"),
    ];
    for (grammar, line) in faults {
        for verb in ["check", "plan"] {
            assert_answer(&rt, rt.alloc(), &[verb], grammar, refused(6, line))?;
        }
    }
    Ok(())
}

#[test]
fn grammars_at_fault(rt: HostRuntime) -> Result<(), Fail> {
    let faults = [
        (
            b"lrc 1 sort Exp { syn val: Int; } prod Num: Exp (n: Int) { } start Exp;".as_slice(),
            b"lrc: job: missing equation in Num: val\n".as_slice(),
        ),
        (
            b"lrc 1 sort Exp { syn val: Int; } prod Num: Exp (n: Int) { val = foo; } start Exp;",
            b"lrc: job: unknown in Num: foo\n",
        ),
        (
            b"lrc 1 sort Exp { syn val: Int; } prod Neg: Exp (e: Exp) { val = 0 - e.foo; } start Exp;",
            b"lrc: job: unknown in Neg: e.foo\n",
        ),
        (
            b"lrc 1 sort A { } prod P: A (a: A, b: A, c: A, d: A, e: A, f: A, g: A, h: A, i: A) { } start A;",
            b"lrc: job: too many children at 76\n",
        ),
    ];
    for (grammar, line) in faults {
        for verb in ["check", "plan", "run"] {
            assert_answer(&rt, rt.alloc(), &[verb], grammar, refused(5, line))?;
        }
    }
    Ok(())
}
