//! The whole notation, each limit, what is nested too deep, and the first fault of other texts.

use crate::jobs::{copies_of, joined};
use lrc_base::{
    Job, Op, RawEdit, RawExpr, RawItem, RawKind, RawPiece, RawProd, RawTerm, RawTermItem,
};
use lrc_lex::LexFault;
use lrc_reader::{JobFault, Limit, read_job};
use std::alloc::{AllocError, Global};
use std::process::Abort;
use std::test::Fail;

const NOTATION: &[u8] = b"lrc 1 # every form once
sort Exp { inh env: Name; syn val: Int; syn ok: Bool; }
sort Top { syn val: Exp; }
prod Num: Exp (n: Int, b: Bool, w: Name) { text \"n \\\"\" n \";\"; val = n * 2 - 1 - -3; ok = b; }
prod Let: Exp (x: Name, e: Exp) {
  local two: Int = 1 + 1;
  attach more: Exp = Num(two, true, 'if);
  e.env = x;
  more.env = 'x;
  val = if e.ok then (e.val + 2) * more.val else if two < e.val then 0 else 7;
  ok = two == e.val;
}
start Exp;
session on Let('y, Num(-1, false, 'z)) {
  put /1/0 7;
  copy /1 /;
  show;
  forget 12;
}
session on true { }
";

/// How many sorts, productions, sessions, items of the second production and edits there are.
fn counts(job: &Job) -> [usize; 5] {
    let grammar = &job.grammar;
    let items = match grammar.prods.as_slice() {
        [_, second, ..] => second.items.len(),
        _ => 0,
    };
    let edits = match job.sessions.as_slice() {
        [first, ..] => first.edits.len(),
        _ => 0,
    };
    [
        grammar.sorts.len(),
        grammar.prods.len(),
        job.sessions.len(),
        items,
        edits,
    ]
}

/// Whether the operator is subtraction, with a sum or a product to its left and a literal to its right.
fn is_difference(expr: &RawExpr, right: i64) -> bool {
    match expr {
        RawExpr::Op(Op::Sub, _, second) => match second.get() {
            RawExpr::Int(value) => *value == right,
            _ => false,
        },
        _ => false,
    }
}

/// Whether the pattern and the first equation of the first production are those of the notation.
fn is_first(prod: &RawProd) -> bool {
    match prod.items.as_slice() {
        [RawItem::Pattern(pieces), RawItem::Own(_, value), _] => {
            let pieces = match pieces.as_slice() {
                [RawPiece::Text(text), RawPiece::Kid(name), RawPiece::Text(_)] => {
                    text.as_slice() == b"n \"".as_slice() && name.bytes() == b"n".as_slice()
                }
                _ => false,
            };
            pieces && is_difference(value, -3)
        }
        _ => false,
    }
}

/// Whether the term is the number 7.
fn is_seven(term: &RawTerm) -> bool {
    match term.items().as_slice() {
        [RawTermItem::Int(value)] => *value == 7,
        _ => false,
    }
}

/// Whether the edits are those of the notation.
fn are_edits(edits: &[RawEdit]) -> bool {
    match edits {
        [
            RawEdit::Put(place, term),
            RawEdit::Copy(from, to),
            RawEdit::Show,
            RawEdit::Forget(count),
        ] => {
            place.steps.as_slice() == b"\x01\x00".as_slice()
                && is_seven(term)
                && from.steps.as_slice() == b"\x01".as_slice()
                && to.steps.is_empty()
                && *count == 12
        }
        _ => false,
    }
}

#[test]
fn the_whole_notation_is_read(rt: HostRuntime) -> Result<(), Fail> {
    let job = read_job(rt.alloc(), NOTATION)?;
    assert!(rt; counts(&job) == [2, 2, 2, 6, 4]);
    let first = job.grammar.prods.as_slice().first().ok_or("no production")?;
    assert!(rt; is_first(first));
    let sort = job.grammar.sorts.as_slice().first().ok_or("no sort")?;
    let attr = sort.attrs.as_slice().first().ok_or("no attribute")?;
    assert!(rt; attr.inherited && attr.name.bytes() == b"env".as_slice());
    let script = job.sessions.as_slice().first().ok_or("no session")?;
    assert!(rt; are_edits(script.edits.as_slice()));
    Ok(())
}

/// A text with a part that is opened and closed a number of times.
#[derive(Drop)]
struct Shape {
    before: &'static [u8],
    open: &'static [u8],
    close: &'static [u8],
    after: &'static [u8],
}

impl Shape {
    fn text(&self, alloc: Global, times: usize) -> Result<Vec<u8>, AllocError> {
        let middle = if self.close.is_empty() {
            b"".as_slice()
        } else {
            b"1".as_slice()
        };
        let opening = copies_of(alloc, self.open, times)?;
        let closing = copies_of(alloc, self.close, times)?;
        let pieces = [
            self.before,
            opening.as_slice(),
            middle,
            closing.as_slice(),
            self.after,
        ];
        joined(alloc, pieces.as_slice())
    }
}

fn repeated(before: &'static [u8], open: &'static [u8], after: &'static [u8]) -> Shape {
    let close = b"".as_slice();
    Shape {
        before,
        open,
        close,
        after,
    }
}

/// The text is a job up to this number of times, and with one more it has this fault.
fn assert_limit(
    rt: &impl Abort,
    alloc: Global,
    shape: &Shape,
    most: u16,
    fault: JobFault,
) -> Result<(), Fail> {
    let within = shape.text(alloc, usize::from(most))?;
    assert!(rt; read_job(alloc, within.as_slice()).is_ok());
    let beyond = shape.text(alloc, usize::from(most) + 1)?;
    assert!(rt; read_job(alloc, beyond.as_slice()).err() == Some(fault));
    Ok(())
}

#[test]
fn each_limit_is_reached_at_its_token(rt: HostRuntime) -> Result<(), Fail> {
    let limits = [
        (
            repeated(b"lrc 1 ", b"sort A { } ", b"start A;"),
            64,
            710,
            Limit::Sorts,
        ),
        (
            repeated(b"lrc 1 sort A { ", b"inh a: Bool; ", b"} start A;"),
            16,
            223,
            Limit::Attributes,
        ),
        (
            repeated(b"lrc 1 ", b"prod P: A () { } ", b"start A;"),
            256,
            4358,
            Limit::Productions,
        ),
        (
            repeated(b"lrc 1 prod P: A (k: Int", b", k: Int", b") { } start A;"),
            7,
            81,
            Limit::Children,
        ),
        (
            repeated(
                b"lrc 1 prod P: A () { ",
                b"attach l: A = 1; ",
                b"} start A;",
            ),
            16,
            293,
            Limit::Locals,
        ),
        (
            repeated(b"lrc 1 prod P: A () { a = 1", b" + 1", b"; } start A;"),
            499,
            2025,
            Limit::Nodes,
        ),
        (
            repeated(b"lrc 1 prod P: A () { a = f(1)", b" + 1", b"; } start A;"),
            499,
            2026,
            Limit::Nodes,
        ),
        (
            repeated(b"lrc 1 start A; ", b"session on 'x { } ", b""),
            64,
            1167,
            Limit::Sessions,
        ),
        (
            repeated(b"lrc 1 start A; session on true { ", b"show; ", b"}"),
            10000,
            60033,
            Limit::Edits,
        ),
    ];
    for (shape, most, at, limit) in &limits {
        let fault = JobFault::LimitReached {
            at: *at,
            limit: *limit,
        };
        assert_limit(&rt, rt.alloc(), shape, *most, fault)?;
    }
    Ok(())
}

#[test]
fn what_is_nested_too_deep_is_told(rt: HostRuntime) -> Result<(), Fail> {
    let brackets = Shape {
        before: b"lrc 1 prod P: A () { a = ",
        open: b"(",
        close: b")",
        after: b"; } start A;",
    };
    assert_limit(
        &rt,
        rt.alloc(),
        &brackets,
        999,
        JobFault::NestedTooDeep { at: 1025 },
    )?;
    let calls = Shape {
        before: b"lrc 1 prod P: A () { a = ",
        open: b"P(",
        close: b")",
        after: b"; } start A;",
    };
    assert_limit(
        &rt,
        rt.alloc(),
        &calls,
        999,
        JobFault::NestedTooDeep { at: 2025 },
    )?;
    let trees = Shape {
        before: b"lrc 1 start A; session on ",
        open: b"P(",
        close: b")",
        after: b" { }",
    };
    assert_limit(
        &rt,
        rt.alloc(),
        &trees,
        999,
        JobFault::NestedTooDeep { at: 2026 },
    )
}

#[test]
fn other_texts_have_their_first_fault(rt: HostRuntime) {
    let faults = [
        (b"".as_slice(), JobFault::Expected { at: 0 }),
        (b"lrc 1 sort Exp {", JobFault::Expected { at: 16 }),
        (b"lrc 1 $ start", JobFault::Lex(LexFault::BadChar { at: 6 })),
        (b"lrc 2 start A;", JobFault::Expected { at: 4 }),
        (
            b"lrc 1 sort text { } start A;",
            JobFault::Expected { at: 11 },
        ),
        (b"lrc 1 start A session", JobFault::Expected { at: 14 }),
        (b"lrc 1 start A; more", JobFault::Expected { at: 15 }),
        (
            b"lrc 1 start A; session on a { }",
            JobFault::Expected { at: 28 },
        ),
        (
            b"lrc 1 prod P: A () { v = 1 -1; }",
            JobFault::Expected { at: 27 },
        ),
        (
            b"lrc 1 prod P: A () { v = 1 < 2 == 3; }",
            JobFault::Expected { at: 31 },
        ),
        (
            b"lrc 1 prod P: A (k: Int, ) { }",
            JobFault::Expected { at: 25 },
        ),
        (
            b"lrc 1 start A; session on 1 { put / P(,); }",
            JobFault::Expected { at: 38 },
        ),
    ];
    for (text, fault) in faults {
        assert!(rt; read_job(rt.alloc(), text).err() == Some(fault));
    }
}
