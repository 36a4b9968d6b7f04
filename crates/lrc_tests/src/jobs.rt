//! The grammars that the tests share, as texts of jobs without sessions.

use std::alloc::{AllocError, Global};

/// Sums of numbers, and one that wraps.
pub const SUMS: &[u8] = b"lrc 1
sort Exp { syn val: Int; }
prod Num: Exp (n: Int) { val = n; }
prod Add: Exp (l: Exp, r: Exp) { val = l.val + r.val; }
prod Big: Exp () { val = 9223372036854775807 + 1; }
start Exp;
";

/// Names are bound, and looked up in a tree of bindings that is attached where a name stands.
pub const LETS: &[u8] = b"lrc 1
sort Prog { syn val: Int; }
sort Exp { inh env: Env; syn val: Int; }
sort Env { inh key: Name; syn found: Int; }
prod Root: Prog (e: Exp) { e.env = Empty(); val = e.val; text e; }
prod Num: Exp (n: Int) { val = n; text n; }
prod Var: Exp (x: Name) { attach look: Env = env; look.key = x; val = look.found; text x; }
prod Add: Exp (l: Exp, r: Exp) { l.env = env; r.env = env; val = l.val + r.val; text \"(\" l \" + \" r \")\"; }
prod Neg: Exp (e: Exp) { e.env = env; val = 0 - e.val; text \"-\" e; }
prod Let: Exp (x: Name, e: Exp, b: Exp) { e.env = env; b.env = Bind(x, e.val, env); val = b.val; text \"let \" x \" = \" e \" in \" b; }
prod Empty: Env () { found = 0; }
prod Bind: Env (k: Name, v: Int, rest: Env) { rest.key = key; found = if k == key then v else rest.found; }
start Prog;
";

/// Items give what they declare, and then take the sum of it; so they are visited twice.
pub const DECLARATIONS: &[u8] = b"lrc 1
sort Prog { syn bad: Int; }
sort Items { syn decls: Int; inh env: Int; syn bad: Int; }
prod Top: Prog (b: Items) { b.env = b.decls; bad = b.bad; }
prod None: Items () { decls = 0; bad = 0; }
prod Decl: Items (n: Int, rest: Items) {
  local mine: Int = n * 10;
  decls = mine + rest.decls;
  rest.env = env;
  bad = if env == mine then rest.bad else rest.bad + 1;
}
start Prog;
";

/// Each tree has one attribution, and yet no order of the attributes of `X` serves both `A` and `B`.
pub const CROSSING: &[u8] = b"lrc 1
sort R { syn r: Int; }
sort X { inh i1: Int; inh i2: Int; syn s1: Int; syn s2: Int; }
prod A: R (x: X) { x.i1 = x.s2; x.i2 = 0; r = x.s1; }
prod B: R (x: X) { x.i2 = x.s1; x.i1 = 0; r = x.s2; }
prod L: X () { s1 = i1; s2 = i2; }
start R;
";

/// No dependencies that are induced close a cycle, but the order of the attributes of `X` closes one.
pub const PAIRING: &[u8] = b"lrc 1
sort R { syn r: Int; }
sort X { inh a: Int; inh b: Int; syn c: Int; syn d: Int; }
prod T: R (x: X, y: X) { x.a = 0; x.b = y.d; y.a = x.c; y.b = 0; r = x.d + y.c; }
prod L: X () { c = a; d = b; }
start R;
";

/// One tree attaches itself, and so has no attribution; the other has one.
pub const ENDLESS: &[u8] = b"lrc 1
sort S { syn v: Int; }
prod Loop: S () { attach a: S = Loop(); v = a.v; }
prod One: S () { v = 1; }
start S;
";

/// Numerals and their sums.
pub const NUMERALS: &[u8] = b"lrc 1
sort N { syn h: Int; }
prod Z: N () { h = 0; }
prod S: N (n: N) { h = n.h + 1; }
prod P: N (a: N, b: N) { h = a.h + b.h; }
start N;
";

/// A tree whose one attribute is a tree.
pub const TREES: &[u8] = b"lrc 1
sort T { syn t: T; }
prod L: T () { t = L(); }
start T;
";

/// A job of one production, whose number is its value.
pub const SMALL_JOB: &[u8] =
    b"lrc 1 sort A { syn s: Int; } prod P: A (n: Int) { s = n; } start A; session on P(1) { }";

/// Bytes one after another.
pub fn joined(alloc: Global, pieces: &[&[u8]]) -> Result<Vec<u8>, AllocError> {
    let mut text = Vec::new(alloc);
    for piece in pieces {
        text.extend_from_slice(piece)?;
    }
    Ok(text)
}

/// A piece so many times.
pub fn copies_of(alloc: Global, piece: &[u8], count: usize) -> Result<Vec<u8>, AllocError> {
    let mut text = Vec::new(alloc);
    for _ in 0..count {
        text.extend_from_slice(piece)?;
    }
    Ok(text)
}

/// The first bytes of a text, so many, or all where it has no more.
pub fn front(text: &[u8], count: usize) -> &[u8] {
    if count < text.len() {
        &text[..count]
    } else {
        text
    }
}
