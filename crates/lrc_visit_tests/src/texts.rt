//! The texts of trees: by patterns, and as values.

ghost use Rattle.std.specs.Prelude.{IsTrue};
ghost use Rattle.lrc_job.specs.Fitting.{script_fits};

use crate::jobs::{accepted, only};
use crate::terms::stack_for;
use lrc_base::{Bytes, Script};
use lrc_code::put_term;
use lrc_grammar::Grammar;
use lrc_plain::PlainStore;
use lrc_unparse::{unparse, value_text};
use std::alloc::Global;
use std::test::Fail;

/// Numbers, leaves without a pattern, a name before a tree, and a tree sixteen times and with one byte more.
const PATTERNS: &[u8] = b"lrc 1
sort E { syn v: Int; }
prod Num: E (n: Int) { v = n; text n; }
prod Bare: E (n: Int, b: Bool, x: Name) { v = n; }
prod Call: E (x: Name, e: E) { v = e.v; text x \"(\" e \")\"; }
prod Many: E (e: E) { v = e.v; text e e e e e e e e e e e e e e e e; }
prod More: E (e: E) { v = e.v; text e \"+\"; }
start E;
";

/// The text of a tree by the patterns, and its text as a value.
fn both_texts(alloc: Global, grammar: &Grammar, script: &Script) -> Result<(Bytes, Bytes), Fail>
    requires { IsTrue (script_fits grammar.now.prods grammar.now.start script.now) }
{
    let mut store = PlainStore::new(alloc, 100)?;
    let mut stack = stack_for(alloc, &script.tree)?;
    let tree = put_term(&mut store, &script.tree, &mut stack)
        .ok()
        .ok_or("full")?;
    let text = unparse(alloc, &mut store, grammar, tree)?;
    Ok((text, value_text(alloc, &mut store, grammar, tree)?))
}

/// The same of the tree that a text denotes.
fn texts_of(alloc: Global, tree: &[u8]) -> Result<(Bytes, Bytes), Fail> {
    let mut text = Vec::new(alloc);
    for piece in [PATTERNS, b"session on ", tree, b" { }"] {
        text.extend_from_slice(piece)?;
    }
    let job = accepted(alloc, text.as_slice())?;
    let script = only(job.sessions.as_slice()).ok_or("no session")?;
    both_texts(alloc, &job.grammar, script)
}

/// A name stands behind a quote as a value alone.
#[test]
fn a_tree_has_two_texts(rt: HostRuntime) -> Result<(), Fail> {
    let tree = b"Call('f, Bare(-7, true, 'x))".as_slice();
    let (text, value) = texts_of(rt.alloc(), tree)?;
    assert_eq!(rt; text.as_slice(), b"f(Bare(-7, true, x))".as_slice());
    assert_eq!(rt; value.as_slice(), tree);
    Ok(())
}

/// Four times sixteen times, a digit is as many bytes as are printed.
#[test]
fn the_longest_text_is_printed(rt: HostRuntime) -> Result<(), Fail> {
    let tree = b"Many(Many(Many(Many(Num(1)))))".as_slice();
    let (text, value) = texts_of(rt.alloc(), tree)?;
    assert_eq!(rt; text.len(), 65_536);
    assert!(rt; text.as_slice().iter().all(|byte| *byte == b'1'));
    assert_eq!(rt; value.as_slice(), tree);
    Ok(())
}

#[test]
fn a_longer_text_is_not_printed(rt: HostRuntime) -> Result<(), Fail> {
    let tree = b"More(Many(Many(Many(Many(Num(1))))))".as_slice();
    let (text, value) = texts_of(rt.alloc(), tree)?;
    assert_eq!(rt; text.as_slice(), b"<long>".as_slice());
    assert_eq!(rt; value.as_slice(), tree);
    Ok(())
}
