//! Changes of a small job, each refused with its own fault at its place.

use crate::jobs::{SMALL_JOB, front, joined};
use crate::top_call::{assert_answer, done, refused};
use std::alloc::{AllocError, Global};
use std::process::Abort;
use std::test::Fail;
use std::thread::Threads;

/// A text is refused under `run` with the line of this fault.
fn assert_refused<R: Threads + Sync + Abort>(
    rt: &R,
    alloc: Global,
    text: &[u8],
    fault: &[u8],
) -> Result<(), Fail> {
    let line = joined(alloc, &[b"lrc: job: ", fault, b"\n"])?;
    assert_answer(rt, alloc, &["run"], text, refused(5, line.as_slice()))
}

/// The small job with other bytes in place of those from one to before another.
fn changed(alloc: Global, from: usize, to: usize, with: &[u8]) -> Result<Vec<u8>, AllocError> {
    let mut text = joined(alloc, &[front(SMALL_JOB, from), with])?;
    for byte in SMALL_JOB.iter().skip(to) {
        text.push(*byte)?;
    }
    Ok(text)
}

#[test]
fn cut_texts(rt: HostRuntime) -> Result<(), Fail> {
    let cuts = [
        (0, b"unexpected at 0".as_slice()),
        (2, b"unexpected at 0"),
        (3, b"unexpected at 3"),
        (5, b"unexpected at 5"),
        (10, b"unexpected at 10"),
        (28, b"unexpected at 28"),
        (69, b"unexpected at 68"),
        (75, b"unexpected at 75"),
        (81, b"unexpected at 81"),
        (86, b"unexpected at 86"),
    ];
    for (count, fault) in cuts {
        assert_refused(&rt, rt.alloc(), front(SMALL_JOB, count), fault)?;
    }
    Ok(())
}

#[test]
fn changed_tokens(rt: HostRuntime) -> Result<(), Fail> {
    let changes = [
        (4, 5, b"4".as_slice(), b"unexpected at 4".as_slice()),
        (81, 82, b"$", b"bad character at 81"),
        (81, 82, b"\xff", b"not UTF-8 at 81"),
        (
            81,
            82,
            b"99999999999999999999",
            b"number out of range at 81",
        ),
        (81, 82, b"- 1", b"unexpected at 81"),
        (81, 82, b"A", b"unexpected at 82"),
    ];
    for (from, to, with, fault) in changes {
        let text = changed(rt.alloc(), from, to, with)?;
        assert_refused(&rt, rt.alloc(), text.as_slice(), fault)?;
    }
    Ok(())
}

#[test]
fn a_changed_number(rt: HostRuntime) -> Result<(), Fail> {
    let text = changed(rt.alloc(), 81, 82, b"-1")?;
    let replies = done(b"session 1\n0 s=-1\nfinal 1 1\n");
    assert_answer(&rt, rt.alloc(), &["run"], text.as_slice(), replies)
}

#[test]
fn changed_names_and_terms(rt: HostRuntime) -> Result<(), Fail> {
    let changes = [
        (
            81,
            82,
            b"A()".as_slice(),
            b"session 1 edit 0: unknown production A".as_slice(),
        ),
        (
            81,
            82,
            b"1, 2",
            b"session 1 edit 0: wrong number of children of P",
        ),
        (
            81,
            82,
            b"true",
            b"session 1 edit 0: wrong kind of child 0 of P",
        ),
        (50, 51, b"t", b"unknown in P: t"),
        (54, 55, b"s", b"not normal in P: s"),
        (54, 55, b"true", b"wrong kind in P: s"),
        (40, 41, b"s", b"twice in P: s"),
        (50, 56, b"s = n; s = n;", b"double equation in P: s"),
        (15, 18, b"inh", b"start inherits in start: s"),
        (65, 66, b"B", b"unknown in start: B"),
    ];
    for (from, to, with, fault) in changes {
        let text = changed(rt.alloc(), from, to, with)?;
        assert_refused(&rt, rt.alloc(), text.as_slice(), fault)?;
    }
    Ok(())
}
