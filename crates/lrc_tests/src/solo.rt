//! `solo`: what is counted for an opening and for edits, and where counts end.

use crate::jobs::{CROSSING, ENDLESS, SUMS, joined};
use crate::top_call::{assert_answer, done, refused};
use std::alloc::{AllocError, Global};
use std::test::Fail;

/// Sums with a session on the sum of two equal sums, with these edits.
fn twofold(alloc: Global, edits: &[u8]) -> Result<Vec<u8>, AllocError> {
    let session = b"session on Add(Add(Num(1), Num(2)), Add(Num(1), Num(2)))";
    joined(alloc, &[SUMS, session, edits])
}

/// Equal sums are one tree, and visited once; what an edit leaves as it was is not visited again.
#[test]
fn a_put_is_counted(rt: HostRuntime) -> Result<(), Fail> {
    let text = twofold(
        rt.alloc(),
        b"{ put /1 Num(3); put /1 Add(Num(1), Num(2)); }",
    )?;
    let replies = b"session 1
0 val=6 | bodies=4 cells=29
1 val=6 | bodies=2 cells=36
2 val=6 | bodies=0 cells=36
final 1 1
";
    for rows in ["36", "262144"] {
        let words = ["solo", "--rows", rows];
        let end = done(replies);
        assert_answer(&rt, rt.alloc(), words.as_slice(), text.as_slice(), end)?;
    }
    Ok(())
}

/// The put needs a 36th cell; no counts are printed behind its line.
#[test]
fn no_counts_behind_full(rt: HostRuntime) -> Result<(), Fail> {
    let text = twofold(
        rt.alloc(),
        b"{ put /1 Num(3); put /1 Add(Num(1), Num(2)); }",
    )?;
    let replies = done(b"session 1\n0 val=6 | bodies=4 cells=29\n1 full\n2 val=6\nfinal 1 1\n");
    let words = ["solo", "--rows", "35"];
    assert_answer(&rt, rt.alloc(), words.as_slice(), text.as_slice(), replies)
}

#[test]
fn refused_puts_are_not_counted(rt: HostRuntime) -> Result<(), Fail> {
    let session = b"session on Add(Num(1), Num(2)) { put /7 Num(1); put /1 5; put /0 Num(1); }";
    let text = joined(rt.alloc(), &[SUMS, session])?;
    let replies = b"session 1
0 val=3 | bodies=3 cells=21
1 badpath
2 wrongsort
3 val=3 | bodies=0 cells=21
final 1 1
";
    assert_answer(&rt, rt.alloc(), &["solo"], text.as_slice(), done(replies))
}

/// No counts are printed behind a tree that is too deep.
#[test]
fn no_counts_behind_too_deep(rt: HostRuntime) -> Result<(), Fail> {
    let session = b"session on One() { put / Loop(); put / One(); }";
    let text = joined(rt.alloc(), &[ENDLESS, session])?;
    let replies = done(b"session 1\n0 v=1 | bodies=1 cells=7\n1 toodeep\n2 v=1\nfinal 1 1\n");
    assert_answer(&rt, rt.alloc(), &["solo"], text.as_slice(), replies)
}

#[test]
fn refused_openings_have_no_counts(rt: HostRuntime) -> Result<(), Fail> {
    let runs = [
        (
            b"session on One() { }".as_slice(),
            "7",
            b"session 1\n0 v=1 | bodies=1 cells=7\nfinal 1 1\n".as_slice(),
        ),
        (
            b"session on One() { put / One(); }",
            "6",
            b"session 1\n0 full\n1 unopened\nfinal 1 -\n",
        ),
        (
            b"session on Loop() { put / One(); }",
            "262144",
            b"session 1\n0 toodeep\n1 unopened\nfinal 1 -\n",
        ),
    ];
    for (session, rows, replies) in runs {
        let text = joined(rt.alloc(), &[ENDLESS, session])?;
        let words = ["solo", "--rows", rows];
        let end = done(replies);
        assert_answer(&rt, rt.alloc(), words.as_slice(), text.as_slice(), end)?;
    }
    Ok(())
}

/// A copy back to the first tree runs no body and makes no cell.
#[test]
fn a_copy_is_counted(rt: HostRuntime) -> Result<(), Fail> {
    let text = twofold(
        rt.alloc(),
        b"{ put /1 Num(3); copy /0 /1; show; forget 3; }",
    )?;
    let replies = b"session 1
0 val=6 | bodies=4 cells=29
1 val=6 | bodies=2 cells=36
2 val=6 | bodies=0 cells=36
3 shown Add(Add(Num(1), Num(2)), Add(Num(1), Num(2)))
4 forgot
final 1 1
";
    let words = ["solo", "--rows", "36"];
    assert_answer(
        &rt,
        rt.alloc(),
        words.as_slice(),
        text.as_slice(),
        done(replies),
    )
}

/// Another number of sessions than one is told behind too many rows, and before a grammar that is not
/// ordered.
#[test]
fn solo_takes_one_session(rt: HostRuntime) -> Result<(), Fail> {
    let two = b"session on A(L()) { } session on A(L()) { show; }".as_slice();
    let other_number = b"lrc: job: solo wants one session\n".as_slice();
    let runs = [
        (two, "262144", 5, other_number),
        (two, "16777216", 5, b"lrc: job: too many rows\n"),
        (b"", "16777216", 5, other_number),
        (
            b"session on A(L()) { }",
            "16777216",
            6,
            b"lrc: not ordered: induced A x.i1\n",
        ),
    ];
    for (sessions, rows, status, line) in runs {
        let text = joined(rt.alloc(), &[CROSSING, sessions])?;
        let words = ["solo", "--rows", rows];
        let end = refused(status, line);
        assert_answer(&rt, rt.alloc(), words.as_slice(), text.as_slice(), end)?;
    }
    Ok(())
}
