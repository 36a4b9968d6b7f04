//! `run`: attributes of trees as they are edited, their texts and copies, how deep a tree may be, how many rows
//! there are, and several sessions.

use crate::jobs::{
    CROSSING, DECLARATIONS, ENDLESS, LETS, NUMERALS, PAIRING, SUMS, TREES, copies_of, joined,
};
use crate::top_call::{assert_answer, done, refused};
use std::alloc::{AllocError, Global};
use std::test::Fail;

/// The sums' grammar with a session on a sum of so many numbers, each sum within the one before, and with
/// these edits.
fn nested(alloc: Global, sums: usize, edits: &[u8]) -> Result<Vec<u8>, AllocError> {
    let opening = copies_of(alloc, b"Add(", sums)?;
    let closing = copies_of(alloc, b", Num(1))", sums)?;
    let pieces = [
        SUMS,
        b"session on ",
        opening.as_slice(),
        b"Num(1)",
        closing.as_slice(),
        edits,
    ];
    joined(alloc, pieces.as_slice())
}

#[test]
fn sums_are_added(rt: HostRuntime) -> Result<(), Fail> {
    let runs = [
        (
            b"session on Add(Add(Num(1), Num(2)), Add(Num(1), Num(2))) { }".as_slice(),
            b"session 1\n0 val=6\nfinal 1 1\n".as_slice(),
        ),
        (
            b"session on Big() { }",
            b"session 1\n0 val=-9223372036854775808\nfinal 1 1\n",
        ),
        (
            b"session on Add(Num(1), Num(2)) { put /7 Num(1); put /1 5; put /0 Num(1); }",
            b"session 1\n0 val=3\n1 badpath\n2 wrongsort\n3 val=3\nfinal 1 1\n",
        ),
    ];
    for (session, replies) in runs {
        let text = joined(rt.alloc(), &[SUMS, session])?;
        assert_answer(&rt, rt.alloc(), &["run"], text.as_slice(), done(replies))?;
    }
    Ok(())
}

#[test]
fn a_tree_of_500_nodes_opens(rt: HostRuntime) -> Result<(), Fail> {
    let text = nested(rt.alloc(), 499, b" { put / Num(1); }")?;
    let replies = done(b"session 1\n0 val=500\n1 val=1\nfinal 1 1\n");
    assert_answer(&rt, rt.alloc(), &["run"], text.as_slice(), replies)
}

#[test]
fn a_tree_of_501_nodes_is_too_deep(rt: HostRuntime) -> Result<(), Fail> {
    let text = nested(rt.alloc(), 500, b" { put / Num(1); }")?;
    let replies = done(b"session 1\n0 toodeep\n1 unopened\nfinal 1 -\n");
    assert_answer(&rt, rt.alloc(), &["run"], text.as_slice(), replies)
}

#[test]
fn sessions_have_too_many_rows(rt: HostRuntime) -> Result<(), Fail> {
    let sessions = b"session on Num(1) { } session on Num(1) { }";
    let text = joined(rt.alloc(), &[SUMS, sessions])?;
    let words = ["run", "--rows", "16777216"];
    let fault = refused(5, b"lrc: job: too many rows\n");
    assert_answer(&rt, rt.alloc(), words.as_slice(), text.as_slice(), fault)
}

/// The tree stays as it was where a put is refused, also where it would be too deep.
#[test]
fn each_put_is_answered(rt: HostRuntime) -> Result<(), Fail> {
    let session = b"session on Add(Num(1), Num(2)) {
  put /1 Num(5);
  put /2 Num(6);
  put /1 7;
  put /0 Add(Num(8), Num(9));
  put /1 Num(2);
}";
    let text = joined(rt.alloc(), &[SUMS, session])?;
    let replies =
        b"session 1\n0 val=3\n1 val=6\n2 badpath\n3 wrongsort\n4 toodeep\n5 val=3\nfinal 1 1\n";
    let words = ["run", "--depth", "2"];
    assert_answer(
        &rt,
        rt.alloc(),
        words.as_slice(),
        text.as_slice(),
        done(replies),
    )
}

/// Children are at fault before their node, and the left one before the right one.
#[test]
fn terms_at_fault(rt: HostRuntime) -> Result<(), Fail> {
    let faults = [
        (
            b"session on Sub(Num(), Nil()) { }".as_slice(),
            b"lrc: job: session 1 edit 0: wrong number of children of Num\n".as_slice(),
        ),
        (
            b"session on Add(Num(1), true) { }",
            b"lrc: job: session 1 edit 0: wrong kind of child 1 of Add\n",
        ),
        (
            b"session on Num(1) { show; put / Nil(); }",
            b"lrc: job: session 1 edit 2: unknown production Nil\n",
        ),
        (
            b"session on Num(1) { } session on 1 { put / Nil(); }",
            b"lrc: job: session 2: not the start sort\n",
        ),
    ];
    for (session, line) in faults {
        let text = joined(rt.alloc(), &[SUMS, session])?;
        assert_answer(&rt, rt.alloc(), &["run"], text.as_slice(), refused(5, line))?;
    }
    Ok(())
}

/// Names are looked up in a tree that is attached, before and after an edit of what is bound.
#[test]
fn names_are_looked_up(rt: HostRuntime) -> Result<(), Fail> {
    let session = b"session on Root(Let('x, Num(3), Add(Var('x), Num(4)))) {
  put /0/1 Num(10);
  put /7 Num(1);
  put /0/2 3;
}";
    let text = joined(rt.alloc(), &[LETS, session])?;
    let replies = done(b"session 1\n0 val=7\n1 val=14\n2 badpath\n3 wrongsort\nfinal 1 1\n");
    assert_answer(&rt, rt.alloc(), &["run"], text.as_slice(), replies)
}

/// What is declared is given by a first visit of the items, and taken by a second.
#[test]
fn items_are_visited_twice(rt: HostRuntime) -> Result<(), Fail> {
    let session = b"session on Top(Decl(1, Decl(2, None()))) { put /0/1 None(); }";
    let text = joined(rt.alloc(), &[DECLARATIONS, session])?;
    let replies = done(b"session 1\n0 bad=2\n1 bad=0\nfinal 1 1\n");
    assert_answer(&rt, rt.alloc(), &["run"], text.as_slice(), replies)
}

#[test]
fn endless_expansion_is_too_deep(rt: HostRuntime) -> Result<(), Fail> {
    let session = b"session on One() { put / Loop(); put / One(); }";
    let text = joined(rt.alloc(), &[ENDLESS, session])?;
    let replies = done(b"session 1\n0 v=1\n1 toodeep\n2 v=1\nfinal 1 1\n");
    assert_answer(&rt, rt.alloc(), &["run"], text.as_slice(), replies)
}

/// A part whose result is remembered counts for as deep as it is.
#[test]
fn remembered_parts_count_as_deep_as_they_are(rt: HostRuntime) -> Result<(), Fail> {
    let session = b"session on P(S(S(Z())), Z()) { put /1 S(S(S(Z()))); put /1 S(S(Z())); }";
    let text = joined(rt.alloc(), &[NUMERALS, session])?;
    let replies = done(b"session 1\n0 h=2\n1 toodeep\n2 h=4\nfinal 1 1\n");
    let words = ["run", "--depth", "4"];
    assert_answer(&rt, rt.alloc(), words.as_slice(), text.as_slice(), replies)
}

/// The opening demands 21 cells.
#[test]
fn an_opening_runs_out_of_rows(rt: HostRuntime) -> Result<(), Fail> {
    let session = b"session on Add(Num(1), Num(2)) { put / Num(1); }";
    let text = joined(rt.alloc(), &[SUMS, session])?;
    let runs = [
        (
            "20",
            b"session 1\n0 full\n1 unopened\nfinal 1 -\n".as_slice(),
        ),
        ("21", b"session 1\n0 val=3\n1 val=1\nfinal 1 1\n"),
    ];
    for (rows, replies) in runs {
        let words = ["run", "--rows", rows];
        let end = done(replies);
        assert_answer(&rt, rt.alloc(), words.as_slice(), text.as_slice(), end)?;
    }
    Ok(())
}

/// The opening demands 29 cells and the first edit 7 more; what is there already needs no row.
#[test]
fn an_edit_runs_out_of_rows(rt: HostRuntime) -> Result<(), Fail> {
    let session = b"session on Add(Add(Num(1), Num(2)), Add(Num(1), Num(2))) {
  put /1 Num(3);
  put /1 Add(Num(1), Num(2));
}";
    let text = joined(rt.alloc(), &[SUMS, session])?;
    let runs = [
        (
            "35",
            b"session 1\n0 val=6\n1 full\n2 val=6\nfinal 1 1\n".as_slice(),
        ),
        ("36", b"session 1\n0 val=6\n1 val=6\n2 val=6\nfinal 1 1\n"),
    ];
    for (rows, replies) in runs {
        let words = ["run", "--rows", rows];
        let end = done(replies);
        assert_answer(&rt, rt.alloc(), words.as_slice(), text.as_slice(), end)?;
    }
    Ok(())
}

#[test]
fn grammars_that_are_not_ordered_are_not_run(rt: HostRuntime) -> Result<(), Fail> {
    let runs = [
        (
            CROSSING,
            b"session on A(L()) { show; }".as_slice(),
            b"lrc: not ordered: induced A x.i1\n".as_slice(),
        ),
        (
            PAIRING,
            b"session on T(L(), L()) { }",
            b"lrc: not ordered: extended T x.b\n",
        ),
    ];
    for (grammar, session, line) in runs {
        let text = joined(rt.alloc(), &[grammar, session])?;
        let end = refused(6, line);
        assert_answer(&rt, rt.alloc(), &["run"], text.as_slice(), end)?;
    }
    Ok(())
}

/// The text of a tree comes from the patterns of its productions.
#[test]
fn trees_are_shown(rt: HostRuntime) -> Result<(), Fail> {
    let session = b"session on Root(Let('x, Num(3), Add(Var('x), Num(4)))) {
  show; put /0/1 Num(10); show; put /7 Num(1); put /0/2 3; forget 0;
}";
    let text = joined(rt.alloc(), &[LETS, session])?;
    let replies = b"session 1
0 val=7
1 shown let x = 3 in (x + 4)
2 val=14
3 shown let x = 10 in (x + 4)
4 badpath
5 wrongsort
6 forgot
final 1 1
";
    assert_answer(&rt, rt.alloc(), &["run"], text.as_slice(), done(replies))
}

/// A part is copied to another place of the same kind, or the copy is refused and the tree stays.
#[test]
fn parts_are_copied(rt: HostRuntime) -> Result<(), Fail> {
    let session = b"session on P(S(S(Z())), Z()) {
  copy /0 /1; copy /0 /1/0; copy /2 /0; copy /0 /2; copy /1/0 /0; show;
}";
    let text = joined(rt.alloc(), &[NUMERALS, session])?;
    let replies = b"session 1
0 h=2
1 h=4
2 toodeep
3 badpath
4 badpath
5 h=3
6 shown P(S(Z()), S(S(Z())))
final 1 1
";
    let words = ["run", "--depth", "4"];
    assert_answer(
        &rt,
        rt.alloc(),
        words.as_slice(),
        text.as_slice(),
        done(replies),
    )
}

/// A child that is a number is of another kind than one that is a tree.
#[test]
fn parts_of_another_kind_are_not_copied(rt: HostRuntime) -> Result<(), Fail> {
    let session = b"session on Add(Num(1), Num(2)) { copy /0 /1/0; copy /1/0 /0/0; show; }";
    let text = joined(rt.alloc(), &[SUMS, session])?;
    let replies = b"session 1
0 val=3
1 wrongsort
2 val=4
3 shown Add(Num(2), Num(2))
final 1 1
";
    assert_answer(&rt, rt.alloc(), &["run"], text.as_slice(), done(replies))
}

/// The value of an attribute may be a tree.
#[test]
fn values_may_be_trees(rt: HostRuntime) -> Result<(), Fail> {
    let text = joined(rt.alloc(), &[TREES, b"session on L() { show; }"])?;
    let replies = done(b"session 1\n0 t=L()\n1 shown L()\nfinal 1 1\n");
    assert_answer(&rt, rt.alloc(), &["run"], text.as_slice(), replies)
}

/// The final of a session names the first whose last tree is the same; a session that did not open has none.
#[test]
fn finals_name_the_first_equal_tree(rt: HostRuntime) -> Result<(), Fail> {
    let sessions = b"session on Add(Num(1), Num(2)) { put /0 Num(5); }
session on Add(Num(5), Num(2)) { }
session on Add(Add(Add(Num(1), Num(1)), Num(1)), Num(1)) { show; }
session on Add(Num(1), Num(2)) { put /0 Num(6); }
session on Num(7) { put / Add(Num(1), Num(2)); put /0 Num(6); }
";
    let text = joined(rt.alloc(), &[SUMS, sessions])?;
    let replies = b"session 1
0 val=3
1 val=7
session 2
0 val=7
session 3
0 toodeep
1 unopened
session 4
0 val=3
1 val=8
session 5
0 val=7
1 val=3
2 val=8
final 1 1
final 2 1
final 3 -
final 4 4
final 5 4
";
    let words = ["run", "--depth", "3", "--memo", "1"];
    assert_answer(
        &rt,
        rt.alloc(),
        words.as_slice(),
        text.as_slice(),
        done(replies),
    )
}

#[test]
fn no_session_prints_nothing(rt: HostRuntime) -> Result<(), Fail> {
    assert_answer(&rt, rt.alloc(), &["run"], SUMS, done(b""))
}

/// Each session has rows of its own: what one has used up is no matter to another.
#[test]
fn each_session_has_its_rows(rt: HostRuntime) -> Result<(), Fail> {
    let sessions = b"session on Add(Num(1), Num(2)) { } session on Big() { }";
    let text = joined(rt.alloc(), &[SUMS, sessions])?;
    let replies =
        b"session 1\n0 full\nsession 2\n0 val=-9223372036854775808\nfinal 1 -\nfinal 2 2\n";
    let words = ["run", "--rows", "8"];
    assert_answer(
        &rt,
        rt.alloc(),
        words.as_slice(),
        text.as_slice(),
        done(replies),
    )
}
