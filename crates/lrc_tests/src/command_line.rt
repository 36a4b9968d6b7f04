//! Words that ask for nothing, and generated jobs.

use crate::jobs::SMALL_JOB;
use crate::top_call::{USAGE, assert_answer, done, refused};
use std::test::Fail;

#[test]
fn words_that_are_not_taken(rt: HostRuntime) -> Result<(), Fail> {
    let words = [
        [].as_slice(),
        &["walk"],
        &["--depth", "0"],
        &["run", "--depth", "0"],
        &["run", "--depth", "20001"],
        &["check", "plan"],
    ];
    for words in words {
        assert_answer(&rt, rt.alloc(), words, SMALL_JOB, refused(2, USAGE))?;
    }
    Ok(())
}

/// The tree is `Root(Add(Num(12), Num(61)))`, with the value 73; of the four puts one is of another kind, one
/// names no place, and two give 15 and 2. Nothing is read.
#[test]
fn a_generated_job_is_summed_up(rt: HostRuntime) -> Result<(), Fail> {
    let words = ["gen", "--seed", "7", "--nodes", "3"];
    let summary = done(b"replies 5\nrefused 2\nsum 90\n");
    assert_answer(&rt, rt.alloc(), words.as_slice(), b"no job", summary)
}

#[test]
fn a_generated_job_has_too_many_rows(rt: HostRuntime) -> Result<(), Fail> {
    let words = ["gen", "--rows", "16777216", "--sessions", "2"];
    let fault = refused(5, b"lrc: job: too many rows\n");
    assert_answer(&rt, rt.alloc(), words.as_slice(), SMALL_JOB, fault)
}
