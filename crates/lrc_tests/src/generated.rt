//! Generated jobs beside the same jobs as they are read.

use crate::jobs::{LETS, joined};
use lrc_gen::gen_job;
use lrc_reader::read_job;
use std::alloc::Global;
use std::test::Fail;

/// The session of a tree of three nodes and of the seed 7.
const SESSION: &[u8] = b"session on Root(Add(Num(12), Num(61))) {
  put /0/0/0 Num(54); put /0/0/0/1 Num(27); put /0/1 Num(3); put /0 Num(2);
}
";

/// Whether the generated job of three nodes and one session is the one that is written so.
fn is_as_written(alloc: Global) -> Result<bool, Fail> {
    let text = joined(alloc, &[LETS, SESSION])?;
    let read = read_job(alloc, text.as_slice())?;
    let generated = gen_job(alloc, 7, 3, 1)?;
    let wanted = format!(in alloc; "{read:?}")?;
    let found = format!(in alloc; "{generated:?}")?;
    Ok(found.as_str() == wanted.as_str())
}

#[test]
fn a_generated_job_is_the_one_that_is_written(rt: HostRuntime) -> Result<(), Fail> {
    assert!(rt; is_as_written(rt.alloc())?);
    Ok(())
}

#[test]
fn each_session_has_the_tree_and_four_edits(rt: HostRuntime) -> Result<(), Fail> {
    let job = gen_job(rt.alloc(), 1, 2_000, 8)?;
    let sessions = job.sessions.as_slice();
    assert_eq!(rt; sessions.len(), 8);
    assert!(rt; sessions.iter().all(|script| script.edits.len() == 4));
    Ok(())
}
