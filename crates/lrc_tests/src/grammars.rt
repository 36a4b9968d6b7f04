//! Grammars by numbers, made of texts, and copies of them.

use crate::jobs::DECLARATIONS;
use lrc_check::check;
use lrc_grammar::Grammar;
use lrc_reader::read_job;
use std::alloc::Global;
use std::test::Fail;

/// The grammar of a job.
pub fn checked(alloc: Global, text: &[u8]) -> Result<Grammar, Fail> {
    let job = read_job(alloc, text)?;
    Ok(check(alloc, &job.grammar)?)
}

#[test]
fn a_copy_is_equal(rt: HostRuntime) -> Result<(), Fail> {
    let grammar = checked(rt.alloc(), DECLARATIONS)?;
    let copy = grammar.copy(rt.alloc())?;
    let shown = format!(in rt.alloc(); "{copy:?}")?;
    let wanted = format!(in rt.alloc(); "{grammar:?}")?;
    assert_eq!(rt; shown.as_str(), wanted.as_str());
    Ok(())
}
