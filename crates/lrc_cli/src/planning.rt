ghost use Rattle.std.specs.Prelude.{IfOk, IfErr};
ghost use Rattle.lrc_cli.specs.Causes.{IsCause};
ghost use Rattle.lrc_cli.specs.Headline.{IsPartsOf, IsPlanOf};

use crate::job::job_of;
use crate::prepared::prepared;
use lrc_base::Bytes;
use lrc_failures::Failure;
use lrc_plan::{parts_text, plan_text};
use lrc_words::Command;
use std::alloc::Global;

/// The text of the partitions of a job's grammar.
///
/// # Errors
///
/// The first fault of the text, then of the job, then that its grammar is not ordered; and want of memory.
pub fn partitions(alloc: Global, command: &Command, bytes: &[u8]) -> Result<Bytes, Failure>
    ensures text { IfOk result (IsPartsOf bytes.now) }
    ensures cause { IfErr result (IsCause command.now bytes.now) }
{
    let job = job_of(alloc, bytes)?;
    let (_accepted, plan) = prepared(alloc, command, &job)?;
    Ok(parts_text(alloc, &plan)?)
}

/// The text of the partitions of a job's grammar, and then of its visit sequences and bindings.
///
/// # Errors
///
/// As [`partitions`].
pub fn sequences(alloc: Global, command: &Command, bytes: &[u8]) -> Result<Bytes, Failure>
    ensures text { IfOk result (IsPlanOf bytes.now) }
    ensures cause { IfErr result (IsCause command.now bytes.now) }
{
    let job = job_of(alloc, bytes)?;
    let (_accepted, plan) = prepared(alloc, command, &job)?;
    let mut text = parts_text(alloc, &plan)?;
    text.append(plan_text(alloc, &plan)?)?;
    Ok(text)
}
