ghost use Rattle.std.specs.Prelude.{IfOk, IfErr};
ghost use Rattle.lrc_meaning.specs.Limits.{KeepsLimits, KeepsCounts};
ghost use Rattle.lrc_reader.specs.Denotes.{Denotes};
ghost use Rattle.lrc_words.specs.declared.command.Command.{Command};
ghost use Rattle.lrc_cli.specs.Causes.{IsCause};

use lrc_base::Job;
use lrc_failures::Failure;
use lrc_reader::read_job;
use std::alloc::Global;

/// The job that the bytes denote.
///
/// # Errors
///
/// The first fault of the text, and want of memory.
pub fn job_of(alloc: Global, bytes: &[u8]) -> Result<Job, Failure>
    ensures job { IfOk result (λ job. Denotes bytes.now job) }
    ensures limits { IfOk result (λ job. KeepsLimits job.grammar) }
    ensures counts { IfOk result KeepsCounts }
    ensures cause { IfErr result (λ failure. (command : Command) → IsCause command bytes.now failure) }
{
    Ok(read_job(alloc, bytes)?)
}
