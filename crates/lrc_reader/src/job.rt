//! Jobs, from the bytes of a text.

ghost use Rattle.std.specs.Prelude.{◌≡◌, ◌≢◌, ◌≤◌, ◌-◌, List as Sequence, ℕ, length, drop, All, IfOk, IfErr};
ghost use Rattle.lrc_base.specs.declared.job.Job.{Job};
ghost use Rattle.lrc_lex.specs.declared.Token.{Token};
ghost use Rattle.lrc_lex.specs.Longest.{IsTokenOf};
ghost use Rattle.lrc_lex.specs.Tokens.{Tokens};
ghost use Rattle.lrc_meaning.specs.Limits.{KeepsCounts, KeepsLimits};
ghost use Rattle.lrc_reader.specs.Denotes.{Denotes};
ghost use Rattle.lrc_reader.specs.Faults.{FirstTextFault, start_of};
ghost use Rattle.lrc_reader.specs.Gives.{fault_at};
ghost use Rattle.lrc_reader.specs.declared.fault.JobFault.{JobFault};

use crate::cursor::Cursor;
use crate::fault::{JobFault, Stop};
use crate::whole::job;
use lrc_base::limits::TEXT_LIMIT;
use lrc_base::{Job, List};
use lrc_lex::{LexFault, Token, tokens};
use std::alloc::Global;

/// Where the first of the last `left` tokens begins; the text's length where none is left.
fn place(text: &[u8], tokens: &[Token], left: usize) -> u32
    requires { length text.now ≤ TEXT_LIMIT }
    ensures { result ≡ start_of text.now (drop (length tokens.now - left) tokens.now) }
{
    match &tokens[tokens.len().saturating_sub(left)..] {
        [first, ..] => first.at,
        [] => text.len() as u32,
    }
}

/// The fault of a job whose reading stops at this place.
fn fault(stop: Stop, at: u32) -> JobFault
    ensures { result ≡ fault_at stop at }
{
    match stop {
        Stop::Expected => JobFault::Expected { at },
        Stop::NestedTooDeep => JobFault::NestedTooDeep { at },
        Stop::LimitReached(limit) => JobFault::LimitReached { at, limit },
        Stop::Memory => JobFault::Memory,
    }
}

/// The job that the tokens of a text stand for.
fn job_of(alloc: Global, text: &[u8], found: &[Token]) -> Result<Job, JobFault>
    requires short { length text.now ≤ TEXT_LIMIT }
    requires cut { Tokens text.now found.now }
    requires each { All (IsTokenOf text.now) found.now }
    ensures ok { IfOk result (λ job. Denotes text.now job) }
    ensures fault { IfErr result (λ fault. fault ≢ JobFault.Memory → FirstTextFault text.now fault) }
    ensures only { IfErr result (λ fault. fault ≢ JobFault.Memory → (job : Job) → Denotes text.now job → ⊥) }
{
    let mut cursor = Cursor::new(text, found);
    match job(alloc, &mut cursor) {
        Ok(job) => {
            let left = cursor.left();
            if left == 0 {
                Ok(job)
            } else {
                Err(fault(Stop::Expected, place(text, found, left)))
            }
        }
        Err(stop) => Err(fault(stop, place(text, found, cursor.left()))),
    }
}

/// The tokens of a text.
fn tokens_of(alloc: Global, text: &[u8]) -> Result<List<Token>, JobFault>
    requires { length text.now ≤ TEXT_LIMIT }
    ensures ok { IfOk result (λ found. Tokens text.now found) }
    ensures each { IfOk result (λ found. All (IsTokenOf text.now) found) }
    ensures fault { IfErr result (λ fault. fault ≢ JobFault.Memory → FirstTextFault text.now fault) }
    ensures only { IfErr result (λ fault. fault ≢ JobFault.Memory → (job : Job) → Denotes text.now job → ⊥) }
{
    match tokens(alloc, text) {
        Ok(found) => Ok(found),
        Err(LexFault::Memory) => Err(JobFault::Memory),
        Err(fault) => Err(JobFault::Lex(fault)),
    }
}

/// The job that the bytes denote.
///
/// # Errors
///
/// The first fault of the text: that it is too long, the first fault among its tokens, or the first
/// token at fault. Want of memory is `Memory`.
pub fn read_job(alloc: Global, bytes: &[u8]) -> Result<Job, JobFault>
    ensures ok { IfOk result (λ job. Denotes bytes.now job) }
    ensures limits { IfOk result (λ job. KeepsLimits job.grammar) }
    ensures counts { IfOk result KeepsCounts }
    ensures fault { IfErr result (λ fault. fault ≢ JobFault.Memory → FirstTextFault bytes.now fault) }
    ensures only { IfErr result (λ fault. fault ≢ JobFault.Memory → (job : Job) → Denotes bytes.now job → ⊥) }
{
    if bytes.len() > TEXT_LIMIT {
        return Err(JobFault::TooLong);
    }
    let found = tokens_of(alloc, bytes)?;
    job_of(alloc, bytes, found.as_slice())
}

/// A text denotes at most one job.
pub fn one_job()
    ensures { (bytes : Sequence ℕ) (job other : Job) → Denotes bytes job → Denotes bytes other → job ≡ other }
{}

/// What holds of any text: it has at most one first fault, and none where it denotes a job.
pub fn fault_laws()
    ensures one { (text : Sequence ℕ) (fault other : JobFault) → FirstTextFault text fault → FirstTextFault text other → fault ≡ other }
    ensures never_both { (text : Sequence ℕ) (fault : JobFault) (job : Job) → FirstTextFault text fault → Denotes text job → ⊥ }
{}
