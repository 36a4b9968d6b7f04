ghost use Rattle.std.specs.Prelude.{◌≡◌, ℕ, List, ◌≢◌, ◌≤◌, ◌⊎◌, false, IsTrue, MatchBool, None, Ok, Err, IfOk, IfErr, OnOk};
ghost use Rattle.std.specs.Io.KnownBytes.{Keeps};
ghost use Rattle.lrc_outside.specs.Count.{Rose};
ghost use Rattle.lrc_outside.specs.Known.{LosesUpTo};
ghost use Rattle.lrc_words.specs.declared.command.Command.{Command};
ghost use Rattle.lrc_words.specs.CommandLine.{Says, IsWithinRanges, AreRefused, texts, verb_of};
ghost use Rattle.lrc_failures.specs.Lines.{status_of, line_of, IsStatus};
ghost use Rattle.lrc_failures.specs.Gains.{GainsLine};
ghost use Rattle.lrc_failures.specs.declared.failure.Failure.{Failure};
ghost use Rattle.lrc_failures.specs.declared.failure.Failure.TheVariants as f;
ghost use Rattle.lrc_cli.specs.Headline.{HasRoom, HaveRoom, IsOutputOf, IsRunOf, IsRunWithRoom, IsSoloOf, IsSoloWithRoom, IsSummaryWithRoom};
ghost use Rattle.lrc_cli.specs.Causes.{ReadsJob, ReadsNothing, IsCause};
ghost use Rattle.lrc_cli.specs.Status.{Done, Unwritten, Refused, HoldsJob, HasOutput, IsHindrance, is_refusal, input_limit};

use crate::planning::{partitions, sequences};
use crate::run::{generated_text, one_text, run_text, solo_text};
use lrc_base::Bytes;
use lrc_base::limits::TEXT_LIMIT;
use lrc_failures::{Failure, put_line};
use lrc_outside::{Sink, Source, put_all, take_up_to};
use lrc_reader::one_job;
use lrc_words::{Command, Verb, WordsFault, read_words};
use std::alloc::Global;
use std::thread::Threads;

/// The most bytes that are read: one more than a job may have.
const INPUT_LIMIT: usize = TEXT_LIMIT + 1;

/// What the words ask for.
///
/// # Errors
///
/// Usage, where they are not taken or ask for nothing that is known, and want of memory.
fn command_of(alloc: Global, words: &[String]) -> Result<Command, Failure>
    ensures says { IfOk result (Says (texts words.now)) }
    ensures within { IfOk result IsWithinRanges }
    ensures usage { result ≡ Err f.Usage → AreRefused (texts words.now) ⊎ (verb_of (texts words.now) ≡ None) }
    ensures fault { IfErr result (λ failure. (failure ≡ f.Usage) ⊎ (failure ≡ f.Memory)) }
{
    match read_words(alloc, words) {
        Ok(command) => Ok(command),
        Err(WordsFault::Usage) => Err(Failure::Usage),
        Err(WordsFault::Memory) => Err(Failure::Memory),
    }
}

/// What a command that reads a job prints for the input.
///
/// # Errors
///
/// The first fault of the job.
fn output<R: Threads + Sync>(
    rt: &R,
    alloc: Global,
    command: &Command,
    input: &[u8],
) -> Result<Bytes, Failure>
    requires reads { ReadsJob command.now.verb }
    requires within { IsWithinRanges command.now }
    ensures output { IfOk result (IsOutputOf command.now input.now) }
    ensures cause { IfErr result (IsCause command.now input.now) }
{
    match command.verb {
        Verb::Run => run_text(rt, alloc, command, input),
        Verb::Solo => solo_text(alloc, command, input),
        Verb::Check => partitions(alloc, command, input),
        Verb::Plan => sequences(alloc, command, input),
        Verb::Gen => unreachable!(),
    }
}

/// What a command prints for the job that it reads.
///
/// # Errors
///
/// A fault of the source, and the first fault of the job.
fn read_output<R: Threads + Sync, S: Source>(
    rt: &R,
    alloc: Global,
    command: &Command,
    source: &mut S,
) -> Result<Bytes, Failure>
    requires reads { ReadsJob command.now.verb }
    requires within { IsWithinRanges command.now }
    ensures output { IfOk result (λ text. HasOutput command.now (S.left source.old) (S.left source.new) text) }
    ensures refused { IfErr result (IsHindrance command.now (S.left source.old) (S.left source.new) (S.faults source.old) (S.faults source.new)) }
    ensures taken { LosesUpTo input_limit (S.left source.old) (S.left source.new) }
    ensures source_count { S.faults source.old ≤ S.faults source.new }
{
    let input = take_up_to(alloc, source, INPUT_LIMIT)?;
    output(rt, alloc, command, input.as_slice())
}

/// Whether a command reads nothing; the others read a job.
fn reads_nothing(verb: Verb) -> bool
    ensures { MatchBool result (ReadsNothing verb) (ReadsJob verb) }
{
    match verb {
        Verb::Run | Verb::Solo | Verb::Check | Verb::Plan => false,
        Verb::Gen => true,
    }
}

/// What a command prints; `gen` reads nothing.
///
/// # Errors
///
/// A fault of the source, and the first fault of the job.
fn command_output<R: Threads + Sync, S: Source>(
    rt: &R,
    alloc: Global,
    command: &Command,
    source: &mut S,
) -> Result<Bytes, Failure>
    requires within { IsWithinRanges command.now }
    ensures output { IfOk result (λ text. HasOutput command.now (S.left source.old) (S.left source.new) text) }
    ensures refused { IfErr result (IsHindrance command.now (S.left source.old) (S.left source.new) (S.faults source.old) (S.faults source.new)) }
    ensures taken { LosesUpTo input_limit (S.left source.old) (S.left source.new) }
    ensures kept { ReadsNothing command.now.verb → source.new ≡ source.old }
    ensures source_count { S.faults source.old ≤ S.faults source.new }
{
    if reads_nothing(command.verb) {
        generated_text(rt, alloc, command)
    } else {
        read_output(rt, alloc, command, source)
    }
}

/// Does what the words ask for, and writes the text of it.
///
/// # Errors
///
/// The first fault, in the order: words, reading, the job, memory, writing.
fn answered<R: Threads + Sync, S: Source, O: Sink>(
    rt: &R,
    alloc: Global,
    words: &[String],
    source: &mut S,
    out: &mut O,
) -> Result<(), Failure>
    ensures done { OnOk result (Done words.now (S.left source.old) (S.left source.new) (O.held out.old) (O.held out.new)) }
    ensures usage { result ≡ Err f.Usage → AreRefused (texts words.now) ⊎ (verb_of (texts words.now) ≡ None) }
    ensures unread { result ≡ Err f.Usage → Keeps (S.left source.old) (S.left source.new) }
    ensures command { IfErr result (λ failure. failure ≢ f.Usage → failure ≢ f.Memory → (command : Command) × Says (texts words.now) command) }
    ensures read_fault { result ≡ Err f.Read → Rose (S.faults source.old) (S.faults source.new) }
    ensures write_fault { result ≡ Err f.Write → Rose (O.faults out.old) (O.faults out.new) }
    ensures part { result ≡ Err f.Write → Unwritten words.now (S.left source.old) (S.left source.new) (O.held out.old) (O.held out.new) }
    ensures refused { IfErr result (λ failure. IsTrue (is_refusal failure) → Refused words.now (S.left source.old) (S.left source.new) failure) }
    ensures nothing_written { result ≢ Ok tt → result ≢ Err f.Write → Keeps (O.held out.old) (O.held out.new) }
    ensures taken { LosesUpTo input_limit (S.left source.old) (S.left source.new) }
    ensures kept { (command : Command) → Says (texts words.now) command → ReadsNothing command.verb → source.new ≡ source.old }
    ensures source_count { S.faults source.old ≤ S.faults source.new }
    ensures out_count { O.faults out.old ≤ O.faults out.new }
{
    let command = command_of(alloc, words)?;
    let text = command_output(rt, alloc, &command, source)?;
    put_all(out, text.as_slice())?;
    Ok(())
}

/// Reads the words of a command line and a job, does what they ask for, and writes the text of it; or
/// prints the line of the first fault. Answers the status with which the program ends.
///
/// The opening of each session and each of its edits are answered by the root's synthesised attributes in
/// the attribution of the session's tree as it is then, or by the refusal that the editing rules name;
/// `full` only once its rows are fewer than the cells that it has demanded. The sessions of a job share one
/// table. `solo` runs one session, and tells besides how many visits no earlier edit made, and how many
/// cells were demanded so far. `gen` runs a
/// generated job, and prints what its replies sum up to.
pub fn lrc<R: Threads + Sync, S: Source, O: Sink, E: Sink>(
    rt: &R,
    alloc: Global,
    words: &[String],
    source: &mut S,
    out: &mut O,
    err: &mut E,
) -> u8
    ensures done { result ≡ 0 → Done words.now (S.left source.old) (S.left source.new) (O.held out.old) (O.held out.new) }
    ensures one_text { (bytes text other : List ℕ) (depth : ℕ) → IsRunWithRoom bytes depth text → IsRunWithRoom bytes depth other → text ≡ other }
    ensures room { (bytes text : List ℕ) (rows depth : ℕ) (is : IsRunOf bytes rows depth text) → HaveRoom is.run.replies → IsRunWithRoom bytes depth text }
    ensures one_solo { (bytes text other : List ℕ) (depth : ℕ) (is : IsSoloWithRoom bytes depth text) (again : IsSoloWithRoom bytes depth other) → is.run.parts.sorts ≡ again.run.parts.sorts → text ≡ other }
    ensures solo_room { (bytes text : List ℕ) (rows depth : ℕ) (is : IsSoloOf bytes rows depth text) → HasRoom is.run.replies → IsSoloWithRoom bytes depth text }
    ensures one_summary { (seed nodes sessions depth : ℕ) (text other : List ℕ) → IsSummaryWithRoom seed nodes sessions depth text → IsSummaryWithRoom seed nodes sessions depth other → text ≡ other }
    ensures usage { result ≡ 2 → AreRefused (texts words.now) ⊎ (verb_of (texts words.now) ≡ None) }
    ensures unread { result ≡ 2 → Keeps (S.left source.old) (S.left source.new) }
    ensures command { result ≢ 2 → result ≢ 7 → (command : Command) × Says (texts words.now) command }
    ensures read_fault { result ≡ 3 → Rose (S.faults source.old) (S.faults source.new) }
    ensures write_fault { result ≡ 4 → Rose (O.faults out.old) (O.faults out.new) }
    ensures part { result ≡ 4 → Unwritten words.now (S.left source.old) (S.left source.new) (O.held out.old) (O.held out.new) }
    ensures refused { (result ≡ 5) ⊎ (result ≡ 6) → (failure : Failure) × (result ≡ status_of failure) × Refused words.now (S.left source.old) (S.left source.new) failure × GainsLine (E.held err.old) (E.held err.new) (E.faults err.old) (E.faults err.new) (line_of failure) }
    ensures statuses { IsStatus result }
    ensures complete { (command : Command) → Says (texts words.now) command → ¬ Rose (S.faults source.old) (S.faults source.new) → ¬ Rose (O.faults out.old) (O.faults out.new) → HoldsJob command (S.left source.old) → (result ≡ 0) ⊎ (result ≡ 7) }

    // Whatever the status, no more is taken from the front of the source than one byte more than a job has, and
    // nothing where the command makes its own job.
    ensures taken { LosesUpTo input_limit (S.left source.old) (S.left source.new) }
    ensures kept { (command : Command) → Says (texts words.now) command → ReadsNothing command.verb → source.new ≡ source.old }

    // Nothing is written before all is computed, and of a fault only its line.
    ensures nothing_written { result ≢ 0 → result ≢ 4 → Keeps (O.held out.old) (O.held out.new) }
    ensures no_line { result ≡ 0 → Keeps (E.held err.old) (E.held err.new) }
    ensures line { (failure : Failure) → is_refusal failure ≡ false → result ≡ status_of failure → GainsLine (E.held err.old) (E.held err.new) (E.faults err.old) (E.faults err.new) (line_of failure) }

    // The counts of faults never fall.
    ensures source_count { S.faults source.old ≤ S.faults source.new }
    ensures out_count { O.faults out.old ≤ O.faults out.new }
    ensures err_count { E.faults err.old ≤ E.faults err.new }
{
    one_job();
    one_text();
    match answered(rt, alloc, words, source, out) {
        Ok(()) => 0,
        Err(failure) => {
            let _ = put_line(err, &failure);
            failure.status()
        }
    }
}
