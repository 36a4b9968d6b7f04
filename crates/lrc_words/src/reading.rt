//! Reading the words.
ghost use Rattle.std.specs.Prelude.{◌≡◌, ◌⊎◌, ◌<◌, ◌≤◌, ◌^◌, ℕ, IfOk, IfErr, Some, None, codes};
ghost use Rattle.std.specs.Prelude.{option_map, option_and_then};
ghost use Rattle.clap.specs.Words.{first_value, found_of, one_text};
ghost use Rattle.lrc_words.specs.CommandLine.{AreRefused, IsWithinRanges, Says, number_in, texts};
ghost use Rattle.lrc_words.specs.CommandLine.{verb_named, verb_of};
ghost use Rattle.lrc_words.specs.Parsed.{HasNumber, IsParse};
ghost use Rattle.lrc_words.specs.declared.command.WordsFault.TheVariants.{Usage};

use crate::arguments::command;
use crate::command::{Command, Verb, WordsFault};
use clap::ArgMatches;
use std::alloc::Global;

// What is to be done, by its name.
fn verb_named(name: &str) -> Option<Verb>
    ensures { result ≡ verb_named name.now }
{
    match name {
        "run" => Some(Verb::Run),
        "solo" => Some(Verb::Solo),
        "check" => Some(Verb::Check),
        "plan" => Some(Verb::Plan),
        "gen" => Some(Verb::Gen),
        _ => None,
    }
}

// What the matches ask for, if it is known.
fn verb(matches: &ArgMatches<'_>) -> Option<Verb>
    ensures { result ≡ option_and_then verb_named (first_value (found_of matches.now) (codes "command")) }
{
    verb_named(matches.get_str("command")?)
}

// The number of the option `name`, which has one.
fn number(matches: &ArgMatches<'_>, name: &str) -> u32
    requires { HasNumber (found_of matches.now) name.now 0 4294967295 }
    ensures number { option_map number_in (one_text (found_of matches.now) name.now) ≡ Some result }
    ensures range { (low high : ℕ) → high < 2 ^ 32 → HasNumber (found_of matches.now) name.now low high
        → (low ≤ result) × (result ≤ high) }
{
    matches.get_one::<u32>(name).unwrap()
}

// The words, matched to the command's arguments.
fn parsed<'a>(alloc: Global, words: &'a [String]) -> Result<ArgMatches<'a>, WordsFault>
    ensures ok { IfOk result (IsParse (texts words.entry.now)) }
    ensures usage { IfErr result (λ fault. fault ≡ Usage → AreRefused (texts words.entry.now)) }
{
    let command = command(alloc)?;
    Ok(command.try_get_matches_from(words)?)
}

/// Reads the words of the command line, the program's own name first.
///
/// # Errors
///
/// `Usage` where the command does not take the words, a wish for help included, or where they ask
/// for none of `run`, `solo`, `check`, `plan` and `gen`. `Memory` where memory ran out.
pub fn read_words(alloc: Global, words: &[String]) -> Result<Command, WordsFault>
    ensures says { IfOk result (Says (texts words.now)) }
    ensures ranges { IfOk result IsWithinRanges }
    ensures usage { IfErr result (λ fault. fault ≡ Usage
        → AreRefused (texts words.now) ⊎ (verb_of (texts words.now) ≡ None)) }
{
    let matches = parsed(alloc, words)?;
    let verb = verb(&matches).ok_or(WordsFault::Usage)?;
    Ok(Command {
        verb,
        rows: number(&matches, "rows"),
        memo: number(&matches, "memo"),
        depth: number(&matches, "depth"),
        seed: number(&matches, "seed"),
        nodes: number(&matches, "nodes"),
        sessions: number(&matches, "sessions"),
    })
}
