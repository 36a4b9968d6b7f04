//! The command as `clap` reads it.
ghost use Rattle.std.specs.Prelude.{◌≡◌, IfOk, false};
ghost use Rattle.clap.specs.Words.{app_of, rule_of};
ghost use Rattle.lrc_words.specs.CommandLine.{COMMAND, command_word, whole_number};

use clap::{Arg, ArgAction};
use lrc_base::Memory;
use lrc_base::limits::{DEPTH_LIMIT, MEMO_LIMIT, ROW_LIMIT, SEED_LIMIT, SESSION_LIMIT, TREE_LIMIT};
use std::alloc::Global;

// The word for what is to be done.
fn command_word<'a>(alloc: Global) -> Arg<'a>
    ensures rule { rule_of result ≡ command_word }
    ensures local { result.global ≡ false }
{
    Arg::new(alloc, "command").required(true)
}

// The option `--name`, a whole number from `low` to `high`, and `usual` where it is not given.
fn whole_number<'a>(alloc: Global, name: &'a str, low: u32, high: u32, usual: &'a str) -> Arg<'a>
    ensures rule { rule_of result ≡ whole_number name.entry.now low high usual.entry.now }
    ensures local { result.global ≡ false }
{
    let numbers = clap::value_parser!(u32).range(i64::from(low)..=i64::from(high));
    Arg::new(alloc, name)
        .long(name)
        .action(ArgAction::Set)
        .value_parser(numbers)
        .default_value(usual)
}

/// The command.
pub fn command<'a>(alloc: Global) -> Result<clap::Command<'a>, Memory>
    ensures { IfOk result (λ command. app_of command ≡ COMMAND) }
{
    clap::Command::new(alloc, "lrc")
        .arg(command_word(alloc))?
        .arg(whole_number(alloc, "rows", 1, ROW_LIMIT, "262144"))?
        .arg(whole_number(alloc, "memo", 1, MEMO_LIMIT, "65536"))?
        .arg(whole_number(alloc, "depth", 1, DEPTH_LIMIT, "500"))?
        .arg(whole_number(alloc, "seed", 0, SEED_LIMIT, "1"))?
        .arg(whole_number(alloc, "nodes", 1, TREE_LIMIT, "1000"))?
        .arg(whole_number(alloc, "sessions", 1, SESSION_LIMIT as u32, "1"))
}
