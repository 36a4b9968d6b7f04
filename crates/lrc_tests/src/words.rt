//! What the words of a command line set.

use lrc_words::{Command, Verb, WordsFault, read_words};
use std::alloc::Global;
use std::test::Fail;

/// What is read of some words, the program's own name before them.
fn read(alloc: Global, words: &[&str]) -> Result<Result<Command, WordsFault>, Fail> {
    let mut owned = Vec::new(alloc);
    owned.push(String::from_str(alloc, "lrc")?)?;
    for word in words.iter() {
        owned.push(String::from_str(alloc, *word)?)?;
    }
    Ok(read_words(alloc, owned.as_slice()))
}

/// The numbers of a command that sets none.
const USUAL: Command = Command {
    verb: Verb::Run,
    rows: 262_144,
    memo: 65_536,
    depth: 500,
    seed: 1,
    nodes: 1_000,
    sessions: 1,
};

#[test]
fn takes_the_words_of_a_run(rt: HostRuntime) -> Result<(), Fail> {
    let alloc = rt.alloc();
    assert!(rt; read(alloc, &["run"])? == Ok(USUAL));
    let few_rows = Command { rows: 5, ..USUAL };
    assert!(rt; read(alloc, &["run", "--rows", "5"])? == Ok(few_rows));
    assert!(rt; read(alloc, &["--rows=005", "run"])? == Ok(few_rows));
    let ends = Command {
        verb: Verb::Gen,
        rows: 16_777_216,
        seed: 0,
        sessions: 64,
        ..USUAL
    };
    assert!(rt;
        read(
            alloc,
            &["gen", "--rows=16777216", "--seed=0", "--sessions=64"]
        )? == Ok(ends)
    );
    Ok(())
}

#[test]
fn refuses_other_words(rt: HostRuntime) -> Result<(), Fail> {
    let alloc = rt.alloc();
    let usage = Err(WordsFault::Usage);
    assert!(rt; read(alloc, &[])? == usage);
    assert!(rt; read(alloc, &["walk"])? == usage);
    assert!(rt; read(alloc, &["run", "check"])? == usage);
    assert!(rt; read(alloc, &["--help"])? == usage);
    assert!(rt; read(alloc, &["run", "--rows=5", "--rows=5"])? == usage);
    assert!(rt; read(alloc, &["run", "--rows=0"])? == usage);
    assert!(rt; read(alloc, &["run", "--rows=16777217"])? == usage);
    assert!(rt; read(alloc, &["run", "--depth=1001"])? == usage);
    assert!(rt; read(alloc, &["run", "-r", "5"])? == usage);
    Ok(())
}
