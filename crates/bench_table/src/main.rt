//! Works on a shared table, so that a script can measure it from outside.
//!
//! Four words: what to do, how many numbers and rows there are, how many rounds, and how often the
//! rounds are halved among threads. `numbers` puts the numbers in each round. `missed` puts them once
//! and recalls each in each round; `remembered` has each remembered before.
#![tactic(auto)]

mod itself;
mod work;

use anyhow::bail;
use itself::Itself;
use lrc_memo::SharedStore;
use lrc_store::Store;
use lrc_table::Table;
use std::env;
use work::{handles_of, recall_rounds, spread};

fn main(rt: HostRuntime) -> anyhow::Result<()> {
    let words: Vec<String> = env::args(&rt)?.collect(rt.alloc())?;
    let [_, what, count, rounds, levels] = words.as_slice() else {
        bail!("four words are wanted: numbers, missed or remembered, and three numbers");
    };
    let count = count.parse::<u32>()?.clamp(1, 1 << 24);
    let rounds = rounds.parse::<u32>()?;
    let levels = levels.parse::<u32>()?.min(6);
    let (table, pass) = Table::new(rt.alloc(), Itself, 1, count, count)?;
    if what.as_str() == "numbers" {
        let pass = spread(&rt, &table, pass, 0..count, rounds, levels);
        println!(rt; "{} made", pass.published())?;
        return Ok(());
    }
    let mut store = SharedStore::new(&table, pass);
    let handles = handles_of(rt.alloc(), &mut store, count)?;
    let remember = what.as_str() == "remembered";
    recall_rounds(&mut store, handles.as_slice(), remember, rounds);
    println!(rt; "{} made, {} missed", store.published(), store.missed())?;
    Ok(())
}
