//! Puts the list of the first numbers into a plain store: two cells an item, so many rounds over.
#![tactic(auto)]

mod numbers;

use lrc_plain::PlainStore;
use lrc_store::Store;
use numbers::put_numbers;
use std::process::ExitCode;
use std::{env, io};

/// The words are a number of items, from 1 to 8,388,608, and a number of rounds. The status is 2 where
/// they are not, and 6 where the store is full.
fn main(rt: HostRuntime) -> io::Result<ExitCode> {
    let words: Vec<String> = env::args(&rt)?.collect(rt.alloc())?;
    let [_program, items, rounds] = words.as_slice() else {
        return Ok(ExitCode::from(2));
    };
    let (Ok(items), Ok(rounds)) = (items.parse::<u32>(), rounds.parse::<u32>()) else {
        return Ok(ExitCode::from(2));
    };
    if !(1..=8_388_608).contains(&items) {
        return Ok(ExitCode::from(2));
    }
    let mut store = PlainStore::new(rt.alloc(), 2 * items)?;
    for _round in 0..rounds {
        if put_numbers(&mut store, items).is_err() {
            return Ok(ExitCode::from(6));
        }
    }
    println!(rt; "{} cells", store.published())?;
    Ok(ExitCode::from(0))
}
