//! The program `lrc`: evaluates attribute grammars while trees are edited.
#![tactic(auto)]

use lrc_cli::lrc;
use lrc_outside::{ReadSource, WriteSink};
use std::process::ExitCode;
use std::{env, io};

fn main(rt: HostRuntime) -> io::Result<ExitCode> {
    let words: Vec<String> = env::args(&rt)?.collect(rt.alloc())?;
    let mut source = ReadSource::new(rt.stdin());
    let mut out = WriteSink::new(rt.stdout());
    let mut err = WriteSink::new(rt.stderr());
    let status = lrc(
        &rt,
        rt.alloc(),
        words.as_slice(),
        &mut source,
        &mut out,
        &mut err,
    );
    Ok(ExitCode::from(status))
}
