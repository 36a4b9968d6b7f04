//! What the tests of the top call share: a call with its words and its text, and what has to come of it.

use lrc_cli::lrc;
use lrc_outside::{MemorySink, MemorySource};
use std::alloc::{AllocError, Global};
use std::process::Abort;
use std::test::Fail;
use std::thread::Threads;

/// The line of a usage fault.
pub const USAGE: &[u8] =
    b"usage: lrc run|solo|check|plan|gen [--rows N] [--memo N] [--depth N] [--seed N] [--nodes N] [--sessions N]\n";

/// How a call has to end: its status, what it writes, and the line that it tells.
#[derive(Clone, Copy)]
pub struct End<'a> {
    pub status: u8,
    pub written: &'a [u8],
    pub line: &'a [u8],
}

/// All is done, and this is written.
pub fn done(written: &[u8]) -> End<'_> {
    End {
        status: 0,
        written,
        line: b"",
    }
}

/// Nothing is written, and this line is told.
pub fn refused(status: u8, line: &[u8]) -> End<'_> {
    End {
        status,
        written: b"",
        line,
    }
}

fn owned_words(alloc: Global, words: &[&str]) -> Result<Vec<String>, AllocError> {
    let mut owned = Vec::new(alloc);
    owned.push(String::from_str(alloc, "lrc")?)?;
    for word in words {
        owned.push(String::from_str(alloc, *word)?)?;
    }
    Ok(owned)
}

/// `lrc` with these words, the program's own name before them, ends so.
pub fn assert_ends<R: Threads + Sync + Abort>(
    rt: &R,
    alloc: Global,
    words: &[&str],
    source: &mut MemorySource,
    out: &mut MemorySink,
    end: End<'_>,
) -> Result<(), Fail> {
    let words = owned_words(alloc, words)?;
    let mut err = MemorySink::new(alloc, 1000, 7, &[])?;
    let status = lrc(rt, alloc, words.as_slice(), source, out, &mut err);
    assert_eq!(rt; err.held(), end.line);
    assert_eq!(rt; out.held(), end.written);
    assert_eq!(rt; status, end.status);
    Ok(())
}

/// `lrc` with these words and this input ends so.
pub fn assert_answer<R: Threads + Sync + Abort>(
    rt: &R,
    alloc: Global,
    words: &[&str],
    text: &[u8],
    end: End<'_>,
) -> Result<(), Fail> {
    let mut source = MemorySource::new(alloc, text, 100, &[])?;
    let mut out = MemorySink::new(alloc, 10_000, 100, &[])?;
    assert_ends(rt, alloc, words, &mut source, &mut out, end)
}
