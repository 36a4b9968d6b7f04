//! Sources and sinks that fail at one of their calls, or that have no room.

ghost use Rattle.std.specs.Prelude.{◌≤◌};

use crate::jobs::{SMALL_JOB, SUMS, front, joined};
use crate::top_call::{End, assert_ends, done, refused};
use lrc_outside::{MemorySink, MemorySource};
use std::alloc::Global;
use std::process::Abort;
use std::test::Fail;
use std::thread::Threads;

const SUM_SESSION: &[u8] = b"session on Add(Add(Num(1), Num(2)), Add(Num(1), Num(2))) { }";

const REPLIES: &[u8] = b"session 1\n0 s=1\nfinal 1 1\n";

/// A run ends so, where the source hands out so many bytes a call and fails at one of its calls.
fn assert_read<R: Threads + Sync + Abort>(
    rt: &R,
    alloc: Global,
    text: &[u8],
    step: usize,
    call: u64,
    end: End<'_>,
) -> Result<(), Fail>
    requires { 1 ≤ step }
{
    let mut source = MemorySource::new(alloc, text, step, &[call])?;
    let mut out = MemorySink::new(alloc, 1000, 7, &[])?;
    assert_ends(rt, alloc, &["run"], &mut source, &mut out, end)
}

/// A run writes this, and then finds that the sink fails, which takes a byte a call.
fn assert_cut<R: Threads + Sync + Abort>(
    rt: &R,
    alloc: Global,
    text: &[u8],
    out: &mut MemorySink,
    written: &[u8],
) -> Result<(), Fail> {
    let mut source = MemorySource::new(alloc, text, 100, &[])?;
    let end = End {
        status: 4,
        written,
        line: b"lrc: write fault\n",
    };
    assert_ends(rt, alloc, &["run"], &mut source, out, end)
}

#[test]
fn a_source_fails_at_its_second_call(rt: HostRuntime) -> Result<(), Fail> {
    let text = joined(rt.alloc(), &[SUMS, SUM_SESSION])?;
    let fault = refused(3, b"lrc: read fault\n");
    assert_read(&rt, rt.alloc(), text.as_slice(), 10, 1, fault)
}

#[test]
fn a_sink_fails_at_its_third_call(rt: HostRuntime) -> Result<(), Fail> {
    let text = joined(rt.alloc(), &[SUMS, SUM_SESSION])?;
    let mut out = MemorySink::new(rt.alloc(), 1000, 1, &[2])?;
    assert_cut(&rt, rt.alloc(), text.as_slice(), &mut out, b"se")
}

#[test]
fn a_source_fails_at_any_call(rt: HostRuntime) -> Result<(), Fail> {
    for call in 0..88_u64 {
        let fault = refused(3, b"lrc: read fault\n");
        assert_read(&rt, rt.alloc(), SMALL_JOB, 1, call, fault)?;
    }
    assert_read(&rt, rt.alloc(), SMALL_JOB, 1, 88, done(REPLIES))
}

#[test]
fn a_sink_fails_at_any_call(rt: HostRuntime) -> Result<(), Fail> {
    for (count, call) in (0..26_u64).enumerate() {
        let mut out = MemorySink::new(rt.alloc(), 200, 1, &[call])?;
        assert_cut(&rt, rt.alloc(), SMALL_JOB, &mut out, front(REPLIES, count))?;
    }
    Ok(())
}

#[test]
fn a_sink_that_fails_after_the_last_byte(rt: HostRuntime) -> Result<(), Fail> {
    let mut source = MemorySource::new(rt.alloc(), SMALL_JOB, 100, &[])?;
    let mut out = MemorySink::new(rt.alloc(), 200, 1, &[26])?;
    assert_ends(
        &rt,
        rt.alloc(),
        &["run"],
        &mut source,
        &mut out,
        done(REPLIES),
    )
}

#[test]
fn a_sink_has_no_room(rt: HostRuntime) -> Result<(), Fail> {
    for room in 0..26_usize {
        let mut out = MemorySink::new(rt.alloc(), room, 1, &[])?;
        assert_cut(&rt, rt.alloc(), SMALL_JOB, &mut out, front(REPLIES, room))?;
    }
    Ok(())
}
