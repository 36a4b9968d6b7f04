//! The adapters over a reader and a writer of std: they pass on what these give and take, and each error.

ghost use Rattle.std.specs.Prelude.{◌≤◌, IfOk};

use lrc_outside::{ReadSource, Sink, Source, WriteSink};
use std::io;
use std::io::{ErrorKind, Read, Write};

/// Fails at each call but the second, which gives or takes one byte.
#[derive(Drop)]
struct Faulty {
    calls: u64,
}

impl Faulty {
    fn step(&mut self, len: usize) -> io::Result<usize>
        ensures { IfOk result (λ n. n ≤ len) }
    {
        self.calls = self.calls.saturating_add(1);
        if self.calls == 2 && len > 0 {
            return Ok(1);
        }
        Err(io::Error::from(ErrorKind::Other))
    }
}

impl Read for Faulty {
    fn read(&mut self, buf: &mut [u8]) -> io::Result<usize> {
        self.step(buf.len())
    }
}

impl Write for Faulty {
    fn write(&mut self, buf: &[u8]) -> io::Result<usize> {
        self.step(buf.len())
    }

    fn flush(&mut self) -> io::Result<()> {
        Ok(())
    }
}

#[test]
fn each_error_of_a_reader_is_a_fault(rt: HostRuntime) {
    let mut source = ReadSource::new(Faulty { calls: 0 });
    let mut buf = [0; 2];
    for given in [None, Some(1), None] {
        assert_eq!(rt; source.take(&mut buf).ok(), given);
    }
}

#[test]
fn each_error_of_a_writer_is_a_fault(rt: HostRuntime) {
    let mut sink = WriteSink::new(Faulty { calls: 0 });
    for taken in [None, Some(1), None] {
        assert_eq!(rt; sink.put(b"ab").ok(), taken);
    }
}

#[test]
fn a_write_that_takes_nothing_is_a_fault(rt: HostRuntime) {
    let mut room = [0; 3];
    let mut sink = WriteSink::new(room.as_mut_slice());
    assert_eq!(rt; sink.put(b"abcd").ok(), Some(3));
    assert_eq!(rt; sink.put(b"d").ok(), None);
}
