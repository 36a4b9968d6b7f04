ghost use Rattle.std.specs.Prelude.{◌≡◌, ◌-◌, ◌^◌, ◌<◌, ◌≤◌, length, take, IfOk, OnErr};
ghost use Rattle.std.specs.Io.KnownBytes.{Keeps, Consumes, Appends, IsAtEnd};
ghost use Rattle.lrc_outside.specs.Count.{count_after};

use crate::sink::Sink;
use crate::source::{Failed, Source};
use std::io::{Read, Write};

/// A source that reads from a reader of std. Each error of the reader is a fault.
#[derive(Debug, Drop)]
pub struct ReadSource<R> {
    reader: R,
    faults: u64,
    ghost counted: { faults ≤ 2 ^ 64 - 1 },
}

impl<R: Read> ReadSource<R> {
    /// A source of what `reader` gives, with no faults so far.
    pub fn new(reader: R) -> Self
        ensures left { ⟦<ReadSource<R> as Source>⟧.left result ≡ R.remaining reader }
        ensures faults { ⟦<ReadSource<R> as Source>⟧.faults result ≡ 0 }
    {
        ReadSource { reader, faults: 0 }
    }
}

impl<R: Read> Source for ReadSource<R> {
    ghost left = { λ source. R.remaining source.reader };

    ghost faults = { λ source. source.faults };

    ghost at_most = { λ source. source.counted };

    fn take(&mut self, buf: &mut [u8]) -> Result<usize, Failed>
        requires { 0 < length buf.old }
        ensures within { IfOk result (λ n. n ≤ length buf.new) }
        ensures given { let left = ⟦<ReadSource<R> as Source>⟧.left in
            IfOk result (λ n. Consumes (left self.old) (left self.new) (take n buf.new)) }
        ensures end { IfOk result (λ n. n ≡ 0 → IsAtEnd (⟦<ReadSource<R> as Source>⟧.left self.new)) }
        ensures kept { let left = ⟦<ReadSource<R> as Source>⟧.left in
            OnErr result (Keeps (left self.old) (left self.new)) }
        ensures counted { let faults = ⟦<ReadSource<R> as Source>⟧.faults in
            faults self.new ≡ count_after result (faults self.old) }
    {
        match self.reader.read(buf) {
            Ok(n) => Ok(n),
            Err(_) => {
                self.faults = self.faults.saturating_add(1);
                Err(Failed)
            }
        }
    }
}

/// A sink that writes to a writer of std. Each error of the writer is a fault, and so is a write
/// that takes nothing.
#[derive(Debug, Drop)]
pub struct WriteSink<W> {
    writer: W,
    faults: u64,
    ghost counted: { faults ≤ 2 ^ 64 - 1 },
}

impl<W: Write> WriteSink<W> {
    /// A sink into `writer`, with no faults so far.
    pub fn new(writer: W) -> Self
        ensures held { ⟦<WriteSink<W> as Sink>⟧.held result ≡ W.contents writer }
        ensures faults { ⟦<WriteSink<W> as Sink>⟧.faults result ≡ 0 }
    {
        WriteSink { writer, faults: 0 }
    }
}

impl<W: Write> Sink for WriteSink<W> {
    ghost held = { λ sink. W.contents sink.writer };

    ghost faults = { λ sink. sink.faults };

    ghost at_most = { λ sink. sink.counted };

    fn put(&mut self, piece: &[u8]) -> Result<usize, Failed>
        ensures some { IfOk result (λ n. 1 ≤ n) }
        ensures within { IfOk result (λ n. n ≤ length piece.now) }
        ensures appended { let held = ⟦<WriteSink<W> as Sink>⟧.held in
            IfOk result (λ n. Appends (held self.old) (held self.new) (take n piece.now)) }
        ensures kept { let held = ⟦<WriteSink<W> as Sink>⟧.held in
            OnErr result (Keeps (held self.old) (held self.new)) }
        ensures counted { let faults = ⟦<WriteSink<W> as Sink>⟧.faults in
            faults self.new ≡ count_after result (faults self.old) }
    {
        match self.writer.write(piece) {
            Ok(n) if n > 0 => Ok(n),
            _ => {
                self.faults = self.faults.saturating_add(1);
                Err(Failed)
            }
        }
    }
}
