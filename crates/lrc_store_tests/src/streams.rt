//! Sources and sinks over a reader, a writer and memory, which are read and written in parts and fail in between.

use lrc_outside::{
    MemorySink, MemorySource, ReadSource, Source, TakeFault, WriteSink, put_all, take_up_to,
};
use std::test::Fail;

#[test]
fn a_reader_is_read_up_to_the_limit(rt: HostRuntime) -> Result<(), Fail> {
    let mut source = ReadSource::new(b"abcdef".as_slice());
    let first = take_up_to(rt.alloc(), &mut source, 4)?;
    assert_eq!(rt; first.as_slice(), b"abcd".as_slice());
    let rest = take_up_to(rt.alloc(), &mut source, 4)?;
    assert_eq!(rt; rest.as_slice(), b"ef".as_slice());
    Ok(())
}

#[test]
fn a_writer_gets_all(rt: HostRuntime) -> Result<(), Fail> {
    let mut written: Vec<u8> = Vec::new(rt.alloc());
    put_all(&mut WriteSink::new(&mut written), b"hello")?;
    assert_eq!(rt; written.as_slice(), b"hello".as_slice());
    Ok(())
}

#[test]
fn a_source_fails_in_mid_stream(rt: HostRuntime) -> Result<(), Fail> {
    let mut source = MemorySource::new(rt.alloc(), b"abcdef", 2, &[1])?;
    let cut = take_up_to(rt.alloc(), &mut source, 9).map(|bytes| bytes.len());
    assert_eq!(rt; cut, Err(TakeFault::Failed));
    let rest = take_up_to(rt.alloc(), &mut source, 9)?;
    assert_eq!(rt; rest.as_slice(), b"cdef".as_slice());
    let mut buf = [0; 3];
    assert_eq!(rt; source.take(&mut buf).ok(), Some(0));
    Ok(())
}

#[test]
fn a_sink_fails_in_mid_stream_and_when_it_is_full(rt: HostRuntime) -> Result<(), Fail> {
    let mut sink = MemorySink::new(rt.alloc(), 7, 2, &[1])?;
    assert!(rt; put_all(&mut sink, b"hello").is_err());
    assert_eq!(rt; sink.held(), b"he".as_slice());
    put_all(&mut sink, b"llo")?;
    assert_eq!(rt; sink.held(), b"hello".as_slice());
    assert!(rt; put_all(&mut sink, b"world").is_err());
    assert_eq!(rt; sink.held(), b"hellowo".as_slice());
    Ok(())
}
