//! Streams over readers and writers of std. What they give and take is told by no clause.
use std::io::{self, ErrorKind, Read, Write};
use std::sync::ArcSlice;
use std::test::Fail;
use walter_stream::{
    Failed, MemorySink, MemorySource, NullSink, ReadError, StdSink, StdSource, read_to_end,
    write_all,
};

/// A reader and a writer whose calls fail.
#[derive(Drop)]
struct Broken;

impl Read for Broken {
    fn read(&mut self, _buf: &mut [u8]) -> io::Result<usize> {
        Err(ErrorKind::ConnectionReset.into())
    }
}

impl Write for Broken {
    fn write(&mut self, _buf: &[u8]) -> io::Result<usize> {
        Err(ErrorKind::BrokenPipe.into())
    }

    fn flush(&mut self) -> io::Result<()> {
        Err(ErrorKind::BrokenPipe.into())
    }
}

/// A writer that takes nothing.
#[derive(Drop)]
struct Full;

impl Write for Full {
    fn write(&mut self, _buf: &[u8]) -> io::Result<usize> {
        Ok(0)
    }

    fn flush(&mut self) -> io::Result<()> {
        Ok(())
    }
}

fn goes_to_a_thread<T: Send>(_value: &T) {}

#[test]
fn a_source_over_a_reader_gives_its_bytes(rt: HostRuntime) -> Result<(), Fail> {
    let mut source = StdSource::new(b"over std".as_slice());
    let bytes = read_to_end(rt.alloc(), &mut source, 8)?;
    assert!(rt; bytes.as_slice() == b"over std".as_slice());
    Ok(())
}

#[test]
fn a_sink_over_a_writer_takes_bytes(rt: HostRuntime) {
    let mut sink = StdSink::new(Vec::<u8>::new(rt.alloc()));
    assert!(rt; write_all(&mut sink, b"over std").is_ok());
    assert!(rt; sink.into_inner().as_slice() == b"over std".as_slice());
}

#[test]
fn a_fault_of_std_is_a_fault(rt: HostRuntime) {
    let read = read_to_end(rt.alloc(), &mut StdSource::new(Broken), 8);
    assert!(rt; matches!(read, Err(ReadError::Failed)));
    assert!(rt; write_all(&mut StdSink::new(Broken), b"lost") == Err(Failed));
    assert!(rt; write_all(&mut StdSink::new(Full), b"lost") == Err(Failed));
    assert!(rt; write_all(&mut NullSink, b"nothing").is_ok());
}

#[test]
fn streams_go_to_threads(rt: HostRuntime) -> Result<(), Fail> {
    let none = ArcSlice::from_slice(rt.alloc(), b"")?;
    goes_to_a_thread(&MemorySource::new(none, Vec::new(rt.alloc())));
    goes_to_a_thread(&StdSource::new(Broken));
    goes_to_a_thread(&StdSink::new(Broken));
    Ok(())
}

#[test]
fn a_sink_in_memory_goes_to_a_thread(rt: HostRuntime) -> Result<(), Fail> {
    goes_to_a_thread(&MemorySink::with_room(rt.alloc(), 5, Vec::new(rt.alloc()))?);
    Ok(())
}
