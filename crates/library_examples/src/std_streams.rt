use sg_io::{Failed, SinkStop, Source, StdSink, StdSource, put_all};
use std::io::{self, ErrorKind, Read, Write};
use std::test::Fail;

/// A stream that moves two bytes in a call, and whose second call fails.
#[derive(Drop)]
struct Torn {
    calls: u32,
    flushes: u32,
    taken: [u8; 4],
}

impl Torn {
    fn new() -> Torn {
        Torn {
            calls: 0,
            flushes: 0,
            taken: [0; 4],
        }
    }

    fn fails(&mut self) -> bool {
        self.calls = self.calls.saturating_add(1);
        self.calls == 2
    }
}

impl Read for Torn {
    fn read(&mut self, buf: &mut [u8]) -> io::Result<usize> {
        if self.fails() {
            return Err(io::Error::from(ErrorKind::Interrupted));
        }
        let count = buf.len().min(2);
        buf[..count].copy_from_slice(&b"ab"[..count]);
        Ok(count)
    }
}

impl Write for Torn {
    fn write(&mut self, buf: &[u8]) -> io::Result<usize> {
        if self.fails() {
            return Err(io::Error::from(ErrorKind::Interrupted));
        }
        let count = buf.len().min(2);
        self.taken[..count].copy_from_slice(&buf[..count]);
        Ok(count)
    }

    fn flush(&mut self) -> io::Result<()> {
        self.flushes = self.flushes.saturating_add(1);
        Ok(())
    }
}

#[test]
fn a_reader_of_std_is_read_once_a_call(rt: HostRuntime) -> Result<(), Fail> {
    let mut torn = Torn::new();
    let mut source = StdSource::new(&mut torn);
    let mut buf = [0; 3];
    assert_eq!(rt; source.read(&mut buf), Ok(2));
    assert_eq!(rt; buf, *b"ab\0");
    assert_eq!(rt; source.read(&mut buf), Err(Failed));
    assert_eq!(rt; source.read(&mut buf), Ok(2));
    assert_eq!(rt; torn.calls, 3);
    Ok(())
}

#[test]
fn a_writer_of_std_is_flushed_and_never_tried_again(rt: HostRuntime) -> Result<(), Fail> {
    let mut torn = Torn::new();
    let mut sink = StdSink::new(&mut torn);
    assert_eq!(rt; put_all(&mut sink, b"xyz"), Err(SinkStop::Failed));
    assert_eq!(rt; put_all(&mut sink, b"u"), Ok(()));
    assert_eq!(rt; torn.taken, *b"uy\0\0");
    assert_eq!(rt; torn.calls, 3);
    assert_eq!(rt; torn.flushes, 2);
    Ok(())
}

/// A writer that takes all, and whose flush fails.
#[derive(Drop)]
struct Unflushed {
    taken: usize,
}

impl Write for Unflushed {
    fn write(&mut self, buf: &[u8]) -> io::Result<usize> {
        self.taken = self.taken.saturating_add(buf.len());
        Ok(buf.len())
    }

    fn flush(&mut self) -> io::Result<()> {
        Err(io::Error::from(ErrorKind::BrokenPipe))
    }
}

#[test]
fn a_flush_that_fails_is_a_fault(rt: HostRuntime) -> Result<(), Fail> {
    let mut unflushed = Unflushed { taken: 0 };
    let mut sink = StdSink::new(&mut unflushed);
    assert_eq!(rt; put_all(&mut sink, b"xyz"), Err(SinkStop::Failed));
    assert_eq!(rt; unflushed.taken, 3);
    Ok(())
}

#[test]
fn a_writer_that_takes_nothing_has_failed(rt: HostRuntime) -> Result<(), Fail> {
    let mut room = [0; 2];
    let mut sink = StdSink::new(room.as_mut_slice());
    assert_eq!(rt; put_all(&mut sink, b"xyz"), Err(SinkStop::Failed));
    assert_eq!(rt; room, *b"xy");
    Ok(())
}
