//! What no clause says: that calls which take memory succeed, what a stream of the system does at an error, and time.
//! The expected values are the bytes that were handed in.
ghost use Rattle.std.specs.Prelude.{◌≢◌, ◌<◌, ◌-◌, ◌^◌};

use super::*;
use std::alloc::Global;
use std::io::{self, ErrorKind, Read, Write};
use std::test::Fail;

/// A reader whose first call fails, and that then gives one byte a call.
#[derive(Drop)]
struct FailsOnce {
    has_failed: bool,
}

impl Read for FailsOnce {
    fn read(&mut self, buf: &mut [u8]) -> io::Result<usize> {
        if !self.has_failed {
            self.has_failed = true;
            return Err(ErrorKind::Other.into());
        }
        if buf.is_empty() {
            return Ok(0);
        }
        buf[0] = b'x';
        Ok(1)
    }
}

/// A writer that takes nothing and cannot flush.
#[derive(Drop)]
struct TakesNothing;

impl Write for TakesNothing {
    fn write(&mut self, _: &[u8]) -> io::Result<usize> {
        Ok(0)
    }

    fn flush(&mut self) -> io::Result<()> {
        Err(ErrorKind::Other.into())
    }
}

/// A writer whose writes and flushes fail.
#[derive(Drop)]
struct FailsAlways;

impl Write for FailsAlways {
    fn write(&mut self, _: &[u8]) -> io::Result<usize> {
        Err(ErrorKind::Other.into())
    }

    fn flush(&mut self) -> io::Result<()> {
        Err(ErrorKind::Other.into())
    }
}

#[test]
fn the_limit_is_exact(rt: HostRuntime) -> Result<(), Fail> {
    let alloc = rt.alloc();
    for step in [1usize, 4, 100] {
        let mut source = MemSource::new(b"abcdefgh".to_vec(alloc)?, step, Vec::new(alloc));
        match read_all(alloc, &mut source, 8) {
            Ok(bytes) => assert_eq!(rt; bytes.as_slice(), b"abcdefgh".as_slice(), "step {step}"),
            Err(_) => assert!(rt; false, "step {step}"),
        }
        let mut source = MemSource::new(b"abcdefgh".to_vec(alloc)?, step, Vec::new(alloc));
        let is_too_long = matches!(read_all(alloc, &mut source, 7), Err(ReadAllFault::TooLong));
        assert!(rt; is_too_long, "step {step}");
    }
    Ok(())
}

#[test]
fn a_source_that_fails_at_its_second_call(rt: HostRuntime) -> Result<(), Fail> {
    let alloc = rt.alloc();
    let mut source = MemSource::new(b"abcdefgh".to_vec(alloc)?, 4, [2u64].to_vec(alloc)?);
    let has_failed = matches!(read_all(alloc, &mut source, 100), Err(ReadAllFault::Failed));
    assert!(rt; has_failed);
    match read_all(alloc, &mut source, 100) {
        Ok(bytes) => assert_eq!(rt; bytes.as_slice(), b"efgh".as_slice()),
        Err(_) => assert!(rt; false),
    }
    Ok(())
}

#[test]
fn a_sink_that_fails_at_its_second_write(rt: HostRuntime) -> Result<(), Fail> {
    let alloc = rt.alloc();
    let text = b"session 1\ntree t 1,2\n".as_slice();
    let mut sink = MemSink::new(alloc, 100, 10, [2u64].to_vec(alloc)?)?;
    assert_eq!(rt; write_all(&mut sink, text), Err(Failed));
    assert_eq!(rt; sink.bytes(), b"session 1\n".as_slice());
    assert_eq!(rt; write_all(&mut sink, &text[10..]), Ok(()));
    assert_eq!(rt; sink.flush(), Ok(()));
    assert_eq!(rt; sink.bytes(), text);
    Ok(())
}

#[test]
fn a_sink_is_full(rt: HostRuntime) -> Result<(), Fail> {
    let alloc = rt.alloc();
    let mut sink = MemSink::new(alloc, 3, 2, Vec::new(alloc))?;
    assert_eq!(rt; write_all(&mut sink, b"abcd"), Err(Failed));
    assert_eq!(rt; sink.bytes(), b"abc".as_slice());
    assert_eq!(rt; sink.write(b""), Ok(0));
    Ok(())
}

#[test]
fn a_sink_that_cannot_flush(rt: HostRuntime) -> Result<(), Fail> {
    let alloc = rt.alloc();
    let mut sink = MemSink::new(alloc, 9, 9, Vec::new(alloc))?;
    assert_eq!(rt; sink.flush(), Ok(()));
    sink.fail_flush();
    assert_eq!(rt; write_all(&mut sink, b"session 1"), Ok(()));
    assert_eq!(rt; sink.flush(), Err(Failed));
    assert_eq!(rt; sink.bytes(), b"session 1".as_slice());
    Ok(())
}

#[test]
fn streams_of_the_system(rt: HostRuntime) -> Result<(), Fail> {
    let mut source = StdSource::new(FailsOnce { has_failed: false });
    let mut buf = [0; 4];
    assert_eq!(rt; source.read(&mut buf), Err(Failed));
    assert_eq!(rt; source.read(&mut buf), Ok(1));
    assert_eq!(rt; buf[0], b'x');
    let mut sink = StdSink::new(TakesNothing);
    assert_eq!(rt; sink.write(b"a"), Err(Failed));
    assert_eq!(rt; sink.write(b""), Ok(0));
    assert_eq!(rt; sink.flush(), Err(Failed));
    let _ = StdSource::new(rt.stdin());
    assert_eq!(rt; write_all(&mut StdSink::new(rt.stdout()), b""), Ok(()));
    assert_eq!(rt; StdSink::new(rt.stderr()).flush(), Ok(()));
    Ok(())
}

#[test]
fn a_writer_that_fails(rt: HostRuntime) {
    let mut sink = StdSink::new(FailsAlways);
    assert_eq!(rt; sink.write(b"a"), Err(Failed));
    assert_eq!(rt; sink.write(b""), Err(Failed));
    assert_eq!(rt; write_all(&mut sink, b"session 1"), Err(Failed));
    assert_eq!(rt; sink.flush(), Err(Failed));
}

/// Reads this many bytes in steps of this size; how many came.
fn length_read(alloc: Global, size: usize, step: usize) -> Result<usize, ReadAllFault>
    requires step { step ≢ 0 }
    requires limit { size < 2 ^ 64 - 1 }
{
    let mut source = MemSource::new(vec![in alloc; b'#'; size]?, step, Vec::new(alloc));
    Ok(read_all(alloc, &mut source, size)?.len())
}

#[test]
fn the_longest_input_by_large_steps(rt: HostRuntime) {
    assert!(rt; matches!(length_read(rt.alloc(), 16_777_216, 65_536), Ok(16_777_216)));
}

#[test]
fn a_long_input_by_single_bytes(rt: HostRuntime) {
    assert!(rt; matches!(length_read(rt.alloc(), 1_048_576, 1), Ok(1_048_576)));
}
