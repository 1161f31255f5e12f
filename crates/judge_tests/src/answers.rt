//! Answers to the bytes of recordings, from and to devices that fail.

use crate::recordings::{MESSAGE_PASSING, STORE_BUFFERING};
use common::OpenGate;
use report::{
    Device, Failed, MemorySink, MemorySource, Outcome, ReportError, Sink, Source, answer,
};
use std::alloc::Global;
use std::io;
use std::io::{ErrorKind, Read, Write};
use std::sync::Wait;
use std::test::Fail;
use std::thread::Threads;

/// The answer to message passing.
const CYCLE: &[u8] = b"cycle of 4
0 -> 1 Po
1 -> 2 Rf
2 -> 3 Po
3 -> 0 Fr
labels 0: 0 1 2 3
labels 1: 3 0 1 2
labels 2: 2 3 0 1
labels 3: 1 2 3 0
";

/// A writer that takes this many bytes of each write, of which one is interrupted after this many in all.
#[derive(Drop)]
struct Narrow {
    width: usize,
    whole: usize,
    taken: Vec<u8>,
}

impl Write for Narrow {
    fn write(&mut self, buf: &[u8]) -> io::Result<usize> {
        if self.whole == 0 {
            self.whole = usize::MAX;
            return Err(io::Error::from(ErrorKind::Interrupted));
        }
        let n = buf.len().min(self.width).min(self.whole);
        match self.taken.extend_from_slice(&buf[..n]) {
            Ok(()) => {
                self.whole -= n;
                Ok(n)
            }
            Err(_) => Err(io::Error::from(ErrorKind::OutOfMemory)),
        }
    }

    fn flush(&mut self) -> io::Result<()> {
        Ok(())
    }
}

/// A reader of which one read is interrupted after this many bytes.
#[derive(Drop)]
struct Stutter<'a> {
    bytes: &'a [u8],
    whole: usize,
}

impl Read for Stutter<'_> {
    fn read(&mut self, buf: &mut [u8]) -> io::Result<usize> {
        if self.whole == 0 {
            self.whole = usize::MAX;
            return Err(io::Error::from(ErrorKind::Interrupted));
        }
        let room = buf.len().min(self.whole);
        let n = self.bytes.read(&mut buf[..room])?;
        self.whole -= n;
        Ok(n)
    }
}

/// Whether a read of a source fails, and leaves nothing written.
fn leaves_nothing<R: Threads + Wait + Sync, S: Source + Drop>(
    rt: &R,
    alloc: Global,
    source: S,
) -> bool {
    let mut source = source;
    let mut sink = MemorySink::new(alloc);
    let answered = answer(rt, alloc, &mut source, &mut sink, 1, &OpenGate);
    answered == Err(ReportError::ReadFailed) && sink.written_bytes().is_empty()
}

/// Whether a read that fails after any byte of a text, or is interrupted, leaves nothing written.
fn leaves_nothing_anywhere<R: Threads + Wait + Sync>(rt: &R, alloc: Global, text: &str) -> bool {
    let bytes = text.as_bytes();
    for whole in 0..=bytes.len() {
        if !leaves_nothing(rt, alloc, MemorySource::failing(bytes, whole))
            || !leaves_nothing(rt, alloc, Device::new(Stutter { bytes, whole }))
        {
            return false;
        }
    }
    true
}

#[test]
fn a_failed_read_leaves_nothing_written(rt: HostRuntime) -> Result<(), Fail> {
    assert!(rt; leaves_nothing_anywhere(&rt, rt.alloc(), MESSAGE_PASSING));
    Ok(())
}

/// Whether this is the answer to message passing where writes fail after this many bytes, which are all that is
/// written.
fn is_written<R: Threads + Wait + Sync>(
    rt: &R,
    alloc: Global,
    length: usize,
    outcome: Result<Outcome, ReportError>,
) -> bool {
    let mut source = MemorySource::new(MESSAGE_PASSING.as_bytes());
    let mut sink = MemorySink::failing(alloc, length);
    let answered = answer(rt, alloc, &mut source, &mut sink, 1, &OpenGate);
    answered == outcome && CYCLE.get(..length) == Some(sink.written_bytes())
}

#[test]
fn a_failed_write_leaves_a_beginning(rt: HostRuntime) -> Result<(), Fail> {
    for length in 0..123 {
        assert!(rt; is_written(&rt, rt.alloc(), length, Err(ReportError::WriteFailed)));
    }
    assert!(rt; is_written(&rt, rt.alloc(), 123, Ok(Outcome::Violation)));
    Ok(())
}

/// Whether a device that takes this many bytes of each write, of which one is interrupted after this many in all, is
/// answered so, and has taken these bytes.
fn is_taken<R: Threads + Wait + Sync>(
    rt: &R,
    alloc: Global,
    width: usize,
    whole: usize,
    outcome: Result<Outcome, ReportError>,
    taken: &[u8],
) -> bool {
    let mut device = Device::new(Narrow {
        width,
        whole,
        taken: Vec::new(alloc),
    });
    let mut source = MemorySource::new(MESSAGE_PASSING.as_bytes());
    let answered = answer(rt, alloc, &mut source, &mut device, 1, &OpenGate);
    device.into_inner().taken.as_slice() == taken && answered == outcome
}

#[test]
fn a_device_may_take_a_byte_at_a_time_but_not_none(rt: HostRuntime) -> Result<(), Fail> {
    assert!(rt;
        is_taken(
            &rt,
            rt.alloc(),
            1,
            usize::MAX,
            Ok(Outcome::Violation),
            CYCLE
        )
    );
    assert!(rt;
        is_taken(
            &rt,
            rt.alloc(),
            0,
            usize::MAX,
            Err(ReportError::WriteFailed),
            b""
        )
    );
    Ok(())
}

#[test]
fn an_interrupted_write_leaves_a_beginning(rt: HostRuntime) -> Result<(), Fail> {
    for whole in 0..CYCLE.len() {
        let taken = &CYCLE[..whole];
        assert!(rt;
            is_taken(
                &rt,
                rt.alloc(),
                123,
                whole,
                Err(ReportError::WriteFailed),
                taken
            )
        );
    }
    Ok(())
}

/// A writer that takes all, and hands nothing on.
#[derive(Drop)]
struct Stuck;

impl Write for Stuck {
    fn write(&mut self, buf: &[u8]) -> io::Result<usize> {
        Ok(buf.len())
    }

    fn flush(&mut self) -> io::Result<()> {
        Err(io::Error::from(ErrorKind::Interrupted))
    }
}

#[test]
fn a_device_is_flushed_by_its_writer(rt: HostRuntime) -> Result<(), Fail> {
    let mut device = Device::new(Stuck);
    assert!(rt; device.push(CYCLE) == Ok(123));
    assert!(rt; device.flush() == Err(Failed));
    Ok(())
}

/// Whether a text is refused as no JSON.
fn is_refused<R: Threads + Wait + Sync>(rt: &R, alloc: Global, text: &[u8]) -> bool {
    let mut source = MemorySource::new(text);
    let mut sink = MemorySink::new(alloc);
    let answered = answer(rt, alloc, &mut source, &mut sink, 1, &OpenGate);
    answered == Ok(Outcome::Refused) && sink.written_bytes() == b"refused: N1\n".as_slice()
}

/// Whether each text that ends before this one does is refused.
fn is_refused_before_its_end<R: Threads + Wait + Sync>(rt: &R, alloc: Global, text: &str) -> bool {
    let whole = text.as_bytes();
    for length in 0..whole.len() {
        if !is_refused(rt, alloc, &whole[..length]) {
            return false;
        }
    }
    true
}

#[test]
fn a_recording_that_ends_early_is_refused(rt: HostRuntime) -> Result<(), Fail> {
    assert!(rt; is_refused_before_its_end(&rt, rt.alloc(), STORE_BUFFERING));
    Ok(())
}
