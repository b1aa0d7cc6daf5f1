// Sources and sinks.
use crate::alone::flow;
use crate::resume::front;
use outside::{
    Failed, MemorySink, MemorySource, ReadFrom, Sink, Source, SureSink, SureSource, TakeFault,
    WriteTo, put, take,
};
use std::alloc::Global;
use std::io;
use std::io::{ErrorKind, Read, Write};
use std::process::Abort;
use std::test::Fail;
use test_support::Flow;

/// A request of three lines.
pub fn three_lines() -> &'static [u8] {
    b"field 3\nrank 2\nsize 2\n"
}

// Fails at its first call, and then passes on what the reader gives.
#[derive(Drop)]
struct FailsFirst<R> {
    inner: R,
    failed: bool,
}

impl<R: Read> Read for FailsFirst<R> {
    fn read(&mut self, buf: &mut [u8]) -> io::Result<usize> {
        if !self.failed {
            self.failed = true;
            return Err(io::Error::from(ErrorKind::WouldBlock));
        }
        self.inner.read(buf)
    }
}

// Fails at its first call, takes at most nine bytes at each other, and keeps what was flushed apart.
#[derive(Drop)]
struct Device {
    failed: bool,
    waiting: Vec<u8>,
    flushed: Vec<u8>,
}

impl Write for Device {
    fn write(&mut self, buf: &[u8]) -> io::Result<usize> {
        if !self.failed {
            self.failed = true;
            return Err(io::Error::from(ErrorKind::WouldBlock));
        }
        let count = buf.len().min(9);
        self.waiting.extend_from_slice(&buf[..count])?;
        Ok(count)
    }

    fn flush(&mut self) -> io::Result<()> {
        self.flushed.extend_from_slice(&self.waiting)?;
        self.waiting.clear();
        Ok(())
    }
}

/// The source gives these bytes, at most so many of them.
pub fn gives<S: Source>(
    rt: &impl Abort,
    alloc: Global,
    source: &mut S,
    most: u16,
    want: &[u8],
) -> Result<(), Fail> {
    let bytes = take(alloc, source, usize::from(most))?;
    assert_eq!(rt; bytes.as_slice(), want, "at most {most}");
    Ok(())
}

// Each kind of source gives these bytes of the request, at most so many of them.
fn each_gives(rt: &impl Abort, alloc: Global, most: u16, want: &[u8]) -> Result<(), Fail> {
    let text = three_lines();
    let mut sure = SureSource::new(text.to_vec(alloc)?);
    gives(rt, alloc, &mut sure, most, want)?;
    let mut slow = MemorySource::new(text.to_vec(alloc)?, 1, Vec::new(alloc));
    gives(rt, alloc, &mut slow, most, want)?;
    let mut reader = ReadFrom::new(text);
    gives(rt, alloc, &mut reader, most, want)
}

#[test]
fn takes_to_the_end_or_to_the_most(rt: HostRuntime) -> Result<(), Fail> {
    let alloc = rt.alloc();
    each_gives(&rt, alloc, 22, three_lines())?;
    each_gives(&rt, alloc, 5, b"field")?;
    each_gives(&rt, alloc, 23, three_lines())?;
    each_gives(&rt, alloc, 0, b"")
}

#[test]
fn a_failed_read_is_no_end(rt: HostRuntime) -> Result<(), Fail> {
    let alloc = rt.alloc();
    let mut slow = MemorySource::new(three_lines().to_vec(alloc)?, 1, vec![in alloc; 3]?);
    assert!(rt; matches!(take(alloc, &mut slow, 22), Err(TakeFault::Failed)));
    gives(&rt, alloc, &mut slow, 22, b"eld 3\nrank 2\nsize 2\n")?;
    let mut reader = ReadFrom::new(FailsFirst {
        inner: three_lines(),
        failed: false,
    });
    assert!(rt; matches!(take(alloc, &mut reader, 22), Err(TakeFault::Failed)));
    gives(&rt, alloc, &mut reader, 22, three_lines())
}

// A sink that takes at most so many bytes a call and fails at one holds so many of them.
fn holds(
    rt: &impl Abort,
    alloc: Global,
    flow: Flow,
    outcome: Result<(), Failed>,
    len: usize,
) -> Result<(), Fail> {
    let most = flow.most;
    let mut sink = MemorySink::new(alloc, most.max(1), vec![in alloc; flow.failing]?);
    assert_eq!(rt; put(&mut sink, three_lines()), outcome, "at {most}");
    assert_eq!(rt; sink.held(), front(rt, three_lines(), len), "at {most}");
    assert_eq!(rt; sink.refused(), 0);
    Ok(())
}

#[test]
fn puts_the_whole_or_a_front(rt: HostRuntime) -> Result<(), Fail> {
    for (most, failing, outcome, len) in [
        (7, 3, Err(Failed), 14),
        (7, 4, Err(Failed), 21),
        (7, 5, Ok(()), 22),
        (1, 1, Err(Failed), 0),
        (100, 2, Ok(()), 22),
    ] {
        holds(&rt, rt.alloc(), flow(most, failing), outcome, len)?;
    }
    let mut sure = SureSink::new();
    assert_eq!(rt; sure.write(three_lines()), Ok(22));
    assert_eq!(rt; put(&mut sure, three_lines()), Ok(()));
    Ok(())
}

#[test]
fn writes_and_flushes(rt: HostRuntime) -> Result<(), Fail> {
    let alloc = rt.alloc();
    let mut bytes: Vec<u8> = Vec::new(alloc);
    assert_eq!(rt; put(&mut WriteTo::new(&mut bytes), three_lines()), Ok(()));
    assert_eq!(rt; bytes.as_slice(), three_lines());
    let mut device = Device {
        failed: false,
        waiting: Vec::new(alloc),
        flushed: Vec::new(alloc),
    };
    let mut sink = WriteTo::new(&mut device);
    assert_eq!(rt; put(&mut sink, three_lines()), Err(Failed));
    assert_eq!(rt; put(&mut sink, three_lines()), Ok(()));
    assert_eq!(rt; device.flushed.as_slice(), three_lines());
    Ok(())
}
