// The adapters over readers and writers that are slow, that give or take nothing, and that fail once.
use crate::sources::{gives, three_lines};
use outside::{Failed, ReadFrom, Sink, TakeFault, WriteTo, put, take};
use std::alloc::Global;
use std::io;
use std::io::{ErrorKind, Read, Write};
use std::process::Abort;
use std::test::Fail;

// Gives one byte a call, and fails at one of them (0: at none).
#[derive(Drop)]
struct SlowReader<'a> {
    left: &'a [u8],
    calls: u64,
    failing: u64,
}

impl<'a> Read for SlowReader<'a> {
    fn read(&mut self, buf: &mut [u8]) -> io::Result<usize> {
        self.calls = self.calls.saturating_add(1);
        if self.calls == self.failing {
            return Err(io::Error::from(ErrorKind::Other));
        }
        let count = buf.len().min(self.left.len()).min(1);
        let (front, rest) = self.left.split_at(count);
        buf[..count].copy_from_slice(front);
        self.left = rest;
        Ok(count)
    }
}

// Takes at most so many bytes a call, and fails at one write and at one flush (0: at none).
#[derive(Drop)]
struct SlowWriter {
    taken: Vec<u8>,
    most: usize,
    writes: u64,
    failing_write: u64,
    flushes: u64,
    failing_flush: u64,
}

impl Write for SlowWriter {
    fn write(&mut self, buf: &[u8]) -> io::Result<usize> {
        self.writes = self.writes.saturating_add(1);
        if self.writes == self.failing_write {
            return Err(io::Error::from(ErrorKind::Other));
        }
        let count = buf.len().min(self.most);
        self.taken.extend_from_slice(&buf[..count])?;
        Ok(count)
    }

    fn flush(&mut self) -> io::Result<()> {
        self.flushes = self.flushes.saturating_add(1);
        if self.flushes == self.failing_flush {
            return Err(io::Error::from(ErrorKind::Other));
        }
        Ok(())
    }
}

fn reader(failing: u64) -> SlowReader<'static> {
    SlowReader {
        left: three_lines(),
        calls: 0,
        failing,
    }
}

fn writer(alloc: Global, most: usize, failing_write: u64, failing_flush: u64) -> SlowWriter {
    SlowWriter {
        taken: Vec::new(alloc),
        most,
        writes: 0,
        failing_write,
        flushes: 0,
        failing_flush,
    }
}

#[test]
fn reads_a_byte_at_a_time(rt: HostRuntime) -> Result<(), Fail> {
    let alloc = rt.alloc();
    let mut source = ReadFrom::new(reader(0));
    gives(&rt, alloc, &mut source, 100, three_lines())?;
    gives(&rt, alloc, &mut source, 100, b"")?;
    gives(&rt, alloc, &mut ReadFrom::new(io::empty()), 100, b"")
}

// A read that fails once is a fault, whatever was read before it, and what is left is given by the next calls.
fn fails_once(rt: &impl Abort, alloc: Global, failing: u64, left: &[u8]) -> Result<(), Fail> {
    let mut source = ReadFrom::new(reader(failing));
    assert!(rt;
        matches!(take(alloc, &mut source, 100), Err(TakeFault::Failed)),
        "at {failing}"
    );
    gives(rt, alloc, &mut source, 100, left)
}

#[test]
fn each_failed_read_is_a_fault(rt: HostRuntime) -> Result<(), Fail> {
    let alloc = rt.alloc();
    fails_once(&rt, alloc, 1, three_lines())?;
    fails_once(&rt, alloc, 3, b"eld 3\nrank 2\nsize 2\n")?;
    fails_once(&rt, alloc, 22, b"\n")?;
    fails_once(&rt, alloc, 23, b"")
}

#[test]
fn writes_a_byte_at_a_time(rt: HostRuntime) -> Result<(), Fail> {
    let mut slow = writer(rt.alloc(), 1, 0, 0);
    assert_eq!(rt; put(&mut WriteTo::new(&mut slow), three_lines()), Ok(()));
    assert_eq!(rt; slow.taken.as_slice(), three_lines());
    assert_eq!(rt; (slow.writes, slow.flushes), (22, 22));
    Ok(())
}

// A writer that takes none of a piece is a fault, and not tried again. An empty piece isn't passed on.
#[test]
fn to_take_nothing_is_a_fault(rt: HostRuntime) -> Result<(), Fail> {
    let mut full = writer(rt.alloc(), 0, 0, 0);
    let mut sink = WriteTo::new(&mut full);
    assert_eq!(rt; sink.write(b""), Ok(0));
    assert_eq!(rt; sink.write(three_lines()), Err(Failed));
    assert_eq!(rt; put(&mut sink, b""), Ok(()));
    assert_eq!(rt; put(&mut sink, three_lines()), Err(Failed));
    assert_eq!(rt; (full.writes, full.flushes), (2, 0));
    Ok(())
}

// The writer fails at one write and at one flush (0: at none), and has taken so many bytes before.
fn fails_to_put(
    rt: &impl Abort,
    alloc: Global,
    write: u64,
    flush: u64,
    taken: usize,
) -> Result<(), Fail> {
    let mut slow = writer(alloc, 9, write, flush);
    let mut sink = WriteTo::new(&mut slow);
    assert_eq!(rt;
        put(&mut sink, three_lines()),
        Err(Failed),
        "at {write}, {flush}"
    );
    assert_eq!(rt; put(&mut sink, b"end\n"), Ok(()));
    let more = slow.taken.len().checked_sub(taken);
    assert_eq!(rt; more, Some(4), "at {write}, {flush}");
    Ok(())
}

#[test]
fn each_failed_write_or_flush_is_a_fault(rt: HostRuntime) -> Result<(), Fail> {
    for (write, flush, taken) in [(1, 0, 0), (2, 0, 9), (3, 0, 18), (0, 1, 9), (0, 3, 22)] {
        fails_to_put(&rt, rt.alloc(), write, flush, taken)?;
    }
    Ok(())
}
