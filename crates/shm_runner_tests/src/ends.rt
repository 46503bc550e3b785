//! Readers and writers that fail, are interrupted, or transfer single bytes; and the texts and statuses of
//! faults.
use shm_pager::RamPager;
use shm_program::RunFault;
use shm_runner::run_serial;
use shm_threads::RunError;
use std::alloc::Global;
use std::io::{self, ErrorKind, Read, Write};
use std::test::Fail;

pub(crate) const SCRIPT: &[u8] = b"\
limits 65536 16 64 4 1\n\
process 1 100 100\n\
1 s = shmget private 8192 600\n\
1 a = shmat s null -\n\
1 store a+4094 01020304\n\
1 load a+4093 6\n";

pub(crate) const OUTPUT: &[u8] = b"\
1 1 shmget 0x00000000 8192 600 = 0\n\
2 1 shmat 0 null - = 0x40000000\n\
3 1 store 0x40000ffe 01020304 = ok\n\
4 1 load 0x40000ffd 6 = 000102030400\n\
key        shmid      owner      perms      bytes      nattch     status\n\
0x00000000 0          100        600        8192       1          -\n\
usage events 4 segments 1 reserved 2 locked 0\n\
usage frames 2/4 dirty 2 slots 0/64\n\
usage in 0 out 0 failures 0\n";

/// Gives this many bytes at each read, and fails at one of them, counted from 1.
#[derive(Drop)]
pub(crate) struct Source {
    rest: &'static [u8],
    most: usize,
    asks: u32,
    fails: u32,
    kind: ErrorKind,
}

pub(crate) fn reader(most: usize, fails: u32) -> Source {
    Source {
        rest: SCRIPT,
        most,
        asks: 0,
        fails,
        kind: ErrorKind::Other,
    }
}

impl Read for Source {
    fn read(&mut self, buf: &mut [u8]) -> io::Result<usize> {
        self.asks = self.asks.saturating_add(1);
        if self.asks == self.fails {
            return Err(io::Error::from(self.kind));
        }
        let rest = self.rest;
        let count = rest.len().min(buf.len()).min(self.most);
        let (now, later) = rest.split_at(count);
        buf[..count].copy_from_slice(now);
        self.rest = later;
        Ok(count)
    }
}

/// A reader that is always interrupted.
#[derive(Drop)]
struct Restless {
    asks: u32,
}

impl Read for Restless {
    fn read(&mut self, _buf: &mut [u8]) -> io::Result<usize> {
        self.asks = self.asks.saturating_add(1);
        Err(io::Error::from(ErrorKind::Interrupted))
    }
}

/// Takes this many bytes at each write, and fails at one of them, counted from 1.
#[derive(Drop)]
pub(crate) struct Sink {
    pub(crate) taken: Vec<u8>,
    most: usize,
    writes: u32,
    fails: u32,
    kind: ErrorKind,
}

pub(crate) fn writer(alloc: Global, most: usize, fails: u32, kind: ErrorKind) -> Sink {
    Sink {
        taken: Vec::new(alloc),
        most,
        writes: 0,
        fails,
        kind,
    }
}

impl Write for Sink {
    fn write(&mut self, buf: &[u8]) -> io::Result<usize> {
        self.writes = self.writes.saturating_add(1);
        if self.writes == self.fails {
            return Err(io::Error::from(self.kind));
        }
        let count = buf.len().min(self.most);
        if self.taken.extend_from_slice(&buf[..count]).is_err() {
            return Err(io::Error::from(ErrorKind::OutOfMemory));
        }
        Ok(count)
    }

    fn flush(&mut self) -> io::Result<()> {
        Ok(())
    }
}

pub(crate) fn run<R: Read>(
    alloc: Global,
    reader: &mut R,
    writer: &mut Sink,
    areas: usize,
) -> Result<Option<RunFault>, Fail> {
    let mut pagers = Vec::new(alloc);
    for _ in 0..areas {
        pagers.push(RamPager::new(alloc, 64)?)?;
    }
    Ok(run_serial(alloc, reader, writer, pagers).err())
}

#[test]
fn byte_by_byte(rt: HostRuntime) -> Result<(), Fail> {
    let alloc = rt.alloc();
    for most in [1, 7, 4096] {
        let mut taker = writer(alloc, most, 0, ErrorKind::Other);
        assert!(rt; run(alloc, &mut reader(most, 0), &mut taker, 1)?.is_none());
        assert!(rt; taker.taken.as_slice() == OUTPUT, "at {most}");
    }
    Ok(())
}

#[test]
fn failing_reads(rt: HostRuntime) -> Result<(), Fail> {
    let alloc = rt.alloc();
    // 6 reads of 25 bytes for the 132 of the script, and one that finds its end
    for fails in 1..=7 {
        let mut taker = writer(alloc, 4096, 0, ErrorKind::Other);
        let fault = run(alloc, &mut reader(25, fails), &mut taker, 1)?;
        assert!(rt; fault == Some(RunFault::ReadFailed), "at {fails}");
        assert!(rt; taker.taken.is_empty());
    }
    let mut taker = writer(alloc, 4096, 0, ErrorKind::Other);
    assert!(rt; run(alloc, &mut reader(25, 8), &mut taker, 1)?.is_none());
    let mut would_block = Source {
        kind: ErrorKind::WouldBlock,
        ..reader(25, 2)
    };
    let fault = run(alloc, &mut would_block, &mut taker, 1)?;
    assert!(rt;
        fault == Some(RunFault::ReadFailed),
        "a reader that would block"
    );
    assert!(rt; would_block.asks == 2, "asked once more");
    Ok(())
}

#[test]
fn interrupted_reads(rt: HostRuntime) -> Result<(), Fail> {
    let alloc = rt.alloc();
    let mut taker = writer(alloc, 4096, 0, ErrorKind::Other);
    let mut once = reader(25, 3);
    once.kind = ErrorKind::Interrupted;
    assert!(rt; run(alloc, &mut once, &mut taker, 1)?.is_none());
    assert!(rt; taker.taken.as_slice() == OUTPUT);
    let mut taker = writer(alloc, 4096, 0, ErrorKind::Other);
    let mut always = Restless { asks: 0 };
    assert!(rt; run(alloc, &mut always, &mut taker, 1)? == Some(RunFault::ReadFailed));
    assert_eq!(rt; always.asks, 2097152);
    assert!(rt; taker.taken.is_empty());
    Ok(())
}

#[test]
fn failing_writes(rt: HostRuntime) -> Result<(), Fail> {
    let alloc = rt.alloc();
    for kind in [ErrorKind::Other, ErrorKind::Interrupted] {
        for fails in 1..=3 {
            let mut taker = writer(alloc, 50, fails, kind);
            let fault = run(alloc, &mut reader(4096, 0), &mut taker, 1)?;
            assert!(rt; fault == Some(RunFault::WriteFailed), "at {fails}");
        }
    }
    let mut taker = writer(alloc, 0, 0, ErrorKind::Other);
    assert!(rt; run(alloc, &mut reader(4096, 0), &mut taker, 1)? == Some(RunFault::WriteFailed));
    Ok(())
}

#[test]
fn refused_starts(rt: HostRuntime) -> Result<(), Fail> {
    let alloc = rt.alloc();
    for areas in [0, 9] {
        let mut taker = writer(alloc, 4096, 0, ErrorKind::Other);
        let fault = run(alloc, &mut reader(4096, 0), &mut taker, areas)?;
        assert!(rt; fault == Some(RunFault::StartRefused(1)), "at {areas}");
        assert!(rt; taker.taken.is_empty());
    }
    Ok(())
}

#[test]
fn texts_of_ended_runs(rt: HostRuntime) -> Result<(), Fail> {
    let alloc = rt.alloc();
    for (error, text) in [
        (RunError::HostMemory, "out of memory"),
        (RunError::GateExpired { pid: 7 }, "gate expired 7"),
        (RunError::HistoryMismatch { pid: 0 }, "history mismatch 0"),
        (RunError::ThreadRefused, "thread refused"),
    ] {
        assert!(rt; format!(in alloc; "{error}")?.as_str() == text, "{text}");
    }
    Ok(())
}
