use crate::comparing::equal;
use std::alloc::{AllocError, Global};
use std::io;
use std::io::{ErrorKind, Read};
use std::process::Abort;
use std::test::Fail;
use streams::{
    Failed, MemSink, MemSource, ReadError, Sink, Source, StdSink, StdSource, WriteError, read_all,
    write_all,
};

/// A reader that a signal interrupts once, then gives one byte, and then fails.
#[derive(Drop)]
struct Unsteady {
    calls: u8,
}

impl Read for Unsteady {
    fn read(&mut self, into: &mut [u8]) -> io::Result<usize> {
        let call = self.calls;
        self.calls = call.saturating_add(1);
        match (call, into) {
            (0, _) => Err(ErrorKind::Interrupted.into()),
            (1, [first, ..]) => {
                *first = 7;
                Ok(1)
            }
            _ => Err(ErrorKind::Other.into()),
        }
    }
}

/// A limit, the call that fails, the error, how many bytes are left, and how many calls failed.
type Reading = (usize, u64, Option<ReadError>, usize, u64);

const READINGS: &[Reading] = &[
    (3, 9, None, 0, 0),
    (usize::MAX, 9, None, 0, 0),
    (2, 9, Some(ReadError::TooLong), 0, 0),
    (0, 9, Some(ReadError::TooLong), 2, 0),
    (3, 0, Some(ReadError::Fault), 3, 1),
    (3, 1, Some(ReadError::Fault), 0, 1),
];

/// Three bytes, of which the call of this number fails.
fn three_bytes(alloc: Global, failing: u64) -> Result<MemSource, AllocError> {
    Ok(MemSource::new([1, 2, 3].to_vec(alloc)?, [failing].to_vec(alloc)?))
}

/// The error of the reading, where it has one; else all three bytes were read.
fn error_of(
    rt: &impl Abort,
    alloc: Global,
    source: &mut MemSource,
    limit: usize,
) -> Option<ReadError> {
    match read_all(alloc, source, limit) {
        Ok(bytes) => {
            equal(rt, bytes.as_slice(), [1, 2, 3].as_slice());
            None
        }
        Err(error) => Some(error),
    }
}

/// The bytes are read up to the limit.
fn reads(rt: &impl Abort, alloc: Global, reading: Reading) -> Result<(), AllocError> {
    let (limit, failing, _, _, _) = reading;
    let mut source = three_bytes(alloc, failing)?;
    let error = error_of(rt, alloc, &mut source, limit);
    let found = (limit, failing, error, source.left().len(), source.faults());
    equal(rt, found, reading);
    Ok(())
}

#[test]
fn reads_up_to_the_limit(rt: HostRuntime) -> Result<(), Fail> {
    for reading in READINGS {
        reads(&rt, rt.alloc(), *reading)?;
    }
    Ok(())
}

#[test]
fn no_bytes_are_read(rt: HostRuntime) -> Result<(), Fail> {
    let alloc = rt.alloc();
    let mut empty = MemSource::new(Vec::new(alloc), Vec::new(alloc));
    let bytes = read_all(alloc, &mut empty, 0)?;
    equal(&rt, (bytes.len(), empty.calls()), (0, 1));
    Ok(())
}

#[test]
fn many_bytes_are_read(rt: HostRuntime) -> Result<(), Fail> {
    let alloc = rt.alloc();
    let mut large = MemSource::new(vec![in alloc; 5u8; 200_000]?, Vec::new(alloc));
    let bytes = read_all(alloc, &mut large, 1 << 26)?;
    let fives = bytes.iter().filter(|byte| **byte == 5).count();
    equal(&rt, (bytes.len(), fives), (200_000, 200_000));
    Ok(())
}

#[test]
fn listed_reads_fail(rt: HostRuntime) -> Result<(), Fail> {
    let mut source = three_bytes(rt.alloc(), 1)?;
    let mut piece = [0; 2];
    for wanted in [Ok(2), Err(Failed), Ok(1), Ok(0)] {
        equal(&rt, source.read(&mut piece), wanted);
    }
    equal(&rt, piece, [3, 2]);
    Ok(())
}

#[test]
fn listed_writes_fail(rt: HostRuntime) -> Result<(), Fail> {
    let alloc = rt.alloc();
    let mut sink = MemSink::new(alloc, [1].to_vec(alloc)?);
    equal(&rt, write_all(&mut sink, b"ab"), Ok(()));
    equal(&rt, write_all(&mut sink, b"cd"), Err(WriteError::Fault));
    equal(&rt, sink.write(b"ef"), Ok(2));
    equal(
        &rt,
        (sink.taken(), sink.calls(), sink.faults()),
        (b"abef".as_slice(), 3, 1),
    );
    Ok(())
}

#[test]
fn readers_are_adapted(rt: HostRuntime) -> Result<(), Fail> {
    let mut source = StdSource::new(b"solve".as_slice());
    let bytes = read_all(rt.alloc(), &mut source, 5)?;
    equal(
        &rt,
        (bytes.as_slice(), source.faults()),
        (b"solve".as_slice(), 0),
    );
    let mut unsteady = StdSource::new(Unsteady { calls: 0 });
    let mut piece = [0; 2];
    equal(&rt, unsteady.read(&mut piece), Ok(1));
    equal(&rt, unsteady.read(&mut piece), Err(Failed));
    equal(&rt, unsteady.faults(), 1);
    Ok(())
}

#[test]
fn writers_are_adapted(rt: HostRuntime) -> Result<(), Fail> {
    let mut room = [0; 2];
    let mut sink = StdSink::new(room.as_mut_slice());
    let error = write_all(&mut sink, b"abc");
    equal(
        &rt,
        (error, sink.faults(), sink.idle()),
        (Err(WriteError::Stuck), 0, 1),
    );
    Ok(())
}
