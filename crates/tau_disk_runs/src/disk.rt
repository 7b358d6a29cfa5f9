//! Disks, sources and sinks in memory, and streams of the system.
use crate::acts::{Act, do_acts, does};
use std::alloc::Global;
use std::io;
use std::io::{ErrorKind, Read, Write};
use std::process::Abort;
use std::test::*;
use tau_disk::{
    Disk, Gate, MemDisk, MemSink, MemSource, Place, Quiet, ReadSource, Sink, Source, Tear,
    WriteSink, write_durably,
};

/// What is done with a disk in memory, and what must come of it.
#[derive(Clone, Copy)]
enum Step {
    Acts(Act),
    /// A stop now leaves this of the disk.
    Leaves(Tear, &'static [u8]),
    /// These bytes are put at the end of the disk, which has 7 bytes, durably.
    Lengthens(&'static [u8]),
}

/// What a stop now leaves of the disk.
fn leaves(rt: &impl Abort, disk: &MemDisk, tear: Tear, bytes: &[u8]) -> Result<(), Fail> {
    assert_eq!(rt; disk.image(tear)?.as_slice(), bytes);
    Ok(())
}

/// Puts bytes at the end of a disk of 7 bytes, durably.
fn lengthen(rt: &impl Abort, disk: &mut MemDisk, bytes: &[u8]) -> Result<(), Fail> {
    let len = disk.len()?;
    assert!(rt; len == 7 && bytes.len() < 10);
    write_durably(disk, 7, bytes)?;
    Ok(())
}

fn take(rt: &impl Abort, disk: &mut MemDisk, step: &Step) -> Result<(), Fail> {
    match step {
        Step::Acts(act) => {
            does(rt, disk, act);
            Ok(())
        }
        Step::Leaves(tear, bytes) => leaves(rt, disk, *tear, bytes),
        Step::Lengthens(bytes) => lengthen(rt, disk, bytes),
    }
}

/// Goes through the steps, after which the disk has had so many calls, and all the memory that it asked for.
fn goes(rt: &impl Abort, mut disk: MemDisk, steps: &[Step], calls: u64) -> Result<(), Fail> {
    for step in steps {
        take(rt, &mut disk, step)?;
    }
    assert!(rt; disk.calls() == calls && !disk.short());
    Ok(())
}

/// A disk of `abcdefg`, in which `XY` stands at 2 since its last sync.
fn unsynced(rt: &impl Abort, alloc: Global) -> Result<MemDisk, Fail> {
    let mut disk = MemDisk::of_image(alloc, b"abcd")?;
    disk.write_at(4, b"efg")?;
    disk.sync()?;
    disk.write_at(2, b"XY")?;
    let mut read = [0u8; 2];
    disk.read_at(2, &mut read)?;
    assert_eq!(rt; &read, b"XY");
    Ok(disk)
}

static STOPS: [Step; 6] = [
    Step::Leaves(Tear::Old, b"abcdefg"),
    Step::Leaves(Tear::New, b"abXYefg"),
    Step::Leaves(Tear::Torn, b"ab\x07\x07efg"),
    Step::Lengthens(b"hi"),
    Step::Leaves(Tear::Old, b"abXYefghi"),
    Step::Leaves(Tear::Torn, b"abXYefghi"),
];

#[test]
fn images_of_a_stop(rt: HostRuntime) -> Result<(), Fail> {
    let disk = unsynced(&rt, rt.alloc())?;
    goes(&rt, disk, &STOPS, 7)
}

static LISTED: [Step; 6] = [
    Step::Acts(Act::Len(Some(0))),
    Step::Acts(Act::Writes(b"ab", false)),
    Step::Leaves(Tear::New, b""),
    Step::Acts(Act::Len(Some(0))),
    Step::Acts(Act::Syncs(false)),
    Step::Acts(Act::Syncs(true)),
];

#[test]
fn listed_calls_fail(rt: HostRuntime) -> Result<(), Fail> {
    let disk = MemDisk::new(rt.alloc(), &[2, 4])?;
    goes(&rt, disk, &LISTED, 5)
}

static FROM_A_STOP: [Step; 6] = [
    Step::Acts(Act::Writes(b"ab", true)),
    Step::Acts(Act::Writes(b"xyz", false)),
    Step::Leaves(Tear::Old, b""),
    Step::Leaves(Tear::New, b"xyz"),
    Step::Leaves(Tear::Torn, b"\x07\x07\x07"),
    Step::Acts(Act::Len(None)),
];

#[test]
fn all_calls_fail_from_a_stop_on(rt: HostRuntime) -> Result<(), Fail> {
    let disk = MemDisk::stopping(rt.alloc(), 2, true)?;
    goes(&rt, disk, &FROM_A_STOP, 3)
}

/// How many bytes a source gives, if the call does not fail.
fn read<S: Source>(rt: &impl Abort, source: &mut S, buf: &mut [u8]) -> Option<usize> {
    assert!(rt; !buf.is_empty());
    source.read(buf).ok()
}

/// How many bytes each call of a source gives, if it does not fail, and what the bytes then are.
fn gives<S: Source>(
    rt: &impl Abort,
    source: &mut S,
    buf: &mut [u8],
    calls: &[(Option<usize>, &[u8])],
) {
    for (given, bytes) in calls {
        let had = read(rt, source, buf);
        assert!(rt; had == *given && *buf == **bytes, "{had:?}");
    }
}

/// How many bytes a sink takes, if the call does not fail.
fn write<S: Sink>(rt: &impl Abort, sink: &mut S, bytes: &[u8]) -> Option<usize> {
    assert!(rt; !bytes.is_empty());
    sink.write(bytes).ok()
}

/// What each call of a sink is given, and how many bytes it takes, if it does not fail.
fn takes<S: Sink>(rt: &impl Abort, sink: &mut S, calls: &[(&[u8], Option<usize>)]) {
    for (bytes, taken) in calls {
        let had = write(rt, sink, bytes);
        assert!(rt; had == *taken, "{had:?}");
    }
}

static READS: [(Option<usize>, &[u8]); 4] = [
    (Some(2), b"ab"),
    (None, b"ab"),
    (Some(1), b"cb"),
    (Some(0), b"cb"),
];

#[test]
fn memory_sources(rt: HostRuntime) -> Result<(), Fail> {
    let mut source = MemSource::new(rt.alloc(), b"abc", &[2])?;
    gives(&rt, &mut source, &mut [0u8; 2], &READS);
    Ok(())
}

/// The sink holds these bytes, and was given all memory that it asked for.
fn holds(rt: &impl Abort, sink: &MemSink, bytes: &[u8]) {
    assert!(rt; sink.bytes() == bytes && !sink.short());
}

static WRITES: [(&[u8], Option<usize>); 3] = [(b"ab", Some(2)), (b"xy", None), (b"c", Some(1))];

#[test]
fn memory_sinks(rt: HostRuntime) -> Result<(), Fail> {
    let mut sink = MemSink::new(rt.alloc(), &[2])?;
    takes(&rt, &mut sink, &WRITES);
    holds(&rt, &sink, b"abc");
    Ok(())
}

// Gives or takes one byte, then fails, then nothing.
#[derive(Drop)]
struct Flaky {
    calls: u8,
}

impl Read for Flaky {
    fn read(&mut self, buf: &mut [u8]) -> io::Result<usize> {
        let call = self.calls;
        self.calls = call.saturating_add(1);
        match call {
            0 => Ok(buf.len().min(1)),
            1 => Err(io::Error::from(ErrorKind::UnexpectedEof)),
            _ => Ok(0),
        }
    }
}

impl Write for Flaky {
    fn write(&mut self, buf: &[u8]) -> io::Result<usize> {
        let call = self.calls;
        self.calls = call.saturating_add(1);
        match call {
            0 => Ok(buf.len().min(1)),
            1 => Err(io::Error::from(ErrorKind::UnexpectedEof)),
            _ => Ok(0),
        }
    }

    fn flush(&mut self) -> io::Result<()> {
        Ok(())
    }
}

static FLAKY_READS: [(Option<usize>, &[u8]); 3] = [
    (Some(1), &[0; 4]),
    (None, &[0; 4]),
    (Some(0), &[0; 4]),
];

static FLAKY_WRITES: [(&[u8], Option<usize>); 3] = [(b"ab", Some(1)), (b"b", None), (b"b", None)];

#[test]
fn streams_of_the_system_fail_in_mid_stream(rt: HostRuntime) {
    let mut source = ReadSource::new(Flaky { calls: 0 });
    gives(&rt, &mut source, &mut [0u8; 4], &FLAKY_READS);
    let mut sink = WriteSink::new(Flaky { calls: 0 });
    takes(&rt, &mut sink, &FLAKY_WRITES);
}

#[test]
fn quiet_gate_holds_nothing(_rt: HostRuntime) {
    Quiet.at(Place::Flush { stream: 0 });
}

#[derive(Drop)]
struct Interrupted {
    calls: u8,
}

impl Read for Interrupted {
    fn read(&mut self, buf: &mut [u8]) -> io::Result<usize> {
        let call = self.calls;
        self.calls = call.saturating_add(1);
        match call {
            2 => Ok(buf.len().min(3)),
            4 => Err(io::Error::from(ErrorKind::UnexpectedEof)),
            6 => Ok(0),
            _ => Err(io::Error::from(ErrorKind::Interrupted)),
        }
    }
}

impl Write for Interrupted {
    fn write(&mut self, buf: &[u8]) -> io::Result<usize> {
        let call = self.calls;
        self.calls = call.saturating_add(1);
        match call {
            2 => Ok(buf.len().min(3)),
            4 => Err(io::Error::from(ErrorKind::UnexpectedEof)),
            6 => Ok(0),
            _ => Err(io::Error::from(ErrorKind::Interrupted)),
        }
    }

    fn flush(&mut self) -> io::Result<()> {
        Ok(())
    }
}

static READS_AGAIN: [(Option<usize>, &[u8]); 3] = [
    (Some(3), &[0; 4]),
    (None, &[0; 4]),
    (Some(0), &[0; 4]),
];

static WRITES_AGAIN: [(&[u8], Option<usize>); 3] = [(b"abcd", Some(3)), (b"d", None), (b"d", None)];

#[test]
fn an_interrupted_call_is_tried_again(rt: HostRuntime) {
    let mut source = ReadSource::new(Interrupted { calls: 0 });
    gives(&rt, &mut source, &mut [0u8; 4], &READS_AGAIN);
    let mut sink = WriteSink::new(Interrupted { calls: 0 });
    takes(&rt, &mut sink, &WRITES_AGAIN);
}
