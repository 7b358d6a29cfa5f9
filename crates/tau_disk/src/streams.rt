// A source and a sink in memory, and over std's reader and writer.
ghost use Rattle.std.specs.Prelude.{◌≡◌, ◌≢◌, ◌<◌, ◌≤◌, ◌++◌, [], drop, false, length, take, ℕ, IfOk, IfErr, OnErr};
ghost use Rattle.std.specs.IoError.{error_kind};
ghost use Rattle.tau_disk.specs.Disk.{HasCause, Moved};
ghost use Rattle.tau_disk.specs.Replay.{is_in};

use crate::memory::is_listed;
use crate::{Failed, Sink, Source};
use std::alloc::Global;
use std::io;
use std::io::{ErrorKind, Read, Write};
use tau_base::NoMemory;

/// Bytes in memory, read from the front. The calls with the numbers in its list fail, and no others.
#[derive(Drop)]
pub struct MemSource {
    bytes: Vec<u8>,
    at: usize,
    failing: Vec<u32>,
    number: u64,
    faults: u64,
    ghost within: { at ≤ length bytes.items },
}

impl MemSource {
    ghost use Rattle.tau_disk.specs.Streams.{left_of, reads_of, fails_reading};

    pub fn new(alloc: Global, bytes: &[u8], failing: &[u32]) -> Result<MemSource, NoMemory>
        ensures left { IfOk result (λ s. left_of s ≡ bytes.now) }
        ensures count { IfOk result (λ s. reads_of s ≡ 0) }
        ensures plan { IfOk result (λ s. (k : ℕ) → fails_reading s k ≡ is_in failing.now k) }
    {
        Ok(MemSource {
            bytes: bytes.to_vec(alloc)?,
            at: 0,
            failing: failing.to_vec(alloc)?,
            number: 0,
            faults: 0,
        })
    }
}

impl Source for MemSource {
    ghost use Rattle.tau_disk.specs.Streams.{left_of, ReadsAsPlanned};

    ghost tells = { Unit {0} };

    ghost left = { λ s. drop s.at s.bytes.items };

    ghost faults = { λ s. s.faults };

    fn read(&mut self, buf: &mut [u8]) -> Result<usize, Failed>
        requires { 0 < length buf.old }
        ensures bound { IfOk result (λ n. n ≤ length buf.old) }
        ensures bytes { IfOk result (λ n. Moved (left_of self.old) (left_of self.new) n (take n buf.new)) }
        ensures none { OnErr result (left_of self.new ≡ left_of self.old) }
        ensures cause { HasCause self.old.faults self.new.faults result }
        ensures plan { ReadsAsPlanned self.old self.new result }
    {
        self.number = self.number.saturating_add(1);
        if is_listed(&self.failing, self.number) {
            self.faults = self.faults.saturating_add(1);
            return Err(Failed);
        }
        let count = buf.len().min(self.bytes.len() - self.at);
        let from = self.at;
        buf[..count].copy_from_slice(&self.bytes[from..from + count]);
        self.at = from + count;
        Ok(count)
    }
}

/// Bytes in memory, written at the end. The calls with the numbers in its list fail, and else only one that runs out
/// of memory.
#[derive(Drop)]
pub struct MemSink {
    bytes: Vec<u8>,
    failing: Vec<u32>,
    number: u64,
    faults: u64,
    is_short: bool,
}

impl MemSink {
    ghost use Rattle.tau_disk.specs.Streams.{held_by, writes_of, fails_writing, is_short_sink};

    pub fn new(alloc: Global, failing: &[u32]) -> Result<MemSink, NoMemory>
        ensures empty { IfOk result (λ s. held_by s ≡ []) }
        ensures count { IfOk result (λ s. writes_of s ≡ 0) }
        ensures short { IfOk result (λ s. is_short_sink s ≡ false) }
        ensures plan { IfOk result (λ s. (k : ℕ) → fails_writing s k ≡ is_in failing.now k) }
    {
        Ok(MemSink {
            bytes: Vec::new(alloc),
            failing: failing.to_vec(alloc)?,
            number: 0,
            faults: 0,
            is_short: false,
        })
    }

    /// All that it holds.
    pub fn bytes(&self) -> &[u8]
        ensures { result.now ≡ held_by self.now }
    {
        &self.bytes
    }

    /// Whether a write was refused a growth.
    pub fn short(&self) -> bool
        ensures { result ≡ is_short_sink self.now }
    {
        self.is_short
    }
}

impl Sink for MemSink {
    ghost use Rattle.tau_disk.specs.Streams.{held_by, WritesAsPlanned};

    ghost tells = { Unit {0} };

    ghost held = { λ s. s.bytes.items };

    ghost faults = { λ s. s.faults };

    fn write(&mut self, bytes: &[u8]) -> Result<usize, Failed>
        requires { 0 < length bytes.now }
        ensures bound { IfOk result (λ n. (1 ≤ n) × (n ≤ length bytes.now)) }
        ensures bytes { IfOk result (λ n. held_by self.new ≡ held_by self.old ++ take n bytes.now) }
        ensures none { OnErr result (held_by self.new ≡ held_by self.old) }
        ensures cause { HasCause self.old.faults self.new.faults result }
        ensures plan { WritesAsPlanned self.old self.new result }
    {
        self.number = self.number.saturating_add(1);
        let is_meant = is_listed(&self.failing, self.number);
        if is_meant {
            self.faults = self.faults.saturating_add(1);
            return Err(Failed);
        }
        match self.bytes.extend_from_slice(bytes) {
            Ok(()) => Ok(bytes.len()),
            Err(_) => {
                self.is_short = true;
                self.faults = self.faults.saturating_add(1);
                Err(Failed)
            }
        }
    }
}

// One read, tried again if it was interrupted.
fn read_again<R: Read>(reader: &mut R, buf: &mut [u8]) -> io::Result<usize>
    ensures bound { IfOk result (λ n. n ≤ length buf.old) }
    ensures again { IfErr result (λ e. error_kind e ≢ ErrorKind.Interrupted) }
{
    for _ in 0..u64::MAX {
        match reader.read(buf) {
            Ok(count) => return Ok(count),
            Err(error) => {
                if error.kind() != ErrorKind::Interrupted {
                    return Err(error);
                }
            }
        }
    }
    Err(io::Error::from(ErrorKind::TimedOut))
}

/// Any reader of std. A read that was interrupted is tried again. It tells nothing.
#[derive(Drop)]
pub struct ReadSource<R: Read> {
    inner: R,
    faults: u64,
}

impl<R: Read> ReadSource<R> {
    pub fn new(inner: R) -> ReadSource<R> {
        ReadSource { inner, faults: 0 }
    }
}

impl<R: Read> Source for ReadSource<R> {
    ghost tells = { ⊥ };

    ghost left = { λ _. [] };

    ghost faults = { λ s. s.faults };

    fn read(&mut self, buf: &mut [u8]) -> Result<usize, Failed> {
        match read_again(&mut self.inner, buf) {
            Ok(count) => Ok(count),
            Err(_) => {
                self.faults = self.faults.saturating_add(1);
                Err(Failed)
            }
        }
    }
}

// One write, tried again if it was interrupted.
fn write_again<W: Write>(writer: &mut W, bytes: &[u8]) -> io::Result<usize>
    ensures bound { IfOk result (λ n. n ≤ length bytes.now) }
    ensures again { IfErr result (λ e. error_kind e ≢ ErrorKind.Interrupted) }
{
    for _ in 0..u64::MAX {
        match writer.write(bytes) {
            Ok(count) => return Ok(count),
            Err(fault) => {
                if fault.kind() != ErrorKind::Interrupted {
                    return Err(fault);
                }
            }
        }
    }
    Err(io::Error::from(ErrorKind::TimedOut))
}

/// Any writer of std. A write that was interrupted is tried again, and one that takes nothing is a failure. It tells
/// nothing.
#[derive(Drop)]
pub struct WriteSink<W: Write> {
    inner: W,
    faults: u64,
}

impl<W: Write> WriteSink<W> {
    pub fn new(inner: W) -> WriteSink<W> {
        WriteSink { inner, faults: 0 }
    }
}

impl<W: Write> Sink for WriteSink<W> {
    ghost tells = { ⊥ };

    ghost held = { λ _. [] };

    ghost faults = { λ s. s.faults };

    fn write(&mut self, bytes: &[u8]) -> Result<usize, Failed> {
        match write_again(&mut self.inner, bytes) {
            Ok(0) => {
                self.faults = self.faults.saturating_add(1);
                Err(Failed)
            }
            Ok(count) => Ok(count),
            Err(_) => {
                self.faults = self.faults.saturating_add(1);
                Err(Failed)
            }
        }
    }
}
