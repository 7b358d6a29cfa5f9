//! Why a run cannot go on from a log.
ghost use Rattle.std.specs.Prelude.{◌≡◌, ◌≤◌, ◌+◌, ℕ, List, [], length, Option, Some, None, drop, nat_lt};
ghost use Rattle.tau_base.specs.declared.limits.TheConstants.{MAX_CATALOGUE, MAX_STREAMS};
ghost use Rattle.tau_record.specs.Content.{anchors_of, named_after};
ghost use Rattle.tau_epoch.specs.Epochs.{largest};
ghost use Rattle.tau_scan.specs.declared.fault.LogFault.{LogFault};
ghost use Rattle.tau_scan.specs.Begins.{begins_fault, declared_fault, if_declared, is_long, largest_with, last_fault, long_fault};
ghost use Rattle.tau_scan.specs.Epochs.{mark_of, marks_in, marks_from};
ghost use Rattle.tau_scan.specs.Reading.{or_else};

use crate::catalogue::alike;
use crate::epochs::lowest_with;
use crate::fault::{LogCause, LogFault};
use crate::log::Log;
use crate::records::catalogue_text;
use tau_base::{LAST_EPOCH, Listed, MAX_ANCHORS, MAX_IMAGE};
use tau_record::{Entry, Placed};

/// The larger one of a number and that of the epoch that the record begins, if it does.
fn largest_at(entry: &Entry, found: u32) -> u32
    ensures { result ≡ largest_with (mark_of entry.now) found }
{
    match entry {
        Entry::Written { .. } => found,
        Entry::Command { .. } => found,
        Entry::Anchor { .. } => found,
        Entry::Catalogue { .. } => found,
        Entry::Epoch { number, .. } => (*number).max(found),
    }
}

/// The largest number of the epochs of a stream and this one.
fn largest_in(records: &[Placed], found: u32) -> u32
    ensures { result ≡ largest_with (marks_in records.now) found }
{
    let mut largest = found;
    for i in (0..records.len()).rev() {
        largest = largest_at(&records[i].entry, largest);
    }
    largest
}

/// The largest number of an epoch of these streams; 0 where there is none.
pub fn largest_epoch(streams: &[Listed<Placed>]) -> u32
    ensures { result ≡ largest (marks_from streams.now) }
{
    let mut found = 0;
    for j in (0..streams.len()).rev() {
        found = largest_in(streams[j].as_slice(), found);
    }
    found
}

/// 1 for an anchor, 0 for any other record.
fn one_anchor(entry: &Entry) -> usize
    ensures same { result ≡ length (named_after [] entry.now) }
    ensures low { result ≤ 1 }
{
    match entry {
        Entry::Written { .. } => 0,
        Entry::Command { .. } => 0,
        Entry::Anchor { .. } => 1,
        Entry::Catalogue { .. } => 0,
        Entry::Epoch { .. } => 0,
    }
}

/// How many anchors a stream has.
pub fn count_anchors(records: &[Placed]) -> usize
    ensures { result ≡ length (anchors_of records.now) }
{
    let mut count = 0;
    for i in 0..records.len() {
        count += one_anchor(&records[i].entry);
    }
    count
}

/// The fault of the lowest stream that has a catalogue, if it is another text.
fn declared_fault(streams: &[Listed<Placed>], text: &[u8]) -> Option<LogFault>
    requires few { length streams.now ≤ MAX_STREAMS }
    requires short { length text.now ≤ MAX_CATALOGUE }
    ensures { result ≡ declared_fault text.now 0 streams.now }
{
    for (j, records) in streams.iter().enumerate() {
        if let Some(found) = catalogue_text(records.as_slice()) {
            return other_declared(found, text, j as u8);
        }
    }
    None
}

/// The fault of a stream whose catalogue is not this text.
fn other_declared(found: &[u8], text: &[u8], stream: u8) -> Option<LogFault>
    requires { length text.now ≤ MAX_CATALOGUE }
    ensures { (rest : Option LogFault) → result ≡ if_declared text.now stream (Some found.now) rest }
{
    if text == found {
        return None;
    }
    Some(LogFault {
        stream,
        cause: LogCause::Declared {
            at: alike(text, found),
        },
    })
}

/// Whether an image of so many bytes with these records is too long to go on from.
fn is_long(size: u64, records: &[Placed]) -> bool
    ensures { result ≡ is_long size records.now }
{
    size > MAX_IMAGE || count_anchors(records) > MAX_ANCHORS as usize
}

/// The fault of the lowest stream whose image is too long to go on from.
fn long_fault(streams: &[Listed<Placed>], sizes: &[u64]) -> Option<LogFault>
    requires few { length streams.now ≤ MAX_STREAMS }
    requires many { length sizes.now ≡ length streams.now }
    ensures { result ≡ long_fault 0 sizes.now streams.now }
{
    for j in 0..streams.len() {
        if is_long(sizes[j], streams[j].as_slice()) {
            return Some(LogFault {
                stream: j as u8,
                cause: LogCause::Long { length: sizes[j] },
            });
        }
    }
    None
}

/// The fault of the lowest stream that has the last epoch.
fn last_fault(streams: &[Listed<Placed>]) -> Option<LogFault>
    requires few { length streams.now ≤ MAX_STREAMS }
    ensures { result ≡ last_fault streams.now }
{
    if largest_epoch(streams) == LAST_EPOCH {
        return Some(LogFault {
            stream: lowest_with(streams, LAST_EPOCH) as u8,
            cause: LogCause::Last,
        });
    }
    None
}

impl Log {
    /// The first cause why a run of a workload with this text of declarations cannot go on from the log, which was read
    /// of images with these lengths.
    pub fn begins_fault(&self, text: &[u8], sizes: &[u64]) -> Option<LogFault>
        requires few { length self.now.streams ≤ MAX_STREAMS }
        requires many { length sizes.now ≡ length self.now.streams }
        requires short { length text.now ≤ MAX_CATALOGUE }
        ensures { result ≡ begins_fault text.now sizes.now self.now }
    {
        let streams = self.streams.as_slice();
        if let Some(fault) = declared_fault(streams, text) {
            return Some(fault);
        }
        if let Some(fault) = long_fault(streams, sizes) {
            return Some(fault);
        }
        last_fault(streams)
    }
}
