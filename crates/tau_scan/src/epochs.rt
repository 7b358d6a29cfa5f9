//! Marks of one epoch with different vectors.
ghost use Rattle.std.specs.Prelude.{◌≡◌, ◌≤◌, ℕ, length, Some, None, IfSome, IfErr, IsNone, OnOk, is_some};
ghost use Rattle.tau_base.specs.declared.limits.TheConstants.{MAX_STREAMS};
ghost use Rattle.tau_epoch.specs.Known.{vector_of};
ghost use Rattle.tau_scan.specs.Epochs.{mark_of, marks_in, marks_from};
ghost use Rattle.tau_scan.specs.Reading.{lowest_with, is_vector, mark_fault, marks_fault, epoch_fault};
ghost use Rattle.tau_scan.specs.Found.{IsFault};

use crate::fault::{LogCause, LogFault, LogRefusal};
use crate::judge::known_in;
use std::alloc::Global;
use tau_base::Listed;
use tau_epoch::Epochs;
use tau_record::{Entry, Placed};

/// The vector of the record, if it is the mark of the epoch with this number.
fn vector_at(entry: &Entry, number: u32) -> Option<&[u64]>
    ensures some { IfSome result (λ lv. vector_of number (mark_of entry.now) ≡ Some lv.now) }
    ensures none { IsNone result → vector_of number (mark_of entry.now) ≡ None }
{
    match entry {
        Entry::Written { .. } => None,
        Entry::Command { .. } => None,
        Entry::Anchor { .. } => None,
        Entry::Catalogue { .. } => None,
        Entry::Epoch { number: found, lv } => {
            if number == *found {
                return Some(lv.as_slice());
            }
            None
        }
    }
}

/// The vector of the first mark of the stream with this number.
fn vector_in(records: &[Placed], number: u32) -> Option<&[u64]>
    ensures some { IfSome result (λ lv. vector_of number (marks_in records.now) ≡ Some lv.now) }
    ensures none { IsNone result → vector_of number (marks_in records.now) ≡ None }
{
    for placed in records {
        if let Some(lv) = vector_at(&placed.entry, number) {
            return Some(lv);
        }
    }
    None
}

/// The vector of the first mark of all streams with this number.
pub fn first_vector(streams: &[Listed<Placed>], number: u32) -> Option<&[u64]>
    ensures some { IfSome result (λ lv. vector_of number (marks_from streams.now) ≡ Some lv.now) }
    ensures none { IsNone result → vector_of number (marks_from streams.now) ≡ None }
{
    for records in streams {
        if let Some(lv) = vector_in(records.as_slice(), number) {
            return Some(lv);
        }
    }
    None
}

/// Whether the stream has a mark with this number.
fn has_mark(records: &[Placed], number: u32) -> bool
    ensures { result ≡ is_some (vector_of number (marks_in records.now)) }
{
    match vector_in(records, number) {
        Some(_) => true,
        None => false,
    }
}

/// The lowest stream that has a mark with this number, or how many there are.
pub fn lowest_with(streams: &[Listed<Placed>], number: u32) -> usize
    ensures same { result ≡ lowest_with number 0 streams.now }
    ensures within { result ≤ length streams.now }
{
    for (j, records) in streams.iter().enumerate() {
        if has_mark(records.as_slice(), number) {
            return j;
        }
    }
    streams.len()
}

/// Whether the known epoch with this number has this vector.
fn has_vector(known: &Epochs, number: u32, positions: &[u64]) -> bool
    ensures { result ≡ is_vector positions.now (vector_of number known.now) }
{
    match known.vector(number) {
        None => false,
        Some(first) => first.as_slice() == positions,
    }
}

/// The fault of a mark of stream `j`, if its vector is not that of the lowest stream with its number.
fn vector_fault(
    known: &Epochs,
    streams: &[Listed<Placed>],
    j: u8,
    number: u32,
    positions: &[u64],
) -> Option<LogFault>
    requires few { length streams.now ≤ MAX_STREAMS }
    requires known { (n : ℕ) → vector_of n known.now ≡ vector_of n (marks_from streams.now) }
    ensures { result ≡ mark_fault streams.now j (record { number = number; lv = positions.now }) }
{
    if has_vector(known, number, positions) {
        return None;
    }
    Some(LogFault {
        stream: j,
        cause: LogCause::Epoch {
            with: lowest_with(streams, number) as u8,
            number,
        },
    })
}

/// The fault of a record of stream `j`, if it is a mark.
fn mark_fault(known: &Epochs, streams: &[Listed<Placed>], j: u8, entry: &Entry) -> Option<LogFault>
    requires few { length streams.now ≤ MAX_STREAMS }
    requires known { (n : ℕ) → vector_of n known.now ≡ vector_of n (marks_from streams.now) }
    ensures { result ≡ marks_fault streams.now j (mark_of entry.now) }
{
    match entry {
        Entry::Written { .. } => None,
        Entry::Command { .. } => None,
        Entry::Anchor { .. } => None,
        Entry::Catalogue { .. } => None,
        Entry::Epoch { number, lv } => vector_fault(known, streams, j, *number, lv.as_slice()),
    }
}

/// The first fault of the marks of stream `j`.
fn stream_fault(
    known: &Epochs,
    streams: &[Listed<Placed>],
    j: u8,
    records: &[Placed],
) -> Option<LogFault>
    requires few { length streams.now ≤ MAX_STREAMS }
    requires known { (n : ℕ) → vector_of n known.now ≡ vector_of n (marks_from streams.now) }
    ensures { result ≡ marks_fault streams.now j (marks_in records.now) }
{
    for placed in records {
        if let Some(fault) = mark_fault(known, streams, j, &placed.entry) {
            return Some(fault);
        }
    }
    None
}

/// The first fault of the marks of all streams.
fn epoch_fault(known: &Epochs, streams: &[Listed<Placed>]) -> Option<LogFault>
    requires few { length streams.now ≤ MAX_STREAMS }
    requires known { (n : ℕ) → vector_of n known.now ≡ vector_of n (marks_from streams.now) }
    ensures { result ≡ epoch_fault streams.now }
{
    for (j, records) in streams.iter().enumerate() {
        if let Some(fault) = stream_fault(known, streams, j as u8, records.as_slice()) {
            return Some(fault);
        }
    }
    None
}

/// Refuses streams of which two have different vectors for one epoch.
pub fn one_vector_each(alloc: Global, streams: &[Listed<Placed>]) -> Result<(), LogRefusal>
    requires { length streams.now ≤ MAX_STREAMS }
    ensures ok { OnOk result (epoch_fault streams.now ≡ None) }
    ensures err { IfErr result (λ e. IsFault e (epoch_fault streams.now)) }
{
    let known = known_in(alloc, streams)?;
    match epoch_fault(&known, streams) {
        None => Ok(()),
        Some(fault) => Err(LogRefusal::Bad(fault)),
    }
}
