//! Feeding one of the streams.
ghost use Rattle.std.specs.Prelude.{◌≡◌, ◌≤◌, ◌<◌, ◌++◌, [], ℕ, List, Some, Ok, Err, length, slice_get, slice_set, slice_index_or, true, false, IfOk, OnOk, OnErr};
ghost use Rattle.tau_base.specs.Modes.{most_streams};
ghost use Rattle.tau_scan.specs.declared.fault.LogFault.{LogFault};
ghost use Rattle.tau_scan.specs.declared.fault.LogRefusal.TheVariants as refusals;
ghost use Rattle.tau_follow_laws.specs.Fed.{fronts_of};
ghost use Rattle.tau_follow_laws.specs.Feeding.{Piece, with_piece};
ghost use Rattle.tau_follow.specs.Reading.{IsShortBy};
ghost use Rattle.tau_follow.specs.Applying.{is_call, ArePassed};
ghost use Rattle.tau_follow.specs.Feeding.{AreRead, AreLonger, IsMarkAt, AreCalls, AreCallsAt};
ghost use Rattle.tau_follow.specs.Holding.{HasReadOn, IsTold};
ghost use Rattle.tau_follow.specs.Waits.{AreKept};
ghost use Rattle.tau_record.specs.declared.entry.Placed.{Placed as OnePlaced};
ghost use Rattle.tau_follow.specs.declared.reader.Reader.{Reader as OneReader};

use crate::applier::Applier;
use crate::reader::{Mark, Reader};
use std::alloc::Global;
use tau_base::{Format, Listed, NoMemory};
use tau_epoch::Epochs;
use tau_record::{Entry, Placed, RecordRefusal};
use tau_scan::{LogCause, LogFault, LogRefusal};

/// Reads what is fed to a stream.
pub fn read_stream(
    alloc: Global,
    format: Format,
    n: u16,
    readers: &mut Vec<Reader>,
    streams: &mut Vec<Listed<Placed>>,
    stream: u8,
    bytes: &[u8],
) -> Result<(), LogRefusal>
    requires low { 1 ≤ n }
    requires high { n ≤ most_streams format }
    ensures ok { (fed : List (List ℕ)) → AreRead format n fed streams.old.items readers.old.items → OnOk result (AreRead format n (with_piece fed (record { stream = stream; bytes = bytes.now })) streams.new.items readers.new.items) }
    ensures bad { (fed : List (List ℕ)) (fault : LogFault) → AreRead format n fed streams.old.items readers.old.items → result ≡ Err (refusals.Bad fault) → fronts_of format (with_piece fed (record { stream = stream; bytes = bytes.now })) ≡ Err fault }
    ensures longer { stream < length streams.old.items → stream < length readers.old.items → AreLonger stream streams.old.items readers.old.items streams.new.items readers.new.items }
{
    let j = stream as usize;
    if j >= readers.len() {
        return Err(LogRefusal::NoMemory);
    }
    if j >= streams.len() {
        return Err(LogRefusal::NoMemory);
    }
    match readers[j].read(alloc, format, n, &mut streams[j], bytes) {
        Ok(()) => Ok(()),
        Err(RecordRefusal::NoMemory) => Err(LogRefusal::NoMemory),
        Err(RecordRefusal::Bad(fault)) => Err(LogRefusal::Bad(LogFault {
            stream,
            cause: LogCause::Body(fault),
        })),
    }
}

/// Whether the next record of a stream is known not to be whole by so many bytes more.
pub fn is_short_by(readers: &[Reader], stream: u8, more: usize) -> bool
    ensures { result ≡ true → IsShortBy readers.now stream more }
{
    match readers.get(stream as usize) {
        None => false,
        Some(reader) => reader.is_short_by(more),
    }
}

/// Feeds bytes to a stream if no more than the kind and the length of its next record are there by them, and it is not whole
/// by them, as these say. Returns whether it did.
pub fn wait_head(readers: &mut Vec<Reader>, stream: u8, bytes: &[u8]) -> bool
    ensures put { (format : Format) (n : ℕ) (fed : List (List ℕ)) (streams : List (List OnePlaced)) → stream < n → AreRead format n fed streams readers.old.items → result ≡ true → AreRead format n (with_piece fed (record { stream = stream; bytes = bytes.now })) streams readers.new.items }
    ensures same { (format : Format) (n : ℕ) (fed : List (List ℕ)) (streams : List (List OnePlaced)) → stream < n → AreRead format n fed streams readers.old.items → result ≡ false → AreRead format n fed streams readers.new.items }
{
    let j = stream as usize;
    if j >= readers.len() {
        return false;
    }
    readers[j].wait_head(bytes)
}

/// Feeds a single byte to a stream, if its next record is known not to be whole by it and there is room, and returns whether
/// it did.
#[inline(always)]
pub fn wait_byte(readers: &mut Vec<Reader>, stream: u8, bytes: &[u8]) -> bool
    ensures put { (format : Format) (n : ℕ) (fed : List (List ℕ)) (streams : List (List OnePlaced)) → stream < n → AreRead format n fed streams readers.old.items → result ≡ true → AreRead format n (with_piece fed (record { stream = stream; bytes = bytes.now })) streams readers.new.items }
    ensures same { (format : Format) (n : ℕ) (fed : List (List ℕ)) (streams : List (List OnePlaced)) → stream < n → AreRead format n fed streams readers.old.items → result ≡ false → AreRead format n fed streams readers.new.items }
{
    let j = stream as usize;
    if j >= readers.len() {
        return false;
    }
    readers[j].wait_byte(bytes)
}

/// Feeds bytes to a stream by which its next record is known not to be whole.
pub fn wait_stream(readers: &mut Vec<Reader>, stream: u8, bytes: &[u8]) -> Result<(), NoMemory>
    ensures ok { (format : Format) (n : ℕ) (fed : List (List ℕ)) (streams : List (List OnePlaced)) → stream < n → AreRead format n fed streams readers.old.items → IsShortBy readers.old.items stream (length bytes.now) → OnOk result (AreRead format n (with_piece fed (record { stream = stream; bytes = bytes.now })) streams readers.new.items) }
    ensures err { (format : Format) (n : ℕ) (fed : List (List ℕ)) (streams : List (List OnePlaced)) → stream < n → AreRead format n fed streams readers.old.items → OnErr result (AreRead format n fed streams readers.new.items) }
{
    let j = stream as usize;
    if j >= readers.len() {
        return Err(NoMemory);
    }
    match readers[j].wait(bytes) {
        Ok(()) => Ok(()),
        Err(e) => Err(e),
    }
}

/// How the stream is that is to be fed. The bytes that wait come into this room.
pub fn mark_stream(
    room: Vec<u8>,
    readers: &[Reader],
    streams: &[Listed<Placed>],
    stream: u8,
) -> Result<Mark, NoMemory>
    ensures { IfOk result (λ mark. IsMarkAt stream streams.now readers.now mark) }
{
    let Some(reader) = readers.get(stream as usize) else {
        return Err(NoMemory);
    };
    let Some(records) = streams.get(stream as usize) else {
        return Err(NoMemory);
    };
    reader.mark(room, records)
}

/// Has the stream that was fed as it was.
pub fn undo_stream(
    alloc: Global,
    readers: &mut Vec<Reader>,
    streams: &mut Vec<Listed<Placed>>,
    stream: u8,
    mark: Mark,
)
    ensures { (format : Format) (n : ℕ) (fed : List (List ℕ)) (before : List (List OnePlaced)) (by : List OneReader) → stream < n → AreRead format n fed before by → IsMarkAt stream before by mark →
        AreLonger stream before by streams.old.items readers.old.items → AreRead format n fed streams.new.items readers.new.items × (streams.new.items ≡ before) }
{
    let j = stream as usize;
    if j >= readers.len() {
        return;
    }
    if j >= streams.len() {
        return;
    }
    readers[j].undo(alloc, &mut streams[j], mark);
}

/// How many records are read of a stream.
pub fn read_count(streams: &[Listed<Placed>], stream: u8) -> usize
    ensures { (ps : List OnePlaced) → slice_get streams.now stream ≡ Some ps → result ≡ length ps }
{
    match streams.get(stream as usize) {
        Some(records) => records.len(),
        None => 0,
    }
}

/// Whether there are others than before.
pub fn is_more(before: usize, after: usize) -> bool
    ensures { result ≡ false → after ≡ before }
{
    after != before
}

/// Whether this is the record of a call, or an anchor.
fn is_call(entry: &Entry) -> bool
    ensures { result ≡ is_call entry.now }
{
    match entry {
        Entry::Written { .. } => true,
        Entry::Command { .. } => true,
        Entry::Anchor { .. } => true,
        Entry::Catalogue { .. } => false,
        Entry::Epoch { .. } => false,
    }
}

/// Whether each record from an index on is that of a call, or an anchor.
fn are_calls(records: &[Placed], from: usize) -> bool
    ensures { result ≡ true → AreCalls from records.now }
{
    for i in from..records.len() {
        if !is_call(&records[i].entry) {
            return false;
        }
    }
    true
}

/// The same of a stream.
pub fn are_calls_at(streams: &[Listed<Placed>], stream: usize, from: usize) -> bool
    ensures { result ≡ true → AreCallsAt stream from streams.now }
{
    match streams.get(stream) {
        None => false,
        Some(records) => are_calls(records.as_slice(), from),
    }
}

/// Has the new records of a stream stand, which are those of calls, and anchors. Out of memory the records stand as before.
pub fn read_calls(
    applier: &mut Applier,
    known: &Epochs,
    readers: &[Reader],
    streams: &[Listed<Placed>],
    stream: usize,
) -> Result<(), NoMemory>
    ensures ok { (r : OneReader) (ps : List OnePlaced) → slice_get readers.now stream ≡ Some r → slice_get streams.now stream ≡ Some ps → OnOk result (HasReadOn known.now r.last ps stream applier.old applier.new) }
    ensures stages { OnErr result (applier.new.stages.items ≡ applier.old.stages.items) }
    ensures passed { OnErr result (ArePassed applier.old.stages.items applier.old.firsts.items → ArePassed applier.old.stages.items applier.new.firsts.items) }
    ensures order { applier.new.order ≡ applier.old.order }
    ensures told { (all : List (List OnePlaced)) → IsTold all applier.old → OnErr result (IsTold all applier.new) }
    ensures kept { (all : List (List OnePlaced)) → AreKept all applier.old.stages.items applier.old.waits → OnErr result (AreKept all applier.old.stages.items applier.new.waits) }
{
    let Some(reader) = readers.get(stream) else {
        return Err(NoMemory);
    };
    let Some(records) = streams.get(stream) else {
        return Err(NoMemory);
    };
    match applier.read_on(known, reader.last, records.as_slice(), stream) {
        Ok(()) => Ok(()),
        Err(e) => Err(e),
    }
}
