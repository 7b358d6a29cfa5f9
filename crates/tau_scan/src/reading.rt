//! Reading the log of all streams.
ghost use Rattle.std.specs.Prelude.{◌≡◌, ◌≤◌, ◌<◌, ℕ, List, length, Some, Ok, Err, IfOk, IfErr, OnOk};
ghost use Rattle.std.specs.List.{All, AllZip};
ghost use Rattle.tau_base.specs.declared.limits.TheConstants.{MAX_STREAMS};
ghost use Rattle.tau_base.specs.Modes.{most_streams};
ghost use Rattle.tau_scan.specs.declared.fault.LogFault.{LogFault};
ghost use Rattle.tau_scan.specs.Reading.{catalogue_of, asked_format, contents_of, declared_by, recorded, records_of, streams_of, declared_in, log_as, log_of, log_of_contents, log_read, Gives, HasRead, IsReading, IsLog};
ghost use Rattle.tau_scan.specs.Found.{Found, FoundAs, IsShort};
ghost use Rattle.tau_scan.specs.Contents.{bytes_in, AreContents, IsLogOf, HasContents};
ghost use Rattle.tau_disk.specs.Stages.{AreLengths};
ghost use Rattle.tau_disk.specs.Used.{Each, EachIn, RoseAt, AllCalls, IsFirstStopped};
ghost use Rattle.tau_scan.specs.Outside.{AreSettled, AreSynced, IsRead, StopsSettling, SyncedFirst, calls_to_read};

use crate::catalogue::one_catalogue;
use crate::content::{asked_format, contents_in, lengths_of};
use crate::epochs::one_vector_each;
use crate::fault::{LogCause, LogFault, LogRefusal, ReadRefusal, ScanRefusal};
use crate::log::Log;
use crate::read::{read_images, settle_images};
use crate::records::{declarations_in, none_declared, records_in};
use std::alloc::Global;
use tau_base::{Format, Listed};
use tau_block::Content;
use tau_disk::Disk;
use tau_record::{Placed, RecordRefusal};
use tau_text::Declarations;

/// The records of stream `j` of `n`.
fn stream_in(
    alloc: Global,
    format: Format,
    n: u16,
    j: u8,
    content: &[u8],
) -> Result<Listed<Placed>, LogRefusal>
    requires low { 1 ≤ n }
    requires high { n ≤ most_streams format }
    ensures same { Found result (recorded j (records_of format n content.now)) }
    ensures read { IfOk result (λ records. IsReading format n content.now records) }
    ensures short { IfOk result (λ records. IsShort (catalogue_of records)) }
{
    match records_in(alloc, format, n, content) {
        Ok(records) => Ok(records),
        Err(RecordRefusal::NoMemory) => Err(LogRefusal::NoMemory),
        Err(RecordRefusal::Bad(fault)) => Err(LogRefusal::Bad(LogFault {
            stream: j,
            cause: LogCause::Body(fault),
        })),
    }
}

/// The records of all streams.
fn streams_in(
    alloc: Global,
    format: Format,
    contents: &[Content],
) -> Result<Listed<Listed<Placed>>, LogRefusal>
    requires low { 1 ≤ length contents.now }
    requires high { length contents.now ≤ MAX_STREAMS }
    requires room { length contents.now ≤ most_streams format }
    ensures same { Found result (streams_of format (bytes_in contents.now)) }
    ensures read { IfOk result (λ streams. AllZip (IsReading format (length contents.now)) (bytes_in contents.now) streams) }
    ensures many { IfOk result (λ streams. length streams ≡ length contents.now) }
    ensures short { IfOk result (λ streams. All (λ ps. IsShort (catalogue_of ps)) streams) }
{
    let n = contents.len() as u16;
    let mut streams = Listed::new(alloc);
    for (j, content) in contents.iter().enumerate() {
        let records = stream_in(alloc, format, n, j as u8, content.bytes.as_slice())?;
        streams.push(records)?;
    }
    Ok(streams)
}

/// What the one catalogue of the streams declares.
fn declarations_of(alloc: Global, streams: &[Listed<Placed>]) -> Result<Declarations, LogRefusal>
    requires few { length streams.now ≤ MAX_STREAMS }
    requires short { All (λ ps. IsShort (catalogue_of ps)) streams.now }
    ensures { Found result (declared_in streams.now) }
{
    match one_catalogue(streams)? {
        None => Ok(none_declared(alloc)),
        Some(text) => Ok(declarations_in(alloc, text)?),
    }
}

/// The log of these contents.
fn log_of_contents(alloc: Global, format: Format, contents: &[Content]) -> Result<Log, LogRefusal>
    requires low { 1 ≤ length contents.now }
    requires high { length contents.now ≤ MAX_STREAMS }
    requires room { length contents.now ≤ most_streams format }
    ensures same { Found result (log_of_contents format (bytes_in contents.now)) }
    ensures sound { IfOk result (λ log. IsLog log) }
    ensures theirs { IfOk result (λ log. IsLogOf format contents.now log) }
{
    let streams = streams_in(alloc, format, contents)?;
    let declarations = declarations_of(alloc, streams.as_slice())?;
    one_vector_each(alloc, streams.as_slice())?;
    match lengths_of(contents) {
        Some(elv) => Ok(Log {
            elv,
            declarations,
            streams,
        }),
        None => Err(LogRefusal::NoMemory),
    }
}

/// The log of these images, of which those that are born are of this format, and their contents.
fn log_as(
    alloc: Global,
    format: Format,
    images: &[Listed<u8>],
) -> Result<(Log, Listed<Content>), LogRefusal>
    requires low { 1 ≤ length images.now }
    requires high { length images.now ≤ MAX_STREAMS }
    // Contents that have it are no more than it has room for.
    requires room { (contents : List (List ℕ)) → contents_of format images.now ≡ Ok contents → length images.now ≤ most_streams format }
    ensures same { FoundAs (λ r. r.0) result (log_as format images.now) }
    ensures sound { IfOk result (λ r. IsLog r.0) }
    ensures are { IfOk result (λ r. AreContents format images.now r.1) }
    ensures theirs { IfOk result (λ r. IsLogOf format r.1 r.0) }
{
    let contents = contents_in(alloc, format, images)?;
    let log = log_of_contents(alloc, format, contents.as_slice())?;
    Ok((log, contents))
}

/// The log of these images, if this format is asked, or none, and their contents.
fn log_in(
    alloc: Global,
    asked: Option<Format>,
    images: &[Listed<u8>],
) -> Result<(Log, Listed<Content>), LogRefusal>
    requires low { 1 ≤ length images.now }
    requires high { length images.now ≤ MAX_STREAMS }
    requires fits { (f : _) → asked ≡ Some f → length images.now ≤ most_streams f }
    ensures same { FoundAs (λ r. r.0) result (log_of asked images.now) }
    ensures sound { IfOk result (λ r. IsLog r.0) }
    ensures are { IfOk result (λ r. AreContents (asked_format asked images.now) images.now r.1) }
    ensures theirs { IfOk result (λ r. IsLogOf (asked_format asked images.now) r.1 r.0) }
{
    let format = asked_format(asked, images);
    log_as(alloc, format, images)
}

/// The same, refused as a caller of the crate is told it.
fn read_log(
    alloc: Global,
    asked: Option<Format>,
    images: &[Listed<u8>],
) -> Result<(Log, Vec<Content>), ScanRefusal>
    requires low { 1 ≤ length images.now }
    requires high { length images.now ≤ MAX_STREAMS }
    requires fits { (f : _) → asked ≡ Some f → length images.now ≤ most_streams f }
    ensures read { Gives (log_read result) (log_of asked images.now) }
    ensures sound { IfOk result (λ r. IsLog r.0) }
    ensures are { IfOk result (λ r. AreContents (asked_format asked images.now) images.now r.1.items) }
    ensures theirs { IfOk result (λ r. IsLogOf (asked_format asked images.now) r.1.items r.0) }
    ensures no_disk { (j : ℕ) → result ≡ Err (ScanRefusal.Failed j) → ⊥ }
{
    match log_in(alloc, asked, images) {
        Ok((log, contents)) => {
            let list = contents.into_vec();
            Ok((log, list))
        }
        Err(LogRefusal::NoMemory) => Err(ScanRefusal::NoMemory),
        Err(LogRefusal::Bad(fault)) => Err(ScanRefusal::Bad(fault)),
    }
}

/// Reads the log that the disks hold, one for each stream, in the format that is asked, or else in that of the lowest born
/// stream. All disks are read first; the lowest that fails ends the reading. Then come the causes of images, formats and
/// counts by stream, those of records by stream, those of catalogues, and those of epochs.
pub fn scan<D: Disk>(
    alloc: Global,
    disks: &mut [D],
    asked: Option<Format>,
) -> Result<Log, ScanRefusal>
    requires low { 1 ≤ length disks.old }
    requires high { length disks.old ≤ MAX_STREAMS }
    requires fits { (f : _) → asked ≡ Some f → length disks.old ≤ most_streams f }
    // The log of the images, or the first cause why they hold none, unless memory ran out or a disk failed.
    ensures read { HasRead D.tells D.seen asked disks.old result }
    // What is read is a log.
    ensures sound { IfOk result (λ log. IsLog log) }
    // A disk failed only if its count rose.
    ensures failed { (j : ℕ) → result ≡ Err (ScanRefusal.Failed j) → RoseAt D.faults disks.old disks.new j }
    // The disks were at most read.
    ensures only_read { Each (IsRead D.tells D.seen D.may_leave D.moment D.may_leave_since D.faults D.number D.fails) disks.old disks.new }
    // Before a log or a cause is told every disk was read whole, and no call of any was to fail: a disk that fails
    // comes before a bad image. A disk that failed did so by its first call that was to fail, and none below it had one.
    ensures calls { OnOk result (Each (AllCalls D.tells D.number D.fails D.short calls_to_read) disks.old disks.new) }
    ensures calls_bad { (fault : LogFault) → result ≡ Err (ScanRefusal.Bad fault) → Each (AllCalls D.tells D.number D.fails D.short calls_to_read) disks.old disks.new }
    ensures stopped { (j : ℕ) → result ≡ Err (ScanRefusal.Failed j) → D.tells → IsFirstStopped D.tells D.number D.fails D.short disks.old disks.new j }
{
    match scan_contents(alloc, disks, asked) {
        Ok((log, _contents)) => Ok(log),
        Err(refusal) => Err(refusal),
    }
}

/// Reads as `scan` does, and also hands out the contents that it read, in the order of the streams.
pub fn scan_contents<D: Disk>(
    alloc: Global,
    disks: &mut [D],
    asked: Option<Format>,
) -> Result<(Log, Vec<Content>), ScanRefusal>
    requires low { 1 ≤ length disks.old }
    requires high { length disks.old ≤ MAX_STREAMS }
    requires fits { (f : _) → asked ≡ Some f → length disks.old ≤ most_streams f }
    // The log of the images, or the first cause why they hold none, unless memory ran out or a disk failed.
    ensures read { HasRead D.tells D.seen asked disks.old (log_read result) }
    // What is read is a log.
    ensures sound { IfOk result (λ r. IsLog r.0) }
    // The contents are those of the disks, and the log is the log of these contents.
    ensures contents { IfOk result (λ r. HasContents D.tells D.seen asked disks.old r.0 r.1.items) }
    // A disk failed only if its count rose.
    ensures failed { (j : ℕ) → result ≡ Err (ScanRefusal.Failed j) → RoseAt D.faults disks.old disks.new j }
    // The disks were at most read.
    ensures only_read { Each (IsRead D.tells D.seen D.may_leave D.moment D.may_leave_since D.faults D.number D.fails) disks.old disks.new }
    // Before a log or a cause is told every disk was read whole, and no call of any was to fail: a disk that fails
    // comes before a bad image. A disk that failed did so by its first call that was to fail, and none below it had one.
    ensures calls { OnOk result (Each (AllCalls D.tells D.number D.fails D.short calls_to_read) disks.old disks.new) }
    ensures calls_bad { (fault : LogFault) → result ≡ Err (ScanRefusal.Bad fault) → Each (AllCalls D.tells D.number D.fails D.short calls_to_read) disks.old disks.new }
    ensures stopped { (j : ℕ) → result ≡ Err (ScanRefusal.Failed j) → D.tells → IsFirstStopped D.tells D.number D.fails D.short disks.old disks.new j }
{
    match read_images(alloc, disks) {
        Ok(images) => read_log(alloc, asked, images.as_slice()),
        Err(ReadRefusal::NoMemory) => Err(ScanRefusal::NoMemory),
        Err(ReadRefusal::Failed { stream }) => Err(ScanRefusal::Failed { stream }),
    }
}

/// Reads as `scan_contents` does, after a barrier: the disks have these lengths, and one after another each that has a byte
/// is synced and then read. A disk without a byte is left alone.
pub fn scan_settled<D: Disk>(
    alloc: Global,
    disks: &mut [D],
    lengths: &[u64],
    asked: Option<Format>,
) -> Result<(Log, Vec<Content>), ScanRefusal>
    requires low { 1 ≤ length disks.old }
    requires high { length disks.old ≤ MAX_STREAMS }
    requires fits { (f : _) → asked ≡ Some f → length disks.old ≤ most_streams f }
    requires many { length lengths.now ≡ length disks.old }
    requires lengths { AreLengths D.tells D.seen disks.old lengths.now }
    // The log of the images, or the first cause why they hold none, unless memory ran out or a disk failed.
    ensures read { HasRead D.tells D.seen asked disks.old (log_read result) }
    // What is read is a log.
    ensures sound { IfOk result (λ r. IsLog r.0) }
    // The contents are those of the disks, and the log is the log of these contents.
    ensures contents { IfOk result (λ r. HasContents D.tells D.seen asked disks.old r.0 r.1.items) }
    // The disks were at most synced and read.
    ensures synced { AreSynced ⟦<D as Disk>⟧ lengths.now disks.old disks.new }
    // A disk that had a call was synced first, also where memory ran out: then a stop leaves only what a read gives.
    ensures first { EachIn (λ j. j < length lengths.now) (λ j. SyncedFirst ⟦<D as Disk>⟧) disks.old disks.new }
    // Before a log or a cause is told every disk with a byte was synced and read whole, and no call of any was to fail.
    ensures settled { OnOk result (AreSettled ⟦<D as Disk>⟧ lengths.now disks.old disks.new) }
    ensures settled_bad { (fault : LogFault) → result ≡ Err (ScanRefusal.Bad fault) → AreSettled ⟦<D as Disk>⟧ lengths.now disks.old disks.new }
    // A disk that failed did so by its first call that was to fail. Those below it were synced and read whole, and those
    // above it were not touched.
    ensures failed { (j : ℕ) → result ≡ Err (ScanRefusal.Failed j) → StopsSettling ⟦<D as Disk>⟧ lengths.now j disks.old disks.new }
{
    match settle_images(alloc, disks, lengths) {
        Ok(images) => read_log(alloc, asked, images.as_slice()),
        Err(ReadRefusal::NoMemory) => Err(ScanRefusal::NoMemory),
        Err(ReadRefusal::Failed { stream }) => Err(ScanRefusal::Failed { stream }),
    }
}
