//! A run opens its streams.
ghost use Rattle.std.specs.Prelude.{◌≡◌, ◌≤◌, ◌<◌, ◌+◌, ◌^◌, ℕ, List, [], length, take, drop, map, slice_get, vec_len, vec_capacity, Some, None, Ok, Err, IfOk, IfErr, OnErr};
ghost use Rattle.tau_base.specs.declared.limits.TheConstants.{MAX_CATALOGUE};
ghost use Rattle.tau_base.specs.Modes.{most_streams};
ghost use Rattle.tau_record.specs.declared.entry.Placed.{Placed as OneRecord};
ghost use Rattle.tau_record.specs.Content.{anchors_of};
ghost use Rattle.tau_record.specs.Vector.{ArePlaces};
ghost use Rattle.tau_scan.specs.declared.fault.LogFault.{LogFault};
ghost use Rattle.tau_scan.specs.Contents.{AreShortContents, bytes_in};
ghost use Rattle.tau_scan.specs.Reading.{IsLog};
ghost use Rattle.tau_scan.specs.Sound.{IsOrderOver};
ghost use Rattle.tau_scan.specs.Taken.{Kept, taken};
ghost use Rattle.tau_replay.specs.Redone.{IsRedone, IsTangledAt};
ghost use Rattle.tau_begin.specs.Given.{next_epoch};
ghost use Rattle.tau_begin.specs.Opened.{BeginsOn, IsOpenRun, IsRefusedOn, ReadyToStart, RefusesReading, RefusesRun};
ghost use Rattle.tau_begin.specs.Starts.{AreStarts, IsOpeningOn};

use crate::given::next_epoch;
use crate::opening::opening_of;
use crate::read::{read_first, refusal_of};
use crate::starts::starts_of;
use std::alloc::Global;
use tau_base::{Format, NoMemory};
use tau_block::Content;
use tau_core::Opening;
use tau_disk::Disk;
use tau_model::Tables;
use tau_open::{StreamStart, reopen_streams};
use tau_replay::replay_turns;
use tau_scan::{Log, LogCause, LogFault, ReplayRefusal, ScanRefusal};
use tau_stream::Writer;

/// The rows of redoing a log.
fn redone(alloc: Global, log: &Log) -> Result<Tables, ScanRefusal>
    requires { IsLog log.now }
    ensures rows { IfOk result (λ rows. IsRedone log.now rows) }
    ensures bad { (fault : LogFault) → result ≡ Err (ScanRefusal.Bad fault) →
        ((at : ℕ) × (fault.cause ≡ LogCause.Tangled at) × IsTangledAt log.now fault.stream at) × ((order : List Kept) → IsOrderOver (taken log.now) order → ⊥) }
    ensures no_disk { (j : ℕ) → result ≡ Err (ScanRefusal.Failed j) → ⊥ }
{
    match replay_turns(alloc, log, &[]) {
        Ok(tables) => Ok(tables),
        Err(ReplayRefusal::NoMemory) => Err(ScanRefusal::NoMemory),
        Err(ReplayRefusal::Tangled { stream, at }) => Err(ScanRefusal::Bad(LogFault {
            stream,
            cause: LogCause::Tangled { at },
        })),
    }
}

/// The state in which a run begins on a log, and what each stream starts with, unless a run cannot go on from it.
fn begin_on(
    alloc: Global,
    format: Format,
    text: &[u8],
    sizes: &[u64],
    log: &Log,
    contents: Vec<Content>,
) -> Result<(Opening, Vec<StreamStart>), ScanRefusal>
    requires low { 1 ≤ vec_len contents }
    requires high { vec_len contents ≤ most_streams format }
    requires sizes { length sizes.now ≡ vec_len contents }
    requires streams { length log.now.streams ≡ vec_len contents }
    requires short { AreShortContents contents.items }
    requires log { IsLog log.now }
    requires text { length text.now ≤ MAX_CATALOGUE }
    ensures begun { IfOk result (λ r. BeginsOn format text.now sizes.now log.now contents.items r.0 r.1.items) }
    ensures bad { (fault : LogFault) → result ≡ Err (ScanRefusal.Bad fault) → IsRefusedOn text.now sizes.now log.now fault }
    ensures no_disk { (j : ℕ) → result ≡ Err (ScanRefusal.Failed j) → ⊥ }
{
    match log.begins_fault(text, sizes) {
        Some(fault) => Err(ScanRefusal::Bad(fault)),
        None => match redone(alloc, log) {
            Ok(rows) => start_on(alloc, format, text, rows, log, contents),
            Err(refusal) => Err(refusal),
        },
    }
}

/// The same, once the rows are there.
fn start_on(
    alloc: Global,
    format: Format,
    text: &[u8],
    rows: Tables,
    log: &Log,
    contents: Vec<Content>,
) -> Result<(Opening, Vec<StreamStart>), ScanRefusal>
    requires low { 1 ≤ vec_len contents }
    requires high { vec_len contents ≤ most_streams format }
    requires streams { length log.now.streams ≡ vec_len contents }
    requires short { AreShortContents contents.items }
    requires text { length text.now ≤ MAX_CATALOGUE }
    requires anchors { (j : ℕ) (ps : List OneRecord) → slice_get log.now.streams j ≡ Some ps → length (anchors_of ps) < 2 ^ 32 }
    ensures starts { IfOk result (λ r. AreStarts format text.now (next_epoch (bytes_in contents.items) log.now) log.now.elv contents.items r.1.items) }
    ensures small { IfOk result (λ r. next_epoch (bytes_in contents.items) log.now < 2 ^ 32) }
    ensures places { ArePlaces log.now.elv }
    ensures opening { IfOk result (λ r. IsOpeningOn log.now r.1.items r.0) }
    ensures rows { IfOk result (λ r. r.0.rows ≡ rows) }
    ensures memory { IfErr result (λ refusal. refusal ≡ ScanRefusal.NoMemory) }
{
    let _positions = log.elv.as_slice();
    let Ok(starts) = starts_on(alloc, format, text, log, contents) else {
        return Err(ScanRefusal::NoMemory);
    };
    let opening = opening_of(rows, log, &starts);
    Ok((opening, starts))
}

/// What each stream starts with.
fn starts_on(
    alloc: Global,
    format: Format,
    text: &[u8],
    log: &Log,
    contents: Vec<Content>,
) -> Result<Vec<StreamStart>, NoMemory>
    requires high { vec_len contents ≤ most_streams format }
    requires short { AreShortContents contents.items }
    requires text { length text.now ≤ MAX_CATALOGUE }
    ensures starts { IfOk result (λ starts. AreStarts format text.now (next_epoch (bytes_in contents.items) log.now) log.now.elv contents.items starts.items) }
    ensures small { IfOk result (λ starts. next_epoch (bytes_in contents.items) log.now < 2 ^ 32) }
{
    let epoch = next_epoch(&contents, log)?;
    starts_of(alloc, format, contents, text, epoch, &log.elv)
}

/// Opens the streams of a run of a workload with this text of declarations on the first n disks, always the lowest first:
/// their lengths are asked, each that has a byte is synced and then read, and each stream is given what stands before the
/// run's first record. The disks leave the list for the writers. At a refusal all disks stand in their places again.
pub fn open_run<D: Disk>(
    alloc: Global,
    disks: &mut Vec<D>,
    n: u8,
    format: Format,
    text: &[u8],
) -> Result<(Opening, Vec<Writer<D>>), ScanRefusal>
    requires low { 1 ≤ n }
    requires high { n ≤ most_streams format }
    requires there { n ≤ vec_len disks.old }
    requires short { length text.now ≤ MAX_CATALOGUE }
    ensures opened { IfOk result (λ r. IsOpenRun ⟦<D as Disk>⟧ format n text.now disks.old.items disks.new.items r.0 r.1.items) }
    ensures refused { IfErr result (λ refusal. RefusesRun ⟦<D as Disk>⟧ format n text.now disks.old.items disks.new.items refusal) }
    ensures rest { OnErr result (drop n disks.new.items ≡ drop n disks.old.items) }
    ensures back { OnErr result (vec_len disks.new ≡ vec_len disks.old) }
    ensures capacity { vec_capacity disks.new ≡ vec_capacity disks.old }
    ensures len { IfOk result (λ r. vec_len r.1 + vec_len disks.new ≡ vec_len disks.old) }
{
    let Ok(room) = Vec::with_capacity(alloc, usize::from(n)) else {
        return Err(ScanRefusal::NoMemory);
    };
    match begin_run(alloc, disks, n, format, text, room) {
        Ok((opening, starts)) => match reopen_streams(alloc, disks, starts) {
            Ok(writers) => Ok((opening, writers)),
            Err(refusal) => Err(refusal_of(refusal)),
        },
        Err(refusal) => Err(refusal),
    }
}

/// Asks and reads the first n disks, and makes of what they hold the state in which the run begins and what each stream
/// starts with.
fn begin_run<D: Disk>(
    alloc: Global,
    disks: &mut [D],
    n: u8,
    format: Format,
    text: &[u8],
    room: Vec<u64>,
) -> Result<(Opening, Vec<StreamStart>), ScanRefusal>
    requires low { 1 ≤ n }
    requires high { n ≤ most_streams format }
    requires there { n ≤ length disks.old }
    requires none { room.items ≡ [] }
    requires room { n ≤ vec_capacity room }
    requires short { length text.now ≤ MAX_CATALOGUE }
    ensures begun { IfOk result (λ r. ReadyToStart ⟦<D as Disk>⟧ format n text.now disks.old disks.new r.0 r.1.items) }
    ensures refused { IfErr result (λ refusal. RefusesReading ⟦<D as Disk>⟧ format n text.now disks.old disks.new refusal) }
    ensures rest { drop n disks.new ≡ drop n disks.old }
{
    match read_first(alloc, disks, n, format, room) {
        Ok((log, contents, sizes)) => begin_on(alloc, format, text, &sizes, &log, contents),
        Err(refusal) => Err(refusal),
    }
}
