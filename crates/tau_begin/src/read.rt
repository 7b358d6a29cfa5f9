//! The disks of a run are asked, synced and read before anything is written.
ghost use Rattle.std.specs.Prelude.{◌≡◌, ◌≤◌, ◌<◌, ℕ, List, [], length, take, drop, vec_capacity, Some, Ok, Err, IfOk, OnOk};
ghost use Rattle.tau_base.specs.Modes.{most_streams};
ghost use Rattle.tau_disk.specs.Stages.{AreLengths};
ghost use Rattle.tau_disk.specs.Used.{EachIn, EachUsed};
ghost use Rattle.tau_scan.specs.Contents.{HasContents};
ghost use Rattle.tau_scan.specs.Outside.{AreSettled, AreSynced, StopsSettling, SyncedFirst};
ghost use Rattle.tau_scan.specs.Reading.{HasRead, IsLog, log_read};
ghost use Rattle.tau_scan.specs.declared.fault.LogFault.{LogFault};
ghost use Rattle.tau_begin.specs.Opened.{IsReadFrom};
ghost use Rattle.tau_begin.specs.Reading.{AtMostRead, StopsReading, WereRead};

use std::alloc::Global;
use tau_base::Format;
use tau_block::Content;
use tau_disk::Disk;
use tau_open::{OpenRefusal, ask_each};
use tau_scan::{Log, ScanRefusal, scan_settled};

/// The refusal of a run where a step of its opening was refused. No step finds a disk that is to be empty.
pub fn refusal_of(refusal: OpenRefusal) -> ScanRefusal
    ensures failed { (j : ℕ) → refusal ≡ OpenRefusal.Failed j → result ≡ ScanRefusal.Failed j }
    ensures failed_only { (j : ℕ) → result ≡ ScanRefusal.Failed j → refusal ≡ OpenRefusal.Failed j }
    ensures good { (fault : LogFault) → result ≡ ScanRefusal.Bad fault → ⊥ }
{
    match refusal {
        OpenRefusal::NoMemory => ScanRefusal::NoMemory,
        OpenRefusal::Failed { stream } => ScanRefusal::Failed { stream },
        OpenRefusal::NotEmpty {
            stream: _,
            length: _,
        } => ScanRefusal::NoMemory,
    }
}

/// Asks the first n disks their lengths, and then syncs and reads those that have a byte, one after another. The lengths are
/// handed on.
pub fn read_first<D: Disk>(
    alloc: Global,
    disks: &mut [D],
    n: u8,
    format: Format,
    room: Vec<u64>,
) -> Result<(Log, Vec<Content>, Vec<u64>), ScanRefusal>
    requires low { 1 ≤ n }
    requires high { n ≤ most_streams format }
    requires there { n ≤ length disks.old }
    requires none { room.items ≡ [] }
    requires room { n ≤ vec_capacity room }
    ensures only { EachUsed (AtMostRead ⟦<D as Disk>⟧) disks.old disks.new n }
    ensures were { IfOk result (λ r. WereRead ⟦<D as Disk>⟧ r.2.items n disks.old disks.new) }
    ensures read { IfOk result (λ r. IsReadFrom ⟦<D as Disk>⟧ format (take n disks.old) r.2.items r.0 r.1.items) }
    ensures bad { (fault : LogFault) → result ≡ Err (ScanRefusal.Bad fault) →
        HasRead D.tells D.seen (Some format) (take n disks.old) (Err (ScanRefusal.Bad fault))
        × ((sizes : List ℕ) × AreLengths D.tells D.seen (take n disks.old) sizes × (length sizes ≡ n) × WereRead ⟦<D as Disk>⟧ sizes n disks.old disks.new) }
    ensures failed { (j : ℕ) → result ≡ Err (ScanRefusal.Failed j) → StopsReading ⟦<D as Disk>⟧ n j disks.old disks.new }
    ensures rest { drop n disks.new ≡ drop n disks.old }
{
    let mut lengths = room;
    match ask_each(disks, n, &mut lengths) {
        Ok(()) => read_asked(alloc, disks, n, format, lengths),
        Err(refusal) => Err(refusal_of(refusal)),
    }
}

/// Syncs and reads the first n disks, which have these lengths, and hands the lengths on.
fn read_asked<D: Disk>(
    alloc: Global,
    disks: &mut [D],
    n: u8,
    format: Format,
    lengths: Vec<u64>,
) -> Result<(Log, Vec<Content>, Vec<u64>), ScanRefusal>
    requires low { 1 ≤ n }
    requires high { n ≤ most_streams format }
    requires there { n ≤ length disks.old }
    requires many { length lengths.items ≡ n }
    requires lengths { AreLengths D.tells D.seen disks.old lengths.items }
    ensures synced { AreSynced ⟦<D as Disk>⟧ lengths.items disks.old disks.new }
    ensures first { EachIn (λ j. j < length lengths.items) (λ j. SyncedFirst ⟦<D as Disk>⟧) disks.old disks.new }
    ensures settled { OnOk result (AreSettled ⟦<D as Disk>⟧ lengths.items disks.old disks.new) }
    ensures settled_bad { (fault : LogFault) → result ≡ Err (ScanRefusal.Bad fault) → AreSettled ⟦<D as Disk>⟧ lengths.items disks.old disks.new }
    ensures failed { (j : ℕ) → result ≡ Err (ScanRefusal.Failed j) → StopsSettling ⟦<D as Disk>⟧ lengths.items j disks.old disks.new }
    ensures same { IfOk result (λ r. r.2 ≡ lengths) }
    ensures read { IfOk result (λ r. HasRead D.tells D.seen (Some format) (take n disks.old) (Ok r.0)) }
    ensures bad { (fault : LogFault) → result ≡ Err (ScanRefusal.Bad fault) → HasRead D.tells D.seen (Some format) (take n disks.old) (Err (ScanRefusal.Bad fault)) }
    ensures contents { IfOk result (λ r. HasContents D.tells D.seen (Some format) (take n disks.old) r.0 r.1.items) }
    ensures sound { IfOk result (λ r. IsLog r.0) }
    ensures rest { drop n disks.new ≡ drop n disks.old }
{
    match settle_first(alloc, disks, n, format, &lengths) {
        Ok((log, contents)) => Ok((log, contents, lengths)),
        Err(refusal) => Err(refusal),
    }
}

/// Syncs and reads the first n disks, which have these lengths.
fn settle_first<D: Disk>(
    alloc: Global,
    disks: &mut [D],
    n: u8,
    format: Format,
    lengths: &[u64],
) -> Result<(Log, Vec<Content>), ScanRefusal>
    requires low { 1 ≤ n }
    requires high { n ≤ most_streams format }
    requires there { n ≤ length disks.old }
    requires many { length lengths.now ≡ n }
    requires lengths { AreLengths D.tells D.seen disks.old lengths.now }
    ensures synced { AreSynced ⟦<D as Disk>⟧ lengths.now disks.old disks.new }
    ensures first { EachIn (λ j. j < length lengths.now) (λ j. SyncedFirst ⟦<D as Disk>⟧) disks.old disks.new }
    ensures settled { OnOk result (AreSettled ⟦<D as Disk>⟧ lengths.now disks.old disks.new) }
    ensures settled_bad { (fault : LogFault) → result ≡ Err (ScanRefusal.Bad fault) → AreSettled ⟦<D as Disk>⟧ lengths.now disks.old disks.new }
    ensures failed { (j : ℕ) → result ≡ Err (ScanRefusal.Failed j) → StopsSettling ⟦<D as Disk>⟧ lengths.now j disks.old disks.new }
    ensures read { HasRead D.tells D.seen (Some format) (take n disks.old) (log_read result) }
    ensures contents { IfOk result (λ r. HasContents D.tells D.seen (Some format) (take n disks.old) r.0 r.1.items) }
    ensures sound { IfOk result (λ r. IsLog r.0) }
    ensures rest { drop n disks.new ≡ drop n disks.old }
{
    scan_settled(alloc, &mut disks[..n as usize], lengths, Some(format))
}
