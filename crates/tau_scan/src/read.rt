//! Reading disks.
ghost use Rattle.std.specs.Prelude.{◌≡◌, ◌≤◌, ◌<◌, ℕ, List, length, map, IfOk, OnOk, OnErr, Err};
ghost use Rattle.tau_base.specs.declared.limits.TheConstants.{MAX_STREAMS};
ghost use Rattle.tau_disk.specs.Disk.{Rose};
ghost use Rattle.tau_disk.specs.Stages.{AreLengths, Broke};
ghost use Rattle.tau_disk.specs.Used.{Each, EachIn, RoseAt, GoesOn, AllCalls, IsStopped, IsFirstStopped};
ghost use Rattle.tau_scan.specs.Outside.{AreSettled, AreSynced, IsRead, IsSettled, IsSynced, StopsSettling, SyncedFirst, calls_to_read, calls_to_settle};

use crate::fault::ReadRefusal;
use std::alloc::Global;
use tau_base::{Listed, NoMemory};
use tau_disk::Disk;

/// The bytes that a read of the whole disk gives.
fn read_image<D: Disk>(alloc: Global, disk: &mut D, stream: u8) -> Result<Vec<u8>, ReadRefusal>
    ensures bytes { IfOk result (λ image. D.tells → image.items ≡ D.seen disk.old) }
    ensures failed { (j : ℕ) → result ≡ Err (ReadRefusal.Failed j) → (j ≡ stream) × Rose (D.faults disk.old) (D.faults disk.new) }
    ensures only_read { IsRead D.tells D.seen D.may_leave D.moment D.may_leave_since D.faults D.number D.fails disk.old disk.new }
    ensures went { OnOk result (D.tells → GoesOn D.number D.fails disk.old disk.new) }
    ensures calls { OnOk result (AllCalls D.tells D.number D.fails D.short calls_to_read disk.old disk.new) }
    ensures stopped { (j : ℕ) → result ≡ Err (ReadRefusal.Failed j) → IsStopped D.tells D.number D.fails D.short disk.old disk.new }
{
    let length = match disk.len() {
        Ok(length) => length,
        Err(_) => return Err(ReadRefusal::Failed { stream }),
    };
    let mut image = zeros(alloc, length as usize)?;
    match disk.read_at(0, &mut image) {
        Ok(()) => Ok(image),
        Err(_) => Err(ReadRefusal::Failed { stream }),
    }
}

/// So many zeros.
fn zeros(alloc: Global, n: usize) -> Result<Vec<u8>, NoMemory>
    ensures { IfOk result (λ v. length v.items ≡ n) }
{
    Ok(vec![in alloc; 0u8; n]?)
}

/// The images of all streams. The lowest disk that fails ends the reading.
pub fn read_images<D: Disk>(
    alloc: Global,
    disks: &mut [D],
) -> Result<Listed<Listed<u8>>, ReadRefusal>
    requires { length disks.old ≤ MAX_STREAMS }
    ensures many { IfOk result (λ images. length images ≡ length disks.old) }
    ensures bytes { IfOk result (λ images. D.tells → images ≡ map D.seen disks.old) }
    ensures failed { (j : ℕ) → result ≡ Err (ReadRefusal.Failed j) → RoseAt D.faults disks.old disks.new j }
    ensures only_read { Each (IsRead D.tells D.seen D.may_leave D.moment D.may_leave_since D.faults D.number D.fails) disks.old disks.new }
    ensures calls { OnOk result (Each (AllCalls D.tells D.number D.fails D.short calls_to_read) disks.old disks.new) }
    ensures stopped { (j : ℕ) → result ≡ Err (ReadRefusal.Failed j) → D.tells → IsFirstStopped D.tells D.number D.fails D.short disks.old disks.new j }
{
    let mut images = Listed::new(alloc);
    for j in 0..disks.len() {
        let image = read_image(alloc, &mut disks[j], j as u8)?;
        images.push(Listed::of(image))?;
    }
    Ok(images)
}

/// Syncs the disk of this length and then reads it whole, if it has a byte.
fn settle_image<D: Disk>(
    alloc: Global,
    disk: &mut D,
    size: u64,
    stream: u8,
) -> Result<Vec<u8>, ReadRefusal>
    requires { D.tells → size ≡ length (D.seen disk.old) }
    ensures bytes { IfOk result (λ image. D.tells → image.items ≡ D.seen disk.old) }
    ensures synced { IsSynced ⟦<D as Disk>⟧ size disk.old disk.new }
    ensures first { SyncedFirst ⟦<D as Disk>⟧ disk.old disk.new }
    ensures settled { OnOk result (IsSettled ⟦<D as Disk>⟧ size disk.old disk.new) }
    ensures failed { (j : ℕ) → result ≡ Err (ReadRefusal.Failed j) → (j ≡ stream) × Broke ⟦<D as Disk>⟧ (calls_to_settle size) disk.old disk.new }
{
    if size == 0 {
        return Ok(Vec::new(alloc));
    }
    let Ok(()) = disk.sync() else {
        return Err(ReadRefusal::Failed { stream });
    };
    read_image(alloc, disk, stream)
}

/// The images of all streams, which have these lengths: each disk with a byte is synced and then read. The lowest disk that
/// fails ends the reading.
pub fn settle_images<D: Disk>(
    alloc: Global,
    disks: &mut [D],
    lengths: &[u64],
) -> Result<Listed<Listed<u8>>, ReadRefusal>
    requires few { length disks.old ≤ MAX_STREAMS }
    requires many { length lengths.now ≡ length disks.old }
    requires lengths { AreLengths D.tells D.seen disks.old lengths.now }
    ensures many { IfOk result (λ images. length images ≡ length disks.old) }
    ensures bytes { IfOk result (λ images. D.tells → images ≡ map D.seen disks.old) }
    ensures synced { AreSynced ⟦<D as Disk>⟧ lengths.now disks.old disks.new }
    ensures first { EachIn (λ j. j < length lengths.now) (λ j. SyncedFirst ⟦<D as Disk>⟧) disks.old disks.new }
    ensures settled { OnOk result (AreSettled ⟦<D as Disk>⟧ lengths.now disks.old disks.new) }
    ensures failed { (j : ℕ) → result ≡ Err (ReadRefusal.Failed j) → StopsSettling ⟦<D as Disk>⟧ lengths.now j disks.old disks.new }
{
    let mut images = Listed::new(alloc);
    for j in 0..lengths.len() {
        let image = settle_image(alloc, &mut disks[j], lengths[j], j as u8)?;
        images.push(Listed::of(image))?;
    }
    Ok(images)
}
