//! What the streams and the slots hold together, as a checkpoint and a recovery with one read it.
ghost use Rattle.std.specs.Prelude.{◌≡◌, ◌+◌, ◌<◌, ◌≤◌, ℕ, List, length, map, IfOk, OnOk, Err};
ghost use Rattle.tau_base.specs.declared.limits.TheConstants.{MAX_STREAMS};
ghost use Rattle.tau_ckpt.specs.declared.slots.TheConstants.{SLOTS};
ghost use Rattle.tau_disk.specs.Disk.{Rose};
ghost use Rattle.tau_disk.specs.Stages.{AreLengths, Broke};
ghost use Rattle.tau_disk.specs.Used.{Each, RoseAt, GoesOn, AllCalls, IsStopped, IsFirstStopped};
ghost use Rattle.tau_scan.specs.Outside.{AreSettled, AreSynced, IsRead, IsSettled, IsSynced, StopsSettling, calls_to_read, calls_to_settle};
ghost use Rattle.tau_commands.specs.declared.slots.SlotRefusal.TheVariants as refusals;
ghost use Rattle.tau_commands.specs.Checkpoints.{HoldSlots};
ghost use Rattle.tau_commands.specs.Finding.{slot_status};

use crate::status::Status;
use std::alloc::{AllocFailed, Global};
use tau_base::{Listed, MAX_STREAMS, NoMemory};
use tau_ckpt::{SLOTS, Slots};
use tau_disk::Disk;
use tau_scan::Log;

/// What the streams and the slots hold.
#[derive(Debug, Drop)]
pub struct Found {
    /// The log of the streams.
    pub log: Log,
    /// The checkpoints of the slots.
    pub slots: Slots,
}

/// Why the slots were not read.
#[derive(Clone, Copy, Debug, PartialEq, Eq)]
pub enum SlotRefusal {
    /// Out of memory.
    NoMemory,
    /// The disk of this slot failed.
    Failed {
        /// The slot, 0 or 1.
        slot: u8,
    },
}

impl From<NoMemory> for SlotRefusal {
    ghost from_gives = { λ _ e. e ≡ refusals.NoMemory };

    fn from(_e: NoMemory) -> SlotRefusal {
        SlotRefusal::NoMemory
    }
}

impl<T: Drop> From<AllocFailed<T>> for SlotRefusal {
    ghost from_gives = { λ _ e. e ≡ refusals.NoMemory };

    fn from(_e: AllocFailed<T>) -> SlotRefusal {
        SlotRefusal::NoMemory
    }
}

/// The bytes that a read of the whole disk gives.
fn read_slot<D: Disk>(alloc: Global, disk: &mut D, slot: u8) -> Result<Vec<u8>, SlotRefusal>
    ensures bytes { IfOk result (λ image. D.tells → image.items ≡ D.seen disk.old) }
    ensures failed { (j : ℕ) → result ≡ Err (SlotRefusal.Failed j) → (j ≡ slot) × Rose (D.faults disk.old) (D.faults disk.new) }
    ensures only_read { IsRead D.tells D.seen D.may_leave D.moment D.may_leave_since D.faults D.number D.fails disk.old disk.new }
    ensures went { OnOk result (D.tells → GoesOn D.number D.fails disk.old disk.new) }
    ensures calls { OnOk result (AllCalls D.tells D.number D.fails D.short calls_to_read disk.old disk.new) }
    ensures stopped { (j : ℕ) → result ≡ Err (SlotRefusal.Failed j) → IsStopped D.tells D.number D.fails D.short disk.old disk.new }
{
    let length = disk.len().map_err(|_| SlotRefusal::Failed { slot })?;
    let mut image = zeros(alloc, length as usize)?;
    disk.read_at(0, &mut image)
        .map_err(|_| SlotRefusal::Failed { slot })?;
    Ok(image)
}

/// So many zeros.
fn zeros(alloc: Global, n: usize) -> Result<Vec<u8>, NoMemory>
    ensures { IfOk result (λ v. length v.items ≡ n) }
{
    Ok(vec![in alloc; 0u8; n]?)
}

/// The images of the slots. The lowest disk that fails ends the reading.
pub fn read_slots<D: Disk>(
    alloc: Global,
    disks: &mut [D],
) -> Result<Listed<Listed<u8>>, SlotRefusal>
    requires { length disks.old ≤ SLOTS }
    ensures many { IfOk result (λ images. length images ≡ length disks.old) }
    ensures bytes { IfOk result (λ images. D.tells → images ≡ map D.seen disks.old) }
    ensures low { (j : ℕ) → result ≡ Err (SlotRefusal.Failed j) → j < length disks.old }
    ensures failed { (j : ℕ) → result ≡ Err (SlotRefusal.Failed j) → RoseAt D.faults disks.old disks.new j }
    ensures only_read { Each (IsRead D.tells D.seen D.may_leave D.moment D.may_leave_since D.faults D.number D.fails) disks.old disks.new }
    ensures calls { OnOk result (Each (AllCalls D.tells D.number D.fails D.short calls_to_read) disks.old disks.new) }
    ensures stopped { (j : ℕ) → result ≡ Err (SlotRefusal.Failed j) → D.tells → IsFirstStopped D.tells D.number D.fails D.short disks.old disks.new j }
{
    let mut images = Listed::new(alloc);
    for j in 0..disks.len() {
        let image = read_slot(alloc, &mut disks[j], j as u8)?;
        images.push(Listed::of(image))?;
    }
    Ok(images)
}

/// Syncs the disk of this length and then reads it whole, if it has a byte.
fn settle_slot<D: Disk>(
    alloc: Global,
    disk: &mut D,
    size: u64,
    slot: u8,
) -> Result<Vec<u8>, SlotRefusal>
    requires { D.tells → size ≡ length (D.seen disk.old) }
    ensures bytes { IfOk result (λ image. D.tells → image.items ≡ D.seen disk.old) }
    ensures synced { IsSynced ⟦<D as Disk>⟧ size disk.old disk.new }
    ensures settled { OnOk result (IsSettled ⟦<D as Disk>⟧ size disk.old disk.new) }
    ensures failed { (j : ℕ) → result ≡ Err (SlotRefusal.Failed j) → (j ≡ slot) × Broke ⟦<D as Disk>⟧ (calls_to_settle size) disk.old disk.new }
{
    if size == 0 {
        return Ok(Vec::new(alloc));
    }
    let Ok(()) = disk.sync() else {
        return Err(SlotRefusal::Failed { slot });
    };
    read_slot(alloc, disk, slot)
}

/// The images of the slots, which have these lengths: each disk with a byte is synced and then read. The lowest disk that
/// fails ends the reading.
pub fn settle_slots<D: Disk>(
    alloc: Global,
    disks: &mut [D],
    lengths: &[u64],
) -> Result<Listed<Listed<u8>>, SlotRefusal>
    requires few { length disks.old ≤ SLOTS }
    requires many { length lengths.now ≡ length disks.old }
    requires lengths { AreLengths D.tells D.seen disks.old lengths.now }
    ensures many { IfOk result (λ images. length images ≡ length disks.old) }
    ensures bytes { IfOk result (λ images. D.tells → images ≡ map D.seen disks.old) }
    ensures synced { AreSynced ⟦<D as Disk>⟧ lengths.now disks.old disks.new }
    ensures settled { OnOk result (AreSettled ⟦<D as Disk>⟧ lengths.now disks.old disks.new) }
    ensures failed { (j : ℕ) → result ≡ Err (SlotRefusal.Failed j) → StopsSettling ⟦<D as Disk>⟧ lengths.now j disks.old disks.new }
{
    let mut images = Listed::new(alloc);
    for j in 0..lengths.len() {
        let image = settle_slot(alloc, &mut disks[j], lengths[j], j as u8)?;
        images.push(Listed::of(image))?;
    }
    Ok(images)
}

/// What the images of the two slots hold.
pub fn slots_in(alloc: Global, images: &[Listed<u8>]) -> Result<Slots, NoMemory>
    requires { length images.now ≡ SLOTS }
    ensures { IfOk result (λ slots. HoldSlots images.now slots) }
{
    Slots::of_images(alloc, images[0].as_slice(), images[1].as_slice())
}

/// How a call ends whose slots were not read. The disk of a slot has the number of the slot with `MAX_STREAMS` added.
pub fn slot_status(refusal: SlotRefusal) -> Status
    requires { (slot : ℕ) → refusal ≡ SlotRefusal.Failed slot → slot < SLOTS }
    ensures { result ≡ slot_status refusal }
{
    match refusal {
        SlotRefusal::NoMemory => Status::NoMemory,
        SlotRefusal::Failed { slot } => Status::DiskFault {
            stream: MAX_STREAMS as u8 + slot,
        },
    }
}
