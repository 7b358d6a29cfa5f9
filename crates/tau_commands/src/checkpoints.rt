//! Checkpoints are made and written.
ghost use Rattle.std.specs.Prelude.{◌≡◌, ◌+◌, ◌≤◌, ◌<◌, ◌++◌, ℕ, List, [], true, length, take, drop, None, Ok, Err, IfOk, IfErr, OnOk};
ghost use Rattle.tau_base.specs.declared.limits.TheConstants.{MAX_RECOVERY_WORKERS, MAX_STREAMS};
ghost use Rattle.tau_disk.specs.Disk.{Rose};
ghost use Rattle.tau_disk.specs.Stages.{AreLengths};
ghost use Rattle.tau_scan.specs.declared.fault.LogFault.{LogFault};
ghost use Rattle.tau_scan.specs.declared.fault.ScanRefusal.{ScanRefusal};
ghost use Rattle.tau_scan.specs.Outside.{AreSettled, AreSynced, StopsSettling};
ghost use Rattle.tau_scan.specs.Reading.{HasRead, IsLog};
ghost use Rattle.tau_ckpt.specs.Chosen.{next_write};
ghost use Rattle.tau_ckpt.specs.declared.checkpoint.TheConstants.{MAX_NUMBER};
ghost use Rattle.tau_ckpt.specs.declared.slots.Slots.{Slots as HeldSlots};
ghost use Rattle.tau_ckpt.specs.declared.slots.TheConstants.{SLOTS};
ghost use Rattle.tau_commands.specs.declared.disks.TheConstants.{DISKS};
ghost use Rattle.tau_commands.specs.Checkpoints.{HasEnded, OfCheckpoint, checkpoint_text};
ghost use Rattle.tau_commands.specs.Finding.{AreQuiet, IsReadyOf, IsWritable, MakesAndPuts, PutsInto, RefusesToMake, SettlesAll, SettlesAsked, asked_slot_status, asked_status};
ghost use Rattle.tau_commands.specs.Outside.{Wrote};

use crate::fault::refuse;
use crate::slots::{Found, settle_slots, slot_status, slots_in};
use crate::status::Status;
use std::alloc::{AllocError, Global};
use std::sync::Wait;
use std::thread::Threads;
use tau_base::{MAX_STREAMS, NoMemory};
use tau_ckpt::{CheckRefusal, Checkpoint, NextWrite, SLOTS, checkpoint_at, write_checkpoint};
use tau_disk::{Disk, Gate, Sink, write_all};
use tau_open::{OpenRefusal, ask_each};
use tau_replay::replay_threads;
use tau_report::{next_number, put_number};
use tau_scan::{Log, LogCause, LogFault, ReplayRefusal, ScanRefusal, scan_settled};

/// Syncs and reads the first disks, which have these lengths.
fn settle_streams<D: Disk>(
    alloc: Global,
    streams: u8,
    disks: &mut [D],
    lengths: &[u64],
) -> Result<Log, ScanRefusal>
    requires low { 1 ≤ streams }
    requires high { streams ≤ MAX_STREAMS }
    requires there { streams ≤ length disks.old }
    requires many { length lengths.now ≡ streams }
    requires lengths { AreLengths D.tells D.seen disks.old lengths.now }
    ensures synced { AreSynced ⟦<D as Disk>⟧ lengths.now disks.old disks.new }
    ensures settled { OnOk result (AreSettled ⟦<D as Disk>⟧ lengths.now disks.old disks.new) }
    ensures settled_bad { (fault : LogFault) → result ≡ Err (ScanRefusal.Bad fault) → AreSettled ⟦<D as Disk>⟧ lengths.now disks.old disks.new }
    ensures failed { (j : ℕ) → result ≡ Err (ScanRefusal.Failed j) → StopsSettling ⟦<D as Disk>⟧ lengths.now j disks.old disks.new }
    ensures read { HasRead D.tells D.seen None (take streams disks.old) result }
    ensures sound { IfOk result (λ log. IsLog log) }
    ensures rest { drop streams disks.new ≡ drop streams disks.old }
{
    match scan_settled(alloc, &mut disks[..streams as usize], lengths, None) {
        Ok((log, _contents)) => Ok(log),
        Err(refusal) => Err(refusal),
    }
}

/// How a call ends where the disk of a stream failed when it was asked.
fn asked_status(refusal: OpenRefusal) -> Status
    ensures { result ≡ asked_status refusal }
{
    match refusal {
        OpenRefusal::NoMemory => Status::NoMemory,
        OpenRefusal::Failed { stream } => Status::DiskFault { stream },
        OpenRefusal::NotEmpty {
            stream: _,
            length: _,
        } => Status::NoMemory,
    }
}

/// The same of the disk of a slot.
fn asked_slot_status(refusal: OpenRefusal) -> Status
    requires { (slot : ℕ) → refusal ≡ OpenRefusal.Failed slot → slot < SLOTS }
    ensures { result ≡ asked_slot_status refusal }
{
    match refusal {
        OpenRefusal::NoMemory => Status::NoMemory,
        OpenRefusal::Failed { stream } => Status::DiskFault {
            stream: MAX_STREAMS as u8 + stream,
        },
        OpenRefusal::NotEmpty {
            stream: _,
            length: _,
        } => Status::NoMemory,
    }
}

/// What the first streams and both slots hold, which have these lengths: each disk with a byte is synced and then read. All
/// of them are read before the log is judged.
fn settle_asked<D: Disk>(
    alloc: Global,
    streams: u8,
    front: &mut [D],
    lengths: &[u64],
    slots: &mut [D],
    sizes: &[u64],
) -> Result<Found, Status>
    requires low { 1 ≤ streams }
    requires high { streams ≤ MAX_STREAMS }
    requires there { streams ≤ length front.old }
    requires slots { length slots.old ≡ SLOTS }
    requires many { length lengths.now ≡ streams }
    requires lengths { AreLengths D.tells D.seen front.old lengths.now }
    requires sizes_many { length sizes.now ≡ SLOTS }
    requires sizes { AreLengths D.tells D.seen slots.old sizes.now }
    ensures { SettlesAsked ⟦<D as Disk>⟧ streams front.old lengths.now front.new slots.old sizes.now slots.new result }
{
    match settle_streams(alloc, streams, front, lengths) {
        Err(ScanRefusal::NoMemory) => Err(Status::NoMemory),
        Err(ScanRefusal::Failed { stream }) => Err(Status::DiskFault { stream }),
        Err(ScanRefusal::Bad(fault)) => match settle_slots(alloc, slots, sizes) {
            Err(refusal) => Err(slot_status(refusal)),
            Ok(_) => Err(Status::BadLog(fault)),
        },
        Ok(log) => match settle_slots(alloc, slots, sizes) {
            Err(refusal) => Err(slot_status(refusal)),
            Ok(images) => match slots_in(alloc, images.as_slice()) {
                Err(_) => Err(Status::NoMemory),
                Ok(slots) => Ok(Found { log, slots }),
            },
        },
    }
}

/// What the first streams and both slots hold. All of them are asked their lengths, and then each disk with a byte is synced
/// and read.
fn settle_all<D: Disk>(
    alloc: Global,
    streams: u8,
    front: &mut [D],
    slots: &mut [D],
) -> Result<Found, Status>
    requires low { 1 ≤ streams }
    requires high { streams ≤ MAX_STREAMS }
    requires there { streams ≤ length front.old }
    requires slots { length slots.old ≡ SLOTS }
    ensures { SettlesAll ⟦<D as Disk>⟧ streams front.old front.new slots.old slots.new result }
{
    let Ok(mut lengths) = Vec::with_capacity(alloc, streams as usize) else {
        return Err(Status::NoMemory);
    };
    let Ok(mut sizes) = Vec::with_capacity(alloc, SLOTS) else {
        return Err(Status::NoMemory);
    };
    match ask_each(front, streams, &mut lengths) {
        Err(refusal) => Err(asked_status(refusal)),
        Ok(()) => match ask_each(slots, SLOTS as u8, &mut sizes) {
            Err(refusal) => Err(asked_slot_status(refusal)),
            Ok(()) => settle_asked(alloc, streams, front, &lengths, slots, &sizes),
        },
    }
}

/// A checkpoint that is ready to be written, and the text that is told then.
#[derive(Drop)]
struct Ready {
    slot: u8,
    value: Checkpoint,
    text: Vec<u8>,
}

/// What a checkpoint tells: its number, its slot and how many rows it has.
fn checkpoint_text(alloc: Global, next: NextWrite, rows: usize) -> Result<Vec<u8>, AllocError>
    ensures { IfOk result (λ text. text.items ≡ checkpoint_text next.number next.slot rows) }
{
    let mut text = Vec::new(alloc);
    text.extend_from_slice(b"checkpoint ")?;
    put_number(&mut text, next.number)?;
    next_number(&mut text, u64::from(next.slot))?;
    next_number(&mut text, rows as u64)?;
    text.extend_from_slice(b"\nend 0\n")?;
    Ok(text)
}

/// The checkpoint of this log that is written next, redone by so many workers.
fn make_next<R: Threads + Wait + Sync, G: Gate + Sync>(
    rt: &R,
    alloc: Global,
    log: &Log,
    next: NextWrite,
    workers: u8,
    gate: &G,
) -> Result<Ready, Status>
    requires log { IsLog log.now }
    requires workers { (1 ≤ workers) × (workers ≤ MAX_RECOVERY_WORKERS) }
    requires slot { next.slot ≤ 1 }
    requires low { 1 ≤ next.number }
    requires high { next.number ≤ MAX_NUMBER }
    ensures ready { (slots : HeldSlots) → next_write slots ≡ Ok next → IfOk result (λ ready. IsReadyOf (record { log = log.now; slots = slots }) ready) }
    ensures refused { (slots : HeldSlots) → next_write slots ≡ Ok next → IfErr result (λ status. RefusesToMake (record { log = log.now; slots = slots }) status) }
{
    let rows = match replay_threads(rt, alloc, log, workers, gate) {
        Ok(rows) => rows,
        Err(ReplayRefusal::NoMemory) => return Err(Status::NoMemory),
        Err(ReplayRefusal::Tangled { stream, at }) => {
            let cause = LogCause::Tangled { at };
            return Err(Status::BadLog(LogFault { stream, cause }));
        }
    };
    let Ok(text) = checkpoint_text(alloc, next, rows.rows().len()) else {
        return Err(Status::NoMemory);
    };
    let value = checkpoint_at(log, next.number, rows);
    Ok(Ready {
        slot: next.slot,
        value,
        text,
    })
}

/// The checkpoint of what was found, redone by so many workers. What was found is dropped as soon as it has served.
fn make<R: Threads + Wait + Sync, G: Gate + Sync>(
    rt: &R,
    alloc: Global,
    found: Found,
    workers: u8,
    gate: &G,
) -> Result<Ready, Status>
    requires log { IsLog found.log }
    requires workers { (1 ≤ workers) × (workers ≤ MAX_RECOVERY_WORKERS) }
    ensures ready { IfOk result (λ ready. IsReadyOf found ready) }
    ensures refused { IfErr result (λ status. RefusesToMake found status) }
{
    let Found { log, slots } = found;
    let next = slots.next_write();
    // The rows of the old checkpoints make room for those of the new one.
    drop(slots);
    match next {
        Ok(next) => {
            let ready = make_next(rt, alloc, &log, next, workers, gate);
            drop(log);
            ready
        }
        Err(fault) => {
            drop(log);
            Err(Status::BadLog(fault))
        }
    }
}

/// Writes a checkpoint into its slot, and then tells of it.
fn put<D: Disk, K: Sink>(alloc: Global, ready: &Ready, slots: &mut [D], sink: &mut K) -> Status
    requires ready { IsWritable ready.now }
    requires there { length slots.old ≡ SLOTS }
    requires quiet { AreQuiet ⟦<D as Disk>⟧ slots.old }
    ensures { PutsInto ⟦<D as Disk>⟧ ready.now slots.old slots.new (Wrote K.tells (K.held sink.old) (K.held sink.new)) (Rose (K.faults sink.old) (K.faults sink.new)) result }
{
    let slot = ready.slot;
    match write_checkpoint(alloc, &mut slots[slot as usize], slot, &ready.value) {
        Err(CheckRefusal::NoMemory) => Status::NoMemory,
        Err(CheckRefusal::Failed) => refuse(
            alloc,
            sink,
            Status::DiskFault {
                stream: MAX_STREAMS as u8 + slot,
            },
        ),
        Ok(()) => match write_all(sink, &ready.text) {
            Ok(()) => Status::Ok,
            Err(_) => Status::WriteFault,
        },
    }
}

/// Makes a checkpoint of what was found, redone by so many workers, and writes it.
fn make_and_put<R: Threads + Wait + Sync, D: Disk, K: Sink, G: Gate + Sync>(
    rt: &R,
    alloc: Global,
    found: Found,
    workers: u8,
    sink: &mut K,
    slots: &mut [D],
    gate: &G,
) -> Status
    requires log { IsLog found.log }
    requires workers { (1 ≤ workers) × (workers ≤ MAX_RECOVERY_WORKERS) }
    requires there { length slots.old ≡ SLOTS }
    requires quiet { AreQuiet ⟦<D as Disk>⟧ slots.old }
    ensures { MakesAndPuts ⟦<D as Disk>⟧ found slots.old slots.new (Wrote K.tells (K.held sink.old) (K.held sink.new)) (Rose (K.faults sink.old) (K.faults sink.new)) result }
{
    match make(rt, alloc, found, workers, gate) {
        Ok(ready) => {
            let status = put(alloc, &ready, slots, sink);
            drop(ready);
            status
        }
        Err(refusal) => refuse(alloc, sink, refusal),
    }
}

/// Makes a checkpoint of what the first `streams` disks hold, redone by so many workers, and writes it into the slot that
/// holds none, or else that of the smaller number.
pub fn checkpoint<R: Threads + Wait + Sync, D: Disk, K: Sink, G: Gate + Sync>(
    rt: &R,
    alloc: Global,
    streams: u8,
    workers: u8,
    sink: &mut K,
    disks: &mut [D],
    gate: &G,
) -> Status
    requires low { 1 ≤ streams }
    requires high { streams ≤ MAX_STREAMS }
    requires workers { (1 ≤ workers) × (workers ≤ MAX_RECOVERY_WORKERS) }
    requires there { length disks.old ≡ DISKS }
    ensures ended { HasEnded ⟦<D as Disk>⟧ (record { hears = K.tells; held = K.held sink.old; held' = K.held sink.new; faults = K.faults sink.old; faults' = K.faults sink.new }) disks.old disks.new result streams }
    ensures of { OfCheckpoint ⟦<D as Disk>⟧ (record { hears = K.tells; held = K.held sink.old; held' = K.held sink.new; faults = K.faults sink.old; faults' = K.faults sink.new }) disks.old disks.new result streams }
{
    let (front, slots) = disks.split_at_mut(MAX_STREAMS);
    match settle_all(alloc, streams, front, slots) {
        Ok(found) => make_and_put(rt, alloc, found, workers, sink, slots, gate),
        Err(refusal) => refuse(alloc, sink, refusal),
    }
}
