//! Recovery with a checkpoint.
ghost use Rattle.std.specs.Prelude.{◌≡◌, ◌≤◌, ◌<◌, ◌⊎◌, ◌++◌, ℕ, List, [], true, length, take, drop, None, Ok, Err, IfOk, OnOk};
ghost use Rattle.tau_base.specs.declared.limits.TheConstants.{MAX_RECOVERY_WORKERS, MAX_STREAMS};
ghost use Rattle.tau_disk.specs.Disk.{Rose};
ghost use Rattle.tau_disk.specs.Used.{EachUsed, OnlyRead, RoseAt, AllCalls, IsFirstStopped};
ghost use Rattle.tau_scan.specs.declared.fault.LogFault.{LogFault};
ghost use Rattle.tau_scan.specs.declared.fault.ReplayRefusal.{ReplayRefusal};
ghost use Rattle.tau_scan.specs.declared.fault.ScanRefusal.{ScanRefusal};
ghost use Rattle.tau_scan.specs.Outside.{calls_to_read};
ghost use Rattle.tau_scan.specs.Reading.{HasRead, IsLog};
ghost use Rattle.tau_replay.specs.Redone.{IsTangledOver};
ghost use Rattle.tau_report.specs.Recovery.{recover_text};
ghost use Rattle.tau_ckpt.specs.declared.slots.TheConstants.{SLOTS};
ghost use Rattle.tau_ckpt.specs.Chosen.{IsRestored, chosen, left_to_redo, number_of};
ghost use Rattle.tau_commands.specs.declared.disks.TheConstants.{DISKS};
ghost use Rattle.tau_commands.specs.Checkpoints.{HasEnded, HasReadAll, HaveNoOrder, IsTangleOver, OfRestore, RestoreTellsOf, base_line};
ghost use Rattle.tau_commands.specs.Finding.{ReadsAll};
ghost use Rattle.tau_commands.specs.Fault.{fault_text, is_refusal};
ghost use Rattle.tau_commands.specs.Outside.{Wrote, ends_recovery};
ghost use Rattle.tau_run.specs.RunFacts.{WroteFront};

use crate::fault::refuse;
use crate::slots::{Found, SlotRefusal, read_slots, slot_status, slots_in};
use crate::status::Status;
use std::alloc::Global;
use std::sync::Wait;
use std::thread::Threads;
use tau_base::{MAX_STREAMS, NoMemory};
use tau_ckpt::redo_after;
use tau_disk::{Disk, Gate, Sink, write_all};
use tau_model::Tables;
use tau_replay::replay_threads;
use tau_report::{put_number, put_recovery};
use tau_scan::{Log, LogCause, LogFault, ReplayRefusal, ScanRefusal, scan};

/// The log of the first disks, in the format that they state.
fn scan_streams<D: Disk>(alloc: Global, streams: u8, disks: &mut [D]) -> Result<Log, ScanRefusal>
    requires low { 1 ≤ streams }
    requires high { streams ≤ MAX_STREAMS }
    requires there { streams ≤ length disks.old }
    ensures read { HasRead D.tells D.seen None (take streams disks.old) result }
    ensures sound { IfOk result (λ log. IsLog log) }
    ensures failed { (j : ℕ) → result ≡ Err (ScanRefusal.Failed j) → (j < streams) × RoseAt D.faults disks.old disks.new j }
    ensures only_read { EachUsed (OnlyRead D.tells D.seen D.may_leave D.moment D.may_leave_since) disks.old disks.new streams }
    ensures calls { OnOk result (EachUsed (AllCalls D.tells D.number D.fails D.short calls_to_read) disks.old disks.new streams) }
    ensures calls_bad { (fault : LogFault) → result ≡ Err (ScanRefusal.Bad fault) → EachUsed (AllCalls D.tells D.number D.fails D.short calls_to_read) disks.old disks.new streams }
    ensures stopped { (j : ℕ) → result ≡ Err (ScanRefusal.Failed j) → D.tells → IsFirstStopped D.tells D.number D.fails D.short disks.old disks.new j }
    ensures untouched { drop streams disks.new ≡ drop streams disks.old }
{
    scan(alloc, &mut disks[..streams as usize], None)
}

/// What the first streams and both slots hold. All of them are read before the log is judged.
fn read_all<D: Disk>(
    alloc: Global,
    streams: u8,
    front: &mut [D],
    slots: &mut [D],
) -> Result<Found, Status>
    requires low { 1 ≤ streams }
    requires high { streams ≤ MAX_STREAMS }
    requires there { streams ≤ length front.old }
    requires slots { length slots.old ≡ SLOTS }
    ensures { ReadsAll ⟦<D as Disk>⟧ streams front.old front.new slots.old slots.new result }
{
    match scan_streams(alloc, streams, front) {
        Err(ScanRefusal::NoMemory) => Err(Status::NoMemory),
        Err(ScanRefusal::Failed { stream }) => Err(Status::DiskFault { stream }),
        Err(ScanRefusal::Bad(fault)) => match read_slots(alloc, slots) {
            Err(refusal) => Err(slot_status(refusal)),
            Ok(_) => Err(Status::BadLog(fault)),
        },
        Ok(log) => match read_slots(alloc, slots) {
            Err(refusal) => Err(slot_status(refusal)),
            Ok(images) => match slots_in(alloc, images.as_slice()) {
                Err(_) => Err(Status::NoMemory),
                Ok(slots) => Ok(Found { log, slots }),
            },
        },
    }
}

/// Redoes what the checkpoint that fits best leaves to redo on its rows, or all by so many workers if none fits.
fn redo<R: Threads + Wait + Sync, G: Gate + Sync>(
    rt: &R,
    alloc: Global,
    found: &Found,
    workers: u8,
    gate: &G,
) -> Result<Tables, ReplayRefusal>
    requires log { IsLog found.now.log }
    requires workers { (1 ≤ workers) × (workers ≤ MAX_RECOVERY_WORKERS) }
    ensures ok { IfOk result (λ tables. IsRestored found.now.log (chosen found.now.log found.now.slots) tables) }
    ensures tangled { (j at : ℕ) → result ≡ Err (ReplayRefusal.Tangled j at) → IsTangledOver (left_to_redo found.now.log (chosen found.now.log found.now.slots)) j at × HaveNoOrder (left_to_redo found.now.log (chosen found.now.log found.now.slots)) }
{
    match found.slots.chosen(&found.log) {
        None => replay_threads(rt, alloc, &found.log, workers, gate),
        Some(checkpoint) => redo_after(alloc, &found.log, checkpoint),
    }
}

/// The number of the checkpoint that fits best, 0 if none fits.
fn base_number(found: &Found) -> u64
    ensures { result ≡ number_of (chosen found.now.log found.now.slots) }
{
    match found.slots.chosen(&found.log) {
        None => 0,
        Some(checkpoint) => checkpoint.number,
    }
}

/// What recovery with a checkpoint tells: its number, and then what recovery tells, with these rows.
fn restore_text(alloc: Global, found: &Found, tables: &Tables) -> Result<Vec<u8>, NoMemory>
    ensures { IfOk result (λ text. text.items ≡ base_line (chosen found.now.log found.now.slots) ++ recover_text found.now.log tables.now) }
{
    let number = base_number(found);
    let mut text = Vec::new(alloc);
    text.extend_from_slice(b"base ")?;
    put_number(&mut text, number)?;
    text.push(b'\n')?;
    put_recovery(alloc, &mut text, &found.log, tables)?;
    Ok(text)
}

/// Redoes a log on the checkpoint that fits it best, or by so many workers if none fits, and writes what recovery finds in it.
fn tell_found<R: Threads + Wait + Sync, K: Sink, G: Gate + Sync>(
    rt: &R,
    alloc: Global,
    found: &Found,
    workers: u8,
    sink: &mut K,
    gate: &G,
) -> Status
    requires log { IsLog found.now.log }
    requires workers { (1 ≤ workers) × (workers ≤ MAX_RECOVERY_WORKERS) }
    ensures told { RestoreTellsOf found.now.log found.now.slots (Wrote K.tells (K.held sink.old) (K.held sink.new)) result }
    ensures refusal { is_refusal result ≡ true → WroteFront (Wrote K.tells (K.held sink.old) (K.held sink.new)) (Rose (K.faults sink.old) (K.faults sink.new)) (fault_text result) }
    ensures tangled { (fault : LogFault) → result ≡ Status.BadLog fault → IsTangleOver (left_to_redo found.now.log (chosen found.now.log found.now.slots)) fault × HaveNoOrder (left_to_redo found.now.log (chosen found.now.log found.now.slots)) }
    ensures write_fault { result ≡ Status.WriteFault → Rose (K.faults sink.old) (K.faults sink.new) }
    ensures kind { ends_recovery result ≡ true }
    ensures no_disk { (j : ℕ) → result ≡ Status.DiskFault j → ⊥ }
{
    let tables = match redo(rt, alloc, found, workers, gate) {
        Ok(tables) => tables,
        Err(ReplayRefusal::NoMemory) => return Status::NoMemory,
        Err(ReplayRefusal::Tangled { stream, at }) => {
            let cause = LogCause::Tangled { at };
            return refuse(alloc, sink, Status::BadLog(LogFault { stream, cause }));
        }
    };
    let Ok(text) = restore_text(alloc, found, &tables) else {
        return Status::NoMemory;
    };
    match write_all(sink, &text) {
        Ok(()) => Status::Ok,
        Err(_) => Status::WriteFault,
    }
}

/// Recovers from the first `streams` disks with the better of the checkpoints in the slots, and writes what it finds. What
/// that checkpoint leaves is redone; if none fits, all is redone by so many workers.
pub fn restore<R: Threads + Wait + Sync, D: Disk, K: Sink, G: Gate + Sync>(
    rt: &R,
    alloc: Global,
    streams: u8,
    workers: u8,
    sink: &mut K,
    disks: &mut [D],
    gate: &G,
) -> Status
    requires low { 1 ≤ streams }
    requires high { streams ≤ MAX_STREAMS }
    requires workers { (1 ≤ workers) × (workers ≤ MAX_RECOVERY_WORKERS) }
    requires there { length disks.old ≡ DISKS }
    ensures ended { HasEnded ⟦<D as Disk>⟧ (record { hears = K.tells; held = K.held sink.old; held' = K.held sink.new; faults = K.faults sink.old; faults' = K.faults sink.new }) disks.old disks.new result streams }
    ensures read { HasReadAll ⟦<D as Disk>⟧ disks.old disks.new result streams }
    ensures of { OfRestore ⟦<D as Disk>⟧ (record { hears = K.tells; held = K.held sink.old; held' = K.held sink.new; faults = K.faults sink.old; faults' = K.faults sink.new }) disks.old disks.new result streams }
{
    let (front, slots) = disks.split_at_mut(MAX_STREAMS);
    match read_all(alloc, streams, front, slots) {
        Ok(found) => {
            let status = tell_found(rt, alloc, &found, workers, sink, gate);
            drop(found);
            status
        }
        Err(refusal) => refuse(alloc, sink, refusal),
    }
}
