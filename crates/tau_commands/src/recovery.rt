//! Recovery.
ghost use Rattle.std.specs.Prelude.{ℕ, ◌≡◌, ◌≤◌, List, true, length};
ghost use Rattle.tau_base.specs.declared.limits.TheConstants.{MAX_RECOVERY_WORKERS, MAX_STREAMS};
ghost use Rattle.tau_disk.specs.Disk.{Rose};
ghost use Rattle.tau_scan.specs.declared.fault.LogFault.{LogFault};
ghost use Rattle.tau_scan.specs.Reading.{IsLog};
ghost use Rattle.tau_scan.specs.Taken.{Kept};
ghost use Rattle.tau_replay.specs.Redone.{IsOrderOf};
ghost use Rattle.tau_run.specs.RunFacts.{WroteFront};
ghost use Rattle.tau_commands.specs.Recovery.{OfRecover, LogTells, IsTangle};
ghost use Rattle.tau_commands.specs.Fault.{fault_text, is_refusal};
ghost use Rattle.tau_commands.specs.Outside.{Wrote, ends_recovery};
ghost use Rattle.tau_commands.specs.Reads.{HasOnlyRead};

use crate::fault::refuse;
use crate::look::{refuse_scan, scan_first};
use crate::status::Status;
use std::alloc::Global;
use std::sync::Wait;
use std::thread::Threads;
use tau_disk::{Disk, Gate, Sink, write_all};
use tau_replay::replay_threads;
use tau_report::recover_text;
use tau_scan::{Log, LogCause, LogFault, ReplayRefusal};

/// Redoes a log by so many workers, and writes what recovery finds in it.
fn tell_log<R: Threads + Wait + Sync, K: Sink, G: Gate + Sync>(
    rt: &R,
    alloc: Global,
    log: &Log,
    workers: u8,
    sink: &mut K,
    gate: &G,
) -> Status
    requires log { IsLog log.now }
    requires workers { (1 ≤ workers) × (workers ≤ MAX_RECOVERY_WORKERS) }
    ensures told { LogTells log.now (Wrote K.tells (K.held sink.old) (K.held sink.new)) result }
    ensures refusal { is_refusal result ≡ true → WroteFront (Wrote K.tells (K.held sink.old) (K.held sink.new)) (Rose (K.faults sink.old) (K.faults sink.new)) (fault_text result) }
    ensures tangled { (fault : LogFault) → result ≡ Status.BadLog fault → IsTangle log.now fault × ((order : List Kept) → IsOrderOf log.now order → ⊥) }
    ensures write_fault { result ≡ Status.WriteFault → Rose (K.faults sink.old) (K.faults sink.new) }
    ensures kind { ends_recovery result ≡ true }
    ensures no_disk { (j : ℕ) → result ≡ Status.DiskFault j → ⊥ }
{
    let tables = match replay_threads(rt, alloc, log, workers, gate) {
        Ok(tables) => tables,
        Err(ReplayRefusal::NoMemory) => return Status::NoMemory,
        Err(ReplayRefusal::Tangled { stream, at }) => {
            let cause = LogCause::Tangled { at };
            return refuse(alloc, sink, Status::BadLog(LogFault { stream, cause }));
        }
    };
    let Ok(text) = recover_text(alloc, log, &tables) else {
        return Status::NoMemory;
    };
    match write_all(sink, &text) {
        Ok(()) => Status::Ok,
        Err(_) => Status::WriteFault,
    }
}

/// Recovers from the first `streams` disks by so many workers, and writes what it finds.
pub fn recover<R: Threads + Wait + Sync, D: Disk, K: Sink, G: Gate + Sync>(
    rt: &R,
    alloc: Global,
    streams: usize,
    workers: u8,
    sink: &mut K,
    disks: &mut [D],
    gate: &G,
) -> Status
    requires workers { (1 ≤ workers) × (workers ≤ MAX_RECOVERY_WORKERS) }
    requires low { 1 ≤ streams }
    requires high { streams ≤ MAX_STREAMS }
    requires there { streams ≤ length disks.old }

    ensures read { HasOnlyRead ⟦<D as Disk>⟧ (record { hears = K.tells; held = K.held sink.old; held' = K.held sink.new; faults = K.faults sink.old; faults' = K.faults sink.new }) disks.old disks.new result streams }
    ensures of { OfRecover ⟦<D as Disk>⟧ (record { hears = K.tells; held = K.held sink.old; held' = K.held sink.new; faults = K.faults sink.old; faults' = K.faults sink.new }) disks.old disks.new result streams }
{
    match scan_first(alloc, streams, disks) {
        Ok(log) => tell_log(rt, alloc, &log, workers, sink, gate),
        Err(refusal) => refuse_scan(alloc, sink, refusal),
    }
}
