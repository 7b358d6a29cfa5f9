//! What commands share that look at the log of the first disks.
ghost use Rattle.std.specs.Prelude.{◌≡◌, ◌≤◌, true, length};
ghost use Rattle.tau_base.specs.declared.limits.TheConstants.{MAX_STREAMS};
ghost use Rattle.tau_disk.specs.Disk.{Rose};
ghost use Rattle.tau_commands.specs.Fault.{TellsFault};
ghost use Rattle.tau_commands.specs.First.{ReadsFirst, status_at};
ghost use Rattle.tau_commands.specs.Inspecting.{TellsText};
ghost use Rattle.tau_commands.specs.Outside.{Wrote, ends_rehearsal};

use crate::fault::refuse;
use crate::status::Status;
use std::alloc::Global;
use tau_disk::{Disk, Sink, write_all};
use tau_scan::{Log, ScanRefusal, scan_contents};

/// The log of the first disks, in the format that they state.
pub fn scan_first<D: Disk>(
    alloc: Global,
    streams: usize,
    disks: &mut [D],
) -> Result<Log, ScanRefusal>
    requires low { 1 ≤ streams }
    requires high { streams ≤ MAX_STREAMS }
    requires there { streams ≤ length disks.old }
    ensures { ReadsFirst ⟦<D as Disk>⟧ disks.old disks.new streams result }
{
    match scan_contents(alloc, &mut disks[..streams], None) {
        Ok((log, _contents)) => Ok(log),
        Err(refusal) => Err(refusal),
    }
}

/// Tells why the first disks give no log.
pub fn refuse_scan<K: Sink>(alloc: Global, sink: &mut K, refusal: ScanRefusal) -> Status
    ensures { TellsFault (Wrote K.tells (K.held sink.old) (K.held sink.new)) (Rose (K.faults sink.old) (K.faults sink.new)) (status_at refusal) result }
{
    match refusal {
        ScanRefusal::NoMemory => Status::NoMemory,
        ScanRefusal::Failed { stream } => refuse(alloc, sink, Status::DiskFault { stream }),
        ScanRefusal::Bad(fault) => refuse(alloc, sink, Status::BadLog(fault)),
    }
}

/// Writes a text. A sink that fails may have got a first part of it.
pub fn tell<K: Sink>(sink: &mut K, text: &[u8]) -> Status
    ensures told { TellsText text.now (Wrote K.tells (K.held sink.old) (K.held sink.new)) result }
    ensures kind { ends_rehearsal result ≡ true }
    ensures write_fault { result ≡ Status.WriteFault → Rose (K.faults sink.old) (K.faults sink.new) }
{
    match write_all(sink, text) {
        Ok(()) => Status::Ok,
        Err(_) => Status::WriteFault,
    }
}
