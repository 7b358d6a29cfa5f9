//! What the streams hold, record by record.
ghost use Rattle.std.specs.Prelude.{◌≡◌, ◌≤◌, true, length};
ghost use Rattle.tau_base.specs.declared.limits.TheConstants.{MAX_STREAMS};
ghost use Rattle.tau_disk.specs.Disk.{Rose};
ghost use Rattle.tau_inspect.specs.Inspection as told;
ghost use Rattle.tau_commands.specs.Inspecting.{OfInspect, TellsText};
ghost use Rattle.tau_commands.specs.Outside.{Wrote, ends_rehearsal};
ghost use Rattle.tau_commands.specs.Reads.{HasOnlyRead};

use crate::look::{refuse_scan, scan_first, tell};
use crate::status::Status;
use std::alloc::Global;
use tau_disk::{Disk, Sink};
use tau_inspect::inspect_text;
use tau_scan::Log;

/// Writes what a log holds.
fn tell_records<K: Sink>(alloc: Global, log: &Log, sink: &mut K) -> Status
    ensures told { TellsText (told.inspect_text log.now) (Wrote K.tells (K.held sink.old) (K.held sink.new)) result }
    ensures kind { ends_rehearsal result ≡ true }
    ensures write_fault { result ≡ Status.WriteFault → Rose (K.faults sink.old) (K.faults sink.new) }
{
    match inspect_text(alloc, log) {
        Ok(text) => tell(sink, &text),
        Err(_) => Status::NoMemory,
    }
}

/// Writes what the first `streams` disks hold: the end-of-log vector, and a line for each record.
pub fn inspect<D: Disk, K: Sink>(
    alloc: Global,
    streams: usize,
    sink: &mut K,
    disks: &mut [D],
) -> Status
    requires low { 1 ≤ streams }
    requires high { streams ≤ MAX_STREAMS }
    requires there { streams ≤ length disks.old }
    ensures read { HasOnlyRead ⟦<D as Disk>⟧ (record { hears = K.tells; held = K.held sink.old; held' = K.held sink.new; faults = K.faults sink.old; faults' = K.faults sink.new }) disks.old disks.new result streams }
    ensures of { OfInspect ⟦<D as Disk>⟧ (record { hears = K.tells; held = K.held sink.old; held' = K.held sink.new; faults = K.faults sink.old; faults' = K.faults sink.new }) disks.old disks.new result streams }
{
    match scan_first(alloc, streams, disks) {
        Ok(log) => tell_records(alloc, &log, sink),
        Err(refusal) => refuse_scan(alloc, sink, refusal),
    }
}
