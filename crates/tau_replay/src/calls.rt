//! Calls that are executed outside the lock.
ghost use Rattle.std.specs.Prelude.{◌≡◌, ◌<◌, List, [], true};
ghost use Rattle.tau_base.specs.declared.value.Call.{Call as Called};
ghost use Rattle.tau_proc.specs.declared.proc.Proc.{Proc};
ghost use Rattle.tau_proc.specs.Progress.{buffered, next_want, wants_left};
ghost use Rattle.tau_replay.specs.Result.{DoesJust, Executes, IsExecuted, IsTrying};
ghost use Rattle.tau_replay.specs.Rule.{IsIdle};

use crate::ahead::found;
use crate::lock::Lock;
use crate::outcome::Scratch;
use crate::view::Seat;
use std::sync::Wait;
use tau_base::{Key, Value};
use tau_pool::Job;
use tau_proc::{Procs, Want};
use tau_record::Entry;
use tau_scan::Log;

/// The value of a row, read under the lock.
fn row<R: Wait>(rt: &R, lock: &Lock, seat: &mut Seat, key: Key) -> Value
    requires own { seat.old.table_id ≡ lock.now.table.shared.table_id }
    requires idle { IsIdle seat.old.me }
    ensures own { seat.new.table_id ≡ seat.old.table_id }
    ensures same { seat.new.me ≡ seat.old.me }
{
    let part = lock.take(rt, seat);
    let value = part.replay.store.value(key);
    lock.give(seat, part);
    value
}

/// Gives the row that is wanted its value as it was read ahead, else as it is read now. Whether there was memory.
fn give_row<R: Wait>(
    rt: &R,
    lock: &Lock,
    seat: &mut Seat,
    key: Key,
    ahead: &[(Key, Value)],
    scratch: &mut Scratch,
) -> bool
    requires own { seat.old.table_id ≡ lock.now.table.shared.table_id }
    requires idle { IsIdle seat.old.me }
    requires wants { next_want scratch.old.machine ≡ Want.Read key }
    ensures own { seat.new.table_id ≡ seat.old.table_id }
    ensures same { seat.new.me ≡ seat.old.me }
    ensures call { scratch.new.call ≡ scratch.old.call }
    ensures trying { (procs : List Proc) (call : Called) → IsTrying procs call scratch.old.reads.items scratch.old.machine → result ≡ true → IsTrying procs call scratch.new.reads.items scratch.new.machine }
    ensures fewer { result ≡ true → wants_left scratch.new.machine < wants_left scratch.old.machine }
{
    match found(ahead, key) {
        Some(value) => scratch.give(key, value),
        None => scratch.give(key, &row(rt, lock, seat, key)),
    }
}

/// Executes the call of the scratch outside the lock, on values that are each read under it. Whether it came to its end.
fn try_call<R: Wait>(
    rt: &R,
    lock: &Lock,
    seat: &mut Seat,
    procs: &Procs,
    ahead: &[(Key, Value)],
    scratch: &mut Scratch,
) -> bool
    requires own { seat.old.table_id ≡ lock.now.table.shared.table_id }
    requires idle { IsIdle seat.old.me }
    ensures own { seat.new.table_id ≡ seat.old.table_id }
    ensures same { seat.new.me ≡ seat.old.me }
    ensures executed { result ≡ true → Executes procs.now scratch.old.call scratch.new.reads.items (buffered scratch.new.machine) }
{
    if !procs.takes(&scratch.call) {
        return false;
    }
    scratch.machine.restart(procs, &scratch.call);
    scratch.reads.clear();
    'wants: loop {
        match scratch.machine.next() {
            Want::Read(key) => {
                if !give_row(rt, lock, seat, key, ahead, scratch) {
                    return false;
                }
            }
            Want::Write(_) => return true,
            Want::Finished(_) => return true,
        }
    }
}

/// The same of a record, where it is a command record.
fn try_entry<R: Wait>(
    rt: &R,
    lock: &Lock,
    seat: &mut Seat,
    procs: &Procs,
    entry: &Entry,
    ahead: &[(Key, Value)],
    scratch: &mut Scratch,
) -> bool
    requires own { seat.old.table_id ≡ lock.now.table.shared.table_id }
    requires idle { IsIdle seat.old.me }
    ensures own { seat.new.table_id ≡ seat.old.table_id }
    ensures same { seat.new.me ≡ seat.old.me }
    ensures executed { result ≡ true → IsExecuted procs.now entry.now scratch.new.reads.items (buffered scratch.new.machine) }
{
    match entry {
        Entry::Command { call, .. } => {
            call.put_into(&mut scratch.call);
            try_call(rt, lock, seat, procs, ahead, scratch)
        }
        Entry::Written { .. } => false,
        Entry::Anchor { .. } => false,
        Entry::Catalogue { .. } => false,
        Entry::Epoch { .. } => false,
    }
}

/// The same of the record of a job.
pub fn try_job<R: Wait>(
    rt: &R,
    lock: &Lock,
    seat: &mut Seat,
    log: &Log,
    job: Job,
    ahead: &[(Key, Value)],
    scratch: &mut Scratch,
) -> bool
    requires own { seat.old.table_id ≡ lock.now.table.shared.table_id }
    requires idle { IsIdle seat.old.me }
    ensures own { seat.new.table_id ≡ seat.old.table_id }
    ensures same { seat.new.me ≡ seat.old.me }
    ensures just { result ≡ true → DoesJust log.now job scratch.new.reads.items (buffered scratch.new.machine) }
{
    let Some(records) = log.streams.as_slice().get(usize::from(job.stream)) else {
        return false;
    };
    let Some(placed) = records.as_slice().get(job.index) else {
        return false;
    };
    try_entry(
        rt,
        lock,
        seat,
        &log.declarations.procs,
        &placed.entry,
        ahead,
        scratch,
    )
}
