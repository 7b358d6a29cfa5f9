//! A slot is written.
ghost use Rattle.std.specs.Prelude.{◌≡◌, ◌<◌, ◌≤◌, ◌+◌, ◌^◌, List, ℕ, length, Err, OnOk, IfOk};
ghost use Rattle.tau_ckpt.specs.Slot.{AreTables, Holds};
ghost use Rattle.tau_ckpt.specs.Writing.{EmptyIsUnborn, GateIs, HoldsNoMore, HoldsOldOrNew, IsClosed, IsQuiet, IsSpelled, calls_to_close, calls_to_look, calls_to_write};
ghost use Rattle.tau_ckpt.specs.declared.checkpoint.Checkpoint.{Checkpoint as OneCheckpoint};
ghost use Rattle.tau_ckpt.specs.declared.checkpoint.TheConstants.{MAX_NUMBER};
ghost use Rattle.tau_disk.specs.Disk.{HasCause, Only, Passes, Rose};
ghost use Rattle.tau_disk.specs.Plan.{HasMade, MadeAll, MadeSome};
ghost use Rattle.tau_disk.specs.Used.{OnlyRead};

use crate::checkpoint::{Checkpoint, MAX_NUMBER};
use crate::refusal::CheckRefusal;
use crate::spell::slot_bytes;
use std::alloc::Global;
use tau_disk::{Disk, Failed, write_durably};

const CLOSED: [u8; 1] = [0];

const OPEN: [u8; 1] = [1];

/// Writes a checkpoint into the slot, whose disk this is. An open gate, or one that is not there, is closed first; then all
/// bytes behind the gate are written and synced, and then the gate is opened. A gate that is closed already is not written.
pub fn write_checkpoint<D: Disk>(
    alloc: Global,
    disk: &mut D,
    slot: u8,
    value: &Checkpoint,
) -> Result<(), CheckRefusal>
    requires slot { slot ≤ 1 }
    requires low { 1 ≤ value.now.number }
    requires high { value.now.number ≤ MAX_NUMBER }
    requires tables { AreTables value.now.rows }
    requires quiet { D.tells → IsQuiet (D.seen disk.old) (D.may_leave disk.old) }

    // At each moment every image that a stop may leave holds none, the old checkpoint or the new one, if a stop at the entry
    // leaves at most 17 bytes of a slot that has no byte.
    ensures moments { D.tells → EmptyIsUnborn (D.seen disk.old) (D.may_leave disk.old) → Passes D.moment D.may_leave_since disk.old disk.new (HoldsOldOrNew slot (D.seen disk.old) value.now) }
    // After Ok a stop leaves one image, and it holds the new one.
    ensures done { OnOk result (D.tells → Holds slot (D.seen disk.new) value.now) }
    ensures durable { OnOk result (D.tells → Only (D.seen disk.new) (D.may_leave disk.new)) }

    // The calls that it made of the disk.
    ensures made { OnOk result (D.tells → MadeAll (calls_to_write (D.seen disk.old)) (D.number disk.old) (D.number disk.new) (D.fails disk.old) (D.short disk.old) (D.short disk.new)) }
    ensures made_err { result ≡ Err CheckRefusal.Failed → D.tells → MadeSome (calls_to_write (D.seen disk.old)) (D.number disk.old) (D.number disk.new) (D.fails disk.old) (D.short disk.new) }
    ensures plan { D.tells → (k : ℕ) → D.fails disk.new k ≡ D.fails disk.old k }

    ensures memory { result ≡ Err CheckRefusal.NoMemory → disk.new ≡ disk.old }
    ensures failed { result ≡ Err CheckRefusal.Failed → Rose (D.faults disk.old) (D.faults disk.new) }
    ensures faults { D.faults disk.old ≤ D.faults disk.new }
{
    let bytes = slot_bytes(alloc, slot, value)?;
    match put_slot(disk, &bytes) {
        Ok(()) => Ok(()),
        Err(_) => Err(CheckRefusal::Failed),
    }
}

// Writes the bytes behind a closed gate, and opens it.
fn put_slot<D: Disk>(disk: &mut D, bytes: &[u8]) -> Result<(), Failed>
    requires quiet { D.tells → IsQuiet (D.seen disk.old) (D.may_leave disk.old) }
    requires end { 1 + length bytes.now < 2 ^ 62 }
    ensures moments { D.tells → EmptyIsUnborn (D.seen disk.old) (D.may_leave disk.old) → (slot : ℕ) (c : OneCheckpoint) → IsSpelled slot c bytes.now →
        Passes D.moment D.may_leave_since disk.old disk.new (HoldsOldOrNew slot (D.seen disk.old) c) }
    ensures done { OnOk result (D.tells → (slot : ℕ) (c : OneCheckpoint) → IsSpelled slot c bytes.now → Holds slot (D.seen disk.new) c) }
    ensures durable { OnOk result (D.tells → Only (D.seen disk.new) (D.may_leave disk.new)) }
    ensures plan { D.tells → HasMade (calls_to_write (D.seen disk.old)) (D.number disk.old) (D.number disk.new) (D.fails disk.old) (D.fails disk.new) (D.short disk.old) (D.short disk.new) result }
    ensures cause { HasCause (D.faults disk.old) (D.faults disk.new) result }
{
    close_gate(disk)?;
    write_durably(disk, 1, bytes)?;
    write_durably(disk, 0, &OPEN)?;
    Ok(())
}

// Closes the gate, if it is open or not there.
fn close_gate<D: Disk>(disk: &mut D) -> Result<(), Failed>
    requires quiet { D.tells → IsQuiet (D.seen disk.old) (D.may_leave disk.old) }
    ensures closed { OnOk result (D.tells → IsClosed (D.seen disk.new) (D.may_leave disk.new)) }
    ensures moments { D.tells → EmptyIsUnborn (D.seen disk.old) (D.may_leave disk.old) → (slot : ℕ) → Passes D.moment D.may_leave_since disk.old disk.new (HoldsNoMore slot (D.seen disk.old)) }
    ensures plan { D.tells → HasMade (calls_to_close (D.seen disk.old)) (D.number disk.old) (D.number disk.new) (D.fails disk.old) (D.fails disk.new) (D.short disk.old) (D.short disk.new) result }
    ensures cause { HasCause (D.faults disk.old) (D.faults disk.new) result }
{
    if is_closed(disk)? {
        return Ok(());
    }
    write_durably(disk, 0, &CLOSED)
}

// Whether the slot has a gate that is closed.
fn is_closed<D: Disk>(disk: &mut D) -> Result<bool, Failed>
    ensures gate { IfOk result (λ closed. D.tells → GateIs closed (D.seen disk.old)) }
    ensures read { OnlyRead D.tells D.seen D.may_leave D.moment D.may_leave_since disk.old disk.new }
    ensures plan { D.tells → HasMade (calls_to_look (D.seen disk.old)) (D.number disk.old) (D.number disk.new) (D.fails disk.old) (D.fails disk.new) (D.short disk.old) (D.short disk.new) result }
    ensures cause { HasCause (D.faults disk.old) (D.faults disk.new) result }
{
    let length = disk.len()?;
    if length == 0 {
        return Ok(false);
    }
    let mut gate = [0];
    disk.read_at(0, &mut gate)?;
    Ok(gate[0] != 1)
}
