//! What an image of a slot holds.
ghost use Rattle.std.specs.Prelude.{◌≡◌, ◌<◌, ◌≤◌, ◌^◌, length, IfOk, IfSome, IfNone};
ghost use Rattle.std.specs.List.{list_all};
ghost use Rattle.tau_base.specs.declared.limits.TheConstants.{MAX_STREAMS};
ghost use Rattle.tau_ckpt.specs.Slot.{Holds, HoldsNone, IsBody};
ghost use Rattle.tau_ckpt.specs.declared.checkpoint.Checkpoint.{Checkpoint as OneCheckpoint};
ghost use Rattle.tau_model.specs.Tables.{is_present};

use crate::checkpoint::{Checkpoint, MAX_NUMBER};
use crate::front::{framed, head_of};
use std::alloc::Global;
use tau_base::{Key, NoMemory, Value};
use tau_model::Tables;
use tau_record::read_writes;

/// The checkpoint that an image of this slot holds; none exactly if it holds none. Bytes after the checkpoint do not count.
pub fn checkpoint_of(alloc: Global, slot: u8, image: &[u8]) -> Result<Option<Checkpoint>, NoMemory>
    ensures some { IfOk result (λ found. IfSome found (λ c. Holds slot image.now c)) }
    ensures none { IfOk result (λ found. IfNone found (HoldsNone slot image.now)) }
{
    if slot > 1 {
        return Ok(None);
    }
    let Some((streams, body)) = framed(slot, image) else {
        return Ok(None);
    };
    checkpoint_in(alloc, streams, body)
}

// The checkpoint for so many streams whose body these bytes are, all of them.
fn checkpoint_in(alloc: Global, streams: u16, body: &[u8]) -> Result<Option<Checkpoint>, NoMemory>
    requires low { 1 ≤ streams }
    requires high { streams ≤ MAX_STREAMS }
    requires short { length body.now < 2 ^ 64 }
    ensures some { IfOk result (λ found. IfSome found (λ c. IsBody streams body.now c)) }
    ensures none { IfOk result (λ found. IfNone found ((c : OneCheckpoint) → IsBody streams body.now c → ⊥)) }
{
    let Some((head, rest)) = head_of(streams, body) else {
        return Ok(None);
    };
    if head.number < 1 {
        return Ok(None);
    }
    if head.number > MAX_NUMBER {
        return Ok(None);
    }
    let Some((rows, left)) = read_writes(alloc, head.count, rest)? else {
        return Ok(None);
    };
    if !left.is_empty() {
        return Ok(None);
    }
    if !are_present(&rows) {
        return Ok(None);
    }
    Ok(Some(Checkpoint {
        number: head.number,
        epoch: head.epoch,
        lv: head.lv,
        rows: Tables::of(rows),
    }))
}

// Whether no row is absent.
fn are_present(rows: &[(Key, Value)]) -> bool
    ensures { result ≡ list_all is_present rows.now }
{
    rows.iter().all(|row| is_present(row))
}

fn is_present(row: &(Key, Value)) -> bool
    ensures { result ≡ is_present row.now }
{
    match &row.1 {
        Value::Absent => false,
        Value::Int(_) => true,
        Value::Text(_) => true,
    }
}
