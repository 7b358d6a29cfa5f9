//! Slots that are written, on disks that stop too.
ghost use Rattle.std.specs.Prelude.{◌≡◌, IfOk};
ghost use Rattle.tau_ckpt.specs.Slot.{AreTables};

use crate::names::bytes_of;
use crate::slots::says;
use std::alloc::Global;
use tau_base::{Key, Lv, NoMemory, Value};
use tau_ckpt::{CheckRefusal, Checkpoint, checkpoint_of, write_checkpoint};
use tau_disk::{MemDisk, Tear};
use tau_model::Tables;

/// The rows of a table whose row 1 holds this amount.
fn one_row(alloc: Global, amount: i64) -> Result<Tables, NoMemory>
    ensures { IfOk result AreTables }
{
    let mut rows = Vec::new(alloc);
    rows.push((Key { table: 0, row: 1 }, Value::Int(amount)))?;
    Ok(Tables::of(rows))
}

/// A checkpoint of two streams up to 53 and 61, with that row.
fn checkpoint(alloc: Global, number: u64, amount: i64) -> Result<Checkpoint, NoMemory>
    ensures number { IfOk result (λ c. c.number ≡ number) }
    ensures tables { IfOk result (λ c. AreTables c.rows) }
{
    let rows = one_row(alloc, amount)?;
    let lv = Lv::zero(2).with(0, 53).with(1, 61);
    Ok(Checkpoint {
        number,
        epoch: 0,
        lv,
        rows,
    })
}

/// Writes checkpoint 1 and then checkpoint 2 into slot 0 of a disk, which stops at this call.
fn written(alloc: Global, from: u32) -> Result<(MemDisk, Result<(), CheckRefusal>), NoMemory> {
    let first = checkpoint(alloc, 1, 7)?;
    let second = checkpoint(alloc, 2, 8)?;
    let mut disk = MemDisk::stopping(alloc, from, false)?;
    match write_checkpoint(alloc, &mut disk, 0, &first) {
        Ok(()) => {}
        Err(refusal) => return Ok((disk, Err(refusal))),
    }
    let done = write_checkpoint(alloc, &mut disk, 0, &second);
    Ok((disk, done))
}

/// The number of the checkpoint that a stop leaves; 0 if it leaves none.
fn left(alloc: Global, disk: &MemDisk, tear: Tear) -> Option<u64> {
    let image = disk.image(tear).ok()?;
    match checkpoint_of(alloc, 0, image.as_slice()).ok()? {
        Some(found) => Some(found.number),
        None => Some(0),
    }
}

/// `stop`: whether both checkpoints are written on a disk that stops at this call, as 1 or 0, and the number of the checkpoint
/// that is left of what was synced, of all that was written, and where the bytes that were not synced read 7.
pub fn stops(alloc: Global, call: &str, wanted: &str) -> Option<bool> {
    let (disk, done) = written(alloc, call.parse::<u32>().ok()?).ok()?;
    let found = [
        u64::from(done.is_ok()),
        left(alloc, &disk, Tear::Old)?,
        left(alloc, &disk, Tear::New)?,
        left(alloc, &disk, Tear::Torn)?,
    ];
    says(wanted, &found)
}

/// The bytes of a slot that had this image, once checkpoint 1 was written, and how many calls that made.
fn rewritten(alloc: Global, image: &[u8]) -> Result<(Vec<u8>, u64), CheckRefusal> {
    let value = checkpoint(alloc, 1, 7)?;
    let mut disk = MemDisk::of_image(alloc, image)?;
    write_checkpoint(alloc, &mut disk, 0, &value)?;
    Ok((disk.image(Tear::Old)?, disk.calls()))
}

/// `write`: whether writing checkpoint 1 over this image makes so many calls, and leaves this image.
pub fn writes(alloc: Global, words: &str, wanted: &str) -> Option<bool> {
    let (calls, after) = wanted.split_once(' ')?;
    let image = bytes_of(alloc, words)?;
    let (bytes, made) = rewritten(alloc, image.as_slice()).ok()?;
    let same = bytes.as_slice() == bytes_of(alloc, after)?.as_slice();
    Some(same && says(calls, &[made])?)
}
