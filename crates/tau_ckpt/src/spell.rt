//! The bytes of a slot after its gate.
ghost use Rattle.std.specs.Prelude.{◌≡◌, ◌<◌, ◌≤◌, ◌+◌, ◌*◌, ◌++◌, ◌^◌, length, IfOk, OnOk};
ghost use Rattle.std.specs.Int.{w64, to_be_bytes};
ghost use Rattle.std.specs.List.{flat_map};
ghost use Rattle.tau_ckpt.specs.Slot.{AreTables, head_of, head_text};
ghost use Rattle.tau_ckpt.specs.Writing.{IsSpelled};
ghost use Rattle.tau_record.specs.Item.{write};
ghost use Rattle.tau_record.specs.Vector.{ArePlaces};
ghost use Rattle.tau_ckpt.specs.declared.checkpoint.TheConstants.{MAX_NUMBER};

use crate::checkpoint::{Checkpoint, MAX_NUMBER};
use crate::front::{FRAME, frame};
use std::alloc::{AllocError, Global};
use tau_base::{Key, Lv, NoMemory, Value};
use tau_record::put_writes;

/// No memory has room for the bytes of more rows.
const MOST_ROWS: usize = 1_125_899_906_842_624;

/// How many bytes a row takes.
fn row_size(row: &(Key, Value)) -> usize
    ensures exact { result ≡ length (write row.now) }
    ensures small { result ≤ 77 }
{
    match &row.1 {
        Value::Absent => 11,
        Value::Int(_) => 19,
        Value::Text(text) => 13 + text.as_str().len(),
    }
}

/// How many bytes the rows take.
fn rows_size(rows: &[(Key, Value)]) -> usize
    requires { length rows.now ≤ MOST_ROWS }
    ensures exact { result ≡ length (flat_map write rows.now) }
    ensures small { result ≤ 77 * length rows.now }
{
    let mut size = 0;
    for row in rows {
        size += row_size(row);
    }
    size
}

/// Puts the positions after the bytes.
fn put_positions(out: &mut Vec<u8>, lv: &Lv) -> Result<(), AllocError>
    ensures bytes { OnOk result (out.new.items ≡ out.old.items ++ flat_map (to_be_bytes w64) lv.now) }
    ensures places { OnOk result (ArePlaces lv.now) }
{
    for j in 0..lv.width() {
        out.extend_from_slice(&lv.get(j).to_be_bytes())?;
    }
    Ok(())
}

/// Puts the fields of a body before its rows after the bytes.
fn put_head(out: &mut Vec<u8>, value: &Checkpoint) -> Result<(), AllocError>
    ensures bytes { OnOk result (out.new.items ≡ out.old.items ++ head_text (head_of value.now)) }
    ensures places { OnOk result (ArePlaces value.now.lv) }
{
    out.extend_from_slice(&value.number.to_be_bytes())?;
    out.extend_from_slice(&value.epoch.to_be_bytes())?;
    put_positions(out, &value.lv)?;
    out.extend_from_slice(&(value.rows.rows().len() as u64).to_be_bytes())?;
    Ok(())
}

/// The bytes of a checkpoint in this slot, after its gate, in a list that has room for no more.
pub(crate) fn slot_bytes(alloc: Global, slot: u8, value: &Checkpoint) -> Result<Vec<u8>, NoMemory>
    requires slot { slot ≤ 1 }
    requires low { 1 ≤ value.now.number }
    requires high { value.now.number ≤ MAX_NUMBER }
    requires tables { AreTables value.now.rows }
    ensures spelled { IfOk result (λ bytes. IsSpelled slot value.now bytes.items) }
    ensures small { IfOk result (λ bytes. 1 + length bytes.items < 2 ^ 62) }
{
    let rows = value.rows.rows();
    if rows.len() > MOST_ROWS {
        return Err(NoMemory);
    }
    let streams = value.lv.width();
    let size = 20 + 8 * streams + rows_size(rows);
    let mut bytes = Vec::with_capacity(alloc, FRAME + size)?;
    bytes.extend_from_slice(&frame(streams as u16, slot, size as u64))?;
    put_head(&mut bytes, value)?;
    put_writes(&mut bytes, rows)?;
    Ok(bytes)
}
