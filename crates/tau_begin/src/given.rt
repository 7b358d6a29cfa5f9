//! What streams are given before the first call of a run.
ghost use Rattle.std.specs.Prelude.{◌≡◌, ◌≤◌, ◌<◌, ◌+◌, ◌*◌, ◌^◌, ℕ, List, [], length, IfOk};
ghost use Rattle.tau_base.specs.declared.limits.TheConstants.{MAX_CATALOGUE, MAX_STREAMS};
ghost use Rattle.tau_block.specs.Image.{IsBody};
ghost use Rattle.tau_scan.specs.Contents.{bytes_in};
ghost use Rattle.tau_scan.specs.Given.{epoch_record, given_after};
ghost use Rattle.tau_begin.specs.Given.{all_empty, next_epoch};
ghost use Rattle.tau_epoch.specs.Epochs.{largest};
ghost use Rattle.tau_scan.specs.Epochs.{marks_of};

use std::alloc::Global;
use tau_base::{Lv, NoMemory};
use tau_block::Content;
use tau_record::{encode_catalogue, encode_epoch};
use tau_scan::{Log, largest_epoch};

/// Whether the contents of all streams are empty.
pub fn all_empty(contents: &[Content]) -> bool
    ensures { result ≡ all_empty (bytes_in contents.now) }
{
    for content in contents {
        if content.bytes.len() > 0 {
            return false;
        }
    }
    true
}

/// The number of the epoch of a run on these contents: 0 on empty ones, else the one after the largest known.
pub fn next_epoch(contents: &[Content], log: &Log) -> Result<u32, NoMemory>
    ensures is { IfOk result (λ n. n ≡ next_epoch (bytes_in contents.now) log.now) }
    ensures small { IfOk result (λ n. n < 2 ^ 32) }
{
    if all_empty(contents) {
        return Ok(0);
    }
    match largest_epoch(log.streams.as_slice()).checked_add(1) {
        Some(number) => Ok(number),
        None => Err(NoMemory),
    }
}

/// The record of the epoch; nothing for epoch 0.
fn epoch_bytes(alloc: Global, epoch: u32, elv: &Lv) -> Result<Vec<u8>, NoMemory>
    ensures is { IfOk result (λ v. v.items ≡ epoch_record epoch elv.now) }
    ensures long { IfOk result (λ v. length v.items ≤ 9 + 8 * MAX_STREAMS) }
    ensures some { IfOk result (λ v. 1 ≤ epoch → 5 ≤ length v.items) }
{
    let _positions = elv.as_slice();
    if epoch == 0 {
        return Ok(Vec::new(alloc));
    }
    encode_epoch(alloc, epoch, elv)
}

/// What a stream with this content is given: the catalogue with this text if the content is empty, and the epoch's record.
pub fn given_after(
    alloc: Global,
    content: &[u8],
    text: &[u8],
    epoch: u32,
    elv: &Lv,
) -> Result<Vec<u8>, NoMemory>
    requires { length text.now ≤ MAX_CATALOGUE }
    ensures is { IfOk result (λ v. v.items ≡ given_after text.now epoch elv.now content.now) }
    // It is one block of records, if the content is empty in epoch 0.
    ensures body { IfOk result (λ v. (epoch ≡ 0 → length content.now ≡ 0) → IsBody v.items × (5 ≤ length v.items)) }
{
    let marks = epoch_bytes(alloc, epoch, elv)?;
    if content.len() > 0 {
        return Ok(marks);
    }
    let mut body = encode_catalogue(alloc, text)?;
    body.extend_from_slice(&marks)?;
    Ok(body)
}
