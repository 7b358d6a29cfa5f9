//! What slots hold, and what comes next of what they hold.

use crate::names::bytes_of;
use std::alloc::Global;
use tau_base::{Lv, Value};
use tau_ckpt::{Checkpoint, SLOTS, Slots, checkpoint_of};
use tau_model::Tables;
use tau_scan::LogCause;

/// Whether a text says these numbers.
pub fn says(text: &str, numbers: &[u64]) -> Option<bool> {
    let mut words = text.split(' ');
    for number in numbers {
        if words.next()?.parse::<u64>().ok()? != *number {
            return Some(false);
        }
    }
    Some(words.next().is_none())
}

/// Puts the table, the row and the amount of each row.
pub fn put_rows(numbers: &mut Vec<u64>, rows: &Tables) -> Option<()> {
    for (key, value) in rows.rows() {
        let Value::Int(amount) = value else {
            return None;
        };
        numbers.push(u64::from(key.table)).ok()?;
        numbers.push(u64::try_from(key.row).ok()?).ok()?;
        numbers.push(u64::try_from(*amount).ok()?).ok()?;
    }
    Some(())
}

/// Whether a checkpoint is this: the number, the epoch, the positions and the rows.
pub fn is_checkpoint(alloc: Global, found: &Checkpoint, wanted: &str) -> Option<bool> {
    let front = [found.number, u64::from(found.epoch)];
    let mut numbers = Vec::from_slice(alloc, &front).ok()?;
    numbers.extend_from_slice(found.lv.as_slice()).ok()?;
    put_rows(&mut numbers, &found.rows)?;
    says(wanted, numbers.as_slice())
}

/// `read`: whether an image of a slot holds this.
pub fn reads(alloc: Global, text: &str, wanted: &str) -> Option<bool> {
    let (slot, words) = text.split_once(' ')?;
    let image = bytes_of(alloc, words)?;
    match checkpoint_of(alloc, slot.parse::<u8>().ok()?, image.as_slice()).ok()? {
        Some(found) => is_checkpoint(alloc, &found, wanted),
        None => Some(wanted == "none"),
    }
}

/// `hold`: whether so many checkpoints are held by each of two slots with these images.
pub fn hold(alloc: Global, text: &str, wanted: &str) -> Option<bool> {
    let (first, second) = text.split_once(" / ")?;
    let first = bytes_of(alloc, first)?;
    let second = bytes_of(alloc, second)?;
    let slots = Slots::of_images(alloc, first.as_slice(), second.as_slice()).ok()?;
    let held = [
        u64::from(slots.first.is_some()),
        u64::from(slots.second.is_some()),
    ];
    says(wanted, &held)
}

/// A checkpoint without rows: its number, its epoch, and its positions in two streams, or zeros in three.
pub fn held(alloc: Global, text: &str) -> Option<Option<Checkpoint>> {
    if text == "none" {
        return Some(None);
    }
    let mut words = text.split(' ');
    let number = words.next()?.parse::<u64>().ok()?;
    let epoch = words.next()?.parse::<u32>().ok()?;
    let first = words.next()?.parse::<u32>().ok()?;
    let second = words.next()?.parse::<u32>().ok()?;
    let lv = match words.next() {
        None => Lv::zero(2),
        Some("0") => Lv::zero(3),
        Some(_) => return None,
    };
    Some(Some(Checkpoint {
        number,
        epoch,
        lv: lv.with(0, u64::from(first)).with(1, u64::from(second)),
        rows: Tables::of(Vec::new(alloc)),
    }))
}

/// Two slots that hold these.
pub fn slots_of(alloc: Global, text: &str) -> Option<Slots> {
    let (first, second) = text.split_once(" / ")?;
    Some(Slots {
        first: held(alloc, first)?,
        second: held(alloc, second)?,
    })
}

/// `next`: whether the next checkpoint goes to this slot with this number, or why none does.
pub fn goes_to(alloc: Global, text: &str, wanted: &str) -> Option<bool> {
    match slots_of(alloc, text)?.next_write() {
        Ok(next) => says(wanted, &[u64::from(next.slot), next.number]),
        Err(fault) if fault.cause == LogCause::Last => {
            says(wanted.strip_prefix("last ")?, &[u64::from(fault.stream)])
        }
        Err(_) => None,
    }
}

/// `slots`: whether there are so many.
pub fn are_slots(wanted: &str) -> Option<bool> {
    says(wanted, &[SLOTS as u64])
}
