//! Logs of two streams, and what redoing them on checkpoints gives.
ghost use Rattle.std.specs.Prelude.{IfSome};
ghost use Rattle.tau_scan.specs.Reading.{IsLog};

use crate::names::{bytes_of, words_of};
use crate::slots::{held, is_checkpoint, put_rows, says, slots_of};
use std::alloc::Global;
use tau_ckpt::{Checkpoint, checkpoint_at, checkpoint_of, redo_after};
use tau_disk::MemDisk;
use tau_model::Tables;
use tau_scan::{Log, ReplayRefusal, scan};

/// Puts a disk that holds these bytes.
fn put_disk(disks: &mut Vec<MemDisk>, alloc: Global, words: &str) -> Option<()> {
    let image = bytes_of(alloc, words)?;
    disks
        .push(MemDisk::of_image(alloc, image.as_slice()).ok()?)
        .ok()
}

/// The log of a name.
fn log_of(alloc: Global, name: &str) -> Option<Log>
    ensures { IfSome result (λ log. IsLog log) }
{
    let (first, second) = words_of(name).split_once(" / ")?;
    let mut disks = Vec::new(alloc);
    put_disk(&mut disks, alloc, first)?;
    put_disk(&mut disks, alloc, second)?;
    if disks.len() != 2 {
        return None;
    }
    scan(alloc, disks.as_mut_slice(), None).ok()
}

/// `chosen`: whether of what two slots hold the checkpoint with this number and this epoch is redone on.
pub fn is_chosen(alloc: Global, text: &str, wanted: &str) -> Option<bool> {
    let (name, rest) = text.split_once(' ')?;
    let log = log_of(alloc, name)?;
    let slots = slots_of(alloc, rest)?;
    match slots.chosen(&log) {
        Some(found) => says(wanted, &[found.number, u64::from(found.epoch)]),
        None => Some(wanted == "none"),
    }
}

/// Whether redoing a log on a checkpoint gives these rows, or the first record that can't be redone.
fn gives(alloc: Global, name: &str, base: &Checkpoint, wanted: &str) -> Option<bool> {
    let log = log_of(alloc, name)?;
    let mut numbers = Vec::new(alloc);
    match redo_after(alloc, &log, base) {
        Ok(tables) => {
            put_rows(&mut numbers, &tables)?;
            says(wanted, numbers.as_slice())
        }
        Err(ReplayRefusal::Tangled { stream, at }) => {
            says(wanted.strip_prefix("tangled ")?, &[u64::from(stream), at])
        }
        Err(ReplayRefusal::NoMemory) => None,
    }
}

/// `redo`: on the checkpoint that an image of slot 0 holds.
pub fn redo(alloc: Global, text: &str, wanted: &str) -> Option<bool> {
    let (name, words) = text.split_once(' ')?;
    let image = bytes_of(alloc, words)?;
    let base = checkpoint_of(alloc, 0, image.as_slice()).ok()??;
    gives(alloc, name, &base, wanted)
}

/// `after`: on a checkpoint without rows.
pub fn after(alloc: Global, text: &str, wanted: &str) -> Option<bool> {
    let (name, rest) = text.split_once(' ')?;
    let base = held(alloc, rest)??;
    gives(alloc, name, &base, wanted)
}

/// `mark`: whether the checkpoint with a number of a log that was redone to no rows is this.
pub fn marks(alloc: Global, text: &str, wanted: &str) -> Option<bool> {
    let (name, number) = text.split_once(' ')?;
    let log = log_of(alloc, name)?;
    let made = checkpoint_at(
        &log,
        number.parse::<u64>().ok()?,
        Tables::of(Vec::new(alloc)),
    );
    is_checkpoint(alloc, &made, wanted)
}
