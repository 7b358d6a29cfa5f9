//! What the two slots hold: which checkpoint is redone on, and where the next one is written.
ghost use Rattle.std.specs.Prelude.{◌≡◌, ◌≤◌, ◌+◌, IfOk};
ghost use Rattle.std.specs.Option.{option_copied};
ghost use Rattle.tau_ckpt.specs.Chosen.{AreHeld, HoldsJust, chosen, fits, fitting, newer, next_slot, next_write, number_of};
ghost use Rattle.tau_base.specs.declared.limits.TheConstants.{MAX_STREAMS};
ghost use Rattle.tau_scan.specs.declared.fault.LogCause.TheVariants.{Last};
ghost use Rattle.tau_ckpt.specs.declared.checkpoint.TheConstants.{MAX_NUMBER};

use crate::checkpoint::{Checkpoint, MAX_NUMBER};
use crate::read::checkpoint_of;
use std::alloc::Global;
use tau_base::{MAX_STREAMS, NoMemory};
use tau_scan::{Log, LogCause, LogFault, largest_epoch};

/// How many slots there are: while one is written, the other still holds the checkpoint before.
pub const SLOTS: usize = 2;

/// What the slots hold.
#[derive(Debug, Drop)]
pub struct Slots {
    /// The checkpoint of slot 0.
    pub first: Option<Checkpoint>,
    /// The checkpoint of slot 1.
    pub second: Option<Checkpoint>,
}

impl Slots {
    /// What these images of slots 0 and 1 hold.
    pub fn of_images(alloc: Global, first: &[u8], second: &[u8]) -> Result<Slots, NoMemory>
        ensures { IfOk result (λ slots. AreHeld first.now second.now slots) }
    {
        let first = held(alloc, 0, first)?;
        let second = held(alloc, 1, second)?;
        Ok(Slots { first, second })
    }

    /// The checkpoint that a log is redone on: of those that fit it the one with the greatest number, that of slot 0 if both
    /// have it. None exactly if none fits.
    pub fn chosen(&self, log: &Log) -> Option<&Checkpoint>
        ensures { option_copied result ≡ chosen log.now self.now }
    {
        newer(fitting(log, &self.first), fitting(log, &self.second))
    }

    /// Where the next checkpoint is written, and its number; no checkpoint needs to fit. `Last` exactly if the greatest number
    /// that is held is `MAX_NUMBER`: the slot that has it, slot 0 if both have, with `MAX_STREAMS` added.
    pub fn next_write(&self) -> Result<NextWrite, LogFault>
        ensures exact { result ≡ next_write self.now }
        ensures slot { IfOk result (λ next. next.slot ≤ 1) }
        ensures low { IfOk result (λ next. 1 ≤ next.number) }
        ensures high { IfOk result (λ next. next.number ≤ MAX_NUMBER) }
    {
        let first = number_of(&self.first);
        let second = number_of(&self.second);
        let greatest = first.max(second);
        if greatest >= MAX_NUMBER {
            let slot = if first < second { 1 } else { 0 };
            return Err(last_at(slot));
        }
        Ok(NextWrite {
            slot: next_slot(&self.first, &self.second),
            number: greatest + 1,
        })
    }
}

/// Where a checkpoint is written.
#[derive(Clone, Copy, Debug, PartialEq, Eq)]
pub struct NextWrite {
    /// The slot, 0 or 1: that which holds none, else that of the smaller number.
    pub slot: u8,
    /// The number of the checkpoint, from 1 to `MAX_NUMBER`.
    pub number: u64,
}

/// The checkpoint that this image of the slot holds.
fn held(alloc: Global, slot: u8, image: &[u8]) -> Result<Option<Checkpoint>, NoMemory>
    ensures { IfOk result (λ found. HoldsJust slot image.now found) }
{
    checkpoint_of(alloc, slot, image)
}

/// Whether a checkpoint fits the log.
fn fits(log: &Log, value: &Checkpoint) -> bool
    ensures { result ≡ fits log.now value.now }
{
    value.lv.width() == log.elv.width()
        && log.elv.covers(&value.lv)
        && value.epoch <= largest_epoch(log.streams.as_slice())
}

/// The checkpoint of a slot, if it fits the log.
fn fitting<'a>(log: &Log, held: &'a Option<Checkpoint>) -> Option<&'a Checkpoint>
    ensures { option_copied result ≡ fitting log.now held.now }
{
    match held {
        None => None,
        Some(value) => {
            if fits(log, value) {
                return Some(value);
            }
            None
        }
    }
}

/// The checkpoint with the greater number, the first of two with one number.
fn newer<'a>(
    first: Option<&'a Checkpoint>,
    second: Option<&'a Checkpoint>,
) -> Option<&'a Checkpoint>
    ensures { option_copied result ≡ newer (option_copied first.entry) (option_copied second.entry) }
{
    let Some(one) = first else {
        return second;
    };
    let Some(other) = second else {
        return Some(one);
    };
    if one.number < other.number {
        return Some(other);
    }
    Some(one)
}

/// The number of a checkpoint, 0 if there is none.
fn number_of(held: &Option<Checkpoint>) -> u64
    ensures { result ≡ number_of held.now }
{
    match held {
        None => 0,
        Some(value) => value.number,
    }
}

/// The slot that holds none, else that of the smaller number.
fn next_slot(first: &Option<Checkpoint>, second: &Option<Checkpoint>) -> u8
    ensures same { result ≡ next_slot first.now second.now }
    ensures slot { result ≤ 1 }
{
    let Some(one) = first else {
        return 0;
    };
    let Some(other) = second else {
        return 1;
    };
    if other.number < one.number {
        return 1;
    }
    0
}

/// No number is left after that of this slot.
fn last_at(slot: u8) -> LogFault
    requires { slot ≤ 1 }
    ensures { result ≡ record { stream = MAX_STREAMS + slot; cause = Last } }
{
    LogFault {
        stream: MAX_STREAMS as u8 + slot,
        cause: LogCause::Last,
    }
}
