//! The known epochs of a log, and the vectors against which its records are judged.
ghost use Rattle.std.specs.Prelude.{◌≡◌, ℕ, [], IfOk, IfSome, OnOk};
ghost use Rattle.tau_epoch.specs.Known.{with_mark};
ghost use Rattle.tau_record.specs.Record.{epoch_after};
ghost use Rattle.tau_scan.specs.Epochs.{mark_of, marks_in, marks_from, with_marks, judge_of, vector_by};

use crate::log::Log;
use std::alloc::Global;
use std::marker::Model;
use tau_base::{Listed, Lv, MAX_LSN, MAX_STREAMS, NoMemory};
use tau_epoch::{EpochRefusal, Epochs};
use tau_record::{Entry, Placed};

/// The vector with these positions. There is none where they are no vector.
fn vector_of(positions: &[u64]) -> Option<Lv>
    ensures { IfSome result (λ lv. lv ≡ positions.now) }
{
    if positions.len() < 1 {
        return None;
    }
    if positions.len() > MAX_STREAMS {
        return None;
    }
    let mut lv = Lv::zero(positions.len());
    for j in 0..positions.len() {
        if positions[j] >= MAX_LSN {
            return None;
        }
        lv.set(j, positions[j]);
    }
    Some(lv)
}

/// Makes an epoch known, if its number is not. Positions that are no vector, which no log that was read has, are refused
/// as if memory ran out.
fn know_vector(known: &mut Epochs, number: u32, positions: &[u64]) -> Result<(), NoMemory>
    ensures { OnOk result (known.new ≡ with_mark (record { number = number; lv = positions.now }) known.old) }
{
    let Some(lv) = vector_of(positions) else {
        return Err(NoMemory);
    };
    match known.add(number, lv) {
        Ok(()) => Ok(()),
        Err(EpochRefusal::NoMemory) => Err(NoMemory),
        Err(EpochRefusal::Differs(_)) => Ok(()),
    }
}

/// Makes the mark known that the record is, if it is one.
fn know_mark(known: &mut Epochs, entry: &Entry) -> Result<(), NoMemory>
    ensures { OnOk result (known.new ≡ with_marks known.old (mark_of entry.now)) }
{
    match entry {
        Entry::Written { .. } => Ok(()),
        Entry::Command { .. } => Ok(()),
        Entry::Anchor { .. } => Ok(()),
        Entry::Catalogue { .. } => Ok(()),
        Entry::Epoch { number, lv } => know_vector(known, *number, lv.as_slice()),
    }
}

/// Makes the marks of a stream known.
fn know_stream(known: &mut Epochs, records: &[Placed]) -> Result<(), NoMemory>
    ensures { OnOk result (known.new ≡ with_marks known.old (marks_in records.now)) }
{
    for placed in records {
        know_mark(known, &placed.entry)?;
    }
    Ok(())
}

/// The known epochs of all streams. Of marks with one number the first counts.
pub fn known_in(alloc: Global, streams: &[Listed<Placed>]) -> Result<Epochs, NoMemory>
    ensures { IfOk result (λ known. known ≡ with_marks [] (marks_from streams.now)) }
{
    let mut known = Epochs::new(alloc);
    for records in streams {
        know_stream(&mut known, records.as_slice())?;
    }
    Ok(known)
}

/// The vectors against which the records of a log are judged: for the number of an epoch that of the least known epoch
/// above it, no position above the length of its stream, or the lengths where there is none.
#[derive(Drop)]
pub struct Judge {
    elv: Lv,
    known: Epochs,
}

impl Model for Judge {
    ghost use Rattle.tau_scan.specs.Epochs.{Judges};

    ghost Value = { Judges };

    ghost view = { λ j. record { elv = j.elv; known = j.known } };
}

impl Judge {
    /// The judge of a log.
    pub fn of(alloc: Global, log: &Log) -> Result<Judge, NoMemory>
        ensures { IfOk result (λ judge. vector_by judge ≡ judge_of log.now) }
    {
        let known = known_in(alloc, log.streams.as_slice())?;
        Ok(Judge {
            elv: log.elv,
            known,
        })
    }

    /// The vector against which the records of the epoch with this number are judged.
    pub fn vector(&self, number: u32) -> Lv
        ensures { result ≡ vector_by self.now number }
    {
        self.known.judging(&self.elv, number)
    }

    /// Makes of the vector for this record that for the records after it.
    pub fn pass(&self, lv: &mut Lv, entry: &Entry)
        ensures { (k : ℕ) → lv.old ≡ vector_by self.now k → lv.new ≡ vector_by self.now (epoch_after k entry.now) }
    {
        match entry {
            Entry::Written { .. } => {}
            Entry::Command { .. } => {}
            Entry::Anchor { .. } => {}
            Entry::Catalogue { .. } => {}
            Entry::Epoch { number, .. } => *lv = self.vector(*number),
        }
    }
}
