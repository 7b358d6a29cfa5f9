//! Which records epochs leave out.
ghost use Rattle.std.specs.Prelude.{◌≡◌, ◌≤◌, ◌<◌, ◌+◌, ◌++◌, ◌∷◌, [], ℕ, List, Some, None, true, false, not, ◌&&◌, length, drop, take, slice_get, IfOk, IfSome, IsNone, OnOk, OnErr};
ghost use Rattle.tau_record.specs.Record.{epoch_after};
ghost use Rattle.tau_follow_laws.specs.Following.{is_left_out};
ghost use Rattle.tau_follow.specs.Applying.{dep_of, first_stage};
ghost use Rattle.tau_follow.specs.Judging.{is_applied_stage, judged_stage, judged_in, judged_from, with_judged, late_of, late_from};
ghost use Rattle.std.specs.Prelude.{Ok};
ghost use Rattle.tau_base.specs.declared.format.Format.{Format};
ghost use Rattle.tau_model.specs.History.{Member};
ghost use Rattle.tau_record.specs.declared.entry.Placed.{Placed as OnePlaced};
ghost use Rattle.tau_scan.specs.Epochs.{marks_from, with_marks};
ghost use Rattle.tau_scan.specs.Taken.{Kept};
ghost use Rattle.tau_follow_laws.specs.Fed.{fronts_of};
ghost use Rattle.tau_follow_laws.specs.Following.{left_out, is_among};
ghost use Rattle.tau_follow.specs.declared.stage.Stage.{Stage as OneStage};
ghost use Rattle.tau_follow.specs.Applying.{stages_from};
ghost use Rattle.tau_base.specs.declared.limits.TheConstants.{MAX_STREAMS};
ghost use Rattle.tau_follow_laws.specs.Feeding.{late_in};

use crate::stage::{Stage, Stages, dep_of, first_stage};
use std::alloc::Global;
use tau_base::{Listed, NoMemory};
use tau_epoch::Epochs;
use tau_record::{Entry, Placed};
use tau_scan::{LogCause, LogFault};

/// The number of the epoch after a record.
fn epoch_after(number: u32, entry: &Entry) -> u32
    ensures { result ≡ epoch_after number entry.now }
{
    match entry {
        Entry::Written { .. } => number,
        Entry::Command { .. } => number,
        Entry::Anchor { .. } => number,
        Entry::Catalogue { .. } => number,
        Entry::Epoch { number: next, .. } => *next,
    }
}

/// Whether a known epoch judges a record of the epoch with this number, and does not cover its vector.
fn is_left_out(known: &Epochs, number: u32, dep: &[u64]) -> bool
    ensures { result ≡ is_left_out known.now number dep.now }
{
    match known.above(number) {
        None => false,
        Some(lv) => !lv.covers_all(dep),
    }
}

/// Where a record stands once these epochs are known.
fn judged_stage(known: &Epochs, number: u32, placed: &Placed, stage: Stage) -> Stage
    ensures { result ≡ judged_stage known.now number placed.now stage }
{
    match stage {
        Stage::Open => {
            if is_left_out(known, number, dep_of(&placed.entry)) {
                return Stage::Out;
            }
            Stage::Open
        }
        Stage::Out => Stage::Out,
        Stage::Applied => Stage::Applied,
        Stage::Other => Stage::Other,
    }
}

/// Where a record stands that was just read, once these epochs are known.
fn first_judged(known: &Epochs, number: u32, placed: &Placed) -> Stage
    ensures { result ≡ judged_stage known.now number placed.now (first_stage placed.now.entry) }
{
    judged_stage(known, number, placed, first_stage(&placed.entry))
}

/// Has the records stand that are more than those that stand somewhere, of which these epochs leave some out. Out of memory
/// some of them stand.
pub fn extend_judged(
    known: &Epochs,
    number: u32,
    records: &[Placed],
    stages: &mut Stages,
) -> Result<(), NoMemory>
    requires { length stages.old ≤ length records.now }
    ensures ok { OnOk result (stages.new ≡ with_judged known.now number records.now stages.old) }
    ensures begun { take (length stages.old) stages.new ≡ stages.old }
{
    let mut number = number;
    for i in stages.len()..records.len() {
        stages.push(first_judged(known, number, &records[i]))?;
        number = epoch_after(number, &records[i].entry);
    }
    Ok(())
}

/// Whether an applied record is left out.
fn is_late(known: &Epochs, number: u32, placed: &Placed, stage: Stage) -> bool
    ensures { result ≡ (is_applied_stage stage && is_left_out known.now number (dep_of placed.now.entry)) }
{
    match stage {
        Stage::Applied => is_left_out(known, number, dep_of(&placed.entry)),
        Stage::Open => false,
        Stage::Out => false,
        Stage::Other => false,
    }
}

/// The start of the first applied record of a stream that a known epoch leaves out.
pub fn late_of(known: &Epochs, records: &[Placed], stages: &[Stage]) -> Option<u64>
    requires { length records.now ≡ length stages.now }
    ensures { result ≡ late_of known.now 0 records.now stages.now }
{
    let mut number = 0;
    for i in 0..records.len() {
        if is_late(known, number, &records[i], stages[i]) {
            return Some(records[i].start);
        }
        number = epoch_after(number, &records[i].entry);
    }
    None
}

/// Where the records of a stream stand once these epochs are known.
pub fn judged_in(
    alloc: Global,
    known: &Epochs,
    records: &[Placed],
    stages: &[Stage],
) -> Result<Stages, NoMemory>
    requires { length records.now ≡ length stages.now }
    ensures { IfOk result (λ judged. judged ≡ judged_in known.now 0 records.now stages.now) }
{
    let mut judged = Stages::new(alloc);
    let mut number = 0;
    for i in 0..records.len() {
        judged.push(judged_stage(known, number, &records[i], stages[i]))?;
        number = epoch_after(number, &records[i].entry);
    }
    Ok(judged)
}

/// The stages of a stream, judged; none where they are not those of its records.
fn judged_at(
    alloc: Global,
    known: &Epochs,
    streams: &[Listed<Placed>],
    stages: &[Stages],
    j: usize,
) -> Result<Stages, NoMemory>
    ensures { IfOk result (λ judged. (ps : List OnePlaced) × (ss : List OneStage) × (slice_get streams.now j ≡ Some ps) × (slice_get stages.now j ≡ Some ss) × (judged ≡ judged_in known.now 0 ps ss)) }
{
    let Some(records) = streams.get(j) else {
        return Err(NoMemory);
    };
    let Some(of_stream) = stages.get(j) else {
        return Err(NoMemory);
    };
    if of_stream.len() != records.len() {
        return Err(NoMemory);
    }
    judged_in(alloc, known, records.as_slice(), of_stream.as_slice())
}

/// Where the records of all streams stand once these epochs are known.
pub fn judged_from(
    alloc: Global,
    known: &Epochs,
    streams: &[Listed<Placed>],
    stages: &[Stages],
) -> Result<Vec<Stages>, NoMemory>
    ensures same { IfOk result (λ judged. judged.items ≡ judged_from known.now streams.now stages.now) }
    // The records that these epochs leave out are out then, if none of them is applied.
    ensures out { (format : Format) (fed : List (List ℕ)) (out order : List Kept) → fronts_of format fed ≡ Ok streams.now → known.now ≡ with_marks [] (marks_from streams.now) →
        ((r : Kept) → Member r order → is_among (left_out streams.now) r ≡ false) → stages.now ≡ stages_from out order 0 streams.now →
        IfOk result (λ judged. judged.items ≡ stages_from (out ++ left_out streams.now) order 0 streams.now) }
{
    let mut judged = Vec::new(alloc);
    for j in 0..streams.len() {
        let one = judged_at(alloc, known, streams, stages, j)?;
        judged.push(one)?;
    }
    Ok(judged)
}

/// The start of the first applied record of a stream that a known epoch leaves out, if its records stand somewhere.
fn late_at(
    known: &Epochs,
    streams: &[Listed<Placed>],
    stages: &[Stages],
    j: usize,
) -> Result<Option<u64>, NoMemory>
    ensures { IfOk result (λ late. (ps : List OnePlaced) × (ss : List OneStage) × (slice_get streams.now j ≡ Some ps) × (slice_get stages.now j ≡ Some ss) × (late ≡ late_of known.now 0 ps ss)) }
{
    let Some(records) = streams.get(j) else {
        return Err(NoMemory);
    };
    let Some(of_stream) = stages.get(j) else {
        return Err(NoMemory);
    };
    if of_stream.len() != records.len() {
        return Err(NoMemory);
    }
    Ok(late_of(known, records.as_slice(), of_stream.as_slice()))
}

/// The first applied record of all streams that a known epoch leaves out.
pub fn late_from(
    known: &Epochs,
    streams: &[Listed<Placed>],
    stages: &[Stages],
) -> Result<Option<LogFault>, NoMemory>
    requires { length streams.now ≤ MAX_STREAMS }
    ensures same { IfOk result (λ fault. fault ≡ late_from known.now 0 streams.now stages.now) }
    ensures late { (out order : List Kept) → known.now ≡ with_marks [] (marks_from streams.now) → ((r : Kept) → Member r order → is_among out r ≡ false) → stages.now ≡ stages_from out order 0 streams.now →
        IfOk result (λ fault. fault ≡ late_in streams.now order) }
{
    for j in 0..streams.len() {
        match late_at(known, streams, stages, j) {
            Err(e) => return Err(e),
            Ok(None) => {}
            Ok(Some(at)) => {
                return Ok(Some(LogFault {
                    stream: j as u8,
                    cause: LogCause::Late { at },
                }));
            }
        }
    }
    Ok(None)
}
