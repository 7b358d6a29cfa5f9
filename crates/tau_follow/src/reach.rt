//! How far streams are followed, and which record is ready.
ghost use Rattle.std.specs.Prelude.{◌≡◌, ◌≤◌, ◌<◌, ◌+◌, ◌++◌, ◌∷◌, [], ℕ, List, Some, None, true, false, length, slice_get, slice_index, slice_index_or, slice_set, IfOk, IfSome, IsNone, OnOk, OnErr};
ghost use Rattle.tau_record.specs.declared.entry.Placed.{Placed};
ghost use Rattle.tau_follow_laws.specs.Following.{read_to};
ghost use Rattle.tau_follow.specs.declared.stage.Stage.{Stage as OneStage};
ghost use Rattle.tau_follow.specs.Applying.{is_open_stage, reach_by, reaches, ArePassed};

use crate::stage::{Stage, Stages, first_open};
use std::alloc::Global;
use tau_base::{Listed, NoMemory};
use tau_record::Placed;

/// To where a stream is read: nowhere if that is its catalogue alone.
fn read_to(records: &[Placed]) -> u64
    ensures { result ≡ read_to records.now }
{
    if records.len() < 2 {
        return 0;
    }
    records[records.len() - 1].past
}

/// The first open record of a stream, and how far the stream is followed.
#[derive(Clone, Copy)]
struct Reach {
    first: usize,
    at: u64,
}

/// How far a stream is followed of which no record before an index is open.
fn reach_of(records: &[Placed], stages: &[Stage], first: usize) -> Reach
    requires { length records.now ≡ length stages.now }
    ensures passed { ((i : ℕ) (s : OneStage) → i < first → slice_get stages.now i ≡ Some s → is_open_stage s ≡ false) → (i : ℕ) (s : OneStage) → i < result.first → slice_get stages.now i ≡ Some s → is_open_stage s ≡ false }
    ensures at { ((i : ℕ) (s : OneStage) → i < first → slice_get stages.now i ≡ Some s → is_open_stage s ≡ false) → result.at ≡ reach_by (read_to records.now) records.now stages.now }
{
    let found = first_open(stages, first.min(stages.len()));
    if found < records.len() {
        return Reach {
            first: found,
            at: records[found].start,
        };
    }
    Reach {
        first: found,
        at: read_to(records),
    }
}

/// The number at this index, or 0.
fn first_at(firsts: &[usize], j: usize) -> usize
    ensures { result ≡ slice_index firsts.now j }
{
    match firsts.get(j) {
        Some(first) => *first,
        None => 0,
    }
}

/// How far a stream is followed, and its first open record; none where its records stand nowhere.
fn reach_at(
    streams: &[Listed<Placed>],
    stages: &[Stages],
    firsts: &[usize],
    j: usize,
) -> Option<Reach>
    ensures some { IfSome result (λ reach. ArePassed stages.now firsts.now → (ps : List Placed) × (ss : List OneStage) × (slice_get streams.now j ≡ Some ps) × (slice_get stages.now j ≡ Some ss) × (reach.at ≡ reach_by (read_to ps) ps ss) × ((i : ℕ) (s : OneStage) → i < reach.first → slice_get ss i ≡ Some s → is_open_stage s ≡ false)) }
{
    match streams.get(j) {
        None => None,
        Some(records) => match stages.get(j) {
            None => None,
            Some(of_stream) => {
                if of_stream.len() != records.len() {
                    return None;
                }
                Some(reach_of(
                    records.as_slice(),
                    of_stream.as_slice(),
                    first_at(firsts, j),
                ))
            }
        },
    }
}

/// How far all streams are followed. No record before the numbers is open: they rise to the first ones that are.
pub fn reaches(
    alloc: Global,
    streams: &[Listed<Placed>],
    stages: &[Stages],
    firsts: &mut Vec<usize>,
) -> Result<Vec<u64>, NoMemory>
    ensures reached { ArePassed stages.now firsts.old.items → IfOk result (λ list. list.items ≡ reaches streams.now stages.now) }
    ensures passed { ArePassed stages.now firsts.old.items → ArePassed stages.now firsts.new.items }
{
    let mut list = Vec::with_capacity(alloc, streams.len())?;
    for j in 0..streams.len() {
        let Some(reach) = reach_at(streams, stages, firsts.as_slice(), j) else {
            return Err(NoMemory);
        };
        list.push(reach.at)?;
        if j >= firsts.len() {
            return Err(NoMemory);
        }
        firsts[j] = reach.first;
    }
    Ok(list)
}

/// Has the number of a stream be how far it is followed now, and returns it. The numbers told so when only this stream stood
/// otherwise.
pub fn renew_reach(
    streams: &[Listed<Placed>],
    stages: &[Stages],
    firsts: &mut Vec<usize>,
    reached: &mut Vec<u64>,
    j: usize,
) -> Result<u64, NoMemory>
    ensures reached { (before : List (List OneStage)) (ss : List OneStage) → ArePassed stages.now firsts.old.items → stages.now ≡ slice_set before j ss → reached.old.items ≡ reaches streams.now before → OnOk result (reached.new.items ≡ reaches streams.now stages.now) }
    // Of this stream other records were read, too.
    ensures reached_on { (old : List (List Placed)) (before : List (List OneStage)) (ps : List Placed) (ss : List OneStage) → ArePassed stages.now firsts.old.items → streams.now ≡ slice_set old j ps → stages.now ≡ slice_set before j ss → reached.old.items ≡ reaches old before → OnOk result (reached.new.items ≡ reaches streams.now stages.now) }
    ensures at { IfOk result (λ at. (reached.new.items ≡ slice_set reached.old.items j at) × (j < length reached.old.items)) }
    ensures passed { ArePassed stages.now firsts.old.items → ArePassed stages.now firsts.new.items }
{
    let Some(reach) = reach_at(streams, stages, firsts.as_slice(), j) else {
        return Err(NoMemory);
    };
    if j >= firsts.len() {
        return Err(NoMemory);
    }
    if j >= reached.len() {
        return Err(NoMemory);
    }
    firsts[j] = reach.first;
    reached[j] = reach.at;
    Ok(reach.at)
}
