//! Redoing a log.
ghost use Rattle.std.specs.Prelude.{◌≡◌, ◌<◌, ◌≤◌, ◌++◌, [], ℕ, List, None, replicate, true, false, Ok, Err, IfOk, OnOk};
ghost use Rattle.tau_model.specs.Store.{database};
ghost use Rattle.tau_scan.specs.Reading.{IsLog};
ghost use Rattle.tau_scan.specs.Taken.{Kept};
ghost use Rattle.tau_scan.specs.Sound.{IsOrderOver};
ghost use Rattle.tau_replay.specs.Redone.{IsOrderOf, IsRedone, IsRedoneOn, IsTangledAt, IsTangledOver};
ghost use Rattle.tau_replay.specs.Course.{Course};
ghost use Rattle.tau_pool.specs.Pooled.{IsNotYet, flying_in};
ghost use Rattle.tau_replay.specs.Recovering.{IsHeld, IsHeldBy};
ghost use Rattle.tau_replay.specs.Followed.{Followed, FollowedOn, IsRedoneBy, IsRedoneByOn, rounds, workers_from};
ghost use Rattle.tau_replay.specs.Way.{IsOnWay, IsOnCourse, IsOver, left_of};

use crate::outcome::Scratch;
use crate::turns::{Replay, start, turn, turn_of};
use std::alloc::Global;
use tau_base::{MAX_RECOVERY_WORKERS, NoMemory};
use tau_model::{SerialStore, Tables};
use tau_pool::{Job, Next, Pools};
use tau_scan::{Log, ReplayRefusal};

/// So many hands with nothing in flight.
pub fn idle_hands(alloc: Global, many: usize) -> Result<Vec<Option<Job>>, NoMemory>
    ensures { IfOk result (λ hands. hands.items ≡ replicate many None) }
{
    Ok(vec![in alloc; None; many]?)
}

/// Sixteen workers with nothing in flight, of these pools and this store.
pub fn workers_of(alloc: Global, pools: Pools, store: SerialStore) -> Result<Replay, NoMemory>
    ensures idle { IfOk result (λ replay. replay.hands.items ≡ replicate MAX_RECOVERY_WORKERS None) }
    ensures pools { IfOk result (λ replay. replay.pools ≡ pools) }
    ensures store { IfOk result (λ replay. database replay.store ≡ database store) }
{
    let hands = idle_hands(alloc, MAX_RECOVERY_WORKERS)?;
    Ok(Replay {
        pools,
        store,
        hands,
        scratch: Scratch::new(alloc),
    })
}

/// Sixteen workers with nothing in flight, before the first turn.
pub fn begin(alloc: Global, log: &Log) -> Result<Replay, NoMemory>
    requires { IsLog log.now }
    ensures idle { IfOk result (λ replay. replay.hands.items ≡ replicate MAX_RECOVERY_WORKERS None) }
    ensures going { IfOk result (λ replay. IsOnWay log.now replay) }
    ensures followed { IfOk result (λ replay. Followed log.now [] replay) }
{
    let pools = Pools::new(alloc, log)?;
    workers_of(alloc, pools, SerialStore::new(alloc))
}

/// A turn of each worker from a number on, in ascending order.
fn round(log: &Log, replay: &mut Replay, from: usize) -> Result<(), NoMemory>
    ghost course: { Course }
    requires from { from ≤ MAX_RECOVERY_WORKERS }
    requires going { IsOnCourse log.now course replay.old }
    ensures going { OnOk result (IsOnCourse log.now course replay.new) }
    ensures less { OnOk result (left_of replay.new ≤ left_of replay.old) }
    ensures some { from ≡ 0 → 1 ≤ flying_in replay.old.pools.items → OnOk result (left_of replay.new < left_of replay.old) }
    ensures followed { (turns : List ℕ) → FollowedOn log.now course turns replay.old → OnOk result (FollowedOn log.now course (turns ++ workers_from from) replay.new) }
{
    for worker in from..MAX_RECOVERY_WORKERS {
        turn(log, replay, worker)?;
    }
    Ok(())
}

/// A round of all workers, where something is in flight or may be started. Whether all is done instead.
fn next_round(log: &Log, replay: &mut Replay) -> Result<bool, ReplayRefusal>
    ghost course: { Course }
    requires log { IsLog log.now }
    requires going { IsOnCourse log.now course replay.old }
    ensures going { OnOk result (IsOnCourse log.now course replay.new) }
    ensures over { result ≡ Ok true → IsOver log.now course replay.new }
    ensures less { result ≡ Ok false → left_of replay.new < left_of replay.old }
    ensures followed { (turns : List ℕ) → FollowedOn log.now course turns replay.old → result ≡ Ok false → FollowedOn log.now course (turns ++ workers_from 0) replay.new }
    ensures ended { (turns : List ℕ) → FollowedOn log.now course turns replay.old → result ≡ Ok true → FollowedOn log.now course turns replay.new }
    ensures tangled { (j at : ℕ) → result ≡ Err (ReplayRefusal.Tangled j at) → IsTangledOver course.records j at × ((order : List Kept) → IsOrderOver course.records order → ⊥) }
{
    if replay.pools.in_flight() > 0 {
        round(log, replay, 0)?;
        return Ok(false);
    }
    match start(log, replay, 0) {
        Next::Done => Ok(true),
        Next::NotYet => Err(tangled(log, replay)),
        Next::Taken(_) => {
            round(log, replay, 1)?;
            Ok(false)
        }
    }
}

/// The refusal of a log of which nothing is in flight and nothing is ready.
fn tangled(log: &Log, replay: &Replay) -> ReplayRefusal
    ghost course: { Course }
    requires log { IsLog log.now }
    requires going { IsOnCourse log.now course replay.now }
    requires idle { flying_in replay.now.pools.items ≡ 0 }
    requires stuck { IsNotYet replay.now.pools }
    ensures { (j at : ℕ) → result ≡ ReplayRefusal.Tangled j at → IsTangledOver course.records j at × ((order : List Kept) → IsOrderOver course.records order → ⊥) }
{
    match replay.pools.first_left() {
        None => ReplayRefusal::NoMemory,
        Some(job) => ReplayRefusal::Tangled {
            stream: job.stream,
            at: start_of(log, job),
        },
    }
}

/// Where the record of a job starts.
fn start_of(log: &Log, job: Job) -> u64
    requires { IsHeldBy log.now job }
    ensures { (r : Kept) → IsHeld log.now job r → result ≡ r.place.start }
{
    let records = &log.streams.as_slice()[usize::from(job.stream)];
    records.as_slice()[job.index].start
}

/// Rounds of all workers, until all is done.
fn run_out(log: &Log, replay: &mut Replay) -> Result<(), ReplayRefusal>
    ghost course: { Course }
    requires log { IsLog log.now }
    requires going { IsOnCourse log.now course replay.old }
    ensures done { OnOk result (IsOver log.now course replay.new) }
    ensures followed { (turns : List ℕ) → FollowedOn log.now course turns replay.old → OnOk result ((more : ℕ) × FollowedOn log.now course (turns ++ rounds more) replay.new) }
    ensures tangled { (j at : ℕ) → result ≡ Err (ReplayRefusal.Tangled j at) → IsTangledOver course.records j at × ((order : List Kept) → IsOrderOver course.records order → ⊥) }
{
    'rounds: loop {
        match next_round(log, replay) {
            Ok(true) => return Ok(()),
            Ok(false) => {}
            // A clause names this refusal, and through `?` its proof does not find it again.
            Err(refusal) => return Err(refusal),
        }
    }
}

/// Rounds of all workers until all is done, and the tables then.
fn redone(alloc: Global, log: &Log, replay: &mut Replay) -> Result<Tables, ReplayRefusal>
    ghost course: { Course }
    requires log { IsLog log.now }
    requires going { IsOnCourse log.now course replay.old }
    ensures ok { IfOk result (λ tables. IsRedoneOn log.now course.records course.base tables) }
    ensures followed { (turns : List ℕ) → FollowedOn log.now course turns replay.old → IfOk result (λ tables. IsRedoneByOn log.now course turns tables) }
    ensures tangled { (j at : ℕ) → result ≡ Err (ReplayRefusal.Tangled j at) → IsTangledOver course.records j at × ((order : List Kept) → IsOrderOver course.records order → ⊥) }
{
    match run_out(log, replay) {
        Ok(()) => {}
        Err(refusal) => return Err(refusal),
    }
    match replay.store.tables(alloc) {
        Ok(tables) => Ok(tables),
        Err(_) => Err(ReplayRefusal::NoMemory),
    }
}

/// The same of a recovery that is over then.
pub fn end(alloc: Global, log: &Log, mut replay: Replay) -> Result<Tables, ReplayRefusal>
    ghost course: { Course }
    requires log { IsLog log.now }
    requires going { IsOnCourse log.now course replay }
    ensures ok { IfOk result (λ tables. IsRedoneOn log.now course.records course.base tables) }
    ensures followed { (turns : List ℕ) → FollowedOn log.now course turns replay → IfOk result (λ tables. IsRedoneByOn log.now course turns tables) }
    ensures tangled { (j at : ℕ) → result ≡ Err (ReplayRefusal.Tangled j at) → IsTangledOver course.records j at × ((order : List Kept) → IsOrderOver course.records order → ⊥) }
{
    redone(alloc, log, &mut replay)
}

/// Redoes the taken records of a log, by these turns and then in rounds of 16 workers. A turn of a worker finishes the
/// record that it has in flight, or starts one that is ready; a turn of 16 or more changes nothing.
pub fn replay_turns(alloc: Global, log: &Log, turns: &[u8]) -> Result<Tables, ReplayRefusal>
    requires { IsLog log.now }
    // The tables are those of redoing the taken records in an orderly order.
    ensures ok { IfOk result (λ tables. IsRedone log.now tables) }
    // They are what the turns named give, and rounds of all workers after them.
    ensures followed { IfOk result (λ tables. IsRedoneBy log.now turns.now tables) }
    // No orderly order exists: this is the first record, by stream and place, of those that can't be started.
    ensures tangled { (j at : ℕ) → result ≡ Err (ReplayRefusal.Tangled j at) → IsTangledAt log.now j at × ((order : List Kept) → IsOrderOf log.now order → ⊥) }
{
    let mut replay = begin(alloc, log)?;
    for worker in turns {
        turn_of(log, &mut replay, *worker)?;
    }
    end(alloc, log, replay)
}
