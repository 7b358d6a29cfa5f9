//! The turns of workers.
ghost use Rattle.std.specs.Prelude.{◌≡◌, ◌<◌, ◌≤◌, ◌⊎◌, ◌++◌, ◌∷◌, [], ℕ, List, length, slice_get, slice_set, Some, None, IfSome, IsNone, OnOk, OnErr};
ghost use Rattle.tau_model.specs.Store.{database};
ghost use Rattle.tau_pool.specs.declared.item.Job.{Job};
ghost use Rattle.tau_pool.specs.Pooled.{IsNotYet, IsDone, IsStarted, IsFinished};
ghost use Rattle.tau_replay.specs.Course.{Course};
ghost use Rattle.tau_replay.specs.Followed.{FollowedOn};
ghost use Rattle.tau_replay.specs.Sound.{AreWorking};
ghost use Rattle.tau_replay.specs.Way.{IsOnCourse, left_of};

use crate::outcome::{Outcome, Scratch, apply};
use crate::redo::redo;
use tau_base::{MAX_RECOVERY_WORKERS, NoMemory};
use tau_model::SerialStore;
use tau_pool::{Job, Next, Pools};
use tau_scan::Log;

/// Sixteen workers on their way through a log. In threads each has sixteen hands in the place of one.
#[derive(Drop)]
pub struct Replay {
    /// What is started and finished.
    pub pools: Pools,
    /// What the finished records did.
    pub store: SerialStore,
    /// What each worker, or each hand, has in flight.
    pub hands: Vec<Option<Job>>,
    /// What calls are executed with under the lock.
    pub scratch: Scratch,
}

/// Gives an idle worker a record that is ready.
pub fn start(log: &Log, replay: &mut Replay, worker: usize) -> Next
    ghost course: { Course }
    requires going { IsOnCourse log.now course replay.old }
    requires idle { slice_get replay.old.hands.items worker ≡ Some None }
    ensures going { IsOnCourse log.now course replay.new }
    ensures taken { (job : Job) → result ≡ Next.Taken job → left_of replay.new < left_of replay.old }
    ensures hand { (job : Job) → result ≡ Next.Taken job → replay.new.hands.items ≡ slice_set replay.old.hands.items worker (Some job) }
    ensures not_yet { result ≡ Next.NotYet → (replay.new.hands.items ≡ replay.old.hands.items) × (replay.new.pools ≡ replay.old.pools) × IsNotYet replay.old.pools }
    ensures done { result ≡ Next.Done → (replay.new.hands.items ≡ replay.old.hands.items) × (replay.new.pools ≡ replay.old.pools) × IsDone replay.old.pools }
    ensures followed { (turns : List ℕ) → FollowedOn log.now course turns replay.old → FollowedOn log.now course (turns ++ worker ∷ []) replay.new }
    ensures ended { (turns : List ℕ) → FollowedOn log.now course turns replay.old → result ≡ Next.Done → FollowedOn log.now course turns replay.new }
{
    let _ = log;
    let next = replay.pools.take();
    match next {
        Next::Taken(job) => {
            replay.hands[worker] = Some(job);
            next
        }
        Next::NotYet => next,
        Next::Done => next,
    }
}

/// Gives an idle hand of a worker in a thread the record at a place, if it is ready.
pub fn start_at(log: &Log, replay: &mut Replay, hand: usize, place: usize) -> Option<Job>
    requires working { AreWorking log.now replay.old }
    requires idle { slice_get replay.old.hands.items hand ≡ Some None }
    ensures working { AreWorking log.now replay.new }
    ensures started { IfSome result (λ job. IsStarted replay.old.pools job replay.new.pools) }
    ensures hand { IfSome result (λ job. replay.new.hands.items ≡ slice_set replay.old.hands.items hand (Some job)) }
    ensures none { IsNone result → replay.new.hands.items ≡ replay.old.hands.items }
{
    let _ = log;
    match replay.pools.take_at(place) {
        Some(job) => {
            let taken = Some(job);
            replay.hands[hand] = taken;
            taken
        }
        None => None,
    }
}

/// Finishes what a hand of a worker in a thread has in flight. If memory is refused nothing changes.
pub fn finish_at(
    log: &Log,
    replay: &mut Replay,
    hand: usize,
    outcome: &Outcome,
) -> Result<(), NoMemory>
    requires of_log { outcome.now.log.value ≡ log.now }
    requires working { AreWorking log.now replay.old }
    requires busy { slice_get replay.old.hands.items hand ≡ Some (Some outcome.now.job) }
    ensures working { AreWorking log.now replay.new }
    ensures finished { OnOk result (IsFinished replay.old.pools outcome.now.job replay.new.pools) }
    ensures hand { OnOk result (replay.new.hands.items ≡ slice_set replay.old.hands.items hand None) }
    ensures err { OnErr result (replay.new.hands.items ≡ replay.old.hands.items) }
{
    apply(log, &mut replay.store, outcome, &mut replay.scratch)?;
    replay.pools.finish(outcome.job);
    replay.hands[hand] = None;
    Ok(())
}

/// Finishes what a worker has in flight. If memory is refused nothing changes.
pub fn finish(log: &Log, replay: &mut Replay, worker: usize, job: Job) -> Result<(), NoMemory>
    ghost course: { Course }
    requires going { IsOnCourse log.now course replay.old }
    requires busy { slice_get replay.old.hands.items worker ≡ Some (Some job) }
    ensures going { OnOk result (IsOnCourse log.now course replay.new) }
    ensures less { OnOk result (left_of replay.new < left_of replay.old) }
    ensures hand { OnOk result (replay.new.hands.items ≡ slice_set replay.old.hands.items worker None) }
    ensures followed { (turns : List ℕ) → FollowedOn log.now course turns replay.old → OnOk result (FollowedOn log.now course (turns ++ worker ∷ []) replay.new) }
    ensures err { OnErr result ((replay.new.pools ≡ replay.old.pools) × (replay.new.hands.items ≡ replay.old.hands.items) × (database replay.new.store ≡ database replay.old.store)) }
{
    redo(log, &mut replay.store, job, &mut replay.scratch)?;
    replay.pools.finish(job);
    replay.hands[worker] = None;
    Ok(())
}

/// A turn of a worker: it finishes what it has in flight, or starts what is ready.
pub fn turn(log: &Log, replay: &mut Replay, worker: usize) -> Result<(), NoMemory>
    ghost course: { Course }
    requires worker { worker < MAX_RECOVERY_WORKERS }
    requires going { IsOnCourse log.now course replay.old }
    ensures going { OnOk result (IsOnCourse log.now course replay.new) }
    ensures less { OnOk result (left_of replay.new ≤ left_of replay.old) }
    ensures busy { (job : Job) → slice_get replay.old.hands.items worker ≡ Some (Some job) → OnOk result (left_of replay.new < left_of replay.old) }
    ensures idle { OnOk result ((left_of replay.new < left_of replay.old) ⊎ (replay.new.hands.items ≡ replay.old.hands.items)) }
    ensures followed { (turns : List ℕ) → FollowedOn log.now course turns replay.old → OnOk result (FollowedOn log.now course (turns ++ worker ∷ []) replay.new) }
{
    match replay.hands[worker] {
        Some(job) => finish(log, replay, worker, job),
        None => {
            let _ = start(log, replay, worker);
            Ok(())
        }
    }
}

/// A turn of a worker by its number; one of 16 or more is no worker, and nothing changes.
pub fn turn_of(log: &Log, replay: &mut Replay, worker: u8) -> Result<(), NoMemory>
    ghost course: { Course }
    requires { IsOnCourse log.now course replay.old }
    ensures going { OnOk result (IsOnCourse log.now course replay.new) }
    ensures followed { (turns : List ℕ) → FollowedOn log.now course turns replay.old → OnOk result (FollowedOn log.now course (turns ++ worker ∷ []) replay.new) }
{
    if usize::from(worker) < MAX_RECOVERY_WORKERS {
        turn(log, replay, usize::from(worker))
    } else {
        Ok(())
    }
}
