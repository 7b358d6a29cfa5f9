//! A recovery by one worker, which needs no lock.
ghost use Rattle.std.specs.Prelude.{◌≡◌, ◌<◌, true, false, Ok, Some, None, IfOk, OnOk, replicate, slice_get};
ghost use Rattle.tau_pool.specs.Pooled.{NoneReady};
ghost use Rattle.tau_replay.specs.Sound.{IsSound};
ghost use Rattle.tau_replay.specs.Way.{left_of};

use crate::turns::{Replay, finish, start};
use tau_base::{MAX_RECOVERY_WORKERS, NoMemory};
use tau_disk::{Gate, Place};
use tau_pool::Next;
use tau_scan::Log;

/// Starts a record and redoes it. Whether one was ready.
fn redo_next<G: Gate>(log: &Log, replay: &mut Replay, gate: &G) -> Result<bool, NoMemory>
    requires sound { IsSound log.now replay.old }
    requires idle { slice_get replay.old.hands.items 0 ≡ Some None }
    ensures sound { OnOk result (IsSound log.now replay.new) }
    ensures idle { OnOk result (slice_get replay.new.hands.items 0 ≡ Some None) }
    ensures less { result ≡ Ok true → left_of replay.new < left_of replay.old }
    ensures over { result ≡ Ok false → NoneReady replay.new.pools }
{
    match start(log, replay, 0) {
        Next::Taken(job) => {
            gate.at(Place::Replay { worker: 0 });
            finish(log, replay, 0, job)?;
            Ok(true)
        }
        Next::NotYet => Ok(false),
        Next::Done => Ok(false),
    }
}

/// Redoes one record after another until none is ready.
pub fn run_alone<G: Gate>(log: &Log, mut replay: Replay, gate: &G) -> Result<Replay, NoMemory>
    requires sound { IsSound log.now replay }
    requires idle { replay.hands.items ≡ replicate MAX_RECOVERY_WORKERS None }
    ensures sound { IfOk result (λ r. IsSound log.now r) }
    ensures over { IfOk result (λ r. NoneReady r.pools) }
{
    'records: loop {
        if !redo_next(log, &mut replay, gate)? {
            return Ok(replay);
        }
    }
}
