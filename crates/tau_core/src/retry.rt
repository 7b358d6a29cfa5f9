//! A worker that does not take the lock that its call wants: the call begins again.
ghost use Rattle.std.specs.Prelude.{◌≡◌, ◌<◌};
ghost use Rattle.tau_core.specs.State.{plain};
ghost use Rattle.tau_core.specs.Stands.{Sound, Stood};
ghost use Rattle.tau_core.specs.Begins.{HasNext};
ghost use Rattle.tau_core.specs.Firsts.{ActsBy, BeginsBy, Rests};
ghost use Rattle.tau_core.specs.Retries.{GivesWay, IsAtSome, RetriedBy};

use crate::begin::{begin_first, in_hand, next_number, undo};
use crate::event::{Outcome, Phase};
use crate::lock::leave;
use crate::phase::phase_of_kind;
use crate::state::State;

/// The worker's call, at a lock, meets Busy once more; a worker that rests begins its next call.
pub(crate) fn retry(state: &mut State, worker: usize) -> Outcome
    requires stood { Stood (plain state.old) }
    requires there { worker < state.old.load.workers }
    ensures { ActsBy RetriedBy (plain state.old) worker result (plain state.new) }
{
    if in_hand(state, worker) {
        return retry_next(state, worker);
    }
    match next_number(state, worker) {
        None => Outcome::NotNow {
            phase: Phase::Resting,
        },
        Some(number) => first_retry(state, worker, number),
    }
}

/// It begins the call of this number, which meets Busy at once.
fn first_retry(state: &mut State, worker: usize, number: u64) -> Outcome
    requires stood { Stood (plain state.old) }
    requires there { worker < state.old.load.workers }
    requires rests { Rests (plain state.old) worker }
    requires next { HasNext (plain state.old) worker number }
    ensures { BeginsBy RetriedBy worker number (plain state.old) result (plain state.new) }
{
    let Ok(mark) = begin_first(state, worker, number) else {
        return Outcome::NoMemory;
    };
    match retry_next(state, worker) {
        Outcome::NotNow { .. } => {
            undo(state, worker, mark);
            Outcome::NotNow {
                phase: Phase::Resting,
            }
        }
        outcome => outcome,
    }
}

/// The call in hand, at a lock, meets Busy once more.
fn retry_next(state: &mut State, worker: usize) -> Outcome
    requires sound { Sound (plain state.old) }
    requires there { worker < state.old.load.workers }
    ensures { RetriedBy (plain state.old) worker result (plain state.new) }
{
    let seat = &state.seats[worker];
    match seat.txn.lock_asked() {
        Some(_) => {
            give_way(state, worker);
            Outcome::Went
        }
        None => Outcome::NotNow {
            phase: phase_of_kind(seat.txn.kind()),
        },
    }
}

/// It does not take its lock.
fn give_way(state: &mut State, worker: usize)
    requires sound { Sound (plain state.old) }
    requires there { worker < state.old.load.workers }
    requires wants { IsAtSome (plain state.old) worker }
    ensures { GivesWay worker (plain state.old) (plain state.new) }
{
    let seat = &mut state.seats[worker];
    seat.txn.busy(&state.load.procs, worker as u8);
    leave(seat, &state.load.procs);
}
