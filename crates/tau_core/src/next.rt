//! The lock that a worker takes next.
ghost use Rattle.std.specs.Prelude.{◌≡◌, ◌<◌, Some, slice_get};
ghost use Rattle.tau_core.specs.State.{plain};
ghost use Rattle.tau_core.specs.Stands.{IsNumber, Sound};
ghost use Rattle.tau_core.specs.Plain.{PlainSeat};
ghost use Rattle.tau_core.specs.NextLock.{IsNextLock, TellsFirst, TellsHand};
ghost use Rattle.tau_txn.specs.Txn.{hand_in};

use crate::begin::{in_hand, next_number};
use crate::state::State;
use tau_base::{Key, Mode};
use tau_txn::{ActionKind, Txn};

/// The number of the worker's call with the lock that is its next action; of a worker that rests, of its next call.
pub(crate) fn next_lock(state: &State, worker: usize) -> Option<(u64, Key, Mode)>
    requires sound { Sound (plain state.now) }
    requires there { worker < state.now.load.workers }
    ensures { (s : PlainSeat) → slice_get state.now.seats.items worker ≡ Some s → IsNextLock state.now.load s result }
{
    if in_hand(state, worker) {
        return lock_in_hand(state, worker);
    }
    match next_number(state, worker) {
        None => None,
        Some(number) => first_lock(state, number),
    }
}

/// The lock that is the next action of the call in hand.
fn lock_in_hand(state: &State, worker: usize) -> Option<(u64, Key, Mode)>
    requires sound { Sound (plain state.now) }
    requires there { worker < state.now.load.workers }
    ensures { (s : PlainSeat) → slice_get state.now.seats.items worker ≡ Some s → TellsHand state.now.load.procs (hand_in state.now.load.procs s.txn) result }
{
    let seat = &state.seats[worker];
    match seat.txn.kind() {
        ActionKind::Lock => seat.txn.next_lock(),
        _ => None,
    }
}

/// The lock that is the first action of the call of this number.
fn first_lock(state: &State, number: u64) -> Option<(u64, Key, Mode)>
    requires sound { Sound (plain state.now) }
    requires call { IsNumber state.now.load number }
    ensures { TellsFirst state.now.load number result }
{
    let call = state.load.calls.call_at((number - 1) as usize);
    match Txn::first_lock(&state.load.procs, &call) {
        Some((key, mode)) => Some((number, key, mode)),
        None => None,
    }
}
