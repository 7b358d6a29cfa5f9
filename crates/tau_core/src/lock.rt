//! A worker locks the key that its call wants.
ghost use Rattle.std.specs.Prelude.{◌≡◌, ◌<◌, ◌≤◌, is_some, true};
ghost use Rattle.tau_core.specs.State.{plain};
ghost use Rattle.tau_core.specs.Stands.{Sound, Stood};
ghost use Rattle.tau_core.specs.Begins.{HasNext};
ghost use Rattle.tau_core.specs.Firsts.{ActsBy, BeginsBy, Rests};
ghost use Rattle.tau_core.specs.Locks.{LockedBy, IsAtLock, Leaves};
ghost use Rattle.tau_core.specs.Answered.{WithValue};
ghost use Rattle.tau_txn.specs.Txn.{RunsBy};

use crate::begin::{begin_first, in_hand, next_number, undo};
use crate::event::Acted;
use crate::state::{Seat, State};
use tau_base::{Key, Mode, shard_of};
use tau_proc::Procs;
use tau_shard::ShardRefusal;
use tau_txn::ActionKind;

/// The worker locks the key that it wants; one that rests begins its next call.
pub(crate) fn lock(state: &mut State, worker: usize) -> Acted
    requires stood { Stood (plain state.old) }
    requires there { worker < state.old.load.workers }
    ensures { WithValue (λ outcome. ActsBy LockedBy (plain state.old) worker outcome (plain state.new)) result }
{
    if in_hand(state, worker) {
        return lock_next(state, worker);
    }
    match next_number(state, worker) {
        None => Acted::Other {
            kind: ActionKind::Nothing,
        },
        Some(number) => first_lock(state, worker, number),
    }
}

/// It begins the call of this number with its lock.
fn first_lock(state: &mut State, worker: usize, number: u64) -> Acted
    requires stood { Stood (plain state.old) }
    requires there { worker < state.old.load.workers }
    requires rests { Rests (plain state.old) worker }
    requires next { HasNext (plain state.old) worker number }
    ensures { WithValue (λ outcome. BeginsBy LockedBy worker number (plain state.old) outcome (plain state.new)) result }
{
    let Ok(mark) = begin_first(state, worker, number) else {
        return Acted::NoMemory;
    };
    match lock_next(state, worker) {
        Acted::Went => Acted::Went,
        Acted::Busy { holder } => Acted::Busy { holder },
        Acted::Other { .. } => {
            undo(state, worker, mark);
            Acted::Other {
                kind: ActionKind::Nothing,
            }
        }
        Acted::NoMemory => {
            undo(state, worker, mark);
            Acted::NoMemory
        }
    }
}

/// The call in hand takes its lock.
pub(crate) fn lock_next(state: &mut State, worker: usize) -> Acted
    requires sound { Sound (plain state.old) }
    requires there { worker < state.old.load.workers }
    ensures { WithValue (λ outcome. LockedBy (plain state.old) worker outcome (plain state.new)) result }
{
    let seat = &state.seats[worker];
    match seat.txn.lock_asked() {
        Some((key, mode)) => take_lock(state, worker, key, mode),
        None => Acted::Other {
            kind: seat.txn.kind(),
        },
    }
}

/// It takes the lock of this key.
fn take_lock(state: &mut State, worker: usize, key: Key, mode: Mode) -> Acted
    requires sound { Sound (plain state.old) }
    requires there { worker < state.old.load.workers }
    requires wants { IsAtLock (plain state.old) worker key mode }
    ensures { WithValue (λ outcome. LockedBy (plain state.old) worker outcome (plain state.new)) result }
{
    let part = &mut state.shards[usize::from(shard_of(key))];
    let seat = &mut state.seats[worker];
    // What it lends says how wide the call's vector is.
    let _wide = seat.txn.dep_ref();
    match seat.txn.lock_on(part, worker as u8, key, mode) {
        Ok(()) => Acted::Went,
        Err(ShardRefusal::Busy { holder }) => {
            seat.txn.busy(&state.load.procs, holder);
            leave(seat, &state.load.procs);
            Acted::Busy { holder }
        }
        Err(ShardRefusal::NoMemory) => Acted::NoMemory,
    }
}

/// A call that is left over goes to the others that are.
pub(crate) fn leave(seat: &mut Seat, procs: &Procs)
    requires run { RunsBy procs.now seat.old.txn }
    requires room { is_some seat.old.txn.hand ≡ true → 1 ≤ seat.old.room }
    ensures { Leaves seat.old seat.new }
{
    if !seat.txn.is_left_over() {
        return;
    }
    if let Some(number) = seat.txn.number() {
        seat.left.push(number);
    }
    seat.txn.went(procs);
}
