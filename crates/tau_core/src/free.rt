//! A worker frees keys.
ghost use Rattle.std.specs.Prelude.{◌≡◌, ◌<◌, Some, true, false, slice_get};
ghost use Rattle.tau_core.specs.State.{plain};
ghost use Rattle.tau_core.specs.Plain.{PlainSeat};
ghost use Rattle.tau_core.specs.Stands.{Stood};
ghost use Rattle.tau_core.specs.Frees.{IsAtFree, FreeBy, FreesKey, HasJoined};
ghost use Rattle.tau_core.specs.Answered.{went_by};
ghost use Rattle.tau_txn.specs.Narrow.{written_in};

use crate::event::Acted;
use crate::state::State;
use tau_base::{Key, shard_of};

/// The call that is posted, or read-only and has finished, frees its lowest key.
pub(crate) fn free(state: &mut State, worker: usize) -> Acted
    requires stood { Stood (plain state.old) }
    requires there { worker < state.old.load.workers }
    ensures { FreeBy (plain state.old) worker (went_by result) (plain state.new) }
{
    let seat = &state.seats[worker];
    match seat.txn.free_asked() {
        Some(key) => {
            free_key(state, worker, key);
            Acted::Went
        }
        None => Acted::Other {
            kind: seat.txn.kind(),
        },
    }
}

/// It frees this key.
fn free_key(state: &mut State, worker: usize, key: Key)
    requires stood { Stood (plain state.old) }
    requires there { worker < state.old.load.workers }
    requires at { (s : PlainSeat) → slice_get state.old.seats.items worker ≡ Some s → IsAtFree (plain state.old) worker key (written_in s.txn key) }
    ensures { FreesKey worker (plain state.old) (plain state.new) }
{
    let seat = &state.seats[worker];
    let joined = seat.txn.has_joined();
    if joined {
        free_on(state, worker, key);
        return;
    }
    free_first(state, worker, key);
}

/// A call that has joined the committed ones frees the key.
fn free_on(state: &mut State, worker: usize, key: Key)
    requires stood { Stood (plain state.old) }
    requires there { worker < state.old.load.workers }
    requires at { (s : PlainSeat) → slice_get state.old.seats.items worker ≡ Some s → IsAtFree (plain state.old) worker key (written_in s.txn key) }
    requires joined { HasJoined (plain state.old) worker true }
    ensures { FreesKey worker (plain state.old) (plain state.new) }
{
    let part = &mut state.shards[usize::from(shard_of(key))];
    let seat = &mut state.seats[worker];
    let vector = seat.txn.lv_ref();
    part.free_by(worker as u8, key, vector, seat.txn.written_at(key));
    seat.txn.went(&state.load.procs);
}

/// A read-only call that has finished joins the committed ones, and frees the key.
fn free_first(state: &mut State, worker: usize, key: Key)
    requires stood { Stood (plain state.old) }
    requires there { worker < state.old.load.workers }
    requires at { (s : PlainSeat) → slice_get state.old.seats.items worker ≡ Some s → IsAtFree (plain state.old) worker key (written_in s.txn key) }
    requires joined { HasJoined (plain state.old) worker false }
    ensures { FreesKey worker (plain state.old) (plain state.new) }
{
    let part = &mut state.shards[usize::from(shard_of(key))];
    let seat = &mut state.seats[worker];
    seat.txn.commit_into(&mut state.committed);
    part.free_by(
        worker as u8,
        key,
        seat.txn.lv_ref(),
        seat.txn.written_at(key),
    );
    seat.txn.went(&state.load.procs);
}
