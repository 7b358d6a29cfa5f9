//! A worker's call has freed all its keys.
ghost use Rattle.std.specs.Prelude.{◌≡◌, ◌<◌, true, false};
ghost use Rattle.tau_core.specs.State.{plain};
ghost use Rattle.tau_core.specs.Stands.{Sound, Stood};
ghost use Rattle.tau_core.specs.Begins.{HasNext};
ghost use Rattle.tau_core.specs.Firsts.{ActsBy, BeginsBy, Rests};
ghost use Rattle.tau_core.specs.Frees.{IsAtDone, DoneBy, EndsCall, HasJoined};
ghost use Rattle.tau_core.specs.Answered.{went_by};

use crate::begin::{begin_first, in_hand, next_number, undo};
use crate::event::Acted;
use crate::state::State;
use tau_txn::ActionKind;

/// The worker's call waits for its acknowledgement; a worker that rests begins its next call.
pub(crate) fn done(state: &mut State, worker: usize) -> Acted
    requires stood { Stood (plain state.old) }
    requires there { worker < state.old.load.workers }
    ensures { ActsBy DoneBy (plain state.old) worker (went_by result) (plain state.new) }
{
    if in_hand(state, worker) {
        return done_next(state, worker);
    }
    match next_number(state, worker) {
        None => Acted::Other {
            kind: ActionKind::Nothing,
        },
        Some(number) => first_done(state, worker, number),
    }
}

/// It begins the call of this number, which has finished at once.
fn first_done(state: &mut State, worker: usize, number: u64) -> Acted
    requires stood { Stood (plain state.old) }
    requires there { worker < state.old.load.workers }
    requires rests { Rests (plain state.old) worker }
    requires next { HasNext (plain state.old) worker number }
    ensures { BeginsBy DoneBy worker number (plain state.old) (went_by result) (plain state.new) }
{
    let Ok(mark) = begin_first(state, worker, number) else {
        return Acted::NoMemory;
    };
    match done_next(state, worker) {
        Acted::Other { .. } => {
            undo(state, worker, mark);
            Acted::Other {
                kind: ActionKind::Nothing,
            }
        }
        acted => acted,
    }
}

/// The call that has finished and holds no key waits for its acknowledgement.
pub(crate) fn done_next(state: &mut State, worker: usize) -> Acted
    requires sound { Sound (plain state.old) }
    requires there { worker < state.old.load.workers }
    ensures { DoneBy (plain state.old) worker (went_by result) (plain state.new) }
{
    let seat = &state.seats[worker];
    match seat.txn.kind() {
        ActionKind::Done => {
            finish(state, worker);
            Acted::Went
        }
        kind => Acted::Other { kind },
    }
}

/// It waits.
fn finish(state: &mut State, worker: usize)
    requires sound { Sound (plain state.old) }
    requires there { worker < state.old.load.workers }
    requires at { IsAtDone (plain state.old) worker }
    ensures { EndsCall worker (plain state.old) (plain state.new) }
{
    let seat = &state.seats[worker];
    let joined = seat.txn.has_joined();
    if joined {
        finish_on(state, worker);
        return;
    }
    finish_first(state, worker);
}

/// A call that has joined the committed ones waits.
fn finish_on(state: &mut State, worker: usize)
    requires sound { Sound (plain state.old) }
    requires there { worker < state.old.load.workers }
    requires at { IsAtDone (plain state.old) worker }
    requires joined { HasJoined (plain state.old) worker true }
    ensures { EndsCall worker (plain state.old) (plain state.new) }
{
    let seat = &mut state.seats[worker];
    let Some(number) = seat.txn.number() else {
        unreachable!()
    };
    let vector = seat.txn.lv_ref();
    seat.pending.put_from(number, vector);
    seat.txn.went(&state.load.procs);
}

/// A read-only call without a key joins the committed ones, and waits.
fn finish_first(state: &mut State, worker: usize)
    requires sound { Sound (plain state.old) }
    requires there { worker < state.old.load.workers }
    requires at { IsAtDone (plain state.old) worker }
    requires joined { HasJoined (plain state.old) worker false }
    ensures { EndsCall worker (plain state.old) (plain state.new) }
{
    let seat = &mut state.seats[worker];
    let Some(number) = seat.txn.number() else {
        unreachable!()
    };
    seat.txn.commit_into(&mut state.committed);
    seat.pending.put_from(number, seat.txn.lv_ref());
    seat.txn.went(&state.load.procs);
}
