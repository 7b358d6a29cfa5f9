//! A worker that rests begins its next call.
ghost use Rattle.std.specs.Prelude.{◌≡◌, ◌<◌, ◌≤◌, ◌+◌, ◌-◌, ◌++◌, ◌∷◌, [], None, Some, IfOk, OnOk, OnErr, length, slice_get, is_some, IsTrue, false};
ghost use Rattle.tau_core.specs.State.{plain};
ghost use Rattle.tau_core.specs.Stands.{Sound, Stood};
ghost use Rattle.tau_core.specs.Plain.{PlainSeat};
ghost use Rattle.tau_core.specs.View.{call_of};
ghost use Rattle.tau_proc.specs.Takes.{takes};
ghost use Rattle.tau_machine.specs.Worker.{fresh};
ghost use Rattle.tau_txn.specs.Txn.{hand_in, RunsBy, leaves_in};
ghost use Rattle.tau_core.specs.Begins.{next_number, HasNext, RoomMade, IsRoomy, BeginsNext, Undone, next_behind, seat_at};
ghost use Rattle.tau_core.specs.Firsts.{BegunFrom, Rests};

use crate::state::{Seat, State};
use tau_base::{KeptCall, MAX_WORKERS, NoMemory};
use tau_model::CommittedList;
use tau_proc::Procs;

/// Where a worker stood among its calls.
#[derive(Clone, Copy)]
pub(crate) struct Mark {
    next: usize,
    again: Option<u64>,
}

/// Whether the worker has a call in hand.
pub(crate) fn in_hand(state: &State, worker: usize) -> bool
    requires sound { Sound (plain state.now) }
    requires there { worker < state.now.load.workers }
    ensures { (s : PlainSeat) → slice_get state.now.seats.items worker ≡ Some s → result ≡ is_some s.txn.hand }
{
    let seat = &state.seats[worker];
    seat.txn.in_hand()
}

/// The number of its next call.
pub(crate) fn next_number(state: &State, worker: usize) -> Option<u64>
    requires sound { Sound (plain state.now) }
    requires there { worker < state.now.load.workers }
    ensures { (s : PlainSeat) → slice_get state.now.seats.items worker ≡ Some s → result ≡ next_number (length state.now.load.calls) s }
{
    let seat = &state.seats[worker];
    number_in(seat, state.load.calls.len())
}

/// The number of the next call of this worker, where there are so many calls.
fn number_in(seat: &Seat, calls: usize) -> Option<u64>
    ensures { result ≡ next_number calls seat.now }
{
    match seat.again {
        Some(number) => Some(number),
        None => {
            if seat.next <= calls {
                Some(seat.next as u64)
            } else {
                None
            }
        }
    }
}

/// Makes all room that a call needs until it is acknowledged, but for its record.
fn make_room(state: &mut State, worker: usize) -> Result<(), NoMemory>
    requires sound { Sound (plain state.old) }
    requires there { worker < state.old.load.workers }
    ensures made { RoomMade worker (plain state.old) (plain state.new) }
    ensures roomy { OnOk result (IsRoomy worker (plain state.new)) }
{
    committed_room(&mut state.committed)?;
    let seat = &mut state.seats[worker];
    seat_room(seat)
}

/// Makes room for a call of each worker.
fn committed_room(committed: &mut CommittedList) -> Result<(), NoMemory>
    ensures items { committed.new.items ≡ committed.old.items }
    ensures kept { committed.old.room ≤ committed.new.room }
    ensures roomy { OnOk result (MAX_WORKERS ≤ committed.new.room) }
{
    committed.reserve(MAX_WORKERS)
}

/// Makes the room in the worker's own part.
fn seat_room(seat: &mut Seat) -> Result<(), NoMemory>
    ensures same { seat.new ≡ record seat.old { pending = seat.new.pending; room = seat.new.room } }
    ensures calls { seat.new.pending.calls ≡ seat.old.pending.calls }
    ensures pending { seat.old.pending.room ≤ seat.new.pending.room }
    ensures left { seat.old.room ≤ seat.new.room }
    ensures roomy { OnOk result (1 ≤ seat.new.pending.room) }
    ensures roomy_left { OnOk result (1 ≤ seat.new.room) }
{
    seat.pending.reserve()?;
    seat.left.reserve()
}

/// Begins the call of this number, the next one.
fn begin_call(state: &mut State, worker: usize, number: u64) -> Mark
    requires sound { Sound (plain state.old) }
    requires there { worker < state.old.load.workers }
    requires rests { (s : PlainSeat) → slice_get state.old.seats.items worker ≡ Some s → s.txn.hand ≡ None }
    requires next { HasNext (plain state.old) worker number }
    ensures begins { BeginsNext worker number (plain state.old) (plain state.new) }
    ensures mark { (s : PlainSeat) → slice_get state.old.seats.items worker ≡ Some s → result ≡ record { next = s.next; again = s.again } }
{
    let seat = &mut state.seats[worker];
    let mark = mark_of(seat);
    let call = state.load.calls.at((number - 1) as usize);
    start(seat, &state.load.procs, number, call, state.load.workers);
    mark
}

/// Where the worker stands among its calls.
fn mark_of(seat: &Seat) -> Mark
    ensures { result ≡ record { next = seat.now.next; again = seat.now.again } }
{
    Mark {
        next: seat.next,
        again: seat.again,
    }
}

/// Takes the call into its hand, and goes on by one among its calls.
fn start(seat: &mut Seat, procs: &Procs, number: u64, call: &KeptCall, workers: usize)
    requires rests { seat.old.txn.hand ≡ None }
    requires takes { IsTrue (takes procs.now call.now) }
    requires low { 1 ≤ number }
    requires small { seat.old.next + workers < 1000000 }
    ensures begun { hand_in procs.now seat.new.txn ≡ Some (fresh seat.old.txn.width (record { number = number; call = call.now }) 0) }
    ensures runs { RunsBy procs.now seat.new.txn }
    ensures stays { leaves_in seat.new.txn ≡ false }
    ensures same { seat.new.txn ≡ record seat.old.txn { hand = seat.new.txn.hand } }
    ensures others { seat.new ≡ record seat.old { txn = seat.new.txn; next = next_behind workers seat.old.next seat.old.again; again = None } }
{
    seat.txn.begin(procs, number, call);
    if seat.again.is_none() {
        seat.next += workers;
    }
    seat.again = None;
}

/// Makes the room that the call of this number needs, the next one of a worker that rests, and begins it.
pub(crate) fn begin_first(state: &mut State, worker: usize, number: u64) -> Result<Mark, NoMemory>
    requires stood { Stood (plain state.old) }
    requires there { worker < state.old.load.workers }
    requires rests { Rests (plain state.old) worker }
    requires next { HasNext (plain state.old) worker number }
    ensures begun { IfOk result (λ mark. BegunFrom worker number (plain state.old) mark (plain state.new)) }
    ensures made { OnErr result (RoomMade worker (plain state.old) (plain state.new)) }
{
    make_room(state, worker)?;
    Ok(begin_call(state, worker, number))
}

/// Gives the call up that was begun, as if it had not been.
pub(crate) fn undo(state: &mut State, worker: usize, mark: Mark)
    requires there { worker < length state.old.seats.items }
    requires fresh { (s : PlainSeat) → slice_get state.old.seats.items worker ≡ Some s → seat_at s }
    ensures { Undone worker mark.next mark.again (plain state.old) (plain state.new) }
{
    let seat = &mut state.seats[worker];
    seat.txn.give_up();
    seat.next = mark.next;
    seat.again = mark.again;
}
