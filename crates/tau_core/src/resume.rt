//! A call that was left over goes back to its worker.
ghost use Rattle.std.specs.Prelude.{◌≡◌, ◌<◌, Some, slice_get, true, false};
ghost use Rattle.std.specs.List.Sorted.{IsNonDecreasing};
ghost use Rattle.tau_core.specs.Plain.{PlainSeat};
ghost use Rattle.tau_core.specs.State.{plain};
ghost use Rattle.tau_core.specs.Stands.{Sound};
ghost use Rattle.tau_core.specs.LeftOvers.{AllRest, RestsSeat, IsLeftAt, IsLowestIn, IsLowestOf, ResumedBy, TakesBack, lower};

use crate::begin::{in_hand, next_number};
use crate::left_over::LeftOvers;
use crate::state::State;

/// A call that is left over.
#[derive(Clone, Copy)]
pub(crate) struct LeftOver {
    number: u64,
    worker: usize,
    /// Where it stands among those of its worker.
    at: usize,
}

/// Where no worker has a call in hand or one to begin, the lowest call that is left over becomes its worker's next one.
pub(crate) fn resume(state: &mut State) -> Option<u8>
    requires sound { Sound (plain state.old) }
    ensures { ResumedBy (plain state.old) result (plain state.new) }
{
    if !all_rest(state) {
        return None;
    }
    match lowest(state) {
        Some(left) => {
            take_back(state, left);
            Some(left.worker as u8)
        }
        None => None,
    }
}

/// Whether no worker has a call in hand or one to begin.
fn all_rest(state: &State) -> bool
    requires sound { Sound (plain state.now) }
    ensures all { result ≡ true → AllRest (plain state.now) }
    ensures other { result ≡ false → AllRest (plain state.now) → ⊥ }
{
    for worker in 0..state.load.workers {
        if !rests(state, worker) {
            return false;
        }
    }
    true
}

/// Whether the worker has no call in hand and none to begin.
fn rests(state: &State, worker: usize) -> bool
    requires sound { Sound (plain state.now) }
    requires there { worker < state.now.load.workers }
    ensures rest { result ≡ true → (s : PlainSeat) → slice_get state.now.seats.items worker ≡ Some s → RestsSeat state.now.load s }
    ensures other { result ≡ false → (s : PlainSeat) → slice_get state.now.seats.items worker ≡ Some s → RestsSeat state.now.load s → ⊥ }
{
    if in_hand(state, worker) {
        return false;
    }
    match next_number(state, worker) {
        Some(_) => false,
        None => true,
    }
}

/// The lowest call that is left over.
fn lowest(state: &State) -> Option<LeftOver>
    requires sound { Sound (plain state.now) }
    ensures { IsLowestOf state.now.seats.items result }
{
    let mut found = None;
    for worker in 0..state.load.workers {
        let seat = &state.seats[worker];
        found = lower(found, lowest_in(worker, &seat.left));
    }
    found
}

/// The lowest of these calls, which are left over of one worker. Where they ascend none but the first is looked at.
fn lowest_in(worker: usize, left: &LeftOvers) -> Option<LeftOver>
    ensures { IsLowestIn worker left.now.numbers result }
{
    if left.ascends() {
        return first_in(worker, left);
    }
    lowest_of_all(worker, left)
}

/// The first of them.
fn first_in(worker: usize, left: &LeftOvers) -> Option<LeftOver>
    requires ascend { IsNonDecreasing left.now.numbers }
    ensures { IsLowestIn worker left.now.numbers result }
{
    if left.len() == 0 {
        return None;
    }
    Some(LeftOver {
        number: left.get(0),
        worker,
        at: 0,
    })
}

/// The lowest of them, in whatever order they are.
fn lowest_of_all(worker: usize, left: &LeftOvers) -> Option<LeftOver>
    ensures { IsLowestIn worker left.now.numbers result }
{
    let mut found = None;
    for at in 0..left.len() {
        let next = LeftOver {
            number: left.get(at),
            worker,
            at,
        };
        found = lower(found, Some(next));
    }
    found
}

/// The lower of two calls, of equal ones the first.
fn lower(first: Option<LeftOver>, second: Option<LeftOver>) -> Option<LeftOver>
    ensures { result ≡ lower first second }
{
    match (first, second) {
        (None, _) => second,
        (_, None) => first,
        (Some(a), Some(b)) => { if a.number <= b.number { first } else { second } }
    }
}

/// The call is its worker's next one.
fn take_back(state: &mut State, left: LeftOver)
    requires sound { Sound (plain state.old) }
    requires there { IsLeftAt state.old.seats.items left }
    ensures { TakesBack left (plain state.old) (plain state.new) }
{
    let seat = &mut state.seats[left.worker];
    seat.left.remove(left.at);
    seat.again = Some(left.number);
}
