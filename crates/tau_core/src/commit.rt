//! A worker's call gets the place of its record.
ghost use Rattle.std.specs.Prelude.{◌≡◌, ◌<◌, ◌+◌, length, replicate, slice_index, true};
ghost use Rattle.tau_base.specs.declared.limits.TheConstants.{MAX_LSN};
ghost use Rattle.tau_core.specs.State.{plain};
ghost use Rattle.tau_core.specs.Stands.{Sound, anchors_at};
ghost use Rattle.tau_core.specs.Pieces.{Names, newest_of};
ghost use Rattle.tau_core.specs.Commits.{IsAtCommit, CommitBy, stream_of};
ghost use Rattle.tau_core.specs.Answered.{placed_by};

use crate::event::Acted;
use crate::state::State;
use tau_base::{Lv, MAX_LSN, stream_of};
use tau_txn::ActionKind;

/// More bytes than any record has.
const LONGEST: u64 = 4_294_967_296;

/// The updating call that holds all its keys gets its place.
pub(crate) fn commit(state: &mut State, worker: usize) -> Acted
    requires sound { Sound (plain state.old) }
    requires there { worker < state.old.load.workers }
    ensures { CommitBy (plain state.old) worker (placed_by (slice_index state.old.ends (stream_of (plain state.old) worker)) result) (plain state.new) }
{
    let seat = &state.seats[worker];
    match seat.txn.kind() {
        ActionKind::Commit => place(state, worker),
        kind => Acted::Other { kind },
    }
}

/// It names the newest anchor of its stream, if there is one, and gets its place.
fn place(state: &mut State, worker: usize) -> Acted
    requires sound { Sound (plain state.old) }
    requires there { worker < state.old.load.workers }
    requires at { IsAtCommit (plain state.old) worker }
    ensures { CommitBy (plain state.old) worker (placed_by (slice_index state.old.ends (stream_of (plain state.old) worker)) result) (plain state.new) }
{
    let stream = stream_of(worker, state.load.streams);
    let start = state.ends.get(stream);
    if start >= MAX_LSN - LONGEST {
        return Acted::NoMemory;
    }
    let mut named = Named {
        number: 0,
        lv: Lv::zero(state.load.streams),
    };
    if !newest(state, stream, &mut named) {
        return Acted::NoMemory;
    }
    place_above(state, worker, start, &named)
}

/// Its record is made above this anchor, and gets its place.
fn place_above(state: &mut State, worker: usize, start: u64, named: &Named) -> Acted
    requires sound { Sound (plain state.old) }
    requires there { worker < state.old.load.workers }
    requires at { IsAtCommit (plain state.old) worker }
    requires start { start ≡ slice_index state.old.ends (stream_of (plain state.old) worker) }
    requires low { start + LONGEST < MAX_LSN }
    requires names { Names state.old.load (stream_of (plain state.old) worker) (anchors_at (plain state.old) (stream_of (plain state.old) worker)) named.now.number named.now.lv }
    requires newest { named.now.number ≡ newest_of (slice_index state.old.load.opening.anchors.items (stream_of (plain state.old) worker)) (anchors_at (plain state.old) (stream_of (plain state.old) worker)) }
    requires wide { length named.now.lv ≡ state.old.load.streams }
    ensures { CommitBy (plain state.old) worker (placed_by (slice_index state.old.ends (stream_of (plain state.old) worker)) result) (plain state.new) }
{
    let seat = &mut state.seats[worker];
    match seat.outbox.reserve() {
        Err(_) => Acted::NoMemory,
        Ok(()) => match seat.txn.prepare(named.number, &named.lv) {
            Err(_) => Acted::NoMemory,
            Ok(()) => {
                let past = start + seat.txn.record_size();
                seat.txn.placed(start);
                seat.start = start;
                seat.txn.commit_into(&mut state.committed);
                state.ends.set(stream_of(worker, state.load.streams), past);
                Acted::Went
            }
        },
    }
}

/// An anchor's vector with its number.
#[derive(Clone, Copy)]
struct Named {
    number: u32,
    lv: Lv,
}

/// Puts the newest anchor of the stream in place of the zero vector with the number 0, which stays if there is none. False if its
/// number would be too great.
fn newest(state: &State, stream: usize, named: &mut Named) -> bool
    requires sound { Sound (plain state.now) }
    requires there { stream < state.now.load.streams }
    requires number { named.old.number ≡ 0 }
    requires zero { named.old.lv ≡ replicate state.now.load.streams 0 }
    ensures names { result ≡ true → Names state.now.load stream (anchors_at (plain state.now) stream) named.new.number named.new.lv }
    ensures newest { result ≡ true → named.new.number ≡ newest_of (slice_index state.now.load.opening.anchors.items stream) (anchors_at (plain state.now) stream) }
    ensures wide { result ≡ true → length named.new.lv ≡ state.now.load.streams }
{
    let part = &state.streams[stream];
    let count = part.anchors.len();
    if count == 0 {
        return true;
    }
    let before = state.load.opening.anchors.as_slice()[stream];
    let number = u64::from(before) + count as u64;
    if number >= LONGEST {
        return false;
    }
    named.number = number as u32;
    named.lv.copy_from(&part.anchors[count - 1]);
    true
}
