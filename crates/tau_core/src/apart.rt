//! The parts of a core, apart.
ghost use Rattle.std.specs.Prelude.{ℕ, ◌≡◌, Some, map, slice_get};
ghost use Rattle.tau_core.specs.Plain.{PlainSeat};
ghost use Rattle.tau_core.specs.State.{plain};
ghost use Rattle.tau_core.specs.Begins.{seat_at};
ghost use Rattle.tau_core.specs.Parts.{without_hand, without_hands};

use crate::state::{Load, Seat, State, Stream};
use std::alloc::Global;
use std::marker::Model;
use tau_base::Lv;
use tau_model::CommittedList;
use tau_shard::Shard;

/// What a core is made of.
#[derive(Drop)]
pub struct Parts {
    pub alloc: Global,
    pub load: Load,
    /// By number.
    pub shards: Vec<Shard>,
    pub seats: Vec<Seat>,
    pub streams: Vec<Stream>,
    /// The calls that have committed, of each worker in the order in which they did.
    pub committed: CommittedList,
    /// Of each stream where the last place ends, where what is gathered ends, and how far it is persisted.
    pub ends: Lv,
    pub gathered: Lv,
    pub plv: Lv,
}

impl Model for Parts {
    ghost use Rattle.tau_core.specs.State.{Plain};

    ghost Value = { Plain };

    ghost view = { λ q. record { load = q.load; shards = q.shards.items; seats = q.seats.items; streams = q.streams.items; committed = q.committed.items; room = q.committed.room; ends = q.ends; gathered = q.gathered; plv = q.plv } };
}

/// Takes a state apart.
pub(crate) fn parts_of(state: State) -> Parts
    ensures { result ≡ plain state }
{
    let State {
        alloc,
        load,
        shards,
        seats,
        streams,
        committed,
        ends,
        gathered,
        plv,
    } = state;
    Parts {
        alloc,
        load,
        shards,
        seats,
        streams,
        committed,
        ends,
        gathered,
        plv,
    }
}

/// The state of these parts, where each call in hand is let go.
pub(crate) fn state_of(parts: Parts) -> State
    requires rests { (w : ℕ) (s : PlainSeat) → slice_get parts.seats w ≡ Some s → seat_at s }
    ensures { plain result ≡ without_hands parts }
{
    let Parts {
        alloc,
        load,
        shards,
        mut seats,
        streams,
        committed,
        ends,
        gathered,
        plv,
    } = parts;
    let_go(&mut seats);
    State {
        alloc,
        load,
        shards,
        seats,
        streams,
        committed,
        ends,
        gathered,
        plv,
    }
}

/// Each call in hand is let go.
fn let_go(seats: &mut Vec<Seat>)
    requires rests { (w : ℕ) (s : PlainSeat) → slice_get seats.old.items w ≡ Some s → seat_at s }
    ensures { seats.new.items ≡ map without_hand seats.old.items }
{
    for worker in 0..seats.len() {
        let seat = &mut seats[worker];
        leave(seat);
    }
}

/// The call in hand is let go.
fn leave(seat: &mut Seat)
    requires { seat_at seat.old }
    ensures { seat.new ≡ without_hand seat.old }
{
    seat.txn.give_up();
}
