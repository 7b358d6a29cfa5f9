//! The state of the core, as its parts.
use crate::left_over::LeftOvers;
use crate::opening::Opening;
use std::alloc::Global;
use std::marker::Model;
use tau_ack::Pending;
use tau_base::{Calls, LogMode, Lv};
use tau_model::CommittedList;
use tau_outbox::Outbox;
use tau_proc::Procs;
use tau_shard::Shard;
use tau_txn::Txn;

/// What a run stands on. No event changes it.
#[derive(Drop)]
pub struct Load {
    pub procs: Procs,
    pub calls: Calls,
    pub mode: LogMode,
    pub workers: usize,
    pub streams: usize,
    pub opening: Opening,
}

/// A worker: its calls, and what it shares with managers and the clerk.
#[derive(Drop)]
pub struct Seat {
    /// The number of its next call, if there is one.
    pub next: usize,
    /// A call left over that comes before.
    pub again: Option<u64>,
    pub txn: Txn,
    /// Where the record of the call in hand starts, from its place to its post.
    pub start: u64,
    pub left: LeftOvers,
    pub outbox: Outbox,
    pub pending: Pending,
}

impl Model for Seat {
    ghost use Rattle.tau_core.specs.Plain.{PlainSeat};

    ghost Value = { PlainSeat };

    ghost view = { λ s. record { next = s.next; again = s.again; txn = s.txn; start = s.start; left = s.left.numbers; room = s.left.room; outbox = s.outbox; pending = s.pending } };
}

/// A stream: what its manager has.
#[derive(Drop)]
pub struct Stream {
    /// The anchors that it placed and has not gathered.
    pub own: Outbox,
    pub anchors: Vec<Lv>,
    pub stop: Option<u64>,
    /// What was gathered since the body was taken.
    pub body: Vec<u8>,
}

impl Model for Stream {
    ghost use Rattle.std.specs.Prelude.{◌-◌, vec_len, vec_capacity};
    ghost use Rattle.tau_core.specs.Plain.{PlainStream};

    ghost Value = { PlainStream };

    ghost view = { λ s. record { own = s.own; anchors = s.anchors.items; stop = s.stop; body = s.body.items; room = vec_capacity s.body - vec_len s.body } };
}

/// The state of the core.
#[derive(Drop)]
pub(crate) struct State {
    pub(crate) alloc: Global,
    pub(crate) load: Load,
    pub(crate) shards: Vec<Shard>,
    pub(crate) seats: Vec<Seat>,
    pub(crate) streams: Vec<Stream>,
    /// The calls that have committed, of each worker in the order in which they did.
    pub(crate) committed: CommittedList,
    /// Of each stream where the last place ends, where what is gathered ends, and how far it is persisted.
    pub(crate) ends: Lv,
    pub(crate) gathered: Lv,
    pub(crate) plv: Lv,
}
