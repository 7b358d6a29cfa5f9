//! The seats: what an actor knows of the desk, with what it has of its own.
use crate::mark::Mark;
use crate::own_records::OwnRecords;
use crate::room::Room;
use std::marker::Model;
use tau_base::Lv;
use tau_core::LeftOvers;
use tau_model::CommittedList;
use tau_rule::Seat;
use tau_txn::Txn;

/// What a worker has of its own.
#[derive(Drop)]
pub struct Work {
    /// The number of its next call, if there is one.
    pub next: usize,
    /// A call left over that comes before.
    pub again: Option<u64>,
    /// The call in hand, in a box, since it is large and a seat is moved.
    pub txn: Box<Txn>,
    /// Where the record of the call in hand starts, from its place to its post.
    pub start: u64,
    pub left: LeftOvers,
    pub committed: CommittedList,
    /// How much room its outbox has at least.
    pub room: Room,
    /// Where it stood among its calls before the call in hand, until that has made an event.
    pub mark: Option<Mark>,
}

impl Model for Work {
    ghost use Rattle.tau_desk.specs.Shares.{PlainWork};

    ghost Value = { PlainWork };

    ghost view = { λ o. record { next = o.next; again = o.again; txn = o.txn.value; start = o.start; left = o.left.numbers; left_room = o.left.room; committed = o.committed.items; committed_room = o.committed.room; spare = (o.room.records, o.room.calls); mark = o.mark } };
}

/// What the manager of a stream has of its own.
#[derive(Drop)]
pub struct Stock {
    pub anchors: Vec<Lv>,
    /// The anchors that it placed and has not gathered.
    pub own: OwnRecords,
    /// Where what it gathered ends.
    pub gathered: u64,
}

impl Model for Stock {
    ghost use Rattle.std.specs.Prelude.{◌-◌, vec_len, vec_capacity};
    ghost use Rattle.tau_desk.specs.Shares.{PlainStock};

    ghost Value = { PlainStock };

    ghost view = { λ o. record { anchors = o.anchors.items; room = vec_capacity o.anchors - vec_len o.anchors; own = o.own; gathered = o.gathered } };
}

/// The seat of a worker.
#[derive(Drop)]
pub struct WorkerSeat {
    pub(crate) seat: Seat,
    pub(crate) worker: u8,
    pub(crate) work: Work,
    /// The newest anchor of its stream that it has read: its number, 0 for none, and its vector.
    pub(crate) anchor: u32,
    pub(crate) anchor_lv: Lv,
    /// How far it has seen each stream persisted.
    pub(crate) seen: Lv,
}

impl Model for WorkerSeat {
    ghost use Rattle.tau_desk.specs.Seats.{PlainWorkerSeat, IsWorkerSeat};

    ghost Value = { PlainWorkerSeat };

    ghost view = { λ s. record { table_id = s.seat.table_id; id = s.seat.id; me = s.seat.me; worker = s.worker; work = s.work; read = (s.anchor, s.anchor_lv); seen = s.seen } };

    ghost invariant = { λ s. IsWorkerSeat s.seat.me s.worker s.work (s.anchor, s.anchor_lv) s.seen };
}

/// The seat of the manager of a stream.
#[derive(Drop)]
pub struct ManagerSeat {
    pub(crate) seat: Seat,
    pub(crate) stream: u8,
    pub(crate) stock: Stock,
    /// How far it has seen each stream persisted.
    pub(crate) seen: Lv,
}

impl Model for ManagerSeat {
    ghost use Rattle.tau_desk.specs.Seats.{PlainManagerSeat, IsManagerSeat};

    ghost Value = { PlainManagerSeat };

    ghost view = { λ s. record { table_id = s.seat.table_id; id = s.seat.id; me = s.seat.me; stream = s.stream; stock = s.stock; seen = s.seen } };

    ghost invariant = { λ s. IsManagerSeat s.seat.me s.stream s.stock s.seen };
}

/// The seat of the clerk.
#[derive(Drop)]
pub struct ClerkSeat {
    pub(crate) seat: Seat,
    /// How far it has seen each stream persisted.
    pub(crate) seen: Lv,
}

impl Model for ClerkSeat {
    ghost use Rattle.tau_desk.specs.Seats.{PlainClerkSeat, IsClerkSeat};

    ghost Value = { PlainClerkSeat };

    ghost view = { λ s. record { table_id = s.seat.table_id; id = s.seat.id; me = s.seat.me; seen = s.seen } };

    ghost invariant = { λ s. IsClerkSeat s.seat.me s.seen };
}

/// The seat from which the others are split off, and which takes them in again: it has what is not out.
#[derive(Drop)]
pub struct Head {
    pub(crate) seat: Seat,
    pub(crate) workers: Vec<Option<Work>>,
    pub(crate) managers: Vec<Option<Stock>>,
    /// Whether it has the clerk's role.
    pub(crate) clerk: bool,
    /// How far it has seen each stream persisted.
    pub(crate) seen: Lv,
}

impl Model for Head {
    ghost use Rattle.tau_desk.specs.Seats.{PlainHead, IsHead};

    ghost Value = { PlainHead };

    ghost view = { λ s. record { table_id = s.seat.table_id; id = s.seat.id; me = s.seat.me; workers = s.workers.items; managers = s.managers.items; clerk = s.clerk; seen = s.seen } };

    ghost invariant = { λ s. IsHead s.seat.me s.workers.items s.managers.items s.clerk s.seen };
}
