//! Optimistic workers on the desk.
ghost use Rattle.std.specs.Prelude.{◌≡◌, ◌<◌, [], None, Some, ℕ, is_some, true, IsFalse, IsTrue};
ghost use Rattle.std.specs.Map.{lookup};
ghost use Rattle.tau_base.specs.Database.{same_key};
ghost use Rattle.tau_desk.specs.Peeks.{HasPeeked, LockedSeen, LocksSeenOn};
ghost use Rattle.tau_desk.specs.Shares.{FitsWork};
ghost use Rattle.tau_desk.specs.Works.{IsSameSeat};
ghost use Rattle.tau_machine.specs.Hands.{Hand as HandOf};
ghost use Rattle.tau_occ.specs.Peeker.{IsPeeking};
ghost use Rattle.tau_rule.specs.Steps.{IsReady};
ghost use Rattle.tau_shard.specs.Read.{shard_of};
ghost use Rattle.tau_txn.specs.Next.{kind_of, next_action};
ghost use Rattle.tau_txn.specs.Txn.{PlainTxn, hand_in};

use crate::desk::Desk;
use crate::seat::{Work, WorkerSeat};
use crate::work::{Acted, number_of, take_shard};
use crate::worker::leave;
use std::sync::Wait;
use tau_base::{Key, MAX_HOLDERS, Mode, Value, shard_of};
use tau_occ::{Peeker, Style};
use tau_proc::Procs;
use tau_rule::{Part, Seat};
use tau_shard::{Shard, ShardRefusal};
use tau_txn::{ActionKind, Txn};

impl WorkerSeat {
    /// The call in hand begins to peek: no value of it was seen. It takes no memory.
    pub fn begin_peeking(&self, desk: &Desk, peeker: &mut Peeker)
        requires opened { self.now.me.0.opened ≡ Some desk.now.table.shared.key.value }
        requires hand { is_some self.now.work.txn.hand ≡ true }
        ensures peeks { (h : HandOf) → hand_in desk.now.table.shared.key.value.load.procs self.now.work.txn ≡ Some h → IsPeeking desk.now.table.shared.key.value.load.procs h.call.call peeker.new }
        ensures none { (peeker.new.seen ≡ []) × (peeker.new.asked ≡ None) }
    {
        begin_peeking(&self.work, desk, peeker);
    }

    /// The worker, which has a call in hand, peeks the row of a key, Absent if it has none, by no event.
    pub fn peek<R: Wait>(&mut self, rt: &R, desk: &Desk, key: Key) -> Value
        requires own { self.old.table_id ≡ desk.now.table.shared.table_id }
        requires opened { self.old.me.0.opened ≡ Some desk.now.table.shared.key.value }
        requires hand { is_some self.old.work.txn.hand ≡ true }
        ensures same { self.new ≡ self.old }
        ensures peeked { HasPeeked desk.now.table.shared.key.value self.old.me.0 key result }
    {
        peek(rt, desk, &mut self.seat, key)
    }

    /// The call in hand locks the key that it wants if what it is to read is what was peeked. It is Busy only if another worker
    /// holds the key in a mode that conflicts, or the row that it is to read is not what was peeked. Out of memory, nothing has
    /// changed.
    pub fn lock_seen<R: Wait>(&mut self, rt: &R, desk: &Desk, peeker: &Peeker) -> Acted
        requires own { self.old.table_id ≡ desk.now.table.shared.table_id }
        requires opened { self.old.me.0.opened ≡ Some desk.now.table.shared.key.value }
        requires optimistic { desk.now.style ≡ Style.Optimistic }
        ensures step { LocksSeenOn desk.now.table.shared.key.value peeker.now.seen self.old self.new result }
        ensures other { result ≡ Acted.Other → kind_of (next_action self.old.work.txn) ≡ ActionKind.Lock → ⊥ }
        ensures seat { IsSameSeat self.old self.new }
    {
        if !self.work.txn.in_hand() {
            return Acted::Other;
        }
        let procs = &desk.load.procs;
        match lock_seen(
            rt,
            desk,
            &mut self.seat,
            self.worker,
            procs,
            &mut self.work.txn,
            peeker,
        ) {
            Acted::Went => {
                self.work.mark = None;
                Acted::Went
            }
            Acted::Busy => {
                self.work.mark = None;
                leave(&mut self.work, procs);
                Acted::Busy
            }
            Acted::Other => Acted::Other,
            Acted::NoMemory => Acted::NoMemory,
        }
    }
}

/// The call in hand begins to peek.
fn begin_peeking(work: &Work, desk: &Desk, peeker: &mut Peeker)
    requires fits { (w : ℕ) × FitsWork desk.now.table.shared.key.value.load w work.now }
    requires hand { is_some work.now.txn.hand ≡ true }
    ensures peeks { (h : HandOf) → hand_in desk.now.table.shared.key.value.load.procs work.now.txn ≡ Some h → IsPeeking desk.now.table.shared.key.value.load.procs h.call.call peeker.new }
    ensures none { (peeker.new.seen ≡ []) × (peeker.new.asked ≡ None) }
{
    let number = number_of(&work.txn);
    let call = desk.load.calls.call_at((number - 1) as usize);
    let _ = peeker.begin(&desk.load.procs, &call);
}

/// The worker peeks a row: the shard is taken and comes home as it was, and no event happens.
fn peek<R: Wait>(rt: &R, desk: &Desk, seat: &mut Seat, key: Key) -> Value
    requires own { seat.old.table_id ≡ desk.now.table.shared.table_id }
    requires role { (w : ℕ) × (t : PlainTxn) × IsReady desk.now.table.shared.key.value w seat.old.me t }
    ensures own { (seat.new.table_id ≡ seat.old.table_id) × (seat.new.id ≡ seat.old.id) }
    ensures same { seat.new.me ≡ seat.old.me }
    ensures peeked { HasPeeked desk.now.table.shared.key.value seat.old.me.0 key result }
{
    let number = usize::from(shard_of(key));
    let shard = take_shard(rt, desk, seat, number);
    let value = shard.value(key);
    desk.give_back(seat, number, Part::Shard(shard));
    value
}

/// Whether the row that is to be read is not what was peeked.
fn differs(shard: &Shard, key: Key, mode: Mode, peeker: &Peeker) -> bool
    ensures so { IsTrue result → (mode ≡ Mode.Read) × (lookup (same_key key) peeker.now.seen ≡ Some ((shard_of shard.now).rows key) → ⊥) }
    ensures not { IsFalse result → mode ≡ Mode.Read → lookup (same_key key) peeker.now.seen ≡ Some ((shard_of shard.now).rows key) }
{
    match mode {
        Mode::Read => !peeker.agrees_row(key, shard.row(key)),
        Mode::Write => false,
    }
}

/// The worker locks the key that the call in hand wants, unless another one holds it in a mode that conflicts, or the row that
/// it is to read is not what was peeked.
fn lock_seen<R: Wait>(
    rt: &R,
    desk: &Desk,
    seat: &mut Seat,
    worker: u8,
    procs: &Procs,
    txn: &mut Txn,
    peeker: &Peeker,
) -> Acted
    requires own { seat.old.table_id ≡ desk.now.table.shared.table_id }
    requires procs { procs.now ≡ desk.now.table.shared.key.value.load.procs }
    requires small { worker < MAX_HOLDERS }
    requires ready { IsReady desk.now.table.shared.key.value worker seat.old.me txn.old }
    requires optimistic { desk.now.style ≡ Style.Optimistic }
    ensures own { (seat.new.table_id ≡ seat.old.table_id) × (seat.new.id ≡ seat.old.id) }
    ensures step { LockedSeen desk.now.table.shared.key.value worker peeker.now.seen seat.old.me txn.old seat.new.me txn.new result }
    ensures other { result ≡ Acted.Other → kind_of (next_action txn.old) ≡ ActionKind.Lock → ⊥ }
{
    let Some((key, mode)) = txn.lock_asked() else {
        return Acted::Other;
    };
    let number = usize::from(shard_of(key));
    let mut shard = take_shard(rt, desk, seat, number);
    if differs(&shard, key, mode, peeker) {
        txn.busy(procs, worker);
        desk.give_shard(seat, number, shard, txn);
        return Acted::Busy;
    }
    let _wide = txn.dep_ref();
    match txn.lock_on(&mut shard, worker, key, mode) {
        Ok(()) => {
            desk.give_shard(seat, number, shard, txn);
            Acted::Went
        }
        Err(ShardRefusal::Busy { holder }) => {
            txn.busy(procs, holder);
            desk.give_shard(seat, number, shard, txn);
            Acted::Busy
        }
        Err(ShardRefusal::NoMemory) => {
            desk.give_back(seat, number, Part::Shard(shard));
            Acted::NoMemory
        }
    }
}
