//! The desk closes.
ghost use Rattle.std.specs.Prelude.{ℕ, ◌≡◌, ◌≤◌, ◌<◌, ◌+◌, ◌*◌, ◌^◌, ◌++◌, [], true, false, Some, length, slice_get, slice_index, vec_len, vec_capacity};
ghost use Rattle.std.specs.Slots.{IsFull, slots_filled, slots_items, slots_len};
ghost use Rattle.tau_base.specs.declared.limits.TheConstants.{MAX_STREAMS, MAX_WORKERS, SHARDS};
ghost use Rattle.tau_machine.specs.Reports.{in_turn};
ghost use Rattle.tau_shard.specs.Plain.{PlainShard};
ghost use Rattle.tau_core.specs.Plain.{PlainSeat, PlainStream};
ghost use Rattle.tau_desk.specs.Shares.{PlainStock, PlainWork};
ghost use Rattle.tau_rule.specs.declared.part.Part.{Part as PartOf};
ghost use Rattle.tau_txn.specs.Txn.{has_joined, held_in};
ghost use mathlib.Core.Option.{some};
ghost use lib.ListN.{get_elem?};
ghost use Rattle.tau_desk.specs.Close.{IsBoxOf, IsShardOf};
ghost use Rattle.tau_desk.specs.Taken.{CanBeCore, HasShardAt, IsMadeOf, IsSeatAt, IsSeatFrom, IsShardAt, IsStreamAt, IsStreamFrom, IsTakenTo, calls_at, settled};
ghost use Rattle.tau_desk.specs.Ends.{AreResting, IsClosing, IsWhole};
ghost use Rattle.tau_desk.specs.Kept.{HasRoom};
ghost use Rattle.tau_rule.specs.Rule.{part_count};

use crate::desk::Desk;
use crate::kept::Kept;
use crate::seat::{Head, Stock, Work};
use crate::splits::{take_stock, take_work};
use atomic_table::Closed;
use std::alloc::Global;
use tau_ack::Pending;
use tau_base::{Lv, SHARDS};
use tau_core::{Core, Load, Parts, Stream};
use tau_model::CommittedList;
use tau_outbox::Outbox;
use tau_rule::Part;
use tau_shard::Shard;

impl Desk {
    /// The core of the state that the desk has come to, where each call in hand is let go. The head has every role again. No call in hand holds a key or has committed; one that has made no event waits again. It takes no memory.
    pub fn close(self, head: Head) -> Core
        requires own { head.table_id ≡ self.table.shared.table_id }
        requires opened { head.me.0.opened ≡ Some self.table.shared.key.value }
        requires whole { IsWhole head }
        requires rests { AreResting head }
        ensures { IsClosing self.table.shared.key.value self.table.shared.key.style head.me.0 result }
    {
        let Desk {
            table,
            load,
            style: _,
            parts,
            streams: _,
            kept,
        } = self;
        let Head {
            seat,
            workers,
            managers,
            clerk: _,
            seen: _,
        } = head;
        let closed = table.close_with(seat);
        let parts = put_together(closed, load, parts, kept, workers, managers);
        Core::of_parts(parts)
    }
}

/// What the core is made of: what lies in the slots, the positions that are words, and what the actors have. It takes no memory.
fn put_together(
    mut closed: Closed<Option<Part>, Global>,
    load: Load,
    parts: usize,
    kept: Kept,
    mut works: Vec<Option<Work>>,
    mut stocks: Vec<Option<Stock>>,
) -> Parts
    requires full { IsFull closed.words × IsFull closed.slots }
    requires sized { (slots_len closed.words ≡ 8 * (parts + (load.streams + load.streams + 1))) × (slots_len closed.slots ≡ parts) × (parts ≡ part_count load) × (parts < 2 ^ 16) }
    requires limits { (1 ≤ load.streams) × (load.streams ≤ MAX_STREAMS) × (load.workers ≤ MAX_WORKERS) }
    requires room { HasRoom load (vec_len kept.shards, vec_capacity kept.shards) (vec_len kept.seats, vec_capacity kept.seats) (vec_len kept.streams, vec_capacity kept.streams) (length kept.committed.items, kept.committed.room) }
    requires can { CanBeCore load parts (slots_items closed.slots) (slots_items closed.words) works.items stocks.items }
    ensures { IsMadeOf load parts (slots_items closed.slots) (slots_items closed.words) works.items stocks.items result }
{
    let Kept {
        alloc,
        shards,
        seats,
        streams,
        mut committed,
    } = kept;
    let workers = load.workers;
    let width = load.streams;
    let ends = positions(&closed, parts, width);
    let plv = positions(&closed, parts + width, width);
    let shards = take_shards(&mut closed, shards);
    let seats = take_seats(&mut closed, &mut works, workers, seats, &mut committed);
    let from = SHARDS + workers;
    let (streams, gathered) = take_streams(
        &mut closed,
        &mut stocks,
        alloc,
        from,
        Lv::zero(width),
        streams,
    );
    closed.free();
    Parts {
        alloc,
        load,
        shards,
        seats,
        streams,
        committed,
        ends,
        gathered,
        plv,
    }
}

/// Takes the shards out of their slots. It takes no memory.
fn take_shards(closed: &mut Closed<Option<Part>, Global>, mut shards: Vec<Shard>) -> Vec<Shard>
    requires room { (vec_len shards ≡ 0) × (SHARDS ≤ vec_capacity shards) }
    requires full { IsTakenTo 0 (slots_filled closed.old.slots) (slots_len closed.old.slots) }
    requires there { (SHARDS ≤ slots_len closed.old.slots) × ((k : ℕ) → k < SHARDS → HasShardAt (slots_items closed.old.slots) k) }
    ensures same { (slots_items closed.new.slots ≡ slots_items closed.old.slots) × (slots_len closed.new.slots ≡ slots_len closed.old.slots) }
    ensures taken { IsTakenTo SHARDS (slots_filled closed.new.slots) (slots_len closed.new.slots) }
    ensures count { length result.items ≡ SHARDS }
    ensures each { (k : ℕ) (x : PlainShard) → slice_get result.items k ≡ Some x → IsShardAt (slots_items closed.old.slots) k x }
{
    let mut shard = 0;
    while shard < SHARDS {
        shards.push_reserved(shard_of(closed.take(shard)));
        shard += 1;
    }
    shards
}

/// The shard in a slot that has one.
fn shard_of(slot: Option<Part>) -> Shard
    requires { (p : PartOf) × (x : PlainShard) × (slot ≡ Some p) × IsShardOf p x }
    ensures { (p : PartOf) → slot ≡ Some p → IsShardOf p result }
{
    match slot {
        Some(Part::Shard(shard)) => Box::into_inner(shard),
        Some(Part::Outbox(_, _)) => unreachable!(),
        Some(Part::Anchor(_, _)) => unreachable!(),
        None => unreachable!(),
    }
}

/// What a worker has when the desk closes: a call that has made no event waits again. It takes no memory.
fn settle(mut work: Work) -> Work
    requires held { held_in work.txn ≡ [] }
    requires joined { has_joined work.txn ≡ false }
    ensures { result ≡ settled work work.mark }
{
    let Some(mark) = work.mark else {
        return work;
    };
    work.txn.give_up();
    work.next = mark.next;
    work.again = mark.again;
    work.mark = None;
    work
}

/// The positions in so many words from this one on.
fn positions(closed: &Closed<Option<Part>, Global>, from: usize, streams: usize) -> Lv
    requires low { 1 ≤ streams }
    requires high { streams ≤ MAX_STREAMS }
    requires few { from < 2 ^ 17 }
    requires full { IsFull closed.now.words }
    requires there { 8 * (from + streams) ≤ slots_len closed.now.words }
    requires small { (j : ℕ) → j < streams → slice_index (slots_items closed.now.words) (8 * (from + j)) < 2 ^ 62 }
    ensures count { length result ≡ streams }
    ensures each { (j : ℕ) → j < streams → slice_index result j ≡ slice_index (slots_items closed.now.words) (8 * (from + j)) }
{
    let mut lv = Lv::zero(streams);
    for j in 0..streams {
        lv.set(j, closed.word(8 * (from + j)));
    }
    lv
}

/// The streams, of what their managers have. The published anchors go. It takes no memory.
fn take_streams(
    closed: &mut Closed<Option<Part>, Global>,
    stocks: &mut Vec<Option<Stock>>,
    alloc: Global,
    from: usize,
    mut gathered: Lv,
    mut streams: Vec<Stream>,
) -> (Vec<Stream>, Lv)
    requires few { from < 2 ^ 16 }
    requires room { (vec_len streams ≡ 0) × (length gathered ≤ vec_capacity streams) }
    requires full { IsTakenTo from (slots_filled closed.old.slots) (slots_len closed.old.slots) }
    requires there { from + length gathered ≤ slots_len closed.old.slots }
    requires stocks { (j : ℕ) → j < length gathered → (o : PlainStock) × (slice_get stocks.old.items j ≡ Some (Some o)) × (o.gathered < 2 ^ 62) }
    ensures same { (slots_items closed.new.slots ≡ slots_items closed.old.slots) × (slots_len closed.new.slots ≡ slots_len closed.old.slots) }
    ensures taken { IsTakenTo (from + length gathered) (slots_filled closed.new.slots) (slots_len closed.new.slots) }
    ensures count { (length result.0.items ≡ length gathered) × (length result.1 ≡ length gathered) }
    ensures each { (j : ℕ) (x : PlainStream) → slice_get result.0.items j ≡ Some x → IsStreamAt stocks.old.items result.1 j x }
{
    let count = gathered.width();
    let mut stream = 0;
    while stream < count {
        drop(closed.take(from + stream));
        let stock = take_stock(stocks, stream);
        gathered.set(stream, stock.gathered);
        streams.push_reserved(stream_of(alloc, stock));
        stream += 1;
    }
    (streams, gathered)
}

fn stream_of(alloc: Global, stock: Stock) -> Stream
    ensures { IsStreamFrom stock result }
{
    let Stock {
        anchors,
        own,
        gathered: _,
    } = stock;
    Stream {
        own: own.into_outbox(),
        anchors,
        stop: None,
        body: Vec::new(alloc),
    }
}

/// The workers, of what they have and of their outboxes, and their committed calls, worker after worker. A call that has made no event waits again. It takes no memory.
fn take_seats(
    closed: &mut Closed<Option<Part>, Global>,
    works: &mut Vec<Option<Work>>,
    count: usize,
    mut seats: Vec<tau_core::Seat>,
    committed: &mut CommittedList,
) -> Vec<tau_core::Seat>
    requires few { count < 2 ^ 16 }
    requires room { (vec_len seats ≡ 0) × (count ≤ vec_capacity seats) }
    requires full { IsTakenTo SHARDS (slots_filled closed.old.slots) (slots_len closed.old.slots) }
    requires there { SHARDS + count ≤ slots_len closed.old.slots }
    requires boxes { (w : ℕ) → w < count → (p : PartOf) × (x : PlainSeat) × (get_elem? (slots_items closed.old.slots) (SHARDS + w) ≡ some (Some p)) × IsBoxOf p x }
    requires works { (w : ℕ) → w < count → (o : PlainWork) × (slice_get works.old.items w ≡ Some (Some o)) × (held_in o.txn ≡ []) × (has_joined o.txn ≡ false) }
    requires none { committed.old.items ≡ [] }
    requires calls { length (in_turn count (calls_at works.old.items)) ≤ committed.old.room }
    ensures same { (slots_items closed.new.slots ≡ slots_items closed.old.slots) × (slots_len closed.new.slots ≡ slots_len closed.old.slots) }
    ensures taken { IsTakenTo (SHARDS + count) (slots_filled closed.new.slots) (slots_len closed.new.slots) }
    ensures count { length result.items ≡ count }
    ensures each { (w : ℕ) (x : PlainSeat) → slice_get result.items w ≡ Some x → IsSeatAt (slots_items closed.old.slots) works.old.items w x }
    ensures calls { committed.new.items ≡ in_turn count (calls_at works.old.items) }
{
    let mut worker = 0;
    while worker < count {
        let slot = closed.take(SHARDS + worker);
        let work = settle(take_work(works, worker));
        let (seat, calls) = seat_of(slot, work);
        committed.append(calls);
        seats.push_reserved(seat);
        worker += 1;
    }
    seats
}

/// A worker, of the slot that has its outbox and of what it has, and its committed calls.
fn seat_of(slot: Option<Part>, work: Work) -> (tau_core::Seat, CommittedList)
    requires { (p : PartOf) × (x : PlainSeat) × (slot ≡ Some p) × IsBoxOf p x }
    ensures box_is { (p : PartOf) → slot ≡ Some p → IsBoxOf p result.0 }
    ensures work_is { IsSeatFrom work result.0 }
    ensures calls { result.1.items ≡ work.committed }
{
    let Work {
        next,
        again,
        txn,
        start,
        left,
        committed,
        room: _,
        mark: _,
    } = work;
    let (outbox, pending) = box_of(slot);
    let seat = tau_core::Seat {
        next,
        again,
        txn: Box::into_inner(txn),
        start,
        left,
        outbox,
        pending,
    };
    (seat, committed)
}

fn box_of(slot: Option<Part>) -> (Outbox, Pending)
    requires { (p : PartOf) × (x : PlainSeat) × (slot ≡ Some p) × IsBoxOf p x }
    ensures { (p : PartOf) (x : PlainSeat) → slot ≡ Some p → x.outbox ≡ result.0 → x.pending ≡ result.1 → IsBoxOf p x }
{
    match slot {
        Some(Part::Outbox(outbox, pending)) => {
            (Box::into_inner(outbox), Box::into_inner(pending))
        }
        Some(Part::Shard(_)) => unreachable!(),
        Some(Part::Anchor(_, _)) => unreachable!(),
        None => unreachable!(),
    }
}
