//! What a worker does on the desk.
ghost use Rattle.std.specs.Prelude.{◌≡◌, ◌+◌, ◌<◌, ◌≤◌, [], ◌∷◌, None, Some, ℕ, is_some, true, false};
ghost use Rattle.tau_shard.specs.Read.{shard_of};
ghost use Rattle.tau_base.specs.declared.limits.TheConstants.{SHARDS};
ghost use Rattle.tau_txn.specs.Txn.{PlainTxn, has_joined, number_in};
ghost use Rattle.tau_rule.specs.Steps.{Agrees, IsReady, IsWorker, holding, shard_in, first_role};
ghost use Rattle.tau_desk.specs.Acts.{FreedBy, HasEnded, HasPosted, LockedBy, QuitBy};
ghost use Rattle.tau_rule.specs.Role.{Role as RoleOf};
ghost use Rattle.tau_desk.specs.Works.{told_room};
ghost use Rattle.tau_rule.specs.Boxes.{box_in, told_box, IsToPost};
ghost use Rattle.tau_txn.specs.Next.{kind_of, next_action};
ghost use Rattle.tau_rule.specs.declared.part.Part.{Part as PartOf};

use crate::desk::Desk;
use crate::room::Room;
use std::sync::Wait;
use tau_ack::Pending;
use tau_base::{MAX_HOLDERS, NoMemory, SHARDS, shard_of};
use tau_core::post_from;
use tau_outbox::Outbox;
use tau_proc::Procs;
use tau_rule::{Part, Seat};
use tau_shard::{Shard, ShardRefusal};
use tau_txn::{ActionKind, Txn};

/// What came of an action on a shard.
#[derive(Clone, Copy)]
pub enum Acted {
    /// It was done.
    Went,
    /// Another worker holds the key, or the row is not what an optimistic worker has peeked.
    Busy,
    /// The call's next action is another one.
    Other,
    /// Out of memory.
    NoMemory,
}

/// Takes a shard.
#[inline(always)]
pub fn take_shard<R: Wait>(rt: &R, desk: &Desk, seat: &mut Seat, number: usize) -> Box<Shard>
    requires own { seat.old.table_id ≡ desk.now.table.shared.table_id }
    requires role { (w : ℕ) × (t : PlainTxn) × IsReady desk.now.table.shared.key.value w seat.old.me t }
    requires low { number < SHARDS }
    ensures own { (seat.new.table_id ≡ seat.old.table_id) × (seat.new.id ≡ seat.old.id) }
    ensures held { (p : PartOf) × (seat.new.me ≡ (holding number seat.old.me.0 p, (number, None) ∷ [])) × (shard_in p ≡ Some (shard_of result.value)) × Agrees desk.now.table.shared.key.value seat.old.me.0 number p }
{
    match desk.take(rt, seat, number) {
        Part::Shard(shard) => shard,
        Part::Outbox(_, _) => unreachable!(),
        Part::Anchor(_, _) => unreachable!(),
    }
}

/// The worker locks the key that the call in hand wants, unless another one holds it in a mode that conflicts.
pub fn lock<R: Wait>(
    rt: &R,
    desk: &Desk,
    seat: &mut Seat,
    worker: u8,
    procs: &Procs,
    txn: &mut Txn,
) -> Acted
    requires own { seat.old.table_id ≡ desk.now.table.shared.table_id }
    requires procs { procs.now ≡ desk.now.table.shared.key.value.load.procs }
    requires small { worker < MAX_HOLDERS }
    requires ready { IsReady desk.now.table.shared.key.value worker seat.old.me txn.old }
    ensures own { (seat.new.table_id ≡ seat.old.table_id) × (seat.new.id ≡ seat.old.id) }
    ensures step { LockedBy desk.now.table.shared.key.value seat.old.me txn.old seat.new.me txn.new result }
    ensures other { result ≡ Acted.Other → kind_of (next_action txn.old) ≡ ActionKind.Lock → ⊥ }
{
    let Some((key, mode)) = txn.lock_asked() else {
        return Acted::Other;
    };
    let number = usize::from(shard_of(key));
    let mut shard = take_shard(rt, desk, seat, number);
    let _wide = txn.dep_ref();
    match txn.lock_on(&mut shard, worker, key, mode) {
        Ok(()) => {
            desk.give_shard(seat, number, shard, txn);
            Acted::Went
        }
        Err(ShardRefusal::Busy { holder }) => {
            txn.busy(procs, holder);
            desk.give_shard(seat, number, shard, txn);
            Acted::Busy
        }
        Err(ShardRefusal::NoMemory) => {
            desk.give_back(seat, number, Part::Shard(shard));
            Acted::NoMemory
        }
    }
}

/// The worker, whose call has joined the committed ones, frees its lowest key.
pub fn free<R: Wait>(
    rt: &R,
    desk: &Desk,
    seat: &mut Seat,
    worker: u8,
    procs: &Procs,
    txn: &mut Txn,
) -> Acted
    requires own { seat.old.table_id ≡ desk.now.table.shared.table_id }
    requires procs { procs.now ≡ desk.now.table.shared.key.value.load.procs }
    requires small { worker < MAX_HOLDERS }
    requires joined { has_joined txn.old ≡ true }
    requires ready { IsReady desk.now.table.shared.key.value worker seat.old.me txn.old }
    ensures own { (seat.new.table_id ≡ seat.old.table_id) × (seat.new.id ≡ seat.old.id) }
    ensures step { FreedBy desk.now.table.shared.key.value seat.old.me txn.old seat.new.me txn.new result }
    ensures other { result ≡ Acted.Other → kind_of (next_action txn.old) ≡ ActionKind.Free → ⊥ }
{
    let Some(key) = txn.free_asked() else {
        return Acted::Other;
    };
    let number = usize::from(shard_of(key));
    let mut shard = take_shard(rt, desk, seat, number);
    let lv = txn.lv_ref();
    shard.free_by(worker, key, lv, txn.written_at(key));
    txn.went(procs);
    desk.give_shard(seat, number, shard, txn);
    Acted::Went
}

/// The worker, whose call is to quit, gives its lowest key back.
pub fn quit<R: Wait>(
    rt: &R,
    desk: &Desk,
    seat: &mut Seat,
    worker: u8,
    procs: &Procs,
    txn: &mut Txn,
) -> Acted
    requires own { seat.old.table_id ≡ desk.now.table.shared.table_id }
    requires procs { procs.now ≡ desk.now.table.shared.key.value.load.procs }
    requires small { worker < MAX_HOLDERS }
    requires ready { IsReady desk.now.table.shared.key.value worker seat.old.me txn.old }
    ensures own { (seat.new.table_id ≡ seat.old.table_id) × (seat.new.id ≡ seat.old.id) }
    ensures step { QuitBy desk.now.table.shared.key.value seat.old.me txn.old seat.new.me txn.new result }
    ensures other { result ≡ Acted.Other → kind_of (next_action txn.old) ≡ ActionKind.Quit → ⊥ }
{
    let Some(key) = txn.quit_asked() else {
        return Acted::Other;
    };
    let number = usize::from(shard_of(key));
    let mut shard = take_shard(rt, desk, seat, number);
    shard.quit(worker, key);
    txn.went(procs);
    desk.give_shard(seat, number, shard, txn);
    Acted::Went
}

/// Takes the worker's outbox.
#[inline(always)]
pub fn take_outbox<R: Wait>(
    rt: &R,
    desk: &Desk,
    seat: &mut Seat,
    worker: u8,
) -> (Box<Outbox>, Box<Pending>)
    requires own { seat.old.table_id ≡ desk.now.table.shared.table_id }
    requires role { (t : PlainTxn) × IsReady desk.now.table.shared.key.value worker seat.old.me t }
    ensures own { (seat.new.table_id ≡ seat.old.table_id) × (seat.new.id ≡ seat.old.id) }
    ensures held { (p : PartOf) × (seat.new.me ≡ (holding (SHARDS + worker) seat.old.me.0 p, (SHARDS + worker, None) ∷ [])) × (box_in p ≡ Some (result.0.value, result.1.value)) × Agrees desk.now.table.shared.key.value seat.old.me.0 (SHARDS + worker) p }
{
    match desk.take(rt, seat, SHARDS + usize::from(worker)) {
        Part::Outbox(outbox, pending) => (outbox, pending),
        Part::Shard(_) => unreachable!(),
        Part::Anchor(_, _) => unreachable!(),
    }
}

/// The record of the call, which has its place, is posted.
pub fn post<R: Wait>(
    rt: &R,
    desk: &Desk,
    seat: &mut Seat,
    worker: u8,
    start: u64,
    txn: &mut Txn,
    room: &mut Room,
)
    requires own { seat.old.table_id ≡ desk.now.table.shared.table_id }
    requires ready { IsReady desk.now.table.shared.key.value worker seat.old.me txn.old }
    requires posts { IsToPost desk.now.table.shared.key.value seat.old.me txn.old start }
    requires room { ((first_role seat.old.me.0.roles).1.spare ≡ (room.old.records, room.old.calls)) × (1 ≤ room.old.records) }
    ensures own { (seat.new.table_id ≡ seat.old.table_id) × (seat.new.id ≡ seat.old.id) }
    ensures step { seat.new.me ≡ (told_box desk.now.table.shared.key.value.load seat.old.me.0 txn.new (room.new.records, room.new.calls), []) }
    ensures call { HasPosted desk.now.table.shared.key.value.load.procs txn.old txn.new }
    ensures room { (room.new.records + 1 ≡ room.old.records) × (room.new.calls ≡ room.old.calls) }
{
    let (mut outbox, pending) = take_outbox(rt, desk, seat, worker);
    post_from(txn, start, &mut outbox);
    room.records -= 1;
    desk.give_outbox(seat, worker, outbox, pending, txn, *room);
}

/// The call, which has joined the committed ones and freed its keys, waits for its acknowledgement. Where room for the next call is missing, it is made.
pub fn done<R: Wait>(
    rt: &R,
    desk: &Desk,
    seat: &mut Seat,
    worker: u8,
    procs: &Procs,
    txn: &mut Txn,
    room: &mut Room,
)
    requires own { seat.old.table_id ≡ desk.now.table.shared.table_id }
    requires procs { procs.now ≡ desk.now.table.shared.key.value.load.procs }
    requires joined { has_joined txn.old ≡ true }
    requires ready { IsReady desk.now.table.shared.key.value worker seat.old.me txn.old }
    requires next { kind_of (next_action txn.old) ≡ ActionKind.Done }
    requires room { ((first_role seat.old.me.0.roles).1.spare ≡ (room.old.records, room.old.calls)) × (1 ≤ room.old.calls) }
    ensures own { (seat.new.table_id ≡ seat.old.table_id) × (seat.new.id ≡ seat.old.id) }
    ensures step { seat.new.me ≡ (told_box desk.now.table.shared.key.value.load seat.old.me.0 txn.new (room.new.records, room.new.calls), []) }
    ensures call { HasEnded desk.now.table.shared.key.value.load.procs txn.old txn.new }
    ensures room { (room.old.records ≤ room.new.records) × (room.old.calls ≤ room.new.calls + 1) }
{
    txn.means();
    let (mut outbox, mut pending) = take_outbox(rt, desk, seat, worker);
    pending.put_from(number_of(txn), txn.lv_ref());
    txn.went(procs);
    room.records = more_records(&mut outbox, room.records);
    room.calls = more_calls(&mut pending, room.calls - 1);
    desk.give_outbox(seat, worker, outbox, pending, txn, *room);
}

/// The number of the call in hand.
pub(crate) fn number_of(txn: &Txn) -> u64
    requires { is_some txn.now.hand ≡ true }
    ensures { Some result ≡ number_in txn.now }
{
    txn.number().unwrap()
}

/// Where there is no room for a record, it is made. All that there is then counts, so that it is seldom asked for.
pub(crate) fn more_records(outbox: &mut Outbox, room: usize) -> usize
    requires { room ≤ outbox.old.room }
    ensures pieces { outbox.new.pieces ≡ outbox.old.pieces }
    ensures kept { room ≤ result }
    ensures there { result ≤ outbox.new.room }
{
    if room > 0 {
        return room;
    }
    match outbox.reserve() {
        Ok(()) => outbox.room(),
        Err(_) => 0,
    }
}

/// Where there is no room for a call that waits, it is made, and all that there is then counts.
pub(crate) fn more_calls(pending: &mut Pending, room: usize) -> usize
    requires { room ≤ pending.old.room }
    ensures calls { pending.new.calls ≡ pending.old.calls }
    ensures kept { room ≤ result }
    ensures there { result ≤ pending.new.room }
{
    if room > 0 {
        return room;
    }
    match pending.reserve() {
        Ok(()) => pending.room(),
        Err(_) => 0,
    }
}

/// Takes the outbox of a worker, whatever call it has.
fn take_own_outbox<R: Wait>(
    rt: &R,
    desk: &Desk,
    seat: &mut Seat,
    worker: u8,
) -> (Box<Outbox>, Box<Pending>)
    requires own { seat.old.table_id ≡ desk.now.table.shared.table_id }
    requires role { (r : RoleOf) × IsWorker desk.now.table.shared.key.value seat.old.me worker r }
    requires there { worker < desk.now.table.shared.key.value.load.workers }
    ensures own { (seat.new.table_id ≡ seat.old.table_id) × (seat.new.id ≡ seat.old.id) }
    ensures held { (p : PartOf) × (seat.new.me ≡ (holding (SHARDS + worker) seat.old.me.0 p, (SHARDS + worker, None) ∷ [])) × (box_in p ≡ Some (result.0.value, result.1.value)) × Agrees desk.now.table.shared.key.value seat.old.me.0 (SHARDS + worker) p }
{
    match desk.take(rt, seat, SHARDS + usize::from(worker)) {
        Part::Outbox(outbox, pending) => (outbox, pending),
        Part::Shard(_) => unreachable!(),
        Part::Anchor(_, _) => unreachable!(),
    }
}

/// Where room for the next call is missing in the outbox, it is made; returns whether there is room now.
pub fn make_room<R: Wait>(rt: &R, desk: &Desk, seat: &mut Seat, worker: u8, room: &mut Room) -> bool
    requires own { seat.old.table_id ≡ desk.now.table.shared.table_id }
    requires role { (r : RoleOf) × (IsWorker desk.now.table.shared.key.value seat.old.me worker r × (r.spare ≡ (room.old.records, room.old.calls))) }
    requires there { worker < desk.now.table.shared.key.value.load.workers }
    ensures own { (seat.new.table_id ≡ seat.old.table_id) × (seat.new.id ≡ seat.old.id) }
    ensures step { seat.new.me ≡ (told_room seat.old.me.0 (room.new.records, room.new.calls), []) }
    ensures room { (room.old.records ≤ room.new.records) × (room.old.calls ≤ room.new.calls) }
    ensures roomy { result ≡ true → (1 ≤ room.new.records) × (1 ≤ room.new.calls) }
    ensures other { result ≡ false → 1 ≤ room.new.records → 1 ≤ room.new.calls → ⊥ }
{
    let (mut outbox, mut pending) = take_own_outbox(rt, desk, seat, worker);
    room.records = more_records(&mut outbox, room.records);
    room.calls = more_calls(&mut pending, room.calls);
    desk.give_room(seat, worker, outbox, pending, *room);
    is_roomy(*room)
}

/// Whether there is room for a call.
pub(crate) fn is_roomy(room: Room) -> bool
    ensures roomy { result ≡ true → (1 ≤ room.records) × (1 ≤ room.calls) }
    ensures other { result ≡ false → 1 ≤ room.records → 1 ≤ room.calls → ⊥ }
{
    if room.records == 0 {
        return false;
    }
    room.calls > 0
}
