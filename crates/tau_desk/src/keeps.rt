//! Steps of a worker by which its call joins the committed ones. What is kept of the call goes straight into the worker's list.
ghost use Rattle.std.specs.Prelude.{◌≡◌, ◌+◌, ◌-◌, ◌<◌, ◌≤◌, ◌++◌, ◌∷◌, [], List, Some, Ok, IfOk, OnErr, OnOk, false, true, length, vec_capacity, vec_len};
ghost use Rattle.tau_base.specs.declared.limits.TheConstants.{MAX_LSN};
ghost use Rattle.tau_model.specs.declared.committed.Committed.{Committed as CommittedOf};
ghost use Rattle.tau_txn.specs.Next.{IsCommit, kind_of, next_action};
ghost use Rattle.tau_txn.specs.Txn.{RunsBy, bytes_in, has_joined};
ghost use Rattle.tau_rule.specs.Places.{IsToPlace, placed};
ghost use Rattle.tau_rule.specs.Steps.{IsReady, first_role};
ghost use Rattle.tau_desk.specs.Acts.{IsPlaced};
ghost use Rattle.tau_desk.specs.Works.{CommittedBy, EndedReadingBy, FirstFreedBy};

use crate::desk::Desk;
use crate::room::Room;
use crate::work::{more_calls, more_records, number_of, take_outbox, take_shard};
use std::sync::Wait;
use tau_base::{Lv, MAX_HOLDERS, NoMemory, shard_of};
use tau_model::{CommittedList, LentCall};
use tau_proc::Procs;
use tau_rule::Seat;
use tau_txn::{ActionKind, Txn};

/// The record of the call, which has all its keys, is made above this anchor, and gets its place: where it starts. The call has joined the committed ones, and what is kept of it stands last. Out of memory, nothing has changed.
pub(crate) fn commit(
    desk: &Desk,
    seat: &mut Seat,
    worker: u8,
    number: u32,
    anchor: &Lv,
    txn: &mut Txn,
    committed: &mut CommittedList,
) -> Result<u64, NoMemory>
    requires own { seat.old.table_id ≡ desk.now.table.shared.table_id }
    requires ready { IsReady desk.now.table.shared.key.value worker seat.old.me txn.old }
    requires mode { txn.old.mode ≡ desk.now.table.shared.key.value.load.mode }
    requires read { seat.old.me.0.read ≡ (number, anchor.now) }
    requires wide { length anchor.now ≡ desk.now.table.shared.key.value.load.streams }
    requires next { kind_of (next_action txn.old) ≡ ActionKind.Commit }
    requires list { 1 ≤ committed.old.room }
    ensures own { (seat.new.table_id ≡ seat.old.table_id) × (seat.new.id ≡ seat.old.id) }
    ensures step { IfOk result (λ start. (kept : CommittedOf) × CommittedBy desk.now.table.shared.key.value seat.old.me txn.old seat.new.me txn.new (number, anchor.now) (Ok (start, kept)) × (committed.new.items ≡ committed.old.items ++ kept ∷ [])) }
    ensures same { OnErr result ((seat.new.me ≡ seat.old.me) × (txn.new ≡ txn.old) × (committed.new ≡ committed.old)) }
    ensures list { OnOk result (committed.old.room ≤ committed.new.room + 1) }
{
    txn.means();
    txn.prepare(number, anchor)?;
    Ok(place(desk, seat, worker, txn, committed))
}

/// The call, whose record is made, gets its place: where the record starts. What is kept of the call stands last.
fn place(
    desk: &Desk,
    seat: &mut Seat,
    worker: u8,
    txn: &mut Txn,
    committed: &mut CommittedList,
) -> u64
    requires own { seat.old.table_id ≡ desk.now.table.shared.table_id }
    requires call { IsToPlace desk.now.table.shared.key.value worker seat.old.me txn.old }
    requires runs { RunsBy desk.now.table.shared.key.value.load.procs txn.old }
    requires next { IsCommit (next_action txn.old) }
    requires list { 1 ≤ committed.old.room }
    ensures own { (seat.new.table_id ≡ seat.old.table_id) × (seat.new.id ≡ seat.old.id) }
    ensures step { seat.new.me ≡ (placed desk.now.table.shared.key.value.load seat.old.me.0 txn.old result, seat.old.me.1) }
    ensures small { result + length (bytes_in txn.old) < MAX_LSN }
    ensures call { (kept : CommittedOf) × IsPlaced desk.now.table.shared.key.value.load.procs txn.old txn.new result kept × (committed.new.items ≡ committed.old.items ++ kept ∷ []) }
    ensures list { committed.old.room ≤ committed.new.room + 1 }
{
    let start = desk.place(seat, worker, txn);
    txn.placed(start);
    txn.commit_into(committed);
    start
}

/// The call, which only read, holds no key and has not joined the committed ones, joins them: what is kept of it stands last. It waits for its acknowledgement. Where room for the next call is missing, it is made.
pub(crate) fn done_reading<R: Wait>(
    rt: &R,
    desk: &Desk,
    seat: &mut Seat,
    worker: u8,
    procs: &Procs,
    txn: &mut Txn,
    room: &mut Room,
    committed: &mut CommittedList,
)
    requires own { seat.old.table_id ≡ desk.now.table.shared.table_id }
    requires procs { procs.now ≡ desk.now.table.shared.key.value.load.procs }
    requires unjoined { has_joined txn.old ≡ false }
    requires ready { IsReady desk.now.table.shared.key.value worker seat.old.me txn.old }
    requires next { kind_of (next_action txn.old) ≡ ActionKind.Done }
    requires room { ((first_role seat.old.me.0.roles).1.spare ≡ (room.old.records, room.old.calls)) × (1 ≤ room.old.calls) }
    requires list { 1 ≤ committed.old.room }
    ensures own { (seat.new.table_id ≡ seat.old.table_id) × (seat.new.id ≡ seat.old.id) }
    ensures step { (kept : CommittedOf) × EndedReadingBy desk.now.table.shared.key.value seat.old.me txn.old seat.new.me txn.new kept (room.new.records, room.new.calls) × (committed.new.items ≡ committed.old.items ++ kept ∷ []) }
    ensures room { (room.old.records ≤ room.new.records) × (room.old.calls ≤ room.new.calls + 1) }
{
    txn.means();
    let (mut outbox, mut pending) = take_outbox(rt, desk, seat, worker);
    pending.put_from(number_of(txn), txn.lv_ref());
    txn.commit_into(committed);
    txn.went(procs);
    room.records = more_records(&mut outbox, room.records);
    let calls = room.calls - 1;
    room.calls = more_calls(&mut pending, calls);
    let kept = last_of(committed);
    desk.give_read_only(seat, worker, outbox, pending, txn, &kept, *room);
}

/// The worker, whose call only read and has not joined the committed ones, frees its lowest key; the call joins them by that, and what is kept of it stands last. Returns whether there was a key to free.
pub(crate) fn first_free<R: Wait>(
    rt: &R,
    desk: &Desk,
    seat: &mut Seat,
    worker: u8,
    procs: &Procs,
    txn: &mut Txn,
    committed: &mut CommittedList,
) -> bool
    requires own { seat.old.table_id ≡ desk.now.table.shared.table_id }
    requires procs { procs.now ≡ desk.now.table.shared.key.value.load.procs }
    requires small { worker < MAX_HOLDERS }
    requires unjoined { has_joined txn.old ≡ false }
    requires ready { IsReady desk.now.table.shared.key.value worker seat.old.me txn.old }
    requires list { 1 ≤ committed.old.room }
    ensures own { (seat.new.table_id ≡ seat.old.table_id) × (seat.new.id ≡ seat.old.id) }
    ensures step { result ≡ true → (kept : CommittedOf) × FirstFreedBy desk.now.table.shared.key.value seat.old.me txn.old seat.new.me txn.new (Some kept) × (committed.new.items ≡ committed.old.items ++ kept ∷ []) }
    ensures same { result ≡ false → (seat.new.me ≡ seat.old.me) × (txn.new ≡ txn.old) × (committed.new ≡ committed.old) }
    ensures other { result ≡ false → kind_of (next_action txn.old) ≡ ActionKind.Free → ⊥ }
{
    let Some(key) = txn.free_asked() else {
        return false;
    };
    let number = usize::from(shard_of(key));
    let mut shard = take_shard(rt, desk, seat, number);
    // It wrote nothing.
    shard.free_by(worker, key, txn.lv_ref(), None);
    txn.commit_into(committed);
    txn.went(procs);
    desk.give_first(seat, number, shard, txn, &last_of(committed));
    true
}

/// The last of the list.
fn last_of(committed: &CommittedList) -> LentCall<'_>
    requires some { 1 ≤ length committed.now.items }
    ensures last { (before : List CommittedOf) (kept : CommittedOf) → committed.now.items ≡ before ++ kept ∷ [] → result ≡ kept }
{
    committed.at(committed.len() - 1)
}
