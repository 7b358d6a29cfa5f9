//! The table and its steps.
ghost use Rattle.tau_desk.specs.Kept.{HasRoom};
ghost use Rattle.std.specs.Prelude.{vec_len, vec_capacity, true, false, ◌≡◌, ◌+◌, ◌*◌, ◌<◌, ◌≤◌, ◌^◌, [], ◌∷◌, None, Some, ℕ, length, slice_index};
ghost use Rattle.tau_base.specs.declared.limits.TheConstants.{MAX_STREAMS, MAX_WORKERS};
ghost use Rattle.tau_base.specs.Modes.{format_of, most_streams};
ghost use Rattle.tau_machine.specs.Events.{Event as EventOf};
ghost use Rattle.tau_txn.specs.Txn.{bytes_in};
ghost use Rattle.tau_rule.specs.Role.{Managed as ManagedOf, Role as RoleOf};
ghost use Rattle.tau_rule.specs.Rule.{has, part_count};
ghost use Rattle.tau_rule.specs.Steps.{Agrees, ComesHome, GivesShard, IsBack, Took, holding, idle, told};
ghost use Rattle.tau_rule.specs.Places.{IsToPlace, placed};
ghost use Rattle.tau_rule.specs.Boxes.{BoxOf, GivesOutbox, told_box};
ghost use Rattle.tau_rule.specs.Positions.{IsManager, sees_to, stores_to};
ghost use Rattle.tau_rule.specs.declared.part.Part.{Part as PartOf};
ghost use Rattle.tau_desk.specs.Looks.{PersistedAt};

use crate::kept::Kept;
use crate::room::Room;
use atomic_table::{Play, Table};
use std::alloc::Global;
use std::hint::spin_loop;
use std::marker::Brand;
use std::sync::Wait;
use tau_ack::Pending;
use tau_base::{SHARDS, stream_of};
use tau_core::Load;
use tau_occ::Style;
use tau_outbox::Outbox;
use tau_rule::{Give, OneCore, Origin, Part, Place, Seat, Store, Take, Told, View};
use tau_shard::Shard;
use tau_txn::Txn;

/// How often a seat looks for a turn before it sleeps: longer than a part is mostly out, since for one that sleeps each turn
/// that is given back costs a call of the system, and then others sleep too.
const LOOKS: u64 = 1_000;

/// The word of a persisted position was read.
pub struct LookPersisted;

impl Play<Option<Part>, View> for LookPersisted {
    ghost use Rattle.tau_desk.specs.Looks.{saw_persisted};

    ghost then = { saw_persisted };
}

/// The core, split over a table.
#[derive(Drop)]
pub struct Desk {
    pub table: Table<Option<Part>, View, Origin, OneCore, Global>,
    /// What the run stands on.
    pub load: Load,
    /// How the workers go about their locks.
    pub style: Style,
    /// How many parts there are.
    pub parts: usize,
    /// How many streams there are.
    pub streams: usize,
    /// The room for the core that it makes when it closes.
    pub kept: Kept,
    ghost same_load: { load ≡ table.shared.key.value.load },
    ghost same_style: { style ≡ table.shared.key.style },
    ghost few: { table.shared.key.value.load.workers ≤ MAX_WORKERS },
    ghost roomy: { HasRoom table.shared.key.value.load (vec_len kept.shards, vec_capacity kept.shards) (vec_len kept.seats, vec_capacity kept.seats) (vec_len kept.streams, vec_capacity kept.streams) (length kept.committed.items, kept.committed.room) },
    ghost sized: { (table.shared.table_id.words ≡ 8 * (parts + (table.shared.key.value.load.streams + table.shared.key.value.load.streams + 1))) × (table.shared.table_id.slots ≡ parts) × (parts ≡ part_count table.shared.key.value.load) × (parts < 2 ^ 16) },
    ghost fit: { table.shared.key.value.load.streams ≤ most_streams (format_of table.shared.key.value.load.mode) },
    ghost streams_are: { (streams ≡ table.shared.key.value.load.streams) × (1 ≤ streams) × (streams ≤ MAX_STREAMS) },
}

impl Desk {
    // The part whose turn the seat has.
    fn lift(&self, seat: &mut Seat, number: usize) -> Part
        requires own { seat.old.table_id ≡ self.now.table.shared.table_id }
        requires has { (p : PartOf) × (seat.old.me.1 ≡ (number, Some p) ∷ []) }
        ensures own { (seat.new.table_id ≡ seat.old.table_id) × (seat.new.id ≡ seat.old.id) }
        ensures part { seat.old.me.1 ≡ (number, Some result) ∷ [] }
        ensures seat { seat.new.me ≡ (seat.old.me.0, (number, None) ∷ []) }
    {
        self.table.shared.exchange(seat, number, None).unwrap()
    }

    // Takes the turn of a part where it is free.
    fn try_take(&self, seat: &mut Seat, number: usize) -> bool
        requires own { seat.old.table_id ≡ self.now.table.shared.table_id }
        requires role { (w : ℕ) × (x : RoleOf) × (has w seat.old.me.0 ≡ Some x) }
        requires opened { seat.old.me.0.opened ≡ Some self.now.table.shared.key.value }
        requires idle { (seat.old.me.1 ≡ []) × (seat.old.me.0.hand ≡ None) × (number < self.now.parts) }
        ensures own { (seat.new.table_id ≡ seat.old.table_id) × (seat.new.id ≡ seat.old.id) }
        ensures took { result ≡ true → Took self.now.table.shared.key.value number seat.old.me seat.new.me }
        ensures missed { result ≡ false → seat.new.me ≡ seat.old.me }
    {
        self.table
            .shared
            .compare_exchange::<Take>(seat, 8 * number, 0, 1)
            == 0
    }

    // The same, if a look at the word shows it free.
    fn try_seen(&self, seat: &mut Seat, number: usize) -> bool
        requires own { seat.old.table_id ≡ self.now.table.shared.table_id }
        requires role { (w : ℕ) × (x : RoleOf) × (has w seat.old.me.0 ≡ Some x) }
        requires opened { seat.old.me.0.opened ≡ Some self.now.table.shared.key.value }
        requires idle { (seat.old.me.1 ≡ []) × (seat.old.me.0.hand ≡ None) × (number < self.now.parts) }
        ensures own { (seat.new.table_id ≡ seat.old.table_id) × (seat.new.id ≡ seat.old.id) }
        ensures took { result ≡ true → Took self.now.table.shared.key.value number seat.old.me seat.new.me }
        ensures missed { result ≡ false → seat.new.me ≡ seat.old.me }
    {
        if self.table.shared.peek(8 * number) != 0 {
            return false;
        }
        self.try_take(seat, number)
    }

    // Takes the turn of a part if it becomes free soon.
    fn look_for(&self, seat: &mut Seat, number: usize) -> bool
        requires own { seat.old.table_id ≡ self.now.table.shared.table_id }
        requires role { (w : ℕ) × (x : RoleOf) × (has w seat.old.me.0 ≡ Some x) }
        requires opened { seat.old.me.0.opened ≡ Some self.now.table.shared.key.value }
        requires idle { (seat.old.me.1 ≡ []) × (seat.old.me.0.hand ≡ None) × (number < self.now.parts) }
        ensures own { (seat.new.table_id ≡ seat.old.table_id) × (seat.new.id ≡ seat.old.id) }
        ensures took { result ≡ true → Took self.now.table.shared.key.value number seat.old.me seat.new.me }
        ensures missed { result ≡ false → seat.new.me ≡ seat.old.me }
    {
        for _ in 0..LOOKS {
            if self.try_seen(seat, number) {
                return true;
            }
            spin_loop();
        }
        false
    }

    // Waits for the turn of a part. The word is 2 then, so that who gives it back wakes another.
    fn wait_for<R: Wait>(&self, rt: &R, seat: &mut Seat, number: usize)
        requires own { seat.old.table_id ≡ self.now.table.shared.table_id }
        requires role { (w : ℕ) × (x : RoleOf) × (has w seat.old.me.0 ≡ Some x) }
        requires opened { seat.old.me.0.opened ≡ Some self.now.table.shared.key.value }
        requires idle { (seat.old.me.1 ≡ []) × (seat.old.me.0.hand ≡ None) × (number < self.now.parts) }
        ensures own { (seat.new.table_id ≡ seat.old.table_id) × (seat.new.id ≡ seat.old.id) }
        ensures took { Took self.now.table.shared.key.value number seat.old.me seat.new.me }
    {
        let shared = &self.table.shared;
        for _ in rt.forever() {
            if shared.swap::<Take>(seat, 8 * number, 2) == 0 {
                return;
            }
            shared.park(rt, 8 * number, 2);
        }
        unreachable!()
    }

    /// Waits for the turn of a part, and takes it.
    #[inline(always)]
    pub fn take<R: Wait>(&self, rt: &R, seat: &mut Seat, number: usize) -> Part
        requires own { seat.old.table_id ≡ self.now.table.shared.table_id }
        requires role { (w : ℕ) × (x : RoleOf) × (has w seat.old.me.0 ≡ Some x) }
        requires opened { seat.old.me.0.opened ≡ Some self.now.table.shared.key.value }
        requires idle { (seat.old.me.1 ≡ []) × (seat.old.me.0.hand ≡ None) × (number < self.now.parts) }
        ensures own { (seat.new.table_id ≡ seat.old.table_id) × (seat.new.id ≡ seat.old.id) }
        ensures held { seat.new.me ≡ (holding number seat.old.me.0 result, (number, None) ∷ []) }
        ensures agrees { Agrees self.now.table.shared.key.value seat.old.me.0 number result }
    {
        if self.try_take(seat, number) {
            return self.lift(seat, number);
        }
        self.take_later(rt, seat, number)
    }

    // The same, of a part that was out when its turn was first asked for.
    #[inline(never)]
    fn take_later<R: Wait>(&self, rt: &R, seat: &mut Seat, number: usize) -> Part
        requires own { seat.old.table_id ≡ self.now.table.shared.table_id }
        requires role { (w : ℕ) × (x : RoleOf) × (has w seat.old.me.0 ≡ Some x) }
        requires opened { seat.old.me.0.opened ≡ Some self.now.table.shared.key.value }
        requires idle { (seat.old.me.1 ≡ []) × (seat.old.me.0.hand ≡ None) × (number < self.now.parts) }
        ensures own { (seat.new.table_id ≡ seat.old.table_id) × (seat.new.id ≡ seat.old.id) }
        ensures held { seat.new.me ≡ (holding number seat.old.me.0 result, (number, None) ∷ []) }
        ensures agrees { Agrees self.now.table.shared.key.value seat.old.me.0 number result }
    {
        if self.look_for(seat, number) {
            return self.lift(seat, number);
        }
        self.wait_for(rt, seat, number);
        self.lift(seat, number)
    }

    /// The part that the seat has in hand comes home, and who waits for its turn is woken.
    #[inline(always)]
    pub(crate) fn come_home<N: Told>(&self, seat: &mut Seat, number: usize, part: Part)
        requires own { seat.old.table_id ≡ self.now.table.shared.table_id }
        requires part { number < self.now.parts }
        requires carried { seat.old.me.1 ≡ (number, None) ∷ [] }
        requires home { ComesHome self.now.table.shared.key.value self.now.table.shared.key.style seat.old.id seat.old.me.0 number part (N.knows 0) }
        ensures own { (seat.new.table_id ≡ seat.old.table_id) × (seat.new.id ≡ seat.old.id) }
        ensures given { seat.new.me ≡ (N.knows 0, []) }
    {
        let shared = &self.table.shared;
        shared.exchange(seat, number, Some(part));
        if shared.swap::<Give<N>>(seat, 8 * number, 0) == 2 {
            shared.wake_one(8 * number);
        }
    }

    /// A shard comes home, with an event of the worker whose call in hand is then this one.
    pub fn give_shard(&self, seat: &mut Seat, number: usize, shard: Box<Shard>, txn: &Txn)
        requires own { seat.old.table_id ≡ self.now.table.shared.table_id }
        requires opened { seat.old.me.0.opened ≡ Some self.now.table.shared.key.value }
        requires part { number < self.now.parts }
        requires event { (e : EventOf) × (w : ℕ) × GivesShard self.now.table.shared.key.value self.now.table.shared.key.style e seat.old.me number shard.value w txn.now }
        ensures own { (seat.new.table_id ≡ seat.old.table_id) × (seat.new.id ≡ seat.old.id) }
        ensures given { seat.new.me ≡ (told self.now.table.shared.key.value.load seat.old.me.0 txn.now, []) }
    {
        self.give_shard_told::<Brand>(seat, number, shard, txn);
    }

    fn give_shard_told<N: Told>(&self, seat: &mut Seat, number: usize, shard: Box<Shard>, txn: &Txn)
        requires own { seat.old.table_id ≡ self.now.table.shared.table_id }
        requires opened { seat.old.me.0.opened ≡ Some self.now.table.shared.key.value }
        requires part { number < self.now.parts }
        requires event { (e : EventOf) × (w : ℕ) × GivesShard self.now.table.shared.key.value self.now.table.shared.key.style e seat.old.me number shard.value w txn.now }
        requires told { N.knows 0 ≡ told self.now.table.shared.key.value.load seat.old.me.0 txn.now }
        ensures own { (seat.new.table_id ≡ seat.old.table_id) × (seat.new.id ≡ seat.old.id) }
        ensures given { seat.new.me ≡ (told self.now.table.shared.key.value.load seat.old.me.0 txn.now, []) }
    {
        let _ = txn;
        self.come_home::<N>(seat, number, Part::Shard(shard));
    }

    /// A part comes home as it was taken; only room may have been made in it.
    pub fn give_back(&self, seat: &mut Seat, number: usize, part: Part)
        requires own { seat.old.table_id ≡ self.now.table.shared.table_id }
        requires opened { seat.old.me.0.opened ≡ Some self.now.table.shared.key.value }
        requires part { number < self.now.parts }
        requires same { IsBack self.now.table.shared.key.value seat.old.me number part }
        ensures own { (seat.new.table_id ≡ seat.old.table_id) × (seat.new.id ≡ seat.old.id) }
        ensures given { seat.new.me ≡ (idle seat.old.me.0, []) }
    {
        self.give_back_told::<Brand>(seat, number, part);
    }

    fn give_back_told<N: Told>(&self, seat: &mut Seat, number: usize, part: Part)
        requires own { seat.old.table_id ≡ self.now.table.shared.table_id }
        requires opened { seat.old.me.0.opened ≡ Some self.now.table.shared.key.value }
        requires part { number < self.now.parts }
        requires same { IsBack self.now.table.shared.key.value seat.old.me number part }
        requires told { N.knows 0 ≡ idle seat.old.me.0 }
        ensures own { (seat.new.table_id ≡ seat.old.table_id) × (seat.new.id ≡ seat.old.id) }
        ensures given { seat.new.me ≡ (idle seat.old.me.0, []) }
    {
        self.come_home::<N>(seat, number, part);
    }

    /// The call gets the place of its record.
    pub fn place(&self, seat: &mut Seat, worker: u8, txn: &Txn) -> u64
        requires own { seat.old.table_id ≡ self.now.table.shared.table_id }
        requires call { IsToPlace self.now.table.shared.key.value worker seat.old.me txn.now }
        ensures own { (seat.new.table_id ≡ seat.old.table_id) × (seat.new.id ≡ seat.old.id) }
        ensures placed { seat.new.me ≡ (placed self.now.table.shared.key.value.load seat.old.me.0 txn.now result, seat.old.me.1) }
        ensures small { result + length (bytes_in txn.now) < 2 ^ 62 }
    {
        self.place_as::<Brand>(seat, worker, txn)
    }

    fn place_as<N: Told>(&self, seat: &mut Seat, worker: u8, txn: &Txn) -> u64
        requires own { seat.old.table_id ≡ self.now.table.shared.table_id }
        requires call { IsToPlace self.now.table.shared.key.value worker seat.old.me txn.now }
        requires told { N.knows ≡ placed self.now.table.shared.key.value.load seat.old.me.0 txn.now }
        ensures own { (seat.new.table_id ≡ seat.old.table_id) × (seat.new.id ≡ seat.old.id) }
        ensures placed { seat.new.me ≡ (placed self.now.table.shared.key.value.load seat.old.me.0 txn.now result, seat.old.me.1) }
        ensures small { result + length (bytes_in txn.now) < 2 ^ 62 }
    {
        let stream = stream_of(usize::from(worker), self.streams);
        let word = 8 * (self.parts + stream);
        let size = size_of(txn);
        self.table.shared.fetch_add::<Place<N>>(seat, word, size)
    }

    /// How far a stream is persisted, which is no less than what the seat has seen.
    pub fn persisted(&self, seat: &mut Seat, stream: usize) -> u64
        requires own { seat.old.table_id ≡ self.now.table.shared.table_id }
        requires opened { seat.old.me.0.opened ≡ Some self.now.table.shared.key.value }
        requires there { stream < self.now.streams }
        ensures own { (seat.new.table_id ≡ seat.old.table_id) × (seat.new.id ≡ seat.old.id) }
        ensures small { result < 2 ^ 62 }
        ensures seen { (slice_index seat.old.me.0.seen stream ≤ result) × (seat.new.me ≡ (sees_to stream result seat.old.me.0, seat.old.me.1)) }
        ensures stands { PersistedAt self.now.table.shared.key.value seat.old.me.0 seat.old.me.0.seen stream result }
    {
        let word = 8 * (self.parts + (self.streams + stream));
        self.table.shared.load::<LookPersisted>(seat, word)
    }

    /// The manager of the stream stores how far its disk is.
    pub fn persist(&self, seat: &mut Seat, stream: usize, new: u64)
        requires own { seat.old.table_id ≡ self.now.table.shared.table_id }
        requires manager { (g : ManagedOf) × IsManager self.now.table.shared.key.value stream seat.old.me g × (slice_index seat.old.me.0.seen stream ≤ new) × (new ≤ g.gathered) }
        ensures own { (seat.new.table_id ≡ seat.old.table_id) × (seat.new.id ≡ seat.old.id) }
        ensures stored { seat.new.me ≡ (stores_to stream new seat.old.me.0, seat.old.me.1) }
    {
        let word = 8 * (self.parts + (self.streams + stream));
        self.table.shared.store::<Store>(seat, word, new);
    }

    /// The outbox comes home, with an event of its worker whose call in hand is then this one, and with so much room at least.
    pub fn give_outbox(
        &self,
        seat: &mut Seat,
        worker: u8,
        outbox: Box<Outbox>,
        pending: Box<Pending>,
        txn: &Txn,
        room: Room,
    )
        requires own { seat.old.table_id ≡ self.now.table.shared.table_id }
        requires opened { seat.old.me.0.opened ≡ Some self.now.table.shared.key.value }
        requires event { (e : EventOf) × ((b : BoxOf) × (b ≡ (outbox.value, pending.value)) × GivesOutbox self.now.table.shared.key.value e seat.old.me b worker txn.now (room.records, room.calls)) }
        ensures own { (seat.new.table_id ≡ seat.old.table_id) × (seat.new.id ≡ seat.old.id) }
        ensures given { seat.new.me ≡ (told_box self.now.table.shared.key.value.load seat.old.me.0 txn.now (room.records, room.calls), []) }
    {
        self.give_outbox_told::<Brand>(seat, worker, outbox, pending, txn, room);
    }

    fn give_outbox_told<N: Told>(
        &self,
        seat: &mut Seat,
        worker: u8,
        outbox: Box<Outbox>,
        pending: Box<Pending>,
        txn: &Txn,
        room: Room,
    )
        requires own { seat.old.table_id ≡ self.now.table.shared.table_id }
        requires opened { seat.old.me.0.opened ≡ Some self.now.table.shared.key.value }
        requires event { (e : EventOf) × ((b : BoxOf) × (b ≡ (outbox.value, pending.value)) × GivesOutbox self.now.table.shared.key.value e seat.old.me b worker txn.now (room.records, room.calls)) }
        requires told { N.knows 0 ≡ told_box self.now.table.shared.key.value.load seat.old.me.0 txn.now (room.records, room.calls) }
        ensures own { (seat.new.table_id ≡ seat.old.table_id) × (seat.new.id ≡ seat.old.id) }
        ensures given { seat.new.me ≡ (told_box self.now.table.shared.key.value.load seat.old.me.0 txn.now (room.records, room.calls), []) }
    {
        let _ = txn;
        let _ = room;
        let number = SHARDS + usize::from(worker);
        self.come_home::<N>(seat, number, Part::Outbox(outbox, pending));
    }
}

/// How many bytes the record of the call in hand has.
fn size_of(txn: &Txn) -> u64
    ensures { result ≡ length (bytes_in txn.now) }
{
    txn.record_size()
}
