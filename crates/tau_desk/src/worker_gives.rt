//! Steps of a worker by which a part comes home: after a call that only read, after room was made, after an anchor was read.
ghost use Rattle.std.specs.Prelude.{◌≡◌, ◌+◌, ◌<◌, ◌≤◌, [], ◌∷◌, None, Some, ℕ};
ghost use Rattle.tau_base.specs.declared.limits.TheConstants.{SHARDS};
ghost use Rattle.tau_rule.specs.Boxes.{BoxOf};
ghost use Rattle.tau_desk.specs.Works.{GivesFirst, GivesRead, GivesReadOnly, GivesRoom, told_joined, told_read, told_read_only, told_room};

use crate::desk::Desk;
use crate::room::Room;
use std::marker::Brand;
use tau_ack::Pending;
use tau_base::{Lv, SHARDS};
use tau_model::LentCall;
use tau_outbox::Outbox;
use tau_rule::{Part, Seat, Told};
use tau_shard::Shard;
use tau_txn::Txn;

impl Desk {
    /// A shard comes home after the first free of a call that only read, which joins the committed ones by that.
    pub fn give_first(
        &self,
        seat: &mut Seat,
        number: usize,
        shard: Box<Shard>,
        txn: &Txn,
        kept: &LentCall<'_>,
    )
        requires own { seat.old.table_id ≡ self.now.table.shared.table_id }
        requires opened { seat.old.me.0.opened ≡ Some self.now.table.shared.key.value }
        requires part { number < self.now.parts }
        requires event { (w : ℕ) × GivesFirst self.now.table.shared.key.value seat.old.me number shard.value w txn.now kept.now }
        ensures own { (seat.new.table_id ≡ seat.old.table_id) × (seat.new.id ≡ seat.old.id) }
        ensures given { seat.new.me ≡ (told_joined self.now.table.shared.key.value.load seat.old.me.0 txn.now kept.now, []) }
    {
        self.give_first_told::<Brand>(seat, number, shard, txn, kept);
    }

    fn give_first_told<N: Told>(
        &self,
        seat: &mut Seat,
        number: usize,
        shard: Box<Shard>,
        txn: &Txn,
        kept: &LentCall<'_>,
    )
        requires own { seat.old.table_id ≡ self.now.table.shared.table_id }
        requires opened { seat.old.me.0.opened ≡ Some self.now.table.shared.key.value }
        requires part { number < self.now.parts }
        requires event { (w : ℕ) × GivesFirst self.now.table.shared.key.value seat.old.me number shard.value w txn.now kept.now }
        requires told { N.knows 0 ≡ told_joined self.now.table.shared.key.value.load seat.old.me.0 txn.now kept.now }
        ensures own { (seat.new.table_id ≡ seat.old.table_id) × (seat.new.id ≡ seat.old.id) }
        ensures given { seat.new.me ≡ (told_joined self.now.table.shared.key.value.load seat.old.me.0 txn.now kept.now, []) }
    {
        let _ = txn;
        let _ = kept;
        self.come_home::<N>(seat, number, Part::Shard(shard));
    }

    /// The outbox comes home after the end of a call that only read and held no key, which joins the committed ones by that.
    pub fn give_read_only(
        &self,
        seat: &mut Seat,
        worker: u8,
        outbox: Box<Outbox>,
        pending: Box<Pending>,
        txn: &Txn,
        kept: &LentCall<'_>,
        room: Room,
    )
        requires own { seat.old.table_id ≡ self.now.table.shared.table_id }
        requires opened { seat.old.me.0.opened ≡ Some self.now.table.shared.key.value }
        requires event { (b : BoxOf) × (b ≡ (outbox.value, pending.value)) × GivesReadOnly self.now.table.shared.key.value seat.old.me b worker txn.now kept.now (room.records, room.calls) }
        ensures own { (seat.new.table_id ≡ seat.old.table_id) × (seat.new.id ≡ seat.old.id) }
        ensures given { seat.new.me ≡ (told_read_only self.now.table.shared.key.value.load seat.old.me.0 txn.now kept.now (room.records, room.calls), []) }
    {
        self.give_read_only_told::<Brand>(seat, worker, outbox, pending, txn, kept, room);
    }

    fn give_read_only_told<N: Told>(
        &self,
        seat: &mut Seat,
        worker: u8,
        outbox: Box<Outbox>,
        pending: Box<Pending>,
        txn: &Txn,
        kept: &LentCall<'_>,
        room: Room,
    )
        requires own { seat.old.table_id ≡ self.now.table.shared.table_id }
        requires opened { seat.old.me.0.opened ≡ Some self.now.table.shared.key.value }
        requires event { (b : BoxOf) × (b ≡ (outbox.value, pending.value)) × GivesReadOnly self.now.table.shared.key.value seat.old.me b worker txn.now kept.now (room.records, room.calls) }
        requires told { N.knows 0 ≡ told_read_only self.now.table.shared.key.value.load seat.old.me.0 txn.now kept.now (room.records, room.calls) }
        ensures own { (seat.new.table_id ≡ seat.old.table_id) × (seat.new.id ≡ seat.old.id) }
        ensures given { seat.new.me ≡ (told_read_only self.now.table.shared.key.value.load seat.old.me.0 txn.now kept.now (room.records, room.calls), []) }
    {
        let _ = txn;
        let _ = kept;
        let _ = room;
        let number = SHARDS + usize::from(worker);
        self.come_home::<N>(seat, number, Part::Outbox(outbox, pending));
    }

    /// The outbox comes home with so much room at least, and nothing else has changed in it.
    pub fn give_room(
        &self,
        seat: &mut Seat,
        worker: u8,
        outbox: Box<Outbox>,
        pending: Box<Pending>,
        room: Room,
    )
        requires own { seat.old.table_id ≡ self.now.table.shared.table_id }
        requires opened { seat.old.me.0.opened ≡ Some self.now.table.shared.key.value }
        requires there { worker < self.now.table.shared.key.value.load.workers }
        requires event { (b : BoxOf) × (b ≡ (outbox.value, pending.value)) × GivesRoom seat.old.me b worker (room.records, room.calls) }
        ensures own { (seat.new.table_id ≡ seat.old.table_id) × (seat.new.id ≡ seat.old.id) }
        ensures given { seat.new.me ≡ (told_room seat.old.me.0 (room.records, room.calls), []) }
    {
        self.give_room_told::<Brand>(seat, worker, outbox, pending, room);
    }

    fn give_room_told<N: Told>(
        &self,
        seat: &mut Seat,
        worker: u8,
        outbox: Box<Outbox>,
        pending: Box<Pending>,
        room: Room,
    )
        requires own { seat.old.table_id ≡ self.now.table.shared.table_id }
        requires opened { seat.old.me.0.opened ≡ Some self.now.table.shared.key.value }
        requires there { worker < self.now.table.shared.key.value.load.workers }
        requires event { (b : BoxOf) × (b ≡ (outbox.value, pending.value)) × GivesRoom seat.old.me b worker (room.records, room.calls) }
        requires told { N.knows 0 ≡ told_room seat.old.me.0 (room.records, room.calls) }
        ensures own { (seat.new.table_id ≡ seat.old.table_id) × (seat.new.id ≡ seat.old.id) }
        ensures given { seat.new.me ≡ (told_room seat.old.me.0 (room.records, room.calls), []) }
    {
        let _ = room;
        let number = SHARDS + usize::from(worker);
        self.come_home::<N>(seat, number, Part::Outbox(outbox, pending));
    }

    /// The published anchor of the worker's stream comes home, and the worker has read it.
    pub fn give_read(&self, seat: &mut Seat, worker: u8, part: usize, number: u32, lv: Box<Lv>)
        requires own { seat.old.table_id ≡ self.now.table.shared.table_id }
        requires opened { seat.old.me.0.opened ≡ Some self.now.table.shared.key.value }
        requires part { part < self.now.parts }
        requires there { seat.old.me.1 ≡ (part, None) ∷ [] }
        requires event { GivesRead self.now.table.shared.key.value.load seat.old.me worker number lv.value }
        ensures own { (seat.new.table_id ≡ seat.old.table_id) × (seat.new.id ≡ seat.old.id) }
        ensures given { seat.new.me ≡ (told_read seat.old.me.0 number lv.value, []) }
    {
        self.give_read_told::<Brand>(seat, worker, part, number, lv);
    }

    fn give_read_told<N: Told>(
        &self,
        seat: &mut Seat,
        worker: u8,
        part: usize,
        number: u32,
        lv: Box<Lv>,
    )
        requires own { seat.old.table_id ≡ self.now.table.shared.table_id }
        requires opened { seat.old.me.0.opened ≡ Some self.now.table.shared.key.value }
        requires part { part < self.now.parts }
        requires there { seat.old.me.1 ≡ (part, None) ∷ [] }
        requires event { GivesRead self.now.table.shared.key.value.load seat.old.me worker number lv.value }
        requires told { N.knows 0 ≡ told_read seat.old.me.0 number lv.value }
        ensures own { (seat.new.table_id ≡ seat.old.table_id) × (seat.new.id ≡ seat.old.id) }
        ensures given { seat.new.me ≡ (told_read seat.old.me.0 number lv.value, []) }
    {
        let _ = worker;
        self.come_home::<N>(seat, part, Part::Anchor(number, lv));
    }
}
