//! The manager of a stream on its seat.
ghost use Rattle.std.specs.Prelude.{◌≡◌, ◌+◌, ◌-◌, ◌%◌, ◌^◌, ◌<◌, ◌≤◌, [], ◌∷◌, None, Some, ℕ, IfNone, IfSome, OnErr, OnOk, false, true, length, slice_get, slice_index, slice_set, vec_len};
ghost use Rattle.tau_base.specs.declared.limits.TheConstants.{MAX_ANCHORS, MAX_LSN, SHARDS};
ghost use Rattle.tau_rule.specs.Role.{Role as RoleOf};
ghost use Rattle.tau_rule.specs.Boxes.{box_in};
ghost use Rattle.tau_rule.specs.Positions.{sees_to, stores_to};
ghost use Rattle.tau_rule.specs.Rule.{anchor_part, has};
ghost use Rattle.tau_shard.specs.Read.{shard_of};
ghost use Rattle.tau_rule.specs.Steps.{Agrees, holding, shard_in};
ghost use Rattle.tau_rule.specs.declared.part.Part.{Part as PartOf};
ghost use Rattle.tau_outbox.specs.Gather.{Gathers};
ghost use Rattle.tau_outbox.specs.Pieces.{end_of};
ghost use Rattle.tau_desk.specs.Works.{anchor_in};
ghost use Rattle.tau_desk.specs.Looks.{LooksOver, PersistedAt};
ghost use Rattle.tau_desk.specs.Manages.{GathersBox, GathersOwn, OnlyRoom, PlacedTo, PlacesAnchor, PutsAnchor, SeesOn};
ghost use Rattle.tau_desk.specs.Visits.{Publishes, Sweeps};

use crate::desk::Desk;
use crate::seat::{ManagerSeat, Stock};
use std::sync::Wait;
use tau_ack::Pending;
use tau_base::{Lv, NoMemory, SHARDS};
use tau_outbox::Outbox;
use tau_record::encode_anchor;
use tau_rule::{Part, Seat};
use tau_shard::Shard;

/// Takes the outbox of a worker.
pub(crate) fn take_box<R: Wait>(
    rt: &R,
    desk: &Desk,
    seat: &mut Seat,
    worker: u8,
) -> (Box<Outbox>, Box<Pending>)
    requires own { seat.old.table_id ≡ desk.now.table.shared.table_id }
    requires role { (u : ℕ) × (x : RoleOf) × (has u seat.old.me.0 ≡ Some x) }
    requires opened { seat.old.me.0.opened ≡ Some desk.now.table.shared.key.value }
    requires idle { (seat.old.me.1 ≡ []) × (seat.old.me.0.hand ≡ None) }
    requires there { worker < desk.now.table.shared.key.value.load.workers }
    ensures own { (seat.new.table_id ≡ seat.old.table_id) × (seat.new.id ≡ seat.old.id) }
    ensures held { (p : PartOf) × (seat.new.me ≡ (holding (SHARDS + worker) seat.old.me.0 p, (SHARDS + worker, None) ∷ [])) × (box_in p ≡ Some (result.0.value, result.1.value)) × Agrees desk.now.table.shared.key.value seat.old.me.0 (SHARDS + worker) p }
{
    match desk.take(rt, seat, SHARDS + usize::from(worker)) {
        Part::Outbox(outbox, pending) => (outbox, pending),
        Part::Shard(_) => unreachable!(),
        Part::Anchor(_, _) => unreachable!(),
    }
}

impl Stock {
    // Where what it gathered ends.
    pub(crate) fn upto(&self) -> u64
        ensures { result ≡ self.now.gathered }
    {
        self.gathered
    }

    fn goes_to(&mut self, past: u64)
        ensures { self.new ≡ record self.old { gathered = past } }
    {
        self.gathered = past;
    }

    // Gathers front records of its own anchors.
    fn gather_own(&mut self, body: &mut Vec<u8>) -> Result<(), NoMemory>
        ensures moved { OnOk result (Gathers self.old.gathered self.old.own.pieces self.new.own.pieces body.old.items body.new.items self.new.gathered) }
        ensures rest { (self.new.anchors ≡ self.old.anchors) × (self.new.room ≡ self.old.room) × (self.old.own.room ≤ self.new.own.room) }
        ensures same { OnErr result ((self.new.own.pieces ≡ self.old.own.pieces) × (self.new.gathered ≡ self.old.gathered) × (body.new.items ≡ body.old.items)) }
    {
        self.gathered = self.own.gather_into(self.gathered, body)?;
        Ok(())
    }

    // The number of the newest anchor, where the stream was opened with so many, and where it is newer than this.
    fn newer(&self, first: u32, before: u32) -> Option<u32>
        requires few { first + length self.now.anchors < 2 ^ 32 }
        ensures newest { IfSome result (λ n. (before < n) × (1 ≤ length self.now.anchors) × (n ≡ first + length self.now.anchors)) }
        ensures none { IfNone result (1 ≤ length self.now.anchors → first + length self.now.anchors ≤ before) }
    {
        let count = self.anchors.len();
        if count == 0 {
            return None;
        }
        let newest = first + count as u32;
        if newest <= before {
            return None;
        }
        Some(newest)
    }

    // The box with the newest anchor in it.
    fn newest_in(&self, mut lv: Box<Lv>) -> Box<Lv>
        requires some { 1 ≤ length self.now.anchors }
        ensures newest { slice_get self.now.anchors (length self.now.anchors - 1) ≡ Some result.value }
    {
        lv.copy_from(&self.anchors[self.anchors.len() - 1]);
        lv
    }

    // Makes room for one more anchor.
    fn reserve(&mut self) -> Result<(), NoMemory>
        ensures room { OnOk result ((1 ≤ self.new.room) × (1 ≤ self.new.own.room)) }
        ensures kept { OnlyRoom self.old self.new }
    {
        self.own.reserve()?;
        self.anchors.try_reserve(1)?;
        Ok(())
    }

    // One anchor more. It takes no memory.
    fn put(&mut self, lv: &Lv, start: u64, bytes: Vec<u8>)
        requires room { (1 ≤ self.old.room) × (1 ≤ self.old.own.room) }
        requires order { end_of 0 self.old.own.pieces ≤ start }
        requires some { 1 ≤ vec_len bytes }
        requires small { start + vec_len bytes < MAX_LSN }
        ensures puts { PutsAnchor self.old lv.now bytes.items start self.new }
    {
        let _ = self.anchors.push(*lv);
        self.own.post(start, bytes);
    }
}

impl ManagerSeat {
    /// Moves front pieces of the outbox of a worker of the stream to the body, as far as they continue the stream and fit. After NoMemory nothing has changed.
    pub fn gather<R: Wait>(
        &mut self,
        rt: &R,
        desk: &Desk,
        worker: u8,
        body: &mut Vec<u8>,
    ) -> Result<(), NoMemory>
        requires own { self.old.table_id ≡ desk.now.table.shared.table_id }
        requires opened { self.old.me.0.opened ≡ Some desk.now.table.shared.key.value }
        requires there { worker < desk.now.table.shared.key.value.load.workers }
        requires whose { worker % desk.now.table.shared.key.value.load.streams ≡ self.old.stream }
        ensures gathers { OnOk result (GathersBox desk.now.table.shared.key.value self.old worker body.old.items self.new body.new.items) }
        ensures same { OnErr result ((self.new ≡ self.old) × (body.new.items ≡ body.old.items)) }
    {
        let (mut outbox, pending) = take_box(rt, desk, &mut self.seat, worker);
        match outbox.gather_into(self.stock.upto(), body) {
            Ok(past) => {
                desk.give_gathered(&mut self.seat, self.stream, worker, outbox, pending);
                self.stock.goes_to(past);
                Ok(())
            }
            Err(_) => {
                let part = Part::Outbox(outbox, pending);
                desk.give_back(&mut self.seat, SHARDS + usize::from(worker), part);
                Err(NoMemory)
            }
        }
    }

    /// Looks how far a stream is persisted.
    pub fn persisted(&mut self, desk: &Desk, stream: u8) -> u64
        requires own { self.old.table_id ≡ desk.now.table.shared.table_id }
        requires opened { self.old.me.0.opened ≡ Some desk.now.table.shared.key.value }
        requires there { stream < desk.now.streams }
        ensures seen { slice_index self.old.seen stream ≤ result }
        ensures knows { self.new ≡ record self.old { me = (sees_to stream result self.old.me.0, self.old.me.1); seen = slice_set self.old.seen stream result } }
        ensures stands { PersistedAt desk.now.table.shared.key.value self.old.me.0 self.old.seen stream result }
    {
        let upto = desk.persisted(&mut self.seat, stream as usize);
        self.seen.set(stream as usize, upto);
        upto
    }

    // How far it has seen a stream persisted.
    fn seen_at(&self, desk: &Desk, stream: u8) -> u64
        requires opened { self.now.me.0.opened ≡ Some desk.now.table.shared.key.value }
        requires there { stream < desk.now.streams }
        ensures same { result ≡ slice_index self.now.seen stream }
        ensures wide { length self.now.seen ≡ desk.now.streams }
    {
        let _ = desk;
        self.seen.get(stream as usize)
    }

    // Looks how far a stream is persisted, and says whether that is further.
    fn looks(&mut self, desk: &Desk, stream: u8) -> bool
        requires own { self.old.table_id ≡ desk.now.table.shared.table_id }
        requires opened { self.old.me.0.opened ≡ Some desk.now.table.shared.key.value }
        requires there { stream < desk.now.streams }
        ensures sees { SeesOn self.old.me self.new.me self.old.seen self.new.seen }
        ensures rest { self.new ≡ record self.old { me = self.new.me; seen = self.new.seen } }
        ensures none { result ≡ false → self.new.seen ≡ self.old.seen }
        ensures others { (j : ℕ) → (j ≡ stream → ⊥) → slice_index self.new.seen j ≡ slice_index self.old.seen j }
        ensures stands { PersistedAt desk.now.table.shared.key.value self.old.me.0 self.old.seen stream (slice_index self.new.seen stream) }
        ensures rose { result ≡ true → slice_index self.old.seen stream < slice_index self.new.seen stream }
    {
        let before = self.seen_at(desk, stream);
        self.persisted(desk, stream) > before
    }

    /// Looks how far each stream is persisted, and says whether one is further than was seen.
    pub fn persisted_all(&mut self, desk: &Desk) -> bool
        requires own { self.old.table_id ≡ desk.now.table.shared.table_id }
        requires opened { self.old.me.0.opened ≡ Some desk.now.table.shared.key.value }
        ensures sees { SeesOn self.old.me self.new.me self.old.seen self.new.seen }
        ensures rest { self.new ≡ record self.old { me = self.new.me; seen = self.new.seen } }
        ensures none { result ≡ false → self.new.seen ≡ self.old.seen }
        ensures looks { LooksOver desk.now.table.shared.key.value self.old.me.0 desk.now.streams self.old.seen self.new.seen result }
    {
        let mut rose = false;
        for stream in 0..desk.streams {
            if self.looks(desk, stream as u8) {
                rose = true;
            }
        }
        rose
    }

    /// Stores how far the stream is persisted.
    pub fn persist(&mut self, desk: &Desk, durable: u64)
        requires own { self.old.table_id ≡ desk.now.table.shared.table_id }
        requires opened { self.old.me.0.opened ≡ Some desk.now.table.shared.key.value }
        requires low { slice_index self.old.seen self.old.stream ≤ durable }
        requires high { durable ≤ self.old.stock.gathered }
        ensures knows { self.new ≡ record self.old { me = (stores_to self.old.stream durable self.old.me.0, self.old.me.1); seen = slice_set self.old.seen self.old.stream durable } }
    {
        desk.persist(&mut self.seat, self.stream as usize, durable);
        self.seen.set(self.stream as usize, durable);
    }

    /// Drops the free entries of a shard that are covered by the positions that the manager has seen persisted.
    pub fn drop_covered<R: Wait>(&mut self, rt: &R, desk: &Desk, number: u8)
        requires own { self.old.table_id ≡ desk.now.table.shared.table_id }
        requires opened { self.old.me.0.opened ≡ Some desk.now.table.shared.key.value }
        requires there { number < SHARDS }
        ensures same { self.new ≡ self.old }
        ensures sweeps { Sweeps desk.now.table.shared.key.value self.old number }
    {
        let mut shard = take_free(rt, desk, &mut self.seat, number as usize);
        shard.drop_covered(&self.seen);
        desk.give_swept(&mut self.seat, number as usize, shard);
    }
}

impl ManagerSeat {
    /// Moves front records of its own anchors to the body, as far as they continue the stream and fit. After NoMemory nothing has changed but room.
    pub fn gather_own<R: Wait>(
        &mut self,
        rt: &R,
        desk: &Desk,
        body: &mut Vec<u8>,
    ) -> Result<(), NoMemory>
        requires own { self.old.table_id ≡ desk.now.table.shared.table_id }
        requires opened { self.old.me.0.opened ≡ Some desk.now.table.shared.key.value }
        ensures gathers { OnOk result (GathersOwn self.old body.old.items self.new body.new.items) }
        ensures same { OnErr result (OnlyRoom self.old.stock self.new.stock × (self.new ≡ record self.old { stock = self.new.stock }) × (body.new.items ≡ body.old.items)) }
    {
        self.stock.gather_own(body)?;
        let number = desk.anchor_number(self.stream);
        let part = desk.take(rt, &mut self.seat, number);
        desk.give_own(&mut self.seat, self.stream, part, &self.stock);
        Ok(())
    }

    /// Up to where the stream is placed: nothing is posted where that is the gathered end.
    pub fn placed_end(&mut self, desk: &Desk) -> u64
        requires own { self.old.table_id ≡ desk.now.table.shared.table_id }
        requires opened { self.old.me.0.opened ≡ Some desk.now.table.shared.key.value }
        ensures same { self.new ≡ self.old }
        ensures end { PlacedTo desk.now.table.shared.key.value self.old.me.0 self.old.stream result }
    {
        desk.placed_end(&mut self.seat, self.stream)
    }

    /// Places an anchor that holds the positions which the manager has seen persisted. After NoMemory nothing has changed.
    pub fn place_anchor<R: Wait>(&mut self, rt: &R, desk: &Desk) -> Result<(), NoMemory>
        requires own { self.old.table_id ≡ desk.now.table.shared.table_id }
        requires opened { self.old.me.0.opened ≡ Some desk.now.table.shared.key.value }
        requires room { (1 ≤ self.old.stock.room) × (1 ≤ self.old.stock.own.room) }
        requires few { slice_index desk.now.table.shared.key.value.load.opening.anchors.items self.old.stream + length self.old.stock.anchors < MAX_ANCHORS }
        ensures placed { OnOk result (PlacesAnchor desk.now.table.shared.key.value.load self.old self.new) }
        ensures same { OnErr result (self.new ≡ self.old) }
    {
        let bytes = encode_anchor(desk.kept.alloc, &self.seen)?;
        let start = desk.place_anchor(&mut self.seat, self.stream, &bytes);
        let number = desk.anchor_number(self.stream);
        let part = desk.take(rt, &mut self.seat, number);
        self.stock.put(&self.seen, start, bytes);
        desk.give_back(&mut self.seat, number, part);
        Ok(())
    }

    /// Publishes the newest anchor that the manager placed, where it is newer than the one published before.
    pub fn publish<R: Wait>(&mut self, rt: &R, desk: &Desk)
        requires own { self.old.table_id ≡ desk.now.table.shared.table_id }
        requires opened { self.old.me.0.opened ≡ Some desk.now.table.shared.key.value }
        requires few { slice_index desk.now.table.shared.key.value.load.opening.anchors.items self.old.stream + length self.old.stock.anchors < 2 ^ 32 }
        ensures same { self.new ≡ self.old }
        ensures publishes { Publishes desk.now.table.shared.key.value self.old }
    {
        let number = desk.anchor_number(self.stream);
        let (before, lv) = take_anchor(rt, desk, &mut self.seat, number);
        let first = desk.load.opening.anchors.as_slice()[self.stream as usize];
        match self.stock.newer(first, before) {
            Some(newest) => {
                let lv = self.stock.newest_in(lv);
                desk.give_published(&mut self.seat, self.stream, newest, lv);
            }
            None => {
                desk.give_back(&mut self.seat, number, Part::Anchor(before, lv));
            }
        }
    }

    /// Makes room for one more anchor.
    pub fn reserve(&mut self) -> Result<(), NoMemory>
        ensures room { OnOk result ((1 ≤ self.new.stock.room) × (1 ≤ self.new.stock.own.room)) }
        ensures kept { OnlyRoom self.old.stock self.new.stock × (self.new ≡ record self.old { stock = self.new.stock }) }
    {
        self.stock.reserve()
    }
}

/// Takes a published anchor.
pub(crate) fn take_anchor<R: Wait>(
    rt: &R,
    desk: &Desk,
    seat: &mut Seat,
    number: usize,
) -> (u32, Box<Lv>)
    requires own { seat.old.table_id ≡ desk.now.table.shared.table_id }
    requires role { (u : ℕ) × (x : RoleOf) × (has u seat.old.me.0 ≡ Some x) }
    requires opened { seat.old.me.0.opened ≡ Some desk.now.table.shared.key.value }
    requires idle { (seat.old.me.1 ≡ []) × (seat.old.me.0.hand ≡ None) }
    requires there { (j : ℕ) × (j < desk.now.streams) × (number ≡ anchor_part desk.now.table.shared.key.value.load j) }
    ensures own { (seat.new.table_id ≡ seat.old.table_id) × (seat.new.id ≡ seat.old.id) }
    ensures held { (p : PartOf) × (seat.new.me ≡ (holding number seat.old.me.0 p, (number, None) ∷ [])) × (anchor_in p ≡ Some (result.0, result.1.value)) × Agrees desk.now.table.shared.key.value seat.old.me.0 number p }
{
    match desk.take(rt, seat, number) {
        Part::Anchor(before, lv) => (before, lv),
        Part::Shard(_) => unreachable!(),
        Part::Outbox(_, _) => unreachable!(),
    }
}

/// Takes a shard.
fn take_free<R: Wait>(rt: &R, desk: &Desk, seat: &mut Seat, number: usize) -> Box<Shard>
    requires own { seat.old.table_id ≡ desk.now.table.shared.table_id }
    requires role { (u : ℕ) × (x : RoleOf) × (has u seat.old.me.0 ≡ Some x) }
    requires opened { seat.old.me.0.opened ≡ Some desk.now.table.shared.key.value }
    requires idle { (seat.old.me.1 ≡ []) × (seat.old.me.0.hand ≡ None) }
    requires low { number < SHARDS }
    ensures own { (seat.new.table_id ≡ seat.old.table_id) × (seat.new.id ≡ seat.old.id) }
    ensures held { (p : PartOf) × (seat.new.me ≡ (holding number seat.old.me.0 p, (number, None) ∷ [])) × (shard_in p ≡ Some (shard_of result.value)) × Agrees desk.now.table.shared.key.value seat.old.me.0 number p }
{
    match desk.take(rt, seat, number) {
        Part::Shard(shard) => shard,
        Part::Outbox(_, _) => unreachable!(),
        Part::Anchor(_, _) => unreachable!(),
    }
}
