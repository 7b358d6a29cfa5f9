//! Parts come home from a manager.
ghost use Rattle.std.specs.Prelude.{◌≡◌, ◌+◌, ◌<◌, ◌^◌, [], ◌∷◌, None, Some, List, vec_len};
ghost use Rattle.tau_outbox.specs.declared.Piece.{Piece as PieceOf};
ghost use Rattle.tau_rule.specs.Boxes.{GivesGathered};
ghost use Rattle.tau_rule.specs.Rule.{anchor_part, outbox_part};
ghost use Rattle.tau_rule.specs.declared.part.Part.TheVariants.{Outbox as OutboxOf};
ghost use Rattle.tau_rule.specs.Steps.{idle};
ghost use Rattle.tau_desk.specs.Manages.{PlacedTo, GivesOwn, GivesPublished, GivesSwept, told_anchored, told_gathered, told_own};
ghost use Rattle.tau_rule.specs.Anchoring.{IsToAnchor};

use crate::desk::Desk;
use crate::seat::Stock;
use atomic_table::Play;
use std::marker::Brand;
use tau_ack::Pending;
use tau_base::{Lv, SHARDS};
use tau_outbox::Outbox;
use tau_rule::{Part, Place, Seat, Told, View};
use tau_shard::Shard;

/// The placed end of a stream was read.
pub struct LookEnd;

impl Play<Option<Part>, View> for LookEnd {
    ghost use Rattle.tau_desk.specs.Manages.{saw_end};

    ghost then = { saw_end };
}

impl Desk {
    /// The outbox of a worker comes home, of which the manager has gathered front pieces.
    pub(crate) fn give_gathered(
        &self,
        seat: &mut Seat,
        stream: u8,
        worker: u8,
        outbox: Box<Outbox>,
        pending: Box<Pending>,
    )
        requires own { seat.old.table_id ≡ self.now.table.shared.table_id }
        requires carried { seat.old.me.1 ≡ (outbox_part worker, None) ∷ [] }
        requires event { (taken : List PieceOf) × GivesGathered self.now.table.shared.key.value seat.old.me (OutboxOf outbox pending) worker stream taken }
        ensures own { (seat.new.table_id ≡ seat.old.table_id) × (seat.new.id ≡ seat.old.id) }
        ensures given { seat.new.me ≡ (told_gathered seat.old.me.0 outbox.value.pieces, []) }
    {
        self.give_gathered_told::<Brand>(seat, stream, worker, outbox, pending);
    }

    fn give_gathered_told<N: Told>(
        &self,
        seat: &mut Seat,
        stream: u8,
        worker: u8,
        outbox: Box<Outbox>,
        pending: Box<Pending>,
    )
        requires own { seat.old.table_id ≡ self.now.table.shared.table_id }
        requires carried { seat.old.me.1 ≡ (outbox_part worker, None) ∷ [] }
        requires event { (taken : List PieceOf) × GivesGathered self.now.table.shared.key.value seat.old.me (OutboxOf outbox pending) worker stream taken }
        requires told { N.knows 0 ≡ told_gathered seat.old.me.0 outbox.value.pieces }
        ensures own { (seat.new.table_id ≡ seat.old.table_id) × (seat.new.id ≡ seat.old.id) }
        ensures given { seat.new.me ≡ (told_gathered seat.old.me.0 outbox.value.pieces, []) }
    {
        let _ = stream;
        let number = SHARDS + usize::from(worker);
        self.come_home::<N>(seat, number, Part::Outbox(outbox, pending));
    }

    /// A shard comes home, of which free entries were dropped that the positions cover which the seat has seen persisted.
    pub(crate) fn give_swept(&self, seat: &mut Seat, number: usize, shard: Box<Shard>)
        requires own { seat.old.table_id ≡ self.now.table.shared.table_id }
        requires part { number < self.now.parts }
        requires event { GivesSwept seat.old.me number shard.value }
        ensures own { (seat.new.table_id ≡ seat.old.table_id) × (seat.new.id ≡ seat.old.id) }
        ensures given { seat.new.me ≡ (idle seat.old.me.0, []) }
    {
        self.give_swept_told::<Brand>(seat, number, shard);
    }

    fn give_swept_told<N: Told>(&self, seat: &mut Seat, number: usize, shard: Box<Shard>)
        requires own { seat.old.table_id ≡ self.now.table.shared.table_id }
        requires part { number < self.now.parts }
        requires event { GivesSwept seat.old.me number shard.value }
        requires told { N.knows 0 ≡ idle seat.old.me.0 }
        ensures own { (seat.new.table_id ≡ seat.old.table_id) × (seat.new.id ≡ seat.old.id) }
        ensures given { seat.new.me ≡ (idle seat.old.me.0, []) }
    {
        self.come_home::<N>(seat, number, Part::Shard(shard));
    }

    /// The number of the part with the published anchor of a stream.
    pub(crate) fn anchor_number(&self, stream: u8) -> usize
        requires there { stream < self.now.streams }
        ensures { result ≡ anchor_part self.now.table.shared.key.value.load stream }
    {
        self.parts - self.streams + stream as usize
    }

    /// The anchor part comes home as it was, and the manager has gathered front records of its own anchors.
    pub(crate) fn give_own(&self, seat: &mut Seat, stream: u8, part: Part, stock: &Stock)
        requires own { seat.old.table_id ≡ self.now.table.shared.table_id }
        requires event { (taken : List PieceOf) × (g : GivesOwn self.now.table.shared.key.value seat.old.me stream taken stock.now.own.pieces) × (g.part_taken ≡ part) }
        ensures own { (seat.new.table_id ≡ seat.old.table_id) × (seat.new.id ≡ seat.old.id) }
        ensures given { seat.new.me ≡ (told_own seat.old.me.0 stock.now.own.pieces, []) }
    {
        self.give_own_told::<Brand>(seat, stream, part, stock);
    }

    fn give_own_told<N: Told>(&self, seat: &mut Seat, stream: u8, part: Part, stock: &Stock)
        requires own { seat.old.table_id ≡ self.now.table.shared.table_id }
        requires event { (taken : List PieceOf) × (g : GivesOwn self.now.table.shared.key.value seat.old.me stream taken stock.now.own.pieces) × (g.part_taken ≡ part) }
        requires told { N.knows 0 ≡ told_own seat.old.me.0 stock.now.own.pieces }
        ensures own { (seat.new.table_id ≡ seat.old.table_id) × (seat.new.id ≡ seat.old.id) }
        ensures given { seat.new.me ≡ (told_own seat.old.me.0 stock.now.own.pieces, []) }
    {
        let _ = stock;
        let number = self.anchor_number(stream);
        self.come_home::<N>(seat, number, part);
    }

    /// An anchor that holds what the manager has seen gets the place of its record, which has these bytes.
    pub(crate) fn place_anchor(&self, seat: &mut Seat, stream: u8, bytes: &Vec<u8>) -> u64
        requires own { seat.old.table_id ≡ self.now.table.shared.table_id }
        requires anchor { IsToAnchor self.now.table.shared.key.value stream seat.old.me bytes.now.items }
        ensures own { (seat.new.table_id ≡ seat.old.table_id) × (seat.new.id ≡ seat.old.id) }
        ensures placed { seat.new.me ≡ (told_anchored seat.old.me.0 bytes.now.items result, seat.old.me.1) }
        ensures small { result + vec_len bytes.now < 2 ^ 62 }
    {
        self.place_anchor_as::<Brand>(seat, stream, bytes)
    }

    fn place_anchor_as<N: Told>(&self, seat: &mut Seat, stream: u8, bytes: &Vec<u8>) -> u64
        requires own { seat.old.table_id ≡ self.now.table.shared.table_id }
        requires anchor { IsToAnchor self.now.table.shared.key.value stream seat.old.me bytes.now.items }
        requires told { N.knows ≡ told_anchored seat.old.me.0 bytes.now.items }
        ensures own { (seat.new.table_id ≡ seat.old.table_id) × (seat.new.id ≡ seat.old.id) }
        ensures placed { seat.new.me ≡ (told_anchored seat.old.me.0 bytes.now.items result, seat.old.me.1) }
        ensures small { result + vec_len bytes.now < 2 ^ 62 }
    {
        let word = 8 * (self.parts + stream as usize);
        let size = bytes.len() as u64;
        self.table.shared.fetch_add::<Place<N>>(seat, word, size)
    }

    /// The anchor part comes home with a newer anchor that the manager placed.
    pub(crate) fn give_published(&self, seat: &mut Seat, stream: u8, number: u32, lv: Box<Lv>)
        requires own { seat.old.table_id ≡ self.now.table.shared.table_id }
        requires event { GivesPublished self.now.table.shared.key.value seat.old.me stream number lv.value }
        ensures own { (seat.new.table_id ≡ seat.old.table_id) × (seat.new.id ≡ seat.old.id) }
        ensures given { seat.new.me ≡ (idle seat.old.me.0, []) }
    {
        self.give_published_told::<Brand>(seat, stream, number, lv);
    }

    fn give_published_told<N: Told>(&self, seat: &mut Seat, stream: u8, number: u32, lv: Box<Lv>)
        requires own { seat.old.table_id ≡ self.now.table.shared.table_id }
        requires event { GivesPublished self.now.table.shared.key.value seat.old.me stream number lv.value }
        requires told { N.knows 0 ≡ idle seat.old.me.0 }
        ensures own { (seat.new.table_id ≡ seat.old.table_id) × (seat.new.id ≡ seat.old.id) }
        ensures given { seat.new.me ≡ (idle seat.old.me.0, []) }
    {
        let home = self.anchor_number(stream);
        self.come_home::<N>(seat, home, Part::Anchor(number, lv));
    }

    /// Up to where a stream is placed.
    pub(crate) fn placed_end(&self, seat: &mut Seat, stream: u8) -> u64
        requires own { seat.old.table_id ≡ self.now.table.shared.table_id }
        requires opened { seat.old.me.0.opened ≡ Some self.now.table.shared.key.value }
        requires there { stream < self.now.streams }
        ensures own { (seat.new.table_id ≡ seat.old.table_id) × (seat.new.id ≡ seat.old.id) }
        ensures same { seat.new.me ≡ seat.old.me }
        ensures end { PlacedTo self.now.table.shared.key.value seat.old.me.0 stream result }
    {
        let word = 8 * (self.parts + stream as usize);
        self.table.shared.load::<LookEnd>(seat, word)
    }
}
