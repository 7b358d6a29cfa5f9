//! The clerk on its seat.
ghost use Rattle.std.specs.Prelude.{◌≡◌, ◌<◌, ◌≤◌, Some, ℕ, false, true, length, slice_index, slice_set};
ghost use Rattle.tau_ack.specs.Pending.{NoneCovered, TakesFirst};
ghost use Rattle.tau_rule.specs.Positions.{sees_to};
ghost use Rattle.tau_desk.specs.Looks.{LooksOver, PersistedAt};
ghost use Rattle.tau_desk.specs.Manages.{AcksFirst, AcksNone, SeesOn};

use crate::desk::Desk;
use crate::manager::take_box;
use crate::seat::ClerkSeat;
use std::sync::Wait;
use tau_ack::{Pending, Waiting};
use tau_base::{Lv, SHARDS};
use tau_rule::Part;

impl ClerkSeat {
    /// Looks how far a stream is persisted.
    pub fn look(&mut self, desk: &Desk, stream: u8) -> u64
        requires own { self.old.table_id ≡ desk.now.table.shared.table_id }
        requires opened { self.old.me.0.opened ≡ Some desk.now.table.shared.key.value }
        requires there { stream < desk.now.streams }
        ensures seen { slice_index self.old.seen stream ≤ result }
        ensures knows { self.new ≡ record self.old { me = (sees_to stream result self.old.me.0, self.old.me.1); seen = slice_set self.old.seen stream result } }
        ensures stands { PersistedAt desk.now.table.shared.key.value self.old.me.0 self.old.seen stream result }
    {
        let upto = desk.persisted(&mut self.seat, stream as usize);
        self.seen.set(stream as usize, upto);
        upto
    }

    /// Acknowledges the first pending call of the worker whose vector is covered by the positions that the clerk has seen persisted, and
    /// writes it into `call`. Returns whether there was one.
    pub fn ack<R: Wait>(&mut self, rt: &R, desk: &Desk, worker: u8, call: &mut Waiting) -> bool
        requires own { self.old.table_id ≡ desk.now.table.shared.table_id }
        requires opened { self.old.me.0.opened ≡ Some desk.now.table.shared.key.value }
        requires there { worker < desk.now.table.shared.key.value.load.workers }
        ensures acked { result ≡ true → AcksFirst desk.now.table.shared.key.value self.old worker call.new self.new }
        ensures none { result ≡ false → AcksNone desk.now.table.shared.key.value self.old worker self.new }
    {
        let (outbox, mut pending) = take_box(rt, desk, &mut self.seat, worker);
        if !take_first(&mut pending, &self.seen, call) {
            let part = Part::Outbox(outbox, pending);
            desk.give_back(&mut self.seat, SHARDS + usize::from(worker), part);
            return false;
        }
        desk.give_acked(&mut self.seat, worker, outbox, pending, call);
        true
    }

    // How far it has seen a stream persisted.
    fn seen_at(&self, desk: &Desk, stream: u8) -> u64
        requires opened { self.now.me.0.opened ≡ Some desk.now.table.shared.key.value }
        requires there { stream < desk.now.streams }
        ensures same { result ≡ slice_index self.now.seen stream }
        ensures wide { length self.now.seen ≡ desk.now.streams }
    {
        let _ = desk;
        self.seen.get(stream as usize)
    }

    // Looks how far a stream is persisted, and says whether that is further.
    fn looks(&mut self, desk: &Desk, stream: u8) -> bool
        requires own { self.old.table_id ≡ desk.now.table.shared.table_id }
        requires opened { self.old.me.0.opened ≡ Some desk.now.table.shared.key.value }
        requires there { stream < desk.now.streams }
        ensures sees { SeesOn self.old.me self.new.me self.old.seen self.new.seen }
        ensures rest { self.new ≡ record self.old { me = self.new.me; seen = self.new.seen } }
        ensures none { result ≡ false → self.new.seen ≡ self.old.seen }
        ensures others { (j : ℕ) → (j ≡ stream → ⊥) → slice_index self.new.seen j ≡ slice_index self.old.seen j }
        ensures stands { PersistedAt desk.now.table.shared.key.value self.old.me.0 self.old.seen stream (slice_index self.new.seen stream) }
        ensures rose { result ≡ true → slice_index self.old.seen stream < slice_index self.new.seen stream }
    {
        let before = self.seen_at(desk, stream);
        self.look(desk, stream) > before
    }

    /// Looks how far each stream is persisted, and says whether one is further than was seen.
    pub fn look_all(&mut self, desk: &Desk) -> bool
        requires own { self.old.table_id ≡ desk.now.table.shared.table_id }
        requires opened { self.old.me.0.opened ≡ Some desk.now.table.shared.key.value }
        ensures sees { SeesOn self.old.me self.new.me self.old.seen self.new.seen }
        ensures rest { self.new ≡ record self.old { me = self.new.me; seen = self.new.seen } }
        ensures none { result ≡ false → self.new.seen ≡ self.old.seen }
        ensures looks { LooksOver desk.now.table.shared.key.value self.old.me.0 desk.now.streams self.old.seen self.new.seen result }
    {
        let mut rose = false;
        for stream in 0..desk.streams {
            if self.looks(desk, stream as u8) {
                rose = true;
            }
        }
        rose
    }
}

/// The first call whose vector these positions cover is taken out, and written there. Returns whether there was one.
fn take_first(pending: &mut Pending, seen: &Lv, call: &mut Waiting) -> bool
    ensures first { result ≡ true → TakesFirst seen.now pending.old.calls call.new pending.new.calls }
    ensures none { result ≡ false → NoneCovered seen.now pending.old.calls }
    ensures unchanged { result ≡ false → pending.new.calls ≡ pending.old.calls }
    ensures room { pending.old.room ≤ pending.new.room }
{
    pending.take_covered_into(seen, call)
}
