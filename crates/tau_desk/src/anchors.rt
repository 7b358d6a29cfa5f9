//! A worker looks how far its stream is persisted, and reads the published anchor of it.
ghost use Rattle.std.specs.Prelude.{◌≡◌, ◌≤◌, ◌<◌, ◌%◌, Some, length, slice_index, slice_set};
ghost use Rattle.tau_base.specs.declared.limits.TheConstants.{MAX_LSN};
ghost use Rattle.tau_rule.specs.Positions.{sees_to};
ghost use Rattle.tau_txn.specs.Next.{next_action};
ghost use Rattle.tau_txn.specs.declared.action.Action.TheVariants as action;
ghost use Rattle.tau_desk.specs.Anchors.{ReadsAnchor};
ghost use Rattle.tau_desk.specs.Looks.{PersistedAt};

use crate::desk::Desk;
use crate::manager::take_anchor;
use crate::seat::WorkerSeat;
use std::sync::Wait;
use tau_base::stream_of;

impl WorkerSeat {
    /// Looks how far a stream is persisted.
    pub fn persisted(&mut self, desk: &Desk, stream: u8) -> u64
        requires own { self.old.table_id ≡ desk.now.table.shared.table_id }
        requires opened { self.old.me.0.opened ≡ Some desk.now.table.shared.key.value }
        requires there { stream < desk.now.streams }
        ensures seen { slice_index self.old.seen stream ≤ result }
        ensures knows { self.new ≡ record self.old { me = (sees_to stream result self.old.me.0, self.old.me.1); seen = slice_set self.old.seen stream result } }
        ensures stands { PersistedAt desk.now.table.shared.key.value self.old.me.0 self.old.seen stream result }
    {
        let upto = desk.persisted(&mut self.seat, stream as usize);
        self.seen.set(stream as usize, upto);
        upto
    }

    /// Reads the published anchor of the worker's stream. The record of its call in hand, if it has its place, was posted.
    pub fn read_anchor<R: Wait>(&mut self, rt: &R, desk: &Desk)
        requires own { self.old.table_id ≡ desk.now.table.shared.table_id }
        requires opened { self.old.me.0.opened ≡ Some desk.now.table.shared.key.value }
        requires posted { next_action self.old.work.txn ≡ action.Post → ⊥ }
        ensures { ReadsAnchor desk.now.table.shared.key.value self.old self.new }
    {
        let stream = stream_of(usize::from(self.worker), desk.streams);
        let part = desk.anchor_number(stream as u8);
        let (number, lv) = take_anchor(rt, desk, &mut self.seat, part);
        self.anchor_lv.copy_from(&lv);
        desk.give_read(&mut self.seat, self.worker, part, number, lv);
        self.anchor = number;
    }

    /// The position of the worker's own stream in the anchor that the seat read last, 0 if it has read none.
    pub fn anchored(&self) -> u64
        ensures same { result ≡ slice_index self.now.read.1 (self.now.worker % length self.now.read.1) }
        ensures small { result < MAX_LSN }
    {
        let stream = stream_of(usize::from(self.worker), self.anchor_lv.width());
        self.anchor_lv.get(stream)
    }
}
