//! Parts come home from the clerk.
ghost use Rattle.std.specs.Prelude.{◌≡◌, ◌+◌, [], None, Some};
ghost use Rattle.tau_rule.specs.Boxes.{BoxOf};
ghost use Rattle.tau_desk.specs.Manages.{GivesAcked, told_acked};

use crate::desk::Desk;
use std::marker::Brand;
use tau_ack::{Pending, Waiting};
use tau_base::SHARDS;
use tau_outbox::Outbox;
use tau_rule::{Part, Seat, Told};

impl Desk {
    /// The outbox of a worker comes home, of which the clerk has acknowledged a call.
    pub(crate) fn give_acked(
        &self,
        seat: &mut Seat,
        worker: u8,
        outbox: Box<Outbox>,
        pending: Box<Pending>,
        call: &Waiting,
    )
        requires own { seat.old.table_id ≡ self.now.table.shared.table_id }
        requires opened { seat.old.me.0.opened ≡ Some self.now.table.shared.key.value }
        requires event { (b : BoxOf) × (b ≡ (outbox.value, pending.value)) × GivesAcked self.now.table.shared.key.value.load seat.old.me b worker call.now }
        ensures own { (seat.new.table_id ≡ seat.old.table_id) × (seat.new.id ≡ seat.old.id) }
        ensures given { seat.new.me ≡ (told_acked seat.old.me.0 worker call.now, []) }
    {
        self.give_acked_told::<Brand>(seat, worker, outbox, pending, call);
    }

    fn give_acked_told<N: Told>(
        &self,
        seat: &mut Seat,
        worker: u8,
        outbox: Box<Outbox>,
        pending: Box<Pending>,
        call: &Waiting,
    )
        requires own { seat.old.table_id ≡ self.now.table.shared.table_id }
        requires opened { seat.old.me.0.opened ≡ Some self.now.table.shared.key.value }
        requires event { (b : BoxOf) × (b ≡ (outbox.value, pending.value)) × GivesAcked self.now.table.shared.key.value.load seat.old.me b worker call.now }
        requires told { N.knows 0 ≡ told_acked seat.old.me.0 worker call.now }
        ensures own { (seat.new.table_id ≡ seat.old.table_id) × (seat.new.id ≡ seat.old.id) }
        ensures given { seat.new.me ≡ (told_acked seat.old.me.0 worker call.now, []) }
    {
        let _ = call;
        let number = SHARDS + usize::from(worker);
        self.come_home::<N>(seat, number, Part::Outbox(outbox, pending));
    }
}
