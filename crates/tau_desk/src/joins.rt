//! The head takes seats in.
ghost use Rattle.std.specs.Prelude.{◌≡◌, [], ◌∷◌, Some, ◌<◌, None, length, replicate, slice_index, slice_set, true};
ghost use Rattle.tau_base.specs.Vectors.{join};
ghost use Rattle.tau_rule.specs.Heads.{both, both_at};
ghost use Rattle.tau_rule.specs.Role.{Role as RoleOf};
ghost use Rattle.tau_rule.specs.Rule.{manager_role};
ghost use Rattle.tau_txn.specs.Next.{next_action};
ghost use Rattle.tau_txn.specs.declared.action.Action.TheVariants as action;

use crate::desk::Desk;
use crate::seat::{ClerkSeat, Head, ManagerSeat, WorkerSeat};
use std::marker::Brand;
use tau_rule::{JoinAs, JoinIn, Seat, Told};

impl Desk {
    /// The head takes in the seat of a worker whose record, if it has one, was posted.
    pub fn join_worker(&self, head: &mut Head, seat: WorkerSeat)
        requires own { (head.old.table_id ≡ self.now.table.shared.table_id) × (seat.table_id ≡ self.now.table.shared.table_id) }
        requires opened { (head.old.me.0.opened ≡ Some self.now.table.shared.key.value) × (seat.me.0.opened ≡ Some self.now.table.shared.key.value) }
        requires posted { next_action seat.work.txn ≡ action.Post → ⊥ }
        ensures joined { head.new ≡ record head.old { me = (both head.old.me.0 seat.me.0, []); workers = slice_set head.old.workers seat.worker (Some seat.work); seen = join head.old.seen seat.seen } }
    {
        let WorkerSeat {
            seat,
            worker,
            work,
            anchor: _,
            anchor_lv: _,
            seen,
        } = seat;
        self.take_in(&mut head.seat, seat);
        head.seen.raise(&seen);
        let workers = &mut head.workers;
        workers[worker as usize] = Some(work);
    }

    /// The head takes in the seat of the manager of a stream. Of that stream it has then seen just what the manager has, and of
    /// the others what both had seen.
    pub fn join_manager(&self, head: &mut Head, seat: ManagerSeat)
        requires own { (head.old.table_id ≡ self.now.table.shared.table_id) × (seat.table_id ≡ self.now.table.shared.table_id) }
        requires opened { (head.old.me.0.opened ≡ Some self.now.table.shared.key.value) × (seat.me.0.opened ≡ Some self.now.table.shared.key.value) }
        ensures joined { head.new ≡ record head.old { me = (both_at seat.stream head.old.me.0 seat.me.0, []); managers = slice_set head.old.managers seat.stream (Some seat.stock); seen = slice_set (join head.old.seen seat.seen) seat.stream (slice_index seat.seen seat.stream) } }
    {
        let ManagerSeat {
            seat,
            stream,
            stock,
            seen,
        } = seat;
        let at = stream as usize;
        self.take_manager(&mut head.seat, seat, at);
        let upto = seen.get(at);
        head.seen.raise(&seen);
        head.seen.set(at, upto);
        let managers = &mut head.managers;
        managers[at] = Some(stock);
    }

    /// The head takes in the seat of the clerk.
    pub fn join_clerk(&self, head: &mut Head, seat: ClerkSeat)
        requires own { (head.old.table_id ≡ self.now.table.shared.table_id) × (seat.table_id ≡ self.now.table.shared.table_id) }
        requires opened { (head.old.me.0.opened ≡ Some self.now.table.shared.key.value) × (seat.me.0.opened ≡ Some self.now.table.shared.key.value) }
        ensures joined { head.new ≡ record head.old { me = (both head.old.me.0 seat.me.0, []); clerk = true; seen = join head.old.seen seat.seen } }
    {
        let ClerkSeat { seat, seen } = seat;
        self.take_in(&mut head.seat, seat);
        head.seen.raise(&seen);
        head.clerk = true;
    }

    /// The first seat takes in what the second one has.
    fn take_in(&self, seat: &mut Seat, other: Seat)
        requires own { (seat.old.table_id ≡ self.now.table.shared.table_id) × (other.table_id ≡ self.now.table.shared.table_id) }
        requires opened { seat.old.me.0.opened ≡ Some self.now.table.shared.key.value }
        requires idle { (seat.old.me.0.hand ≡ None) × (other.me.0.hand ≡ None) × (other.me.1 ≡ []) }
        requires wide { (length seat.old.me.0.seen ≡ self.now.table.shared.key.value.load.streams) × (length other.me.0.seen ≡ self.now.table.shared.key.value.load.streams) }
        requires unread { seat.old.me.0.read ≡ (0, replicate self.now.table.shared.key.value.load.streams 0) }
        ensures own { (seat.new.table_id ≡ seat.old.table_id) × (seat.new.id ≡ seat.old.id) }
        ensures joined { seat.new.me ≡ (both seat.old.me.0 other.me.0, seat.old.me.1) }
    {
        self.table.shared.join_seat::<JoinIn>(seat, other);
    }

    /// The first seat takes in what the second one has, which is that of the manager of a stream.
    fn take_manager(&self, seat: &mut Seat, other: Seat, stream: usize)
        requires own { (seat.old.table_id ≡ self.now.table.shared.table_id) × (other.table_id ≡ self.now.table.shared.table_id) }
        requires opened { seat.old.me.0.opened ≡ Some self.now.table.shared.key.value }
        requires idle { (seat.old.me.0.hand ≡ None) × (other.me.0.hand ≡ None) × (other.me.1 ≡ []) }
        requires wide { (length seat.old.me.0.seen ≡ self.now.table.shared.key.value.load.streams) × (length other.me.0.seen ≡ self.now.table.shared.key.value.load.streams) }
        requires unread { seat.old.me.0.read ≡ (0, replicate self.now.table.shared.key.value.load.streams 0) }
        requires manager { (stream < self.now.table.shared.key.value.load.streams) × (x : RoleOf) × (other.me.0.roles ≡ (manager_role self.now.table.shared.key.value.load stream, x) ∷ []) }
        ensures own { (seat.new.table_id ≡ seat.old.table_id) × (seat.new.id ≡ seat.old.id) }
        ensures joined { seat.new.me ≡ (both_at stream seat.old.me.0 other.me.0, seat.old.me.1) }
    {
        self.take_manager_told::<Brand>(seat, other, stream);
    }

    fn take_manager_told<N: Told>(&self, seat: &mut Seat, other: Seat, stream: usize)
        requires own { (seat.old.table_id ≡ self.now.table.shared.table_id) × (other.table_id ≡ self.now.table.shared.table_id) }
        requires opened { seat.old.me.0.opened ≡ Some self.now.table.shared.key.value }
        requires idle { (seat.old.me.0.hand ≡ None) × (other.me.0.hand ≡ None) × (other.me.1 ≡ []) }
        requires wide { (length seat.old.me.0.seen ≡ self.now.table.shared.key.value.load.streams) × (length other.me.0.seen ≡ self.now.table.shared.key.value.load.streams) }
        requires unread { seat.old.me.0.read ≡ (0, replicate self.now.table.shared.key.value.load.streams 0) }
        requires manager { (stream < self.now.table.shared.key.value.load.streams) × (x : RoleOf) × (other.me.0.roles ≡ (manager_role self.now.table.shared.key.value.load stream, x) ∷ []) }
        requires told { N.knows 0 ≡ both_at stream seat.old.me.0 other.me.0 }
        ensures own { (seat.new.table_id ≡ seat.old.table_id) × (seat.new.id ≡ seat.old.id) }
        ensures joined { seat.new.me ≡ (both_at stream seat.old.me.0 other.me.0, seat.old.me.1) }
    {
        let _ = stream;
        self.table.shared.join_seat::<JoinAs<N>>(seat, other);
    }
}
