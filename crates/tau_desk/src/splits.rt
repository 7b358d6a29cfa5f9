//! Roles leave the head.
ghost use Rattle.std.specs.Prelude.{ℕ, ◌≡◌, ◌+◌, ◌/◌, ◌<◌, ◌≤◌, [], Some, None, true, IfOk, IfErr, OnErr, OnOk, length, slice_get, slice_set};
ghost use Rattle.tau_rule.specs.Heads.{left_by, split_off};
ghost use Rattle.tau_rule.specs.Role.{Role as RoleOf};
ghost use Rattle.tau_rule.specs.Rule.{clerk_role, has, manager_role};
ghost use Rattle.tau_desk.specs.Ends.{IsClerkSplit, IsManagerSplit, IsWorkerSplit, calls_each};
ghost use Rattle.tau_desk.specs.Shares.{PlainStock, PlainWork};

use crate::desk::Desk;
use crate::seat::{ClerkSeat, Head, ManagerSeat, Stock, Work, WorkerSeat};
use std::marker::Brand;
use tau_base::{Lv, NoMemory};
use tau_model::CommittedList;
use tau_rule::{Seat, SplitOff, Told};

impl Desk {
    /// A seat for a worker whose role the head has, with room for the calls that it commits.
    pub fn split_worker(&self, head: &mut Head, worker: u8) -> Result<WorkerSeat, NoMemory>
        requires own { head.old.table_id ≡ self.now.table.shared.table_id }
        requires opened { head.old.me.0.opened ≡ Some self.now.table.shared.key.value }
        requires there { (o : PlainWork) × (slice_get head.old.workers worker ≡ Some (Some o)) }
        ensures split { IfOk result (λ seat. IsWorkerSplit worker (calls_each self.now.table.shared.key.value.load) head.old head.new seat) }
        ensures refused { IfErr result (λ _. head.new ≡ head.old) }
    {
        let at = worker as usize;
        let mut work = take_work(&mut head.workers, at);
        let calls = self.load.calls.len() / self.load.workers;
        if reserve_more(&mut work.committed, calls).is_err() {
            put_work(&mut head.workers, at, work);
            return Err(NoMemory);
        }
        let seat = self.part_off(&mut head.seat, at);
        Ok(WorkerSeat {
            seat,
            worker,
            work,
            anchor: 0,
            anchor_lv: Lv::zero(self.streams),
            seen: head.seen,
        })
    }

    /// A seat for the manager of a stream whose role the head has.
    pub fn split_manager(&self, head: &mut Head, stream: u8) -> ManagerSeat
        requires own { head.old.table_id ≡ self.now.table.shared.table_id }
        requires opened { head.old.me.0.opened ≡ Some self.now.table.shared.key.value }
        requires there { (o : PlainStock) × (slice_get head.old.managers stream ≡ Some (Some o)) }
        ensures split { IsManagerSplit self.now.table.shared.key.value.load stream head.old head.new result }
    {
        let at = stream as usize;
        let stock = take_stock(&mut head.managers, at);
        let seat = self.part_off(&mut head.seat, self.load.workers + at);
        ManagerSeat {
            seat,
            stream,
            stock,
            seen: head.seen,
        }
    }

    /// A seat for the clerk, whose role the head has.
    pub fn split_clerk(&self, head: &mut Head) -> ClerkSeat
        requires own { head.old.table_id ≡ self.now.table.shared.table_id }
        requires opened { head.old.me.0.opened ≡ Some self.now.table.shared.key.value }
        requires there { head.old.clerk ≡ true }
        ensures split { IsClerkSplit self.now.table.shared.key.value.load head.old head.new result }
    {
        head.clerk = false;
        let seat = self.part_off(&mut head.seat, self.load.workers + self.streams);
        ClerkSeat {
            seat,
            seen: head.seen,
        }
    }

    /// A new seat has the role, and no event happens.
    fn part_off(&self, seat: &mut Seat, role: usize) -> Seat
        requires own { seat.old.table_id ≡ self.now.table.shared.table_id }
        requires idle { seat.old.me.0.hand ≡ None }
        requires there { (x : RoleOf) × (has role seat.old.me.0 ≡ Some x) }
        ensures own { (seat.new.table_id ≡ seat.old.table_id) × (seat.new.id ≡ seat.old.id) × (result.table_id ≡ seat.old.table_id) }
        ensures parted { (seat.new.me ≡ (left_by role seat.old.me.0, seat.old.me.1)) × (result.me ≡ (split_off role seat.old.me.0, [])) }
    {
        self.part_off_told::<Brand>(seat, role)
    }

    fn part_off_told<N: Told>(&self, seat: &mut Seat, role: usize) -> Seat
        requires own { seat.old.table_id ≡ self.now.table.shared.table_id }
        requires idle { seat.old.me.0.hand ≡ None }
        requires there { (x : RoleOf) × (has role seat.old.me.0 ≡ Some x) }
        requires told { (N.knows 0 ≡ left_by role seat.old.me.0) × (N.knows 1 ≡ split_off role seat.old.me.0) }
        ensures own { (seat.new.table_id ≡ seat.old.table_id) × (seat.new.id ≡ seat.old.id) × (result.table_id ≡ seat.old.table_id) }
        ensures parted { (seat.new.me ≡ (left_by role seat.old.me.0, seat.old.me.1)) × (result.me ≡ (split_off role seat.old.me.0, [])) }
    {
        let _ = role;
        self.table.shared.split_seat::<SplitOff<N>>(seat)
    }
}

/// Makes room for one call more than so many. Out of memory nothing has changed.
fn reserve_more(committed: &mut CommittedList, calls: usize) -> Result<(), NoMemory>
    ensures items { committed.new.items ≡ committed.old.items }
    ensures kept { committed.old.room ≤ committed.new.room }
    ensures roomy { OnOk result (calls + 1 ≤ committed.new.room) }
    ensures err { OnErr result (committed.new ≡ committed.old) }
{
    let Some(count) = calls.checked_add(1) else {
        return Err(NoMemory);
    };
    committed.reserve(count)
}

/// What the worker has of its own leaves its place.
pub(crate) fn take_work(workers: &mut Vec<Option<Work>>, at: usize) -> Work
    requires { (o : PlainWork) × (slice_get workers.old.items at ≡ Some (Some o)) }
    ensures taken { slice_get workers.old.items at ≡ Some (Some result) }
    ensures left { workers.new.items ≡ slice_set workers.old.items at None }
{
    workers[at].take().unwrap()
}

pub(crate) fn put_work(workers: &mut Vec<Option<Work>>, at: usize, work: Work)
    requires { at < length workers.old.items }
    ensures { workers.new.items ≡ slice_set workers.old.items at (Some work) }
{
    workers[at] = Some(work);
}

/// What the manager has of its own leaves its place.
pub(crate) fn take_stock(managers: &mut Vec<Option<Stock>>, at: usize) -> Stock
    requires { (o : PlainStock) × (slice_get managers.old.items at ≡ Some (Some o)) }
    ensures taken { slice_get managers.old.items at ≡ Some (Some result) }
    ensures left { managers.new.items ≡ slice_set managers.old.items at None }
{
    managers[at].take().unwrap()
}
