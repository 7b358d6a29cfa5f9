//! All workers side by side.
ghost use Rattle.std.specs.Prelude.{ℕ, ◌≡◌, ◌+◌, ◌<◌, ◌≤◌, ◌||◌, [], None, Some, IfNone, IfSome, false, slice_set, true};
ghost use Rattle.std.specs.Thread.{IsSync};
ghost use Rattle.tau_core.specs.Opens.{Opened};
ghost use Rattle.tau_base.specs.Vectors.{join};
ghost use Rattle.tau_rule.specs.Heads.{both};
ghost use Rattle.tau_desk.specs.Ends.{IsWorkerSplit, calls_each};
ghost use Rattle.tau_desk.specs.Seats.{Heads};
ghost use Rattle.tau_crew.specs.Ending.{HasRunBack, IsWorkerBack};
ghost use Rattle.tau_crew.specs.Working.{IsUnjoined};
ghost use Rattle.tau_crew.specs.WorkersBack.{AreReady, IsAtStart, SeatRan, WorkersBack};

use crate::shared::Crew;
use crate::worker::work;
use std::sync::Wait;
use std::thread::{Threads, join};
use tau_base::MAX_WORKERS;
use tau_desk::{Desk, Head, WorkerSeat};
use tau_disk::Gate;

/// The worker runs its calls. Then it is through. Returns also whether it was out of memory.
fn run_seat<R: Wait, G: Gate>(
    rt: &R,
    desk: &Desk,
    mut seat: WorkerSeat,
    crew: &Crew,
    gate: &G,
    worker: u8,
) -> (WorkerSeat, bool)
    requires own { seat.table_id ≡ desk.now.table.shared.table_id }
    requires opened { seat.me.0.opened ≡ Some desk.now.table.shared.key.value }
    requires run { Opened desk.now.table.shared.key.value.load desk.now.table.shared.key.value }
    requires rests { seat.work.txn.hand ≡ None }
    ensures { SeatRan desk.now.table.shared.key.value.load seat result.0 result.1 }
{
    let ended = work(rt, desk, &mut seat, worker, gate, desk.style);
    let short = ended.is_err();
    seat.agrees();
    crew.leave();
    (seat, short)
}

/// A seat for the first of so many workers could not be made: the stop is raised, and they are through.
fn refuse(desk: &Desk, mut head: Head, crew: &Crew, first: u8, workers: u8) -> Head
    requires own { head.table_id ≡ desk.now.table.shared.table_id }
    requires opened { head.me.0.opened ≡ Some desk.now.table.shared.key.value }
    requires some { 1 ≤ workers }
    requires ready { AreReady head first (first + workers) }
    ensures { WorkersBack desk.now.table.shared.key.value.load first (first + workers) head result true }
{
    head.agrees();
    head.stop(desk);
    for _ in 0..workers {
        crew.leave();
    }
    head
}

/// A seat for the first of these workers leaves the head, or none where memory ran out.
fn part(desk: &Desk, head: &mut Head, first: u8, others: u8) -> Option<WorkerSeat>
    requires own { head.old.table_id ≡ desk.now.table.shared.table_id }
    requires opened { head.old.me.0.opened ≡ Some desk.now.table.shared.key.value }
    requires few { first + others < MAX_WORKERS }
    requires ready { AreReady head.old first (first + (others + 1)) }
    ensures was { Heads head.old }
    ensures split { IfSome result (λ s. IsWorkerSplit first (calls_each desk.now.table.shared.key.value.load) head.old head.new s) }
    ensures seat { IfSome result (λ s. (s.table_id ≡ desk.now.table.shared.table_id) × (s.me.0.opened ≡ Some desk.now.table.shared.key.value) × (s.work.txn.hand ≡ None)) }
    ensures own { head.new.table_id ≡ desk.now.table.shared.table_id }
    ensures opened { head.new.me.0.opened ≡ Some desk.now.table.shared.key.value }
    ensures ready { IfSome result (λ _. AreReady head.new (first + 1) (first + (others + 1))) }
    ensures refused { IfNone result (head.new ≡ head.old) }
{
    head.agrees();
    match desk.split_worker(head, first) {
        Ok(seat) => Some(seat),
        Err(_) => None,
    }
}

/// The seat comes back to the head.
fn back(desk: &Desk, head: &mut Head, seat: WorkerSeat)
    requires own { (head.old.table_id ≡ desk.now.table.shared.table_id) × (seat.table_id ≡ desk.now.table.shared.table_id) }
    requires opened { (head.old.me.0.opened ≡ Some desk.now.table.shared.key.value) × (seat.me.0.opened ≡ Some desk.now.table.shared.key.value) }
    requires unjoined { IsUnjoined seat.work.txn }
    ensures { head.new ≡ record head.old { me = (both head.old.me.0 seat.me.0, []); workers = slice_set head.old.workers seat.worker (Some seat.work); seen = join head.old.seen seat.seen } }
{
    desk.join_worker(head, seat);
}

/// Whether one of two is so.
fn either(one: bool, other: bool) -> bool
    ensures { result ≡ (one || other) }
{
    if one {
        return true;
    }
    other
}

/// The first worker and so many others after it, each in a thread of its own on a seat that leaves the head, which has their
/// roles again then. Returns also whether memory ran out.
pub(crate) fn work_all<R: Threads + Wait + Sync, G: Gate + Sync>(
    rt: &R,
    desk: &Desk,
    mut head: Head,
    crew: &Crew,
    gate: &G,
    first: u8,
    others: u8,
) -> (Head, bool)
    requires own { head.table_id ≡ desk.now.table.shared.table_id }
    requires opened { head.me.0.opened ≡ Some desk.now.table.shared.key.value }
    requires run { Opened desk.now.table.shared.key.value.load desk.now.table.shared.key.value }
    requires few { first + others < MAX_WORKERS }
    requires ready { AreReady head first (first + (others + 1)) }
    ensures { WorkersBack desk.now.table.shared.key.value.load first (first + (others + 1)) head result.0 result.1 }
{
    let Some(seat) = part(desk, &mut head, first, others) else {
        return (refuse(desk, head, crew, first, others + 1), true);
    };
    if others == 0 {
        let (seat, short) = run_seat(rt, desk, seat, crew, gate, first);
        back(desk, &mut head, seat);
        return (head, short);
    }
    let ((seat, one), (mut head, rest)) = join(
        rt,
        move || -> (WorkerSeat, bool)
            requires { (seat.table_id ≡ desk.now.table.shared.table_id) × (seat.me.0.opened ≡ Some desk.now.table.shared.key.value) × Opened desk.now.table.shared.key.value.load desk.now.table.shared.key.value × (seat.work.txn.hand ≡ None) }
            ensures { SeatRan desk.entry.now.table.shared.key.value.load seat result.0 result.1 }
        { run_seat(rt, desk, seat, crew, gate, first) },
        move || -> (Head, bool)
            requires { IsSync R.row × (head.table_id ≡ desk.now.table.shared.table_id) × (head.me.0.opened ≡ Some desk.now.table.shared.key.value) × Opened desk.now.table.shared.key.value.load desk.now.table.shared.key.value × (1 ≤ others) × (first + others < MAX_WORKERS) × AreReady head (first + 1) (first + (others + 1)) }
            ensures { WorkersBack desk.entry.now.table.shared.key.value.load (first + 1) (first + (others + 1)) head result.0 result.1 }
        { work_all(rt, desk, head, crew, gate, first + 1, others - 1) },
    );
    back(desk, &mut head, seat);
    (head, either(one, rest))
}

/// All workers of the desk side by side, each on a seat that leaves the head, which has their roles again then. Returns also
/// whether memory ran out.
pub(crate) fn work_side_by_side<R: Threads + Wait + Sync, G: Gate + Sync>(
    rt: &R,
    desk: &Desk,
    head: Head,
    crew: &Crew,
    gate: &G,
) -> (Head, bool)
    requires own { head.table_id ≡ desk.now.table.shared.table_id }
    requires opened { head.me.0.opened ≡ Some desk.now.table.shared.key.value }
    requires run { Opened desk.now.table.shared.key.value.load desk.now.table.shared.key.value }
    requires ready { AreReady head 0 desk.now.table.shared.key.value.load.workers }
    ensures all { WorkersBack desk.now.table.shared.key.value.load 0 desk.now.table.shared.key.value.load.workers head result.0 result.1 }
    ensures back { (w : ℕ) → w < desk.now.table.shared.key.value.load.workers → IsWorkerBack result.0 w }
    ensures ran { result.1 ≡ false → (w : ℕ) → w < desk.now.table.shared.key.value.load.workers → IsAtStart desk.now.table.shared.key.value.load head w → HasRunBack desk.now.table.shared.key.value.load result.0 w }
{
    let others = desk.load.workers - 1;
    work_all(rt, desk, head, crew, gate, 0, others as u8)
}
