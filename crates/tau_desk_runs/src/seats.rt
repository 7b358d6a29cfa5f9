//! Seats that leave the head and come back. They are numbered: the managers by their streams, then the clerk, then the workers.
ghost use Rattle.std.specs.Prelude.{◌≡◌, IfSome, Some};
ghost use Rattle.tau_core.specs.Opens.{Opened};
ghost use Rattle.tau_desk_runs.specs.Same.{IsSameHead, IsSeatOf};

use crate::work::{manages, tells, works};
use std::alloc::Global;
use std::sync::Wait;
use std::sync::atomic::{AtomicU64, Ordering};
use tau_core::Core;
use tau_desk::{ClerkSeat, Desk, Head, ManagerSeat, WorkerSeat};
use tau_txn::ActionKind;

/// The seat of a worker, or else of a manager, or else of the clerk.
pub type Seat = Result<WorkerSeat, Result<ManagerSeat, ClerkSeat>>;

/// The number of the seat of the clerk.
pub fn clerk_number(desk: &Desk) -> u8 {
    u8::try_from(desk.streams).unwrap_or(u8::MAX)
}

/// The number of the seat of a worker.
pub fn worker_number(desk: &Desk, worker: u8) -> u8 {
    clerk_number(desk).wrapping_add(1).wrapping_add(worker)
}

/// The seat of this number leaves the head, if its role is there.
pub fn split(desk: &Desk, head: &mut Head, number: u8) -> Option<Seat>
    requires own { head.old.table_id ≡ desk.now.table.shared.table_id }
    requires opened { head.old.me.0.opened ≡ Some desk.now.table.shared.key.value }
    ensures head { IsSameHead head.old head.new }
    ensures seat { IfSome result (λ seat. IsSeatOf desk.now number seat) }
{
    let past = number as usize;
    if past < desk.streams {
        if !head.has_manager(number) {
            return None;
        }
        return Some(Err(Ok(desk.split_manager(head, number))));
    }
    if past == desk.streams {
        if !head.has_clerk() {
            return None;
        }
        return Some(Err(Err(desk.split_clerk(head))));
    }
    let worker = (past - desk.streams - 1) as u8;
    if !head.has_worker(worker) {
        return None;
    }
    match desk.split_worker(head, worker) {
        Ok(seat) => Some(Ok(seat)),
        Err(_) => None,
    }
}

/// The seat does what is its own until the workers are over, of which it is one.
pub fn goes_on<R: Wait>(
    rt: &R,
    alloc: Global,
    desk: &Desk,
    seat: Seat,
    number: u8,
    over: &AtomicU64,
) -> Option<Seat>
    requires seat { IsSeatOf desk.now number seat }
    requires run { Opened desk.now.table.shared.key.value.load desk.now.table.shared.key.value }
    ensures { IfSome result (λ seat. IsSeatOf desk.now number seat) }
{
    match seat {
        Ok(mut worker) => {
            let went = works(rt, desk, &mut worker);
            over.fetch_add(1, Ordering::SeqCst);
            if !went {
                return None;
            }
            Some(Ok(worker))
        }
        Err(Ok(mut manager)) => {
            if !manages(rt, alloc, desk, &mut manager, number, over) {
                return None;
            }
            Some(Err(Ok(manager)))
        }
        Err(Err(mut clerk)) => {
            if !tells(rt, desk, &mut clerk, over) {
                return None;
            }
            Some(Err(Err(clerk)))
        }
    }
}

/// The head takes the seat in. Whether it could.
pub fn join_in(desk: &Desk, head: &mut Head, seat: Seat, number: u8) -> bool
    requires own { head.old.table_id ≡ desk.now.table.shared.table_id }
    requires opened { head.old.me.0.opened ≡ Some desk.now.table.shared.key.value }
    requires seat { IsSeatOf desk.now number seat }
    ensures { IsSameHead head.old head.new }
{
    let _ = number;
    match seat {
        Ok(worker) => {
            if worker.next() == ActionKind::Post {
                return false;
            }
            desk.join_worker(head, worker);
            true
        }
        Err(Ok(manager)) => {
            desk.join_manager(head, manager);
            true
        }
        Err(Err(clerk)) => {
            desk.join_clerk(head, clerk);
            true
        }
    }
}

/// The core of the desk, where no role is out and no call is in hand.
pub fn closes(desk: Desk, head: Head) -> Option<Core>
    requires own { head.table_id ≡ desk.table.shared.table_id }
    requires opened { head.me.0.opened ≡ Some desk.table.shared.key.value }
{
    if !head.is_whole() {
        return None;
    }
    if !head.is_idle() {
        return None;
    }
    Some(desk.close(head))
}
