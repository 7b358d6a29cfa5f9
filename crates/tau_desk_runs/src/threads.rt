//! Managers, the clerk and workers side by side, each on its seat and in a thread of its own.
ghost use Rattle.std.specs.Prelude.{◌≡◌, ◌+◌, ◌≤◌, ◌<◌, IfOk, IfSome, Some};
ghost use Rattle.std.specs.Thread.{IsSync};
ghost use Rattle.tau_core.specs.Opens.{Opened};
ghost use Rattle.tau_desk_runs.specs.Same.{IsSameHead, IsSeatOf};

use crate::seats::{Seat, goes_on, join_in, split};
use crate::steps::goes_alone;
use crate::work::works;
use std::alloc::Global;
use std::sync::Wait;
use std::sync::atomic::{AtomicU64, Ordering};
use std::thread::{Threads, join};
use tau_desk::{Desk, Head, WorkerSeat};

/// The seats from this number on, of which there are so many.
fn side_by_side<R: Threads + Wait + Sync>(
    rt: &R,
    alloc: Global,
    desk: &Desk,
    mut head: Head,
    number: u8,
    others: u8,
    over: &AtomicU64,
) -> Option<Head>
    requires own { head.table_id ≡ desk.now.table.shared.table_id }
    requires opened { head.me.0.opened ≡ Some desk.now.table.shared.key.value }
    requires run { Opened desk.now.table.shared.key.value.load desk.now.table.shared.key.value }
    requires few { number + others < 256 }
    ensures own { IfSome result (λ h. h.table_id ≡ desk.now.table.shared.table_id) }
    ensures opened { IfSome result (λ h. h.me.0.opened ≡ Some desk.now.table.shared.key.value) }
{
    if others == 0 {
        return Some(head);
    }
    let Some(seat) = split(desk, &mut head, number) else {
        over.store(u64::MAX, Ordering::SeqCst);
        return None;
    };
    let (seat, head) = join(
        rt,
        move || -> Option<Seat>
            requires { IsSeatOf desk.now number seat × Opened desk.now.table.shared.key.value.load desk.now.table.shared.key.value }
            ensures { IfSome result (λ s. IsSeatOf desk.entry.now number s) }
        { goes_on(rt, alloc, desk, seat, number, over) },
        move || -> Option<Head>
            requires { IsSync R.row × (head.table_id ≡ desk.now.table.shared.table_id) × (head.me.0.opened ≡ Some desk.now.table.shared.key.value) × Opened desk.now.table.shared.key.value.load desk.now.table.shared.key.value × (1 ≤ others) × (number + others < 256) }
            ensures { IfSome result (λ h. (h.table_id ≡ desk.entry.now.table.shared.table_id) × (h.me.0.opened ≡ Some desk.entry.now.table.shared.key.value)) }
        { side_by_side(rt, alloc, desk, head, number + 1, others - 1, over) },
    );
    let seat = seat?;
    let mut head = head?;
    if !join_in(desk, &mut head, seat, number) {
        return None;
    }
    Some(head)
}

/// A seat for the worker of the lowest call that was left over, where there is one.
fn split_resumed(desk: &Desk, head: &mut Head) -> Option<WorkerSeat>
    requires own { head.old.table_id ≡ desk.now.table.shared.table_id }
    requires opened { head.old.me.0.opened ≡ Some desk.now.table.shared.key.value }
    ensures head { IsSameHead head.old head.new }
    ensures own { IfSome result (λ s. s.table_id ≡ desk.now.table.shared.table_id) }
    ensures opened { IfSome result (λ s. s.me.0.opened ≡ Some desk.now.table.shared.key.value) }
{
    match desk.split_resumed(head) {
        Ok(Some(seat)) => Some(seat),
        Ok(None) => None,
        Err(_) => None,
    }
}

/// The calls that were left over, one after another. Whether they went.
fn resumes<R: Wait>(rt: &R, desk: &Desk, head: &mut Head) -> bool
    requires own { head.old.table_id ≡ desk.now.table.shared.table_id }
    requires opened { head.old.me.0.opened ≡ Some desk.now.table.shared.key.value }
    requires run { Opened desk.now.table.shared.key.value.load desk.now.table.shared.key.value }
    ensures { IsSameHead head.old head.new }
{
    for _ in 0..1_000_000u64 {
        let Some(mut seat) = split_resumed(desk, head) else {
            return true;
        };
        if !works(rt, desk, &mut seat) {
            return false;
        }
        if !join_in(desk, head, Ok(seat), 0) {
            return false;
        }
    }
    false
}

/// The head after a run in threads, the calls that were left over, and what managers and the clerk do after the workers.
pub fn goes_in_threads<R: Threads + Wait + Sync>(
    rt: &R,
    alloc: Global,
    desk: &Desk,
    head: Head,
) -> Result<Head, &'static str>
    requires own { head.table_id ≡ desk.now.table.shared.table_id }
    requires opened { head.me.0.opened ≡ Some desk.now.table.shared.key.value }
    requires run { Opened desk.now.table.shared.key.value.load desk.now.table.shared.key.value }
    ensures own { IfOk result (λ h. h.table_id ≡ desk.now.table.shared.table_id) }
    ensures opened { IfOk result (λ h. h.me.0.opened ≡ Some desk.now.table.shared.key.value) }
{
    if desk.streams > 16 || desk.load.workers > 16 {
        return Err("too many threads");
    }
    let seats = (desk.streams + 1 + desk.load.workers) as u8;
    let over = AtomicU64::new(0);
    let Some(mut head) = side_by_side(rt, alloc, desk, head, 0, seats, &over) else {
        return Err("no end of the threads");
    };
    if !resumes(rt, desk, &mut head) {
        return Err("no end of the calls that were left over");
    }
    for number in 0..desk.streams + 1 {
        if !goes_alone(rt, alloc, desk, &mut head, number as u8, &over) {
            return Err("no end after the workers");
        }
    }
    Ok(head)
}
