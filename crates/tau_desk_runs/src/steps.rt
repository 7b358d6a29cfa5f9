//! Steps of a desk, each of which ends with its seat in the head again.
ghost use Rattle.std.specs.Prelude.{◌≡◌, IfOk, Some};
ghost use Rattle.tau_core.specs.Opens.{Opened};
ghost use Rattle.tau_desk_runs.specs.Same.{IsSameHead};

use crate::rows::says;
use crate::seats::{clerk_number, goes_on, join_in, split, worker_number};
use crate::threads::goes_in_threads;
use crate::work::{acks, manages, no_call};
use std::alloc::Global;
use std::sync::Wait;
use std::sync::atomic::AtomicU64;
use std::thread::Threads;
use tau_base::SHARDS;
use tau_desk::{Desk, Head};

/// The seat of this number leaves the head, does what is its own, and comes back. Whether it could.
pub fn goes_alone<R: Wait>(
    rt: &R,
    alloc: Global,
    desk: &Desk,
    head: &mut Head,
    number: u8,
    over: &AtomicU64,
) -> bool
    requires own { head.old.table_id ≡ desk.now.table.shared.table_id }
    requires opened { head.old.me.0.opened ≡ Some desk.now.table.shared.key.value }
    requires run { Opened desk.now.table.shared.key.value.load desk.now.table.shared.key.value }
    ensures { IsSameHead head.old head.new }
{
    let Some(seat) = split(desk, head, number) else {
        return false;
    };
    match goes_on(rt, alloc, desk, seat, number, over) {
        Some(seat) => join_in(desk, head, seat, number),
        None => false,
    }
}

/// The number that comes first.
fn number_in(words: &str) -> u8 {
    match words.split_once(' ') {
        Some((word, _)) => word.parse::<u8>().unwrap_or(u8::MAX),
        None => words.parse::<u8>().unwrap_or(u8::MAX),
    }
}

/// The manager of a stream gathers all that is posted, which is durable then, and drops what is covered from a shard.
fn manager_goes<R: Wait>(rt: &R, alloc: Global, desk: &Desk, head: &mut Head, rest: &str) -> bool
    requires own { head.old.table_id ≡ desk.now.table.shared.table_id }
    requires opened { head.old.me.0.opened ≡ Some desk.now.table.shared.key.value }
    ensures { IsSameHead head.old head.new }
{
    let stream = number_in(rest);
    let Some((_, rest)) = rest.split_once(' ') else {
        return false;
    };
    let shard = number_in(rest);
    if shard as usize >= SHARDS {
        return false;
    }
    let Some(Err(Ok(mut seat))) = split(desk, head, stream) else {
        return false;
    };
    let went = manages(rt, alloc, desk, &mut seat, stream, &AtomicU64::new(16));
    seat.drop_covered(rt, desk, shard);
    let end = seat.gathered();
    desk.join_manager(head, seat);
    went && says(rest, &[shard as u64, end])
}

/// The clerk acknowledges the first covered call of a worker.
fn clerk_goes<R: Wait>(rt: &R, desk: &Desk, head: &mut Head, rest: &str) -> bool
    requires own { head.old.table_id ≡ desk.now.table.shared.table_id }
    requires opened { head.old.me.0.opened ≡ Some desk.now.table.shared.key.value }
    ensures { IsSameHead head.old head.new }
{
    let worker = number_in(rest);
    if worker as usize >= desk.load.workers {
        return false;
    }
    let Some(Err(Err(mut seat))) = split(desk, head, clerk_number(desk)) else {
        return false;
    };
    seat.look_all(desk);
    let mut call = no_call();
    let went = acks(rt, desk, &mut seat, worker, &mut call);
    desk.join_clerk(head, seat);
    let lv = [call.lv.position(0), call.lv.position(1)];
    went && says(rest, &[worker as u64, call.number, lv[0], lv[1]])
}

/// Whether a step goes as the line says.
fn step_goes<R: Wait>(rt: &R, alloc: Global, desk: &Desk, head: &mut Head, line: &str) -> bool
    requires own { head.old.table_id ≡ desk.now.table.shared.table_id }
    requires opened { head.old.me.0.opened ≡ Some desk.now.table.shared.key.value }
    requires run { Opened desk.now.table.shared.key.value.load desk.now.table.shared.key.value }
    ensures { IsSameHead head.old head.new }
{
    match line.split_once(' ') {
        Some(("worker", rest)) => {
            let number = worker_number(desk, number_in(rest));
            goes_alone(rt, alloc, desk, head, number, &AtomicU64::new(0))
        }
        Some(("manager", rest)) => manager_goes(rt, alloc, desk, head, rest),
        Some(("clerk", rest)) => clerk_goes(rt, desk, head, rest),
        _ => false,
    }
}

/// The head after all steps, or the first one that is wrong.
pub fn goes<'a, R: Threads + Wait + Sync>(
    rt: &R,
    alloc: Global,
    desk: &Desk,
    mut head: Head,
    lines: &'a str,
) -> Result<Head, &'a str>
    requires own { head.table_id ≡ desk.now.table.shared.table_id }
    requires opened { head.me.0.opened ≡ Some desk.now.table.shared.key.value }
    requires run { Opened desk.now.table.shared.key.value.load desk.now.table.shared.key.value }
    ensures own { IfOk result (λ h. h.table_id ≡ desk.now.table.shared.table_id) }
    ensures opened { IfOk result (λ h. h.me.0.opened ≡ Some desk.now.table.shared.key.value) }
{
    if lines == "threads\n" {
        return goes_in_threads(rt, alloc, desk, head);
    }
    for line in lines.lines() {
        if !step_goes(rt, alloc, desk, &mut head, line) {
            return Err(line);
        }
    }
    Ok(head)
}
