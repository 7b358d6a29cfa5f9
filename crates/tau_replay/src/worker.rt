//! A worker of a recovery in threads.
ghost use Rattle.std.specs.Prelude.{◌≡◌, ◌+◌, ◌≤◌, [], length, replicate};
ghost use Rattle.tau_replay.specs.Rule.{IsIdle};
ghost use Rattle.tau_replay.specs.Working.{IsSpare};

use crate::lock::Lock;
use crate::outcome::Scratch;
use crate::task::{Task, tasks_of};
use crate::view::{HANDS, RECORDS, Seat};
use crate::visit::{Order, step};
use std::alloc::Global;
use std::sync::Wait;
use tau_base::Call;
use tau_disk::{Gate, Place};
use tau_pool::Job;
use tau_scan::Log;

/// Executes the record of a task, if it has one, up to its finish.
fn redo_one<R: Wait, G: Gate>(
    rt: &R,
    lock: &Lock,
    seat: &mut Seat,
    log: &Log,
    worker: u8,
    task: &mut Task,
    scratch: &mut Scratch,
    gate: &G,
)
    requires of_log { task.old ≡ log.now }
    requires own { seat.old.table_id ≡ lock.now.table.shared.table_id }
    requires idle { IsIdle seat.old.me }
    ensures task { task.new ≡ task.old }
    ensures own { seat.new.table_id ≡ seat.old.table_id }
    ensures seat { seat.new.me ≡ seat.old.me }
{
    if task.redo(rt, lock, seat, log, scratch) {
        gate.at(Place::Replay { worker });
    }
}

/// The same of the first hands of a worker, so many.
fn redo_all<R: Wait, G: Gate>(
    rt: &R,
    lock: &Lock,
    seat: &mut Seat,
    log: &Log,
    worker: u8,
    tasks: &mut Vec<Task>,
    busy: usize,
    scratch: &mut Scratch,
    gate: &G,
)
    requires tasks { tasks.old.items ≡ replicate RECORDS log.now }
    requires busy { busy ≤ RECORDS }
    requires own { seat.old.table_id ≡ lock.now.table.shared.table_id }
    requires idle { IsIdle seat.old.me }
    ensures tasks { tasks.new.items ≡ tasks.old.items }
    ensures own { seat.new.table_id ≡ seat.old.table_id }
    ensures seat { seat.new.me ≡ seat.old.me }
{
    for i in 0..busy {
        redo_one(rt, lock, seat, log, worker, &mut tasks[i], scratch, gate);
    }
}

/// The record that was started last, of so many.
fn last_of(tasks: &Vec<Task>, started: usize) -> Option<Job> {
    match tasks.get(started.wrapping_sub(1)) {
        Some(task) => task.job(),
        None => None,
    }
}

/// Each hand expects one of the records after this one.
fn foresee_after(log: &Log, job: Job, tasks: &mut Vec<Task>, room: usize, call: &mut Call)
    requires tasks { tasks.old.items ≡ replicate RECORDS log.now }
    requires room { room ≤ RECORDS }
    ensures tasks { tasks.new.items ≡ tasks.old.items }
{
    for i in 0..room {
        let index = job.index.wrapping_add(i).wrapping_add(1);
        tasks[i].foresee(log, job.stream, index, call);
    }
}

/// The hands expect the records after those that were started.
fn foresee_all(log: &Log, tasks: &mut Vec<Task>, started: usize, room: usize, call: &mut Call)
    requires tasks { tasks.old.items ≡ replicate RECORDS log.now }
    requires room { room ≤ RECORDS }
    ensures tasks { tasks.new.items ≡ tasks.old.items }
{
    match last_of(tasks, started) {
        Some(job) => foresee_after(log, job, tasks, room, call),
        None => {}
    }
}

/// How many records the next visit may start: twice as many if all that it might start were ready, and else as many as
/// were.
fn next_room(room: usize, started: usize) -> usize
    ensures { result ≤ RECORDS }
{
    if started < room {
        started.min(RECORDS)
    } else {
        room.saturating_mul(2).min(RECORDS)
    }
}

/// What a worker does until its work is over, with its first hands of so many. If it has no memory for them, the others do
/// the work.
pub fn work<R: Wait, G: Gate>(
    rt: &R,
    alloc: Global,
    lock: &Lock,
    mut seat: Seat,
    log: &Log,
    worker: u8,
    first: usize,
    many: usize,
    gate: &G,
) -> Seat
    requires own { seat.table_id ≡ lock.now.table.shared.table_id }
    requires of_log { seat.me.0.log ≡ log.now }
    requires few { (RECORDS ≤ many) × (first + many ≤ HANDS) }
    requires spare { IsSpare first many seat.me }
    ensures own { result.table_id ≡ seat.table_id }
    ensures of_log { result.me.0.log ≡ seat.me.0.log }
    ensures idle { IsIdle result.me }
    ensures workers { length result.me.0.hands ≡ length seat.me.0.hands }
{
    let Ok(mut tasks) = tasks_of(alloc, log, RECORDS) else {
        return seat;
    };
    let mut scratch = Scratch::new(alloc);
    let mut room = 1usize;
    let mut busy = 0usize;
    for _ in rt.forever() {
        match step(
            rt,
            lock,
            &mut seat,
            log,
            first,
            many,
            &mut tasks,
            busy,
            room,
            &mut scratch.call,
        ) {
            Order::Redo { started, .. } => {
                room = next_room(room, started);
                busy = started.min(RECORDS);
                redo_all(
                    rt,
                    lock,
                    &mut seat,
                    log,
                    worker,
                    &mut tasks,
                    busy,
                    &mut scratch,
                    gate,
                );
                foresee_all(log, &mut tasks, started, room, &mut scratch.call);
            }
            Order::Sleep { seen } => {
                busy = 0;
                lock.bell.park(rt, (seen % 4_294_967_296) as u32)
            }
            Order::Stop => return seat,
        }
    }
    unreachable!()
}
