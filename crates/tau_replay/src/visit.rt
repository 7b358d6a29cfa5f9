//! What a worker does under the lock.
ghost use Rattle.std.specs.Prelude.{◌≡◌, ◌+◌, ◌≤◌, ◌<◌, true, Some, None, slice_get, replicate};
ghost use Rattle.tau_replay.specs.Sound.{AreWorking};
ghost use Rattle.tau_replay.specs.Working.{IsFor, RestStays, Went};

use crate::lock::Lock;
use crate::outcome::Outcome;
use crate::task::Task;
use crate::turns::{finish_at, start_at};
use crate::view::{HANDS, Part, RECORDS, Seat};
use std::sync::Wait;
use std::sync::atomic::{AtomicU64, Ordering};
use tau_base::Call;
use tau_pool::{Job, Pools};
use tau_scan::Log;

/// What a worker does next.
#[derive(Clone, Copy, Debug)]
pub enum Order {
    /// It executes the records that its hands have started. It wakes one that sleeps, where somebody does.
    Redo {
        /// How many they are.
        started: usize,
        /// Whether somebody sleeps.
        rings: bool,
    },
    /// It sleeps until the bell changes from this.
    Sleep {
        /// The bell as it was.
        seen: u64,
    },
    /// Its work is over: all is finished, or nothing can be started, or memory was refused.
    Stop,
}

/// Whether one that sleeps is to be woken. It counts as awake then.
fn rings(sleeping: &mut u64) -> bool {
    if *sleeping == 0 {
        return false;
    }
    *sleeping -= 1;
    true
}

/// Nothing is ready: a worker sleeps while something is in flight.
fn rest(pools: &Pools, sleeping: &mut u64, seen: u64) -> Order {
    if pools.in_flight() == 0 {
        return Order::Stop;
    }
    *sleeping = sleeping.saturating_add(1);
    Order::Sleep { seen }
}

/// A hand finishes the record that it has in flight. If memory is refused, nobody starts a record. Whether there was
/// memory.
fn finish_job(log: &Log, part: &mut Part, hand: usize, outcome: &Outcome) -> bool
    requires of_log { outcome.now.log.value ≡ log.now }
    requires working { AreWorking log.now part.old.replay }
    requires busy { slice_get part.old.replay.hands.items hand ≡ Some (Some outcome.now.job) }
    ensures working { AreWorking log.now part.new.replay }
    ensures rest { RestStays hand 1 part.old.replay.hands.items part.new.replay.hands.items }
    ensures idle { result ≡ true → slice_get part.new.replay.hands.items hand ≡ Some None }
{
    match finish_at(log, &mut part.replay, hand, outcome) {
        Ok(()) => true,
        Err(_) => {
            part.refused = true;
            false
        }
    }
}

/// A hand finishes what it has in flight. Whether it has nothing then.
fn finish_hand(log: &Log, part: &mut Part, hand: usize, task: &Task) -> bool
    requires of_log { task.now ≡ log.now }
    requires hand { hand < HANDS }
    requires working { AreWorking log.now part.old.replay }
    ensures working { AreWorking log.now part.new.replay }
    ensures rest { RestStays hand 1 part.old.replay.hands.items part.new.replay.hands.items }
    ensures idle { result ≡ true → slice_get part.new.replay.hands.items hand ≡ Some None }
{
    match part.replay.hands[hand] {
        Some(job) => finish_job(log, part, hand, &task.outcome(log, job)),
        None => true,
    }
}

/// The same, and its task has no record then.
fn finish_one(log: &Log, part: &mut Part, hand: usize, task: &mut Task)
    requires of_log { task.old ≡ log.now }
    requires hand { hand < HANDS }
    requires working { AreWorking log.now part.old.replay }
    ensures working { AreWorking log.now part.new.replay }
    ensures rest { RestStays hand 1 part.old.replay.hands.items part.new.replay.hands.items }
    ensures task { task.new ≡ task.old }
{
    if finish_hand(log, part, hand, task) {
        task.rest();
    }
}

/// The first hands of a worker, so many, finish what they have in flight.
fn finish_all(log: &Log, part: &mut Part, first: usize, tasks: &mut Vec<Task>, busy: usize)
    requires tasks { tasks.old.items ≡ replicate RECORDS log.now }
    requires busy { busy ≤ RECORDS }
    requires few { first + RECORDS ≤ HANDS }
    requires working { AreWorking log.now part.old.replay }
    ensures working { AreWorking log.now part.new.replay }
    ensures rest { RestStays first RECORDS part.old.replay.hands.items part.new.replay.hands.items }
    ensures tasks { tasks.new.items ≡ tasks.old.items }
{
    for i in 0..busy {
        finish_one(log, part, first + i, &mut tasks[i]);
    }
}

/// An idle hand starts a record that is ready, of whatever stream.
fn start_other(log: &Log, part: &mut Part, hand: usize) -> Option<Job>
    requires working { AreWorking log.now part.old.replay }
    requires idle { slice_get part.old.replay.hands.items hand ≡ Some None }
    ensures working { AreWorking log.now part.new.replay }
    ensures rest { RestStays hand 1 part.old.replay.hands.items part.new.replay.hands.items }
{
    let place = part.cursors.seek(&part.replay.pools, hand / RECORDS);
    match start_at(log, &mut part.replay, hand, place) {
        Some(job) => {
            part.cursors.pass(hand / RECORDS);
            Some(job)
        }
        None => None,
    }
}

/// An idle hand starts a record that is ready: of the stream that gave its worker the last one, if it has one.
fn start_next(log: &Log, part: &mut Part, hand: usize) -> Option<Job>
    requires working { AreWorking log.now part.old.replay }
    requires idle { slice_get part.old.replay.hands.items hand ≡ Some None }
    ensures working { AreWorking log.now part.new.replay }
    ensures rest { RestStays hand 1 part.old.replay.hands.items part.new.replay.hands.items }
{
    let place = part.cursors.place(hand / RECORDS);
    match start_at(log, &mut part.replay, hand, place) {
        Some(job) => {
            part.cursors.pass(hand / RECORDS);
            Some(job)
        }
        None => start_other(log, part, hand),
    }
}

/// The same of a hand that is idle unless memory was refused.
fn start_idle(log: &Log, part: &mut Part, hand: usize) -> Option<Job>
    requires hand { hand < HANDS }
    requires working { AreWorking log.now part.old.replay }
    ensures working { AreWorking log.now part.new.replay }
    ensures rest { RestStays hand 1 part.old.replay.hands.items part.new.replay.hands.items }
{
    match part.replay.hands[hand] {
        Some(_) => None,
        None => start_next(log, part, hand),
    }
}

/// A hand starts a record that is ready, and its task gets it. Whether there was one.
fn start_one(log: &Log, part: &mut Part, hand: usize, task: &mut Task, call: &mut Call) -> bool
    requires hand { hand < HANDS }
    requires working { AreWorking log.now part.old.replay }
    ensures working { AreWorking log.now part.new.replay }
    ensures rest { RestStays hand 1 part.old.replay.hands.items part.new.replay.hands.items }
    ensures task { task.new ≡ task.old }
{
    match start_idle(log, part, hand) {
        Some(job) => {
            let replay = &mut part.replay;
            task.begin(log, &replay.store, &mut replay.scratch.places, job, call);
            true
        }
        None => false,
    }
}

/// The first hands of a worker start a record each, up to so many. How many did.
fn start_all(
    log: &Log,
    part: &mut Part,
    first: usize,
    tasks: &mut Vec<Task>,
    room: usize,
    call: &mut Call,
) -> usize
    requires tasks { tasks.old.items ≡ replicate RECORDS log.now }
    requires few { first + RECORDS ≤ HANDS }
    requires room { room ≤ RECORDS }
    requires working { AreWorking log.now part.old.replay }
    ensures working { AreWorking log.now part.new.replay }
    ensures rest { RestStays first RECORDS part.old.replay.hands.items part.new.replay.hands.items }
    ensures tasks { tasks.new.items ≡ tasks.old.items }
{
    for i in 0..room {
        if !start_one(log, part, first + i, &mut tasks[i], call) {
            return i;
        }
    }
    room
}

/// How many records a worker may start: none if memory was refused, one while somebody sleeps, so that others have some
/// too.
fn room_now(part: &Part, room: usize) -> usize
    ensures { result ≤ room }
{
    if part.refused {
        0
    } else if part.sleeping > 0 {
        room.min(1)
    } else {
        room
    }
}

/// What a worker does next that has started so many records.
fn order_of(part: &mut Part, started: usize, seen: u64) -> Order
    ensures { part.new.replay ≡ part.old.replay }
{
    if part.refused {
        return Order::Stop;
    }
    if started > 0 {
        return Order::Redo {
            started,
            rings: rings(&mut part.sleeping),
        };
    }
    rest(&part.replay.pools, &mut part.sleeping, seen)
}

/// A worker finishes what its first hands have in flight, and starts what is ready.
fn go_on(
    log: &Log,
    part: &mut Part,
    first: usize,
    tasks: &mut Vec<Task>,
    busy: usize,
    room: usize,
    call: &mut Call,
    seen: u64,
) -> Order
    requires tasks { tasks.old.items ≡ replicate RECORDS log.now }
    requires busy { busy ≤ RECORDS }
    requires few { first + RECORDS ≤ HANDS }
    requires room { room ≤ RECORDS }
    requires working { AreWorking log.now part.old.replay }
    ensures working { AreWorking log.now part.new.replay }
    ensures rest { RestStays first RECORDS part.old.replay.hands.items part.new.replay.hands.items }
    ensures tasks { tasks.new.items ≡ tasks.old.items }
{
    finish_all(log, part, first, tasks, busy);
    let room = room_now(part, room);
    let started = start_all(log, part, first, tasks, room, call);
    order_of(part, started, seen)
}

/// Wakes who sleeps: one where a record was started, all where a worker stops.
fn ring(bell: &AtomicU64, order: Order) {
    match order {
        Order::Redo { rings: false, .. } => {}
        Order::Redo { rings: true, .. } => {
            let _ = bell.fetch_add(1, Ordering::SeqCst);
            bell.wake_one();
        }
        Order::Sleep { .. } => {}
        Order::Stop => {
            let _ = bell.fetch_add(1, Ordering::SeqCst);
            bell.wake_all();
        }
    }
}

/// A worker takes the lock to finish what its first hands, so many, have in flight, and for what it does next.
pub fn step<R: Wait>(
    rt: &R,
    lock: &Lock,
    seat: &mut Seat,
    log: &Log,
    first: usize,
    many: usize,
    tasks: &mut Vec<Task>,
    busy: usize,
    room: usize,
    call: &mut Call,
) -> Order
    requires own { seat.old.table_id ≡ lock.now.table.shared.table_id }
    requires of_log { seat.old.me.0.log ≡ log.now }
    requires tasks { tasks.old.items ≡ replicate RECORDS log.now }
    requires few { (RECORDS ≤ many) × (first + many ≤ HANDS) }
    requires busy { busy ≤ RECORDS }
    requires room { room ≤ RECORDS }
    requires stands { IsFor first many seat.old.me }
    ensures own { seat.new.table_id ≡ seat.old.table_id }
    ensures went { Went first many seat.old.me seat.new.me }
    ensures tasks { tasks.new.items ≡ tasks.old.items }
{
    let _ = many;
    let mut part = lock.take(rt, seat);
    let seen = lock.bell.load(Ordering::SeqCst);
    let order = go_on(log, &mut part, first, tasks, busy, room, call, seen);
    lock.give(seat, part);
    ring(&lock.bell, order);
    order
}
