//! What a worker, a manager and the clerk do on their seats.
ghost use Rattle.std.specs.Prelude.{◌≡◌, ◌≤◌, ◌<◌, ◌%◌, Some, true};
ghost use Rattle.tau_core.specs.Opens.{Opened};
ghost use Rattle.tau_desk.specs.Works.{IsSameSeat};
ghost use Rattle.tau_desk_runs.specs.Same.{IsSameClerk, IsSameManager};

use std::alloc::Global;
use std::sync::Wait;
use std::sync::atomic::{AtomicU64, Ordering};
use tau_ack::Waiting;
use tau_base::Lv;
use tau_desk::{Acted, ClerkSeat, Desk, ManagerSeat, WorkerSeat};
use tau_txn::ActionKind;

/// What an action comes to that came to this if it went.
pub fn outcome(acted: Acted, went: &'static str) -> &'static str {
    match acted {
        Acted::Went => went,
        Acted::Busy => "busy",
        Acted::Other => "not now",
        Acted::NoMemory => "no memory",
    }
}

/// What the worker does next.
pub fn act<R: Wait>(rt: &R, desk: &Desk, seat: &mut WorkerSeat) -> &'static str
    requires own { seat.old.table_id ≡ desk.now.table.shared.table_id }
    requires opened { seat.old.me.0.opened ≡ Some desk.now.table.shared.key.value }
    requires run { Opened desk.now.table.shared.key.value.load desk.now.table.shared.key.value }
    ensures { IsSameSeat seat.old seat.new }
{
    match seat.next() {
        ActionKind::Nothing => begins(rt, desk, seat),
        ActionKind::Lock => outcome(seat.lock(rt, desk), "locked"),
        ActionKind::Quit => outcome(seat.quit(rt, desk), "quit"),
        ActionKind::Commit => outcome(seat.commit(desk), "committed"),
        ActionKind::Post => {
            seat.post(rt, desk);
            "posted"
        }
        ActionKind::Free => frees(rt, desk, seat),
        ActionKind::Done => ends(rt, desk, seat),
        ActionKind::LeftOver => "not now",
    }
}

/// Whether the outbox has room for the next call, which is made where it is missing.
fn has_room<R: Wait>(rt: &R, desk: &Desk, seat: &mut WorkerSeat) -> bool
    requires own { seat.old.table_id ≡ desk.now.table.shared.table_id }
    requires opened { seat.old.me.0.opened ≡ Some desk.now.table.shared.key.value }
    ensures same { IsSameSeat seat.old seat.new }
    ensures call { seat.new.work.txn ≡ seat.old.work.txn }
    ensures room { result ≡ true → 1 ≤ seat.new.work.spare.1 }
{
    if seat.is_roomy() {
        return true;
    }
    seat.make_room(rt, desk)
}

fn begins<R: Wait>(rt: &R, desk: &Desk, seat: &mut WorkerSeat) -> &'static str
    requires own { seat.old.table_id ≡ desk.now.table.shared.table_id }
    requires opened { seat.old.me.0.opened ≡ Some desk.now.table.shared.key.value }
    requires run { Opened desk.now.table.shared.key.value.load desk.now.table.shared.key.value }
    ensures { IsSameSeat seat.old seat.new }
{
    if seat.in_hand() {
        return "not now";
    }
    if !has_room(rt, desk, seat) {
        return "no memory";
    }
    match seat.begin(desk) {
        Ok(true) => "began",
        Ok(false) => "rests",
        Err(_) => "no memory",
    }
}

fn frees<R: Wait>(rt: &R, desk: &Desk, seat: &mut WorkerSeat) -> &'static str
    requires own { seat.old.table_id ≡ desk.now.table.shared.table_id }
    requires opened { seat.old.me.0.opened ≡ Some desk.now.table.shared.key.value }
    ensures { IsSameSeat seat.old seat.new }
{
    if seat.has_joined() {
        return outcome(seat.free(rt, desk), "freed");
    }
    outcome(seat.first_free(rt, desk), "freed")
}

fn ends<R: Wait>(rt: &R, desk: &Desk, seat: &mut WorkerSeat) -> &'static str
    requires own { seat.old.table_id ≡ desk.now.table.shared.table_id }
    requires opened { seat.old.me.0.opened ≡ Some desk.now.table.shared.key.value }
    ensures { IsSameSeat seat.old seat.new }
{
    if seat.next() != ActionKind::Done {
        return "not now";
    }
    if seat.has_joined() {
        seat.done(rt, desk);
        return "ended";
    }
    seat.done_reading(rt, desk);
    "ended"
}

/// Steps of a worker, until it has none. Whether it rests then.
pub fn works<R: Wait>(rt: &R, desk: &Desk, seat: &mut WorkerSeat) -> bool
    requires own { seat.old.table_id ≡ desk.now.table.shared.table_id }
    requires opened { seat.old.me.0.opened ≡ Some desk.now.table.shared.key.value }
    requires run { Opened desk.now.table.shared.key.value.load desk.now.table.shared.key.value }
    ensures { IsSameSeat seat.old seat.new }
{
    for _ in 0..1_000_000u64 {
        match act(rt, desk, seat) {
            "rests" => return true,
            "not now" | "no memory" => return false,
            _ => {}
        }
    }
    false
}

/// Whether all workers are at their end.
fn is_over(desk: &Desk, over: &AtomicU64) -> bool {
    over.load(Ordering::SeqCst) >= desk.load.workers as u64
}

/// Gathers the outbox of a worker. Whether it could.
fn gathers<R: Wait>(
    rt: &R,
    desk: &Desk,
    seat: &mut ManagerSeat,
    worker: u8,
    body: &mut Vec<u8>,
) -> bool
    requires own { seat.old.table_id ≡ desk.now.table.shared.table_id }
    requires opened { seat.old.me.0.opened ≡ Some desk.now.table.shared.key.value }
    requires there { worker < desk.now.table.shared.key.value.load.workers }
    requires whose { worker % desk.now.table.shared.key.value.load.streams ≡ seat.old.stream }
    ensures { IsSameManager seat.old seat.new }
{
    match seat.gather(rt, desk, worker, body) {
        Ok(()) => true,
        Err(_) => false,
    }
}

/// What was gathered is persisted, as if a disk had it.
fn persists(desk: &Desk, seat: &mut ManagerSeat, stream: u8)
    requires own { seat.old.table_id ≡ desk.now.table.shared.table_id }
    requires opened { seat.old.me.0.opened ≡ Some desk.now.table.shared.key.value }
    requires stream { (seat.old.stream ≡ stream) × (stream < desk.now.streams) }
    ensures { IsSameManager seat.old seat.new }
{
    let upto = seat.persisted(desk, stream);
    let end = seat.gathered();
    if upto < end {
        seat.persist(desk, end);
    }
}

/// Gathers the outboxes of the workers of the stream once. Whether it could.
fn sweeps<R: Wait>(rt: &R, alloc: Global, desk: &Desk, seat: &mut ManagerSeat, stream: u8) -> bool
    requires own { seat.old.table_id ≡ desk.now.table.shared.table_id }
    requires opened { seat.old.me.0.opened ≡ Some desk.now.table.shared.key.value }
    requires stream { (seat.old.stream ≡ stream) × (stream < desk.now.streams) }
    ensures { IsSameManager seat.old seat.new }
{
    let mut body = Vec::new(alloc);
    for worker in 0..desk.load.workers {
        if worker % desk.streams == stream as usize {
            body.clear();
            if !gathers(rt, desk, seat, worker as u8, &mut body) {
                return false;
            }
        }
    }
    persists(desk, seat, stream);
    true
}

/// What a manager does until the workers are over, and all that is placed is gathered.
pub fn manages<R: Wait>(
    rt: &R,
    alloc: Global,
    desk: &Desk,
    seat: &mut ManagerSeat,
    stream: u8,
    over: &AtomicU64,
) -> bool
    requires own { seat.old.table_id ≡ desk.now.table.shared.table_id }
    requires opened { seat.old.me.0.opened ≡ Some desk.now.table.shared.key.value }
    requires stream { (seat.old.stream ≡ stream) × (stream < desk.now.streams) }
    ensures { IsSameManager seat.old seat.new }
{
    for _ in 0..1_000_000_000u64 {
        let last = is_over(desk, over);
        if !sweeps(rt, alloc, desk, seat, stream) {
            return false;
        }
        if last && seat.placed_end(desk) == seat.gathered() {
            return true;
        }
    }
    false
}

/// Where a call is put that is acknowledged.
pub fn no_call() -> Waiting {
    Waiting {
        number: 0,
        lv: Lv::zero(1),
    }
}

/// The clerk acknowledges the first covered call of a worker. Whether there was one.
pub fn acks<R: Wait>(
    rt: &R,
    desk: &Desk,
    seat: &mut ClerkSeat,
    worker: u8,
    call: &mut Waiting,
) -> bool
    requires own { seat.old.table_id ≡ desk.now.table.shared.table_id }
    requires opened { seat.old.me.0.opened ≡ Some desk.now.table.shared.key.value }
    requires there { worker < desk.now.table.shared.key.value.load.workers }
    ensures { IsSameClerk seat.old seat.new }
{
    seat.ack(rt, desk, worker, call)
}

/// The clerk acknowledges a covered call of each worker. Whether there was one.
fn acknowledges<R: Wait>(rt: &R, desk: &Desk, seat: &mut ClerkSeat) -> bool
    requires own { seat.old.table_id ≡ desk.now.table.shared.table_id }
    requires opened { seat.old.me.0.opened ≡ Some desk.now.table.shared.key.value }
    ensures { IsSameClerk seat.old seat.new }
{
    seat.look_all(desk);
    let mut any = false;
    for worker in 0..desk.load.workers {
        if acks(rt, desk, seat, worker as u8, &mut no_call()) {
            any = true;
        }
    }
    any
}

/// What the clerk does until the workers are over, and no call is covered.
pub fn tells<R: Wait>(rt: &R, desk: &Desk, seat: &mut ClerkSeat, over: &AtomicU64) -> bool
    requires own { seat.old.table_id ≡ desk.now.table.shared.table_id }
    requires opened { seat.old.me.0.opened ≡ Some desk.now.table.shared.key.value }
    ensures { IsSameClerk seat.old seat.new }
{
    for _ in 0..1_000_000_000u64 {
        let last = is_over(desk, over);
        if !acknowledges(rt, desk, seat) && last {
            return true;
        }
    }
    false
}
