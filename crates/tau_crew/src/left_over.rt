//! Calls that were left over run alone.
ghost use Rattle.std.specs.Prelude.{ℕ, ◌≡◌, ◌<◌, None, OnErr, OnOk, Some};
ghost use Rattle.tau_core.specs.Opens.{Opened};
ghost use Rattle.tau_crew.specs.Ending.{IsHeadBack};
ghost use Rattle.tau_crew.specs.LeftOver.{AllHaveRun, HasRaised, IsFirstOut, KeepsBeside, LeftWent, NoneGoesOn, SeatBack};

use crate::worker::work;
use std::sync::Wait;
use tau_base::{MAX_WORKERS, NoMemory};
use tau_desk::{Desk, Head, WorkerSeat};
use tau_disk::Gate;
use tau_occ::Style;

/// The first worker whose role is out.
fn first_out(head: &Head) -> u8
    requires out { (w : ℕ) × (w < MAX_WORKERS) × IsFirstOut head.now w }
    ensures { (w : ℕ) → IsFirstOut head.now w → result ≡ w }
{
    for worker in 0..MAX_WORKERS as u8 {
        if !head.has_worker(worker) {
            return worker;
        }
    }
    unreachable!()
}

/// The worker runs the call that comes next on its seat, alone, and the head has its role again.
fn run_alone<R: Wait, G: Gate>(
    rt: &R,
    desk: &Desk,
    head: &mut Head,
    mut seat: WorkerSeat,
    worker: u8,
    gate: &G,
) -> Result<(), NoMemory>
    requires own { (head.old.table_id ≡ desk.now.table.shared.table_id) × (seat.table_id ≡ desk.now.table.shared.table_id) }
    requires opened { (head.old.me.0.opened ≡ Some desk.now.table.shared.key.value) × (seat.me.0.opened ≡ Some desk.now.table.shared.key.value) }
    requires run { Opened desk.now.table.shared.key.value.load desk.now.table.shared.key.value }
    requires worker { worker ≡ seat.worker }
    requires rests { seat.work.txn.hand ≡ None }
    ensures { SeatBack desk.now.table.shared.key.value.load head.old head.new seat result }
{
    seat.agrees();
    let ended = work(rt, desk, &mut seat, worker, gate, Style::Locking);
    seat.agrees();
    desk.join_worker(head, seat);
    ended
}

/// The lowest of the calls that were left over runs alone. Returns whether there was one that could go on.
fn run_lowest<R: Wait, G: Gate>(
    rt: &R,
    desk: &Desk,
    head: &mut Head,
    gate: &G,
) -> Result<bool, NoMemory>
    requires head { IsHeadBack desk.now.table.shared.key.value desk.now.table.shared.table_id head.old }
    requires run { Opened desk.now.table.shared.key.value.load desk.now.table.shared.key.value }
    requires ran { AllHaveRun desk.now.table.shared.key.value.load head.old }
    ensures { LeftWent desk.now.table.shared.key.value desk.now.table.shared.table_id head.old head.new result }
{
    head.agrees();
    match desk.split_resumed(head) {
        Err(error) => {
            head.stop(desk);
            Err(error)
        }
        Ok(None) => Ok(false),
        Ok(Some(seat)) => {
            let worker = first_out(head);
            run_alone(rt, desk, head, seat, worker, gate)?;
            Ok(true)
        }
    }
}

/// The lowest of the calls that were left over runs alone, if the stop is not raised. Returns whether there was one that could
/// go on, and no stop.
fn run_next<R: Wait, G: Gate>(
    rt: &R,
    desk: &Desk,
    head: &mut Head,
    gate: &G,
) -> Result<bool, NoMemory>
    requires head { IsHeadBack desk.now.table.shared.key.value desk.now.table.shared.table_id head.old }
    requires run { Opened desk.now.table.shared.key.value.load desk.now.table.shared.key.value }
    requires ran { AllHaveRun desk.now.table.shared.key.value.load head.old }
    ensures { LeftWent desk.now.table.shared.key.value desk.now.table.shared.table_id head.old head.new result }
{
    head.agrees();
    if head.stopped(desk) {
        return Ok(false);
    }
    run_lowest(rt, desk, head, gate)
}

/// The calls that were left over run alone, in ascending number, until the stop is found raised or none can go on. Out of memory
/// the stop is raised.
pub(crate) fn run_left<R: Wait, G: Gate>(
    rt: &R,
    desk: &Desk,
    head: &mut Head,
    gate: &G,
) -> Result<(), NoMemory>
    requires head { IsHeadBack desk.now.table.shared.key.value desk.now.table.shared.table_id head.old }
    requires run { Opened desk.now.table.shared.key.value.load desk.now.table.shared.key.value }
    requires ran { AllHaveRun desk.now.table.shared.key.value.load head.old }
    ensures back { IsHeadBack desk.now.table.shared.key.value desk.now.table.shared.table_id head.new }
    ensures ran { OnOk result (AllHaveRun desk.now.table.shared.key.value.load head.new) }
    ensures left { OnOk result (NoneGoesOn desk.now.table.shared.key.value.load head.new) }
    ensures raised { OnErr result (HasRaised head.new) }
    ensures beside { KeepsBeside head.old head.new }
{
    for _ in rt.forever() {
        if !run_next(rt, desk, head, gate)? {
            return Ok(());
        }
    }
    unreachable!()
}
