//! Whether a pass has left nothing: all that was placed is gathered, and all that is durable is told. It takes no memory.
ghost use Rattle.std.specs.Prelude.{ℕ, ◌≡◌, ◌≤◌, ◌<◌, ◌==◌, IfSome, Some, List, false, length, slice_get, true};
ghost use Rattle.tau_base.specs.declared.limits.TheConstants.{MAX_STREAMS};
ghost use Rattle.tau_core.specs.View.{worker_of};
ghost use Rattle.tau_desk.specs.Asks.{covered_calls};
ghost use Rattle.tau_desk.specs.Shares.{PlainWork};
ghost use Rattle.tau_stream.specs.Writer.{has_failed};
ghost use Rattle.tau_crew.specs.Ending.{AreManagersBack, IsHeadBack};
ghost use Rattle.tau_crew.specs.EndDone.{NoneShort, durables};
ghost use Rattle.tau_crew.specs.EndLeft.{AreTold, HasGatheredAll, HaveGathered, calls_of};

use crate::clerk::ClerkJob;
use crate::manager::ManagerJob;
use tau_base::{Lv, MAX_LSN, worker_of};
use tau_desk::{Desk, Head};
use tau_disk::Disk;
use tau_report::Acks;

/// Whether no manager was out of memory.
fn none_short<D: Disk>(jobs: &Vec<ManagerJob<D>>) -> bool
    ensures { result ≡ true → NoneShort jobs.now.items }
{
    for stream in 0..jobs.len() {
        if jobs[stream].short {
            return false;
        }
    }
    true
}

/// Whether neither a manager nor the clerk was out of memory.
pub(crate) fn have_memory<D: Disk>(jobs: &Vec<ManagerJob<D>>, clerk: &ClerkJob) -> bool
    ensures managers { result ≡ true → NoneShort jobs.now.items }
    ensures clerk { result ≡ true → clerk.now.short ≡ false }
{
    if clerk.short {
        return false;
    }
    none_short(jobs)
}

/// Whether a manager whose disk works has gathered all that was placed.
fn is_flushed<D: Disk>(desk: &Desk, head: &mut Head, job: &ManagerJob<D>) -> bool
    requires own { head.old.table_id ≡ desk.now.table.shared.table_id }
    requires opened { head.old.me.0.opened ≡ Some desk.now.table.shared.key.value }
    requires stream { job.now.seat.stream ≡ job.now.stream }
    requires there { job.now.stream < desk.now.streams }
    ensures same { head.new ≡ head.old }
    ensures all { result ≡ true → has_failed job.now.writer ≡ false → HasGatheredAll desk.now.table.shared.key.value head.old job.now.seat }
{
    job.seat.agrees();
    if job.writer.failed() {
        return true;
    }
    if job.seat.has_own() {
        return false;
    }
    let gathered = job.seat.gathered();
    gathered == head.placed_end(desk, job.stream)
}

/// The same of the manager of a stream.
fn flushed_at<D: Disk>(
    desk: &Desk,
    head: &mut Head,
    jobs: &Vec<ManagerJob<D>>,
    stream: usize,
) -> bool
    requires head { IsHeadBack desk.now.table.shared.key.value desk.now.table.shared.table_id head.old }
    requires managers { (bases : ℕ → List ℕ) × (ws : List _) × AreManagersBack desk.now.table.shared.key.value desk.now.table.shared.table_id bases ws jobs.now.items }
    requires there { stream < length jobs.now.items }
    ensures same { head.new ≡ head.old }
    ensures all { result ≡ true → (job : _) → slice_get jobs.now.items stream ≡ Some job → has_failed job.writer ≡ false → HasGatheredAll desk.now.table.shared.key.value head.old job.seat }
{
    is_flushed(desk, head, &jobs[stream])
}

/// Whether each manager whose disk works has gathered all that was placed.
pub(crate) fn are_flushed<D: Disk>(desk: &Desk, head: &mut Head, jobs: &Vec<ManagerJob<D>>) -> bool
    requires head { IsHeadBack desk.now.table.shared.key.value desk.now.table.shared.table_id head.old }
    requires managers { (bases : ℕ → List ℕ) × (ws : List _) × AreManagersBack desk.now.table.shared.key.value desk.now.table.shared.table_id bases ws jobs.now.items }
    ensures same { head.new ≡ head.old }
    ensures all { result ≡ true → HaveGathered desk.now.table.shared.key.value head.old jobs.now.items (length jobs.now.items) }
{
    for stream in 0..jobs.len() {
        if !flushed_at(desk, head, jobs, stream) {
            return false;
        }
    }
    true
}

/// Whether the acknowledged call with this number is a worker's, of so many.
fn is_of(number: u64, worker: usize, workers: usize) -> bool
    requires some { 1 ≤ workers }
    ensures { result ≡ (worker_of workers number == worker) }
{
    worker_of(number, workers) == worker
}

/// How many of these acknowledged calls are a worker's, of so many.
fn count_of(acks: &Acks, worker: usize, workers: usize) -> usize
    requires some { 1 ≤ workers }
    ensures { result ≡ length (calls_of workers worker acks.now) }
{
    let mut count = 0;
    for i in 0..acks.len() {
        if is_of(acks.number_at(i), worker, workers) {
            count += 1;
        }
    }
    count
}

/// How far the writers have their streams durable. None if a vector can't hold it, which no stream reaches.
fn positions_of<D: Disk>(jobs: &Vec<ManagerJob<D>>) -> Option<Lv>
    requires low { 1 ≤ length jobs.now.items }
    requires high { length jobs.now.items ≤ MAX_STREAMS }
    ensures { IfSome result (λ positions. positions ≡ durables jobs.now.items) }
{
    let mut positions = Lv::zero(jobs.len());
    for stream in 0..jobs.len() {
        let durable = jobs[stream].writer.durable();
        if durable >= MAX_LSN {
            return None;
        }
        positions.set(stream, durable);
    }
    Some(positions)
}

/// Whether as many calls of a worker were told as the positions cover.
fn is_told(desk: &Desk, head: &Head, clerk: &ClerkJob, positions: &Lv, worker: usize) -> bool
    requires head { IsHeadBack desk.now.table.shared.key.value desk.now.table.shared.table_id head.now }
    requires there { worker < desk.now.load.workers }
    ensures { result ≡ true → (o : PlainWork) → slice_get head.now.workers worker ≡ Some (Some o) → covered_calls positions.now o.committed ≤ length (calls_of desk.now.load.workers worker clerk.now.told.acks) }
{
    let covered = head.covered(worker as u8, positions);
    covered <= count_of(&clerk.told.acks, worker, desk.load.workers)
}

/// The same of all workers.
fn all_told(desk: &Desk, head: &Head, clerk: &ClerkJob, positions: &Lv) -> bool
    requires head { IsHeadBack desk.now.table.shared.key.value desk.now.table.shared.table_id head.now }
    ensures { result ≡ true → AreTold desk.now.load.workers positions.now head.now clerk.now.told.acks desk.now.load.workers }
{
    for worker in 0..desk.load.workers {
        if !is_told(desk, head, clerk, positions, worker) {
            return false;
        }
    }
    true
}

/// Whether all calls are told that are durable.
pub(crate) fn are_told<D: Disk>(
    desk: &Desk,
    head: &Head,
    jobs: &Vec<ManagerJob<D>>,
    clerk: &ClerkJob,
) -> bool
    requires head { IsHeadBack desk.now.table.shared.key.value desk.now.table.shared.table_id head.now }
    requires managers { (bases : ℕ → List ℕ) × (ws : List _) × AreManagersBack desk.now.table.shared.key.value desk.now.table.shared.table_id bases ws jobs.now.items }
    ensures { result ≡ true → AreTold desk.now.load.workers (durables jobs.now.items) head.now clerk.now.told.acks desk.now.load.workers }
{
    match positions_of(jobs) {
        Some(positions) => all_told(desk, head, clerk, &positions),
        None => false,
    }
}

/// Whether a pass has left nothing: all that was placed is gathered, where the disk works, and all that is durable is told.
pub(crate) fn nothing_left<D: Disk>(
    desk: &Desk,
    head: &mut Head,
    jobs: &Vec<ManagerJob<D>>,
    clerk: &ClerkJob,
) -> bool
    requires head { IsHeadBack desk.now.table.shared.key.value desk.now.table.shared.table_id head.old }
    requires managers { (bases : ℕ → List ℕ) × (ws : List _) × AreManagersBack desk.now.table.shared.key.value desk.now.table.shared.table_id bases ws jobs.now.items }
    ensures same { head.new ≡ head.old }
    ensures gathered { result ≡ true → HaveGathered desk.now.table.shared.key.value head.old jobs.now.items (length jobs.now.items) }
    ensures told { result ≡ true → AreTold desk.now.load.workers (durables jobs.now.items) head.old clerk.now.told.acks desk.now.load.workers }
{
    if !are_flushed(desk, head, jobs) {
        return false;
    }
    are_told(desk, head, jobs, clerk)
}
