//! The managers' seats leave the head, each with the writer of its stream.
ghost use Rattle.std.specs.Prelude.{false, ◌≡◌, ◌+◌, ◌-◌, ◌<◌, ◌≤◌, [], Some, ℕ, List, drop, length, vec_capacity, vec_len};
ghost use Rattle.tau_base.specs.Modes.{format_of};
ghost use Rattle.tau_run.specs.Writers.{IsBegun};
ghost use Rattle.tau_desk.specs.Ends.{IsClerkSplit};
ghost use Rattle.tau_crew.specs.Clerking.{IsToldSoFar, Tells};
ghost use Rattle.tau_crew.specs.Dealing.{AreDealt, DealsOne, IsDealing, KeepsWorkers};
ghost use Rattle.tau_crew.specs.Together.{IsClerkReady};

use crate::anchor::Marks;
use crate::clerk::ClerkJob;
use crate::manager::ManagerJob;
use crate::told::Told;
use std::alloc::Global;
use tau_desk::{Desk, Head};
use tau_disk::Disk;
use tau_stream::Writer;

/// The seat of the manager of a stream leaves the head, with the first of the writers, which is that of the stream.
fn deal_manager<D: Disk>(
    alloc: Global,
    desk: &Desk,
    head: &mut Head,
    writers: &mut Vec<Writer<D>>,
    jobs: &mut Vec<ManagerJob<D>>,
    stream: usize,
)
    requires own { head.old.table_id ≡ desk.now.table.shared.table_id }
    requires there { stream < desk.now.streams }
    requires dealing { IsDealing desk.now.table.shared.key.value desk.now.table.shared.table_id stream head.old }
    requires some { 0 < length writers.old.items }
    requires room { vec_len jobs.old < vec_capacity jobs.old }
    ensures dealing { IsDealing desk.now.table.shared.key.value desk.now.table.shared.table_id (stream + 1) head.new }
    ensures workers { KeepsWorkers desk.now.table.shared.key.value.load head.old head.new }
    ensures dealt { DealsOne desk.now.table.shared.key.value desk.now.table.shared.table_id stream writers.old.items writers.new.items jobs.old.items jobs.new.items }
    ensures room { vec_capacity jobs.new ≡ vec_capacity jobs.old }
    ensures kept { vec_capacity writers.new ≡ vec_capacity writers.old }
{
    let seat = desk.split_manager(head, stream as u8);
    seat.agrees();
    let writer = writers.remove(0);
    let last = writer.durable();
    jobs.push_reserved(ManagerJob {
        seat,
        writer,
        stream: stream as u8,
        body: Vec::new(alloc),
        marks: Marks { last, placed: 0 },
        short: false,
    });
}

/// The seats of all managers leave the head, the lowest stream first. The writers are in the jobs then.
pub(crate) fn deal_managers<D: Disk>(
    alloc: Global,
    desk: &Desk,
    head: &mut Head,
    writers: &mut Vec<Writer<D>>,
    jobs: &mut Vec<ManagerJob<D>>,
)
    requires own { head.old.table_id ≡ desk.now.table.shared.table_id }
    requires dealing { IsDealing desk.now.table.shared.key.value desk.now.table.shared.table_id 0 head.old }
    requires writers { length writers.old.items ≡ desk.now.streams }
    requires room { (jobs.old.items ≡ []) × (desk.now.streams ≤ vec_capacity jobs.old) }
    ensures dealing { IsDealing desk.now.table.shared.key.value desk.now.table.shared.table_id desk.now.streams head.new }
    ensures workers { KeepsWorkers desk.now.table.shared.key.value.load head.old head.new }
    ensures dealt { (bases : ℕ → List ℕ) → IsBegun (format_of desk.now.table.shared.key.value.load.mode) bases writers.old.items desk.now.table.shared.key.value.load.opening → AreDealt desk.now.table.shared.key.value desk.now.table.shared.table_id bases writers.old.items desk.now.streams jobs.new.items }
    ensures writers { writers.new.items ≡ [] }
    ensures kept { vec_capacity writers.new ≡ vec_capacity writers.old }
{
    for stream in 0..desk.streams {
        deal_manager(alloc, desk, head, writers, jobs, stream);
    }
}

/// The clerk's seat leaves the head, with nothing told.
pub(crate) fn clerk_job(alloc: Global, desk: &Desk, head: &mut Head, streams: usize) -> ClerkJob
    requires own { head.old.table_id ≡ desk.now.table.shared.table_id }
    requires dealing { IsDealing desk.now.table.shared.key.value desk.now.table.shared.table_id streams head.old }
    ensures ready { IsClerkReady desk.now result }
    ensures tells { Tells desk.now.table.shared.key.value.load result.seat result.told }
    ensures heard { (held : List ℕ) → IsToldSoFar held result.told held }
    ensures split { IsClerkSplit desk.now.table.shared.key.value.load head.old head.new result.seat }
    ensures works { (result.told.sink_failed ≡ false) × (result.short ≡ false) }
{
    let _ = streams;
    let seat = desk.split_clerk(head);
    ClerkJob {
        seat,
        told: Told::new(alloc),
        short: false,
    }
}
