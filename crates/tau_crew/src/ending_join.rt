//! The seats of the managers and the clerk come back into the head.
ghost use Rattle.std.specs.Prelude.{◌≡◌, ◌≤◌, ◌+◌, ◌++◌, [], Some, map, reverse, vec_len, vec_capacity};
ghost use Rattle.tau_crew.specs.EndJoins.{AreSeats, HasManagers, KeepsHead, TakesManager, writer_in};

use crate::manager::ManagerJob;
use tau_desk::{Desk, Head};
use tau_disk::Disk;
use tau_stream::Writer;

/// The head takes the seat of a manager in, whose writer comes back.
fn join_manager<D: Disk>(desk: &Desk, head: &mut Head, job: ManagerJob<D>) -> Writer<D>
    requires own { (head.old.table_id ≡ desk.now.table.shared.table_id) × (job.seat.table_id ≡ desk.now.table.shared.table_id) }
    requires opened { (head.old.me.0.opened ≡ Some desk.now.table.shared.key.value) × (job.seat.me.0.opened ≡ Some desk.now.table.shared.key.value) }
    ensures writer { result ≡ job.writer }
    ensures takes { TakesManager desk.now.table.shared.key.value head.old head.new job.seat }
{
    let ManagerJob {
        seat,
        writer,
        stream: _,
        body: _,
        marks: _,
        short: _,
    } = job;
    head.agrees();
    seat.agrees();
    desk.join_manager(head, seat);
    writer
}

/// The head takes the seats of all managers in, whose writers come back, the last one first. It takes no memory.
fn take_managers<D: Disk>(
    desk: &Desk,
    head: &mut Head,
    jobs: Vec<ManagerJob<D>>,
    writers: &mut Vec<Writer<D>>,
)
    requires own { head.old.table_id ≡ desk.now.table.shared.table_id }
    requires opened { head.old.me.0.opened ≡ Some desk.now.table.shared.key.value }
    requires seats { AreSeats desk.now.table.shared.key.value desk.now.table.shared.table_id jobs.items }
    requires room { vec_len writers.old + vec_len jobs ≤ vec_capacity writers.old }
    ensures keeps { KeepsHead desk.now.table.shared.key.value head.old head.new }
    ensures has { HasManagers desk.now.table.shared.key.value head.new 0 jobs.items }
    ensures writers { reverse writers.new.items ≡ map writer_in jobs.items ++ reverse writers.old.items }
{
    let mut jobs = jobs;
    while let Some(job) = jobs.pop() {
        let writer = join_manager(desk, head, job);
        writers.push_reserved(writer);
    }
    jobs.destroy_empty();
}

/// The head takes the seats of all managers in, and their writers come back in the order of the streams. It takes no memory.
pub(crate) fn join_managers<D: Disk>(
    desk: &Desk,
    head: &mut Head,
    jobs: Vec<ManagerJob<D>>,
    writers: &mut Vec<Writer<D>>,
)
    requires own { head.old.table_id ≡ desk.now.table.shared.table_id }
    requires opened { head.old.me.0.opened ≡ Some desk.now.table.shared.key.value }
    requires seats { AreSeats desk.now.table.shared.key.value desk.now.table.shared.table_id jobs.items }
    requires room { vec_len jobs ≤ vec_capacity writers.old }
    requires none { writers.old.items ≡ [] }
    ensures keeps { KeepsHead desk.now.table.shared.key.value head.old head.new }
    ensures has { HasManagers desk.now.table.shared.key.value head.new 0 jobs.items }
    ensures writers { writers.new.items ≡ map writer_in jobs.items }
{
    take_managers(desk, head, jobs, writers);
    writers.reverse();
}
