//! The ending of a run: every seat comes back, the desk closes, and what the run has led to is told.
ghost use Rattle.std.specs.Prelude.{ℕ, ◌≡◌, ◌≤◌, [], Bool, false, List, length, map, vec_len, vec_capacity};
ghost use Rattle.tau_base.specs.declared.limits.TheConstants.{MAX_STREAMS};
ghost use Rattle.tau_disk.specs.Disk.{Rose};
ghost use Rattle.tau_run.specs.Gives.{CutOff, Gave};
ghost use Rattle.tau_run.specs.StopsLeave.{NamesLowest};
ghost use Rattle.tau_crew_facts.specs.Ends.{stops_of};
ghost use Rattle.tau_crew_facts.specs.Threads.{lasting};
ghost use Rattle.tau_crew.specs.Ending.{AreManagersBack, IsBack, IsClerkBack, IsHeadBack};
ghost use Rattle.tau_crew.specs.EndCloses.{IsAllBack};
ghost use Rattle.tau_crew.specs.EndDone.{IsDone};
ghost use Rattle.tau_crew.specs.EndJoins.{KeepsHead, writer_in};

use crate::clerk::ClerkJob;
use crate::ending_close::close_run;
use crate::ending_join::join_managers;
use crate::ending_settle::settle;
use crate::manager::ManagerJob;
use crate::told::Told;
use std::alloc::Global;
use std::sync::Wait;
use tau_base::NoMemory;
use tau_desk::{Desk, Head};
use tau_disk::{Disk, Sink};
use tau_report::RunEnd;
use tau_run::tell_end;
use tau_stream::Writer;

/// The head has every role, and sees each stream persisted as far as its writer has it durable. The writers come back in the
/// order of the streams; what the clerk has told is returned. It takes no memory.
pub(crate) fn gather_back<R: Wait, D: Disk>(
    rt: &R,
    desk: &Desk,
    head: &mut Head,
    jobs: Vec<ManagerJob<D>>,
    clerk: ClerkJob,
    writers: &mut Vec<Writer<D>>,
) -> Told
    requires head { IsHeadBack desk.now.table.shared.key.value desk.now.table.shared.table_id head.old }
    requires managers { (bases : ℕ → List ℕ) × (ws : List _) × AreManagersBack desk.now.table.shared.key.value desk.now.table.shared.table_id bases ws jobs.items }
    requires clerk { IsClerkBack desk.now.table.shared.key.value desk.now.table.shared.table_id clerk }
    requires room { vec_len jobs ≤ vec_capacity writers.old }
    requires none { writers.old.items ≡ [] }
    ensures told { result ≡ clerk.told }
    ensures writers { writers.new.items ≡ map writer_in jobs.items }
    ensures back { (bases : ℕ → List ℕ) (ws : List _) → AreManagersBack desk.now.table.shared.key.value desk.now.table.shared.table_id bases ws jobs.items → IsAllBack desk.now.table.shared.key.value desk.now.table.shared.table_id bases ws head.new jobs.items clerk }
    ensures keeps { KeepsHead desk.now.table.shared.key.value head.old head.new }
{
    let ClerkJob {
        seat,
        told,
        short: _,
    } = clerk;
    join_managers(desk, head, jobs, writers);
    seat.agrees();
    desk.join_clerk(head, seat);
    settle(rt, desk, head, writers);
    told
}

/// The run ends out of memory: what it has led to is a run in threads, of which the sink holds the first lines.
pub(crate) fn end_short<R: Wait, D: Disk, K: Sink>(
    rt: &R,
    desk: Desk,
    mut head: Head,
    jobs: Vec<ManagerJob<D>>,
    clerk: ClerkJob,
    writers: &mut Vec<Writer<D>>,
    sink: &K,
)
    requires head { IsHeadBack desk.table.shared.key.value desk.table.shared.table_id head }
    requires managers { (bases : ℕ → List ℕ) × (ws : List _) × AreManagersBack desk.table.shared.key.value desk.table.shared.table_id bases ws jobs.items }
    requires clerk { IsClerkBack desk.table.shared.key.value desk.table.shared.table_id clerk }
    requires room { vec_len jobs ≤ vec_capacity writers.old }
    requires none { writers.old.items ≡ [] }
    ensures writers { writers.new.items ≡ map writer_in jobs.items }
    ensures short { (bases : ℕ → List ℕ) (ws : List _) (held : List ℕ) (faults : ℕ) (short : Bool) → IsBack desk.table.shared.key.value desk.table.shared.table_id bases ws K.tells held (K.held sink.now) (Rose faults (K.faults sink.now)) head jobs.items clerk short → CutOff (lasting desk.table.shared.key.style writers.new.items) bases desk.table.shared.key.value.load ws writers.new.items K.tells held (K.held sink.now) (Rose faults (K.faults sink.now)) }
{
    let _ = sink;
    let told = gather_back(rt, &desk, &mut head, jobs, clerk, writers);
    let core = close_run(desk, head, writers);
    let _ = told;
    let _ = core;
}

/// The lowest stream whose disk failed, which is the lowest that is stopped, whatever is persisted.
fn lowest_failed<D: Disk>(writers: &Vec<Writer<D>>) -> Option<u8>
    requires few { length writers.now.items ≤ MAX_STREAMS }
    ensures { (plv : List ℕ) → NamesLowest (length writers.now.items) (stops_of writers.now.items plv) result }
{
    for stream in 0..writers.len() {
        if writers[stream].failed() {
            return Some(stream as u8);
        }
    }
    None
}

/// The run ends, memory being there: it tells what it has led to, or that it could not, which takes memory.
pub(crate) fn end_well<R: Wait, D: Disk, K: Sink>(
    rt: &R,
    alloc: Global,
    desk: Desk,
    mut head: Head,
    jobs: Vec<ManagerJob<D>>,
    clerk: ClerkJob,
    writers: &mut Vec<Writer<D>>,
    sink: &K,
) -> Result<RunEnd, NoMemory>
    requires head { IsHeadBack desk.table.shared.key.value desk.table.shared.table_id head }
    requires managers { (bases : ℕ → List ℕ) × (ws : List _) × AreManagersBack desk.table.shared.key.value desk.table.shared.table_id bases ws jobs.items }
    requires clerk { IsClerkBack desk.table.shared.key.value desk.table.shared.table_id clerk }
    requires memory { clerk.short ≡ false }
    requires room { vec_len jobs ≤ vec_capacity writers.old }
    requires none { writers.old.items ≡ [] }
    ensures writers { writers.new.items ≡ map writer_in jobs.items }
    ensures ran { (bases : ℕ → List ℕ) (ws : List _) (held : List ℕ) (faults : ℕ) (short : Bool) → IsBack desk.table.shared.key.value desk.table.shared.table_id bases ws K.tells held (K.held sink.now) (Rose faults (K.faults sink.now)) head jobs.items clerk short → IsDone desk.table.shared.key.value head jobs.items clerk → Gave (lasting desk.table.shared.key.style writers.new.items) bases desk.table.shared.key.value.load ws writers.new.items K.tells held (K.held sink.now) (Rose faults (K.faults sink.now)) result }
{
    let _ = sink;
    let calls = desk.load.calls.len();
    let Told {
        acks,
        missing: _,
        line: _,
        lines: _,
        sink_failed,
    } = gather_back(rt, &desk, &mut head, jobs, clerk, writers);
    let core = close_run(desk, head, writers);
    tell_end(
        alloc,
        &core,
        acks,
        calls,
        lowest_failed(writers),
        sink_failed,
    )
}
