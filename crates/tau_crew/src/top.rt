//! Runs in threads.
ghost use Rattle.std.specs.Prelude.{ℕ, ◌≡◌, ◌≤◌, ◌<◌, ◌^◌, List, [], false, length, slice_index, vec_capacity, vec_len};
ghost use Rattle.tau_base.specs.Modes.{format_of, most_streams};
ghost use Rattle.tau_base.specs.declared.limits.TheConstants.{MAX_BEGIN, MAX_CATALOGUE, MAX_WORKERS};
ghost use Rattle.tau_disk.specs.Disk.{Rose};
ghost use Rattle.tau_text.specs.Canonical.{declarations_text};
ghost use Rattle.tau_text.specs.Kept.{AreCalls};
ghost use Rattle.tau_core.specs.Opens.{Fits, Opened};
ghost use Rattle.tau_run.specs.Start.{catalogue_of};
ghost use Rattle.tau_run.specs.Writers.{AreNew, IsBegun};
ghost use Rattle.tau_desk.specs.Ends.{IsFirst, IsWhole};
ghost use Rattle.tau_desk.specs.Laid.{AreUnbegun};
ghost use Rattle.tau_run.specs.Gives.{Gave, GaveFrom, GaveNew};
ghost use Rattle.tau_crew_facts.specs.Threads.{in_threads, lasting};
ghost use Rattle.tau_crew.specs.Ending.{IsBack};

use crate::clerk::ClerkJob;
use crate::deal::{clerk_job, deal_managers};
use crate::ending::{end_short, end_well};
use crate::ending_pass::do_left;
use crate::manager::ManagerJob;
use crate::shared::Crew;
use crate::work_phase::run_phase;
use std::alloc::Global;
use std::sync::Wait;
use std::thread::Threads;
use tau_base::{LogMode, MAX_BEGIN, NoMemory};
use tau_core::Opening;
use tau_desk::{Desk, Head};
use tau_disk::{Disk, Gate, Sink};
use tau_occ::Style;
use tau_report::RunEnd;
use tau_stream::Writer;
use tau_text::Workload;

/// Runs a workload in threads, with so many workers in the style Locking, on streams that were just created for it: workers, managers and the
/// clerk side by side. Then the calls left over run alone, each manager flushes what is left, and the clerk makes a last pass.
/// Lines of acknowledgements go to the sink as they come.
pub fn run_threads<R: Threads + Wait + Sync, D: Disk + Send, K: Sink + Send, G: Gate + Sync>(
    rt: &R,
    alloc: Global,
    load: &Workload,
    workers: u8,
    mode: LogMode,
    writers: &mut Vec<Writer<D>>,
    sink: &mut K,
    gate: &G,
) -> Result<RunEnd, NoMemory>
    requires streams_low { 1 ≤ length writers.old.items }
    requires streams_high { length writers.old.items ≤ most_streams (format_of mode) }
    requires low { 1 ≤ workers }
    requires high { workers ≤ MAX_WORKERS }
    requires calls { AreCalls load.now.declarations.procs load.now.calls }
    requires text { length (declarations_text load.now.declarations) ≤ MAX_CATALOGUE }
    requires fresh { AreNew (format_of mode) (λ j. catalogue_of load.now) writers.old.items }
    ensures ran { GaveNew (in_threads Style.Locking) workers mode load.now writers.old.items writers.new.items K.tells (K.held sink.old) (K.held sink.new) (Rose (K.faults sink.old) (K.faults sink.new)) result }
    ensures lasts { GaveNew (lasting Style.Locking writers.new.items) workers mode load.now writers.old.items writers.new.items K.tells (K.held sink.old) (K.held sink.new) (Rose (K.faults sink.old) (K.faults sink.new)) result }
    ensures faults { K.faults sink.old ≤ K.faults sink.new }
    ensures count { length writers.new.items ≡ length writers.old.items }
{
    let (desk, head) = Desk::new(
        alloc,
        load,
        writers.len() as u8,
        workers,
        mode,
        Style::Locking,
    )?;
    go(rt, alloc, desk, head, writers, sink, gate)
}

/// The same from a given state, on streams that end where it says, in a given style. The calls left over run in the style Locking.
pub fn run_threads_from<R: Threads + Wait + Sync, D: Disk + Send, K: Sink + Send, G: Gate + Sync>(
    rt: &R,
    alloc: Global,
    load: &Workload,
    opening: Opening,
    workers: u8,
    mode: LogMode,
    writers: &mut Vec<Writer<D>>,
    sink: &mut K,
    gate: &G,
    style: Style,
) -> Result<RunEnd, NoMemory>
    requires low { 1 ≤ workers }
    requires high { workers ≤ MAX_WORKERS }
    requires calls { AreCalls load.now.declarations.procs load.now.calls }
    requires streams { length opening.ends ≤ most_streams (format_of mode) }
    requires fits { Fits opening }
    requires begun { (bases : ℕ → List ℕ) × IsBegun (format_of mode) bases writers.old.items opening }
    ensures ran { (bases : ℕ → List ℕ) → IsBegun (format_of mode) bases writers.old.items opening →
        GaveFrom (in_threads style) opening bases workers mode load.now writers.old.items writers.new.items K.tells (K.held sink.old) (K.held sink.new) (Rose (K.faults sink.old) (K.faults sink.new)) result }
    ensures lasts { (bases : ℕ → List ℕ) → IsBegun (format_of mode) bases writers.old.items opening →
        GaveFrom (lasting style writers.new.items) opening bases workers mode load.now writers.old.items writers.new.items K.tells (K.held sink.old) (K.held sink.new) (Rose (K.faults sink.old) (K.faults sink.new)) result }
    ensures faults { K.faults sink.old ≤ K.faults sink.new }
    ensures count { length writers.new.items ≡ length writers.old.items }
{
    if is_long(&opening) {
        return Err(NoMemory);
    }
    let (desk, head) = Desk::open(alloc, load, opening, workers, mode, style)?;
    go(rt, alloc, desk, head, writers, sink, gate)
}

/// Whether a stream ends later than a desk can open with.
fn is_long(opening: &Opening) -> bool
    ensures { result ≡ false → (j : ℕ) → j < length opening.now.ends → slice_index opening.now.ends j ≤ MAX_BEGIN }
{
    for j in 0..opening.ends.width() {
        if opening.ends.get(j) > MAX_BEGIN {
            return true;
        }
    }
    false
}

/// The run itself, on a desk that has just opened.
fn go<R: Threads + Wait + Sync, D: Disk + Send, K: Sink + Send, G: Gate + Sync>(
    rt: &R,
    alloc: Global,
    desk: Desk,
    head: Head,
    writers: &mut Vec<Writer<D>>,
    sink: &mut K,
    gate: &G,
) -> Result<RunEnd, NoMemory>
    requires opened { Opened desk.table.shared.key.value.load desk.table.shared.key.value }
    requires first { IsFirst desk.table.shared.key.value head.me }
    requires whole { IsWhole head }
    requires own { head.table_id ≡ desk.table.shared.table_id }
    requires unbegun { AreUnbegun head.workers }
    requires begun { (bases : ℕ → List ℕ) × IsBegun (format_of desk.table.shared.key.value.load.mode) bases writers.old.items desk.table.shared.key.value.load.opening }
    ensures ran { (bases : ℕ → List ℕ) → IsBegun (format_of desk.table.shared.key.value.load.mode) bases writers.old.items desk.table.shared.key.value.load.opening →
        Gave (lasting desk.table.shared.key.style writers.new.items) bases desk.table.shared.key.value.load writers.old.items writers.new.items K.tells (K.held sink.old) (K.held sink.new) (Rose (K.faults sink.old) (K.faults sink.new)) result }
    ensures faults { K.faults sink.old ≤ K.faults sink.new }
    ensures count { length writers.new.items ≡ length writers.old.items }
{
    let Ok(mut jobs) = Vec::with_capacity(alloc, desk.streams) else {
        return Err(NoMemory);
    };
    let crew = Crew::new(desk.load.workers as u64, desk.streams as u64);
    let (head, clerk, short) = run_all(
        rt, alloc, &desk, &crew, head, writers, &mut jobs, sink, gate,
    );
    finish(
        rt, alloc, desk, &crew, head, jobs, clerk, short, writers, sink, gate,
    )
}

/// The seats leave the head, and workers, managers and the clerk run side by side. The head, and the clerk, come back, the
/// managers in `jobs`. Returns also whether memory ran out for a worker.
fn run_all<R: Threads + Wait + Sync, D: Disk + Send, K: Sink + Send, G: Gate + Sync>(
    rt: &R,
    alloc: Global,
    desk: &Desk,
    crew: &Crew,
    mut head: Head,
    writers: &mut Vec<Writer<D>>,
    jobs: &mut Vec<ManagerJob<D>>,
    sink: &mut K,
    gate: &G,
) -> (Head, ClerkJob, bool)
    requires opened { Opened desk.now.table.shared.key.value.load desk.now.table.shared.key.value }
    requires first { IsFirst desk.now.table.shared.key.value head.me }
    requires whole { IsWhole head }
    requires own { head.table_id ≡ desk.now.table.shared.table_id }
    requires unbegun { AreUnbegun head.workers }
    requires begun { (bases : ℕ → List ℕ) × IsBegun (format_of desk.now.table.shared.key.value.load.mode) bases writers.old.items desk.now.table.shared.key.value.load.opening }
    requires room { (jobs.old.items ≡ []) × (desk.now.streams ≤ vec_capacity jobs.old) }
    ensures back { (bases : ℕ → List ℕ) → IsBegun (format_of desk.now.table.shared.key.value.load.mode) bases writers.old.items desk.now.table.shared.key.value.load.opening →
        IsBack desk.now.table.shared.key.value desk.now.table.shared.table_id bases writers.old.items K.tells (K.held sink.old) (K.held sink.new) (Rose (K.faults sink.old) (K.faults sink.new)) result.0 jobs.new.items result.1 result.2 }
    ensures faults { K.faults sink.old ≤ K.faults sink.new }
    ensures writers { writers.new.items ≡ [] }
    ensures kept { vec_capacity writers.new ≡ vec_capacity writers.old }
{
    head.agrees();
    deal_managers(alloc, desk, &mut head, writers, jobs);
    let mut clerk = clerk_job(alloc, desk, &mut head, desk.streams);
    let (head, short) = run_phase(rt, desk, head, crew, jobs, &mut clerk, sink, gate);
    (head, clerk, short)
}

/// What is left is done, and the run ends.
fn finish<R: Threads + Wait + Sync, D: Disk + Send, K: Sink + Send, G: Gate + Sync>(
    rt: &R,
    alloc: Global,
    desk: Desk,
    crew: &Crew,
    mut head: Head,
    mut jobs: Vec<ManagerJob<D>>,
    mut clerk: ClerkJob,
    short: bool,
    writers: &mut Vec<Writer<D>>,
    sink: &mut K,
    gate: &G,
) -> Result<RunEnd, NoMemory>
    requires back { (bases : ℕ → List ℕ) × (ws : List _) × (held : List ℕ) × (faults : ℕ) × IsBack desk.table.shared.key.value desk.table.shared.table_id bases ws K.tells held (K.held sink.old) (Rose faults (K.faults sink.old)) head jobs.items clerk short }
    requires run { Opened desk.table.shared.key.value.load desk.table.shared.key.value }
    requires room { vec_len jobs ≤ vec_capacity writers.old }
    requires none { writers.old.items ≡ [] }
    ensures ran { (bases : ℕ → List ℕ) (ws : List _) (held : List ℕ) (faults : ℕ) → faults ≤ K.faults sink.old → IsBack desk.table.shared.key.value desk.table.shared.table_id bases ws K.tells held (K.held sink.old) (Rose faults (K.faults sink.old)) head jobs.items clerk short →
        Gave (lasting desk.table.shared.key.style writers.new.items) bases desk.table.shared.key.value.load ws writers.new.items K.tells held (K.held sink.new) (Rose faults (K.faults sink.new)) result }
    ensures faults { K.faults sink.old ≤ K.faults sink.new }
    ensures count { length writers.new.items ≡ length jobs.items }
{
    if short {
        end_short(rt, desk, head, jobs, clerk, writers, sink);
        return Err(NoMemory);
    }
    if do_left(
        rt, &desk, crew, &mut head, &mut jobs, &mut clerk, sink, gate,
    ) {
        return end_well(rt, alloc, desk, head, jobs, clerk, writers, sink);
    }
    end_short(rt, desk, head, jobs, clerk, writers, sink);
    Err(NoMemory)
}
