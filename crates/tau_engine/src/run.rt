//! A run on the first disks.
ghost use Rattle.std.specs.Prelude.{◌≡◌, ◌≤◌, ◌+◌, ℕ, List, Ok, length, vec_len, vec_capacity};
ghost use Rattle.tau_base.specs.declared.limits.TheConstants.{MAX_STREAMS, MAX_WORKERS};
ghost use Rattle.tau_base.specs.Modes.{format_of, most_streams};
ghost use Rattle.tau_disk.specs.Disk.{Rose};
ghost use Rattle.tau_text.specs.Kept.{AreCalls, IsRunnable};
ghost use Rattle.tau_text.specs.Text.{workload_of};
ghost use Rattle.tau_core.specs.Opens.{Fits};
ghost use Rattle.tau_run.specs.Gives.{GaveFrom};
ghost use Rattle.tau_run.specs.Writers.{IsBegun};
ghost use Rattle.tau_engine.specs.RunSays.{RunSays};
ghost use Rattle.tau_engine.specs.Runs.{RunsFrom, TellsEnd, choice_of, ran_by};

use std::alloc::Global;
use std::sync::Wait;
use std::thread::Threads;
use tau_base::{LogMode, NoMemory, format_of};
use tau_begin::open_run;
use tau_commands::{Status, refuse_scan};
use tau_core::Opening;
use tau_crew::run_threads_from;
use tau_disk::{Disk, Gate, Sink, write_all};
use tau_occ::Style;
use tau_open::close_streams;
use tau_report::{RunEnd, report_text};
use tau_step::run_turns_from;
use tau_stream::Writer;
use tau_text::{Workload, print_declarations};

/// Writes what a run tells after its acknowledgements, and returns how it ended. Nothing is written to a sink that has
/// failed.
fn tell_end<K: Sink>(alloc: Global, load: &Workload, end: &RunEnd, sink: &mut K) -> Status
    ensures told { TellsEnd load.now.declarations.tables end.now K.tells (K.held sink.old) (K.held sink.new) (Rose (K.faults sink.old) (K.faults sink.new)) result }
    ensures faults { K.faults sink.old ≤ K.faults sink.new }
{
    if end.sink_failed {
        return Status::WriteFault;
    }
    let Ok(text) = report_text(alloc, &load.declarations, &end.report, end.disk) else {
        return Status::NoMemory;
    };
    match write_all(sink, &text) {
        Err(_) => Status::WriteFault,
        Ok(()) => match end.disk {
            None => Status::Ok,
            Some(stream) => Status::DiskFault { stream },
        },
    }
}

/// What is chosen for a run.
#[derive(Clone, Copy, Debug)]
pub struct Choice {
    /// Streams, 1 to 16; 1 to 32 of a wide mode.
    pub streams: u8,
    /// Workers, 1 to 32.
    pub workers: u8,
    /// What records hold, and in which format.
    pub mode: LogMode,
    /// How workers go about their locks.
    pub style: Style,
}

/// What the words of a run choose: its streams, its workers, its mode, and whether they have the word `optimistic`.
pub fn choice_of(streams: u8, workers: u8, mode: LogMode, optimistic: bool) -> Choice
    ensures { result ≡ choice_of streams workers mode optimistic }
{
    let style = if optimistic {
        Style::Optimistic
    } else {
        Style::Locking
    };
    Choice {
        streams,
        workers,
        mode,
        style,
    }
}

/// What a run begins on: where its core opens, the writers of its streams, and what was chosen for it.
struct Ready<D: Disk> {
    opening: Opening,
    writers: Vec<Writer<D>>,
    choice: Choice,
}

/// Runs a workload on what is ready: by turns if it has them, else in threads. Returns how it ended and the writers.
fn run_from<R: Threads + Wait + Sync, D: Disk + Send, K: Sink + Send, G: Gate + Sync>(
    rt: &R,
    alloc: Global,
    load: &Workload,
    ready: Ready<D>,
    sink: &mut K,
    gate: &G,
) -> (Result<RunEnd, NoMemory>, Vec<Writer<D>>)
    requires low { 1 ≤ ready.choice.workers }
    requires high { ready.choice.workers ≤ MAX_WORKERS }
    requires calls { AreCalls load.now.declarations.procs load.now.calls }
    requires streams { length ready.opening.ends ≤ most_streams (format_of ready.choice.mode) }
    requires fits { Fits ready.opening }
    requires begun { (bases : ℕ → List ℕ) × IsBegun (format_of ready.choice.mode) bases ready.writers.items ready.opening }
    ensures ran { (bases : ℕ → List ℕ) → IsBegun (format_of ready.choice.mode) bases ready.writers.items ready.opening →
        GaveFrom (ran_by load.now.turns ready.choice.style (length ready.opening.ends) ready.choice.workers load.now) ready.opening bases ready.choice.workers ready.choice.mode load.now ready.writers.items result.1.items K.tells (K.held sink.old) (K.held sink.new) (Rose (K.faults sink.old) (K.faults sink.new)) result.0 }
    ensures faults { K.faults sink.old ≤ K.faults sink.new }
    ensures count { length result.1.items ≡ length ready.writers.items }
{
    let Ready {
        opening,
        mut writers,
        choice,
    } = ready;
    match load.turns {
        Some(_) => {
            let end = run_turns_from(
                alloc,
                load,
                opening,
                choice.workers,
                choice.mode,
                &mut writers,
                sink,
                choice.style,
            );
            (end, writers)
        }
        None => {
            let end = run_threads_from(
                rt,
                alloc,
                load,
                opening,
                choice.workers,
                choice.mode,
                &mut writers,
                sink,
                gate,
                choice.style,
            );
            (end, writers)
        }
    }
}

/// Runs a workload on what is ready, puts the disks back in front of the others, and tells how it ended.
fn run_on<R: Threads + Wait + Sync, D: Disk + Send, K: Sink + Send, G: Gate + Sync>(
    rt: &R,
    alloc: Global,
    load: &Workload,
    ready: Ready<D>,
    sink: &mut K,
    disks: &mut Vec<D>,
    gate: &G,
) -> Status
    requires low { 1 ≤ ready.choice.workers }
    requires high { ready.choice.workers ≤ MAX_WORKERS }
    requires runnable { IsRunnable load.now }
    requires streams { length ready.opening.ends ≤ most_streams (format_of ready.choice.mode) }
    requires fits { Fits ready.opening }
    requires begun { (bases : ℕ → List ℕ) × IsBegun (format_of ready.choice.mode) bases ready.writers.items ready.opening }
    requires room { vec_len disks.old + vec_len ready.writers ≤ vec_capacity disks.old }
    ensures ran { (bases : ℕ → List ℕ) → IsBegun (format_of ready.choice.mode) bases ready.writers.items ready.opening →
        RunsFrom ready.choice load.now ready.opening bases ready.writers.items (record { old = disks.old.items; new = disks.new.items; sink = record { hears = K.tells; held = K.held sink.old; held' = K.held sink.new; faults = K.faults sink.old; faults' = K.faults sink.new } }) result }
    ensures len { vec_len disks.new ≡ vec_len ready.writers + vec_len disks.old }
{
    let (end, writers) = run_from(rt, alloc, load, ready, sink, gate);
    close_streams(disks, writers);
    match end {
        Ok(end) => tell_end(alloc, load, &end, sink),
        Err(NoMemory) => Status::NoMemory,
    }
}

/// Runs a workload on what the first disks hold, one for each stream, and puts them back in their places.
pub fn run<R: Threads + Wait + Sync, D: Disk + Send, K: Sink + Send, G: Gate + Sync>(
    rt: &R,
    alloc: Global,
    load: &Workload,
    choice: Choice,
    sink: &mut K,
    disks: &mut Vec<D>,
    gate: &G,
) -> Status
    requires disks { MAX_STREAMS ≤ vec_len disks.old }
    requires streams_low { 1 ≤ choice.streams }
    requires streams_high { choice.streams ≤ most_streams (format_of choice.mode) }
    requires low { 1 ≤ choice.workers }
    requires high { choice.workers ≤ MAX_WORKERS }
    requires runnable { IsRunnable load.now }
    requires meant { (text : List ℕ) × (workload_of text ≡ Ok load.now) }

    ensures count { vec_len disks.new ≡ vec_len disks.old }
    ensures says { RunSays ⟦<D as Disk>⟧ choice load.now (record { old = disks.old.items; new = disks.new.items; sink = record { hears = K.tells; held = K.held sink.old; held' = K.held sink.new; faults = K.faults sink.old; faults' = K.faults sink.new } }) result }
{
    let Ok(text) = print_declarations(alloc, &load.declarations) else {
        return Status::NoMemory;
    };
    match open_run(alloc, disks, choice.streams, format_of(choice.mode), &text) {
        Err(refusal) => refuse_scan(alloc, sink, refusal),
        Ok((opening, writers)) => {
            let ready = Ready {
                opening,
                writers,
                choice,
            };
            run_on(rt, alloc, load, ready, sink, disks, gate)
        }
    }
}
