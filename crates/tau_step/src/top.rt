//! Runs by turns.
ghost use Rattle.std.specs.Prelude.{ℕ, ◌≡◌, ◌≤◌, [], false, IfOk, List, length, replicate};
ghost use Rattle.tau_base.specs.declared.limits.TheConstants.{MAX_CATALOGUE, MAX_WORKERS};
ghost use Rattle.tau_base.specs.Modes.{format_of, most_streams};
ghost use Rattle.tau_disk.specs.Disk.{Rose};
ghost use Rattle.tau_text.specs.Canonical.{declarations_text};
ghost use Rattle.tau_text.specs.Kept.{AreCalls};
ghost use Rattle.tau_core.specs.Opens.{Fits, Opened};
ghost use Rattle.tau_occ.specs.Peeker.{blank_peeker};
ghost use Rattle.tau_occ.specs.declared.style.Style.TheVariants.{Locking};
ghost use Rattle.tau_run.specs.Start.{catalogue_of};
ghost use Rattle.tau_run.specs.Gives.{Gave, GaveFrom, GaveNew};
ghost use Rattle.tau_run.specs.RunFacts.{by_turns};
ghost use Rattle.tau_run.specs.Writers.{AreNew, IsBegun};
ghost use Rattle.tau_step.specs.Counts.{counting};
ghost use Rattle.tau_step.specs.Optimists.{blank_peekers};
ghost use Rattle.tau_step.specs.RunEffects.{IsOn};

use crate::clerk::Clerk;
use crate::end::end_of;
use crate::flushes::Flushes;
use crate::run::Run;
use std::alloc::Global;
use tau_base::{LogMode, NoMemory};
use tau_core::{Core, Opening};
use tau_disk::{Disk, Sink};
use tau_occ::{Peeker, Style};
use tau_report::RunEnd;
use tau_stream::Writer;
use tau_text::Workload;

/// Runs a workload by turns, with so many workers, on streams that were just created for it. Each turn word is done in order, then rounds follow until no
/// worker has anything to do; then the calls left over run alone, each manager flushes what is left, and the clerk makes a last pass.
/// Lines of acknowledgements go to the sink as they come. The workers are in the style Locking.
pub fn run_turns<D: Disk, K: Sink>(
    alloc: Global,
    load: &Workload,
    m: u8,
    mode: LogMode,
    writers: &mut Vec<Writer<D>>,
    sink: &mut K,
) -> Result<RunEnd, NoMemory>
    requires streams_low { 1 ≤ length writers.old.items }
    requires streams_high { length writers.old.items ≤ most_streams (format_of mode) }
    requires low { 1 ≤ m }
    requires high { m ≤ MAX_WORKERS }
    requires calls { AreCalls load.now.declarations.procs load.now.calls }
    requires text { length (declarations_text load.now.declarations) ≤ MAX_CATALOGUE }
    requires fresh { AreNew (format_of mode) (λ j. catalogue_of load.now) writers.old.items }
    ensures ran { GaveNew (by_turns Locking (length writers.old.items) m load.now) m mode load.now writers.old.items writers.new.items K.tells (K.held sink.old) (K.held sink.new) (Rose (K.faults sink.old) (K.faults sink.new)) result }
    // Of a run that went to its end, each disk had four calls a flush of its stream, and if it failed those up to the one that did.
    ensures counted { GaveNew (counting writers.old.items writers.new.items (by_turns Locking (length writers.old.items) m load.now)) m mode load.now writers.old.items writers.new.items K.tells (K.held sink.old) (K.held sink.new) (Rose (K.faults sink.old) (K.faults sink.new)) result }
    ensures faults { K.faults sink.old ≤ K.faults sink.new }
    ensures count { length writers.new.items ≡ length writers.old.items }
{
    let core = Core::new(alloc, load, writers.len() as u8, m, mode)?;
    go(alloc, core, load, m, writers, sink, Style::Locking)
}

/// The same from a given state, on streams that end where it says, with workers in a given style. The calls left over run in the style Locking.
pub fn run_turns_from<D: Disk, K: Sink>(
    alloc: Global,
    load: &Workload,
    opening: Opening,
    m: u8,
    mode: LogMode,
    writers: &mut Vec<Writer<D>>,
    sink: &mut K,
    style: Style,
) -> Result<RunEnd, NoMemory>
    requires low { 1 ≤ m }
    requires high { m ≤ MAX_WORKERS }
    requires calls { AreCalls load.now.declarations.procs load.now.calls }
    requires streams { length opening.ends ≤ most_streams (format_of mode) }
    requires fits { Fits opening }
    requires begun { (bases : ℕ → List ℕ) × IsBegun (format_of mode) bases writers.old.items opening }
    ensures ran { (bases : ℕ → List ℕ) → IsBegun (format_of mode) bases writers.old.items opening →
        GaveFrom (by_turns style (length opening.ends) m load.now) opening bases m mode load.now writers.old.items writers.new.items K.tells (K.held sink.old) (K.held sink.new) (Rose (K.faults sink.old) (K.faults sink.new)) result }
    ensures faults { K.faults sink.old ≤ K.faults sink.new }
    ensures count { length writers.new.items ≡ length writers.old.items }
{
    let core = Core::open(alloc, load, opening, m, mode)?;
    go(alloc, core, load, m, writers, sink, style)
}

/// The run itself.
fn go<D: Disk, K: Sink>(
    alloc: Global,
    core: Core,
    load: &Workload,
    m: u8,
    writers: &mut Vec<Writer<D>>,
    sink: &mut K,
    style: Style,
) -> Result<RunEnd, NoMemory>
    requires opened { Opened core.load core }
    requires workers { m ≡ core.load.workers }
    requires procs { load.now.declarations.procs ≡ core.load.procs }
    requires calls { load.now.calls ≡ core.load.calls }
    requires begun { (bases : ℕ → List ℕ) × IsBegun (format_of core.load.mode) bases writers.old.items core.load.opening }
    ensures ran { (bases : ℕ → List ℕ) → IsBegun (format_of core.load.mode) bases writers.old.items core.load.opening →
        Gave (counting writers.old.items writers.new.items (by_turns style core.load.streams core.load.workers load.now)) bases core.load writers.old.items writers.new.items K.tells (K.held sink.old) (K.held sink.new) (Rose (K.faults sink.old) (K.faults sink.new)) result }
    ensures faults { K.faults sink.old ≤ K.faults sink.new }
    ensures count { length writers.new.items ≡ length writers.old.items }
{
    let mut run = Run {
        core,
        clerk: Clerk::new(alloc),
        workers: m,
        streams: writers.len() as u8,
        failed: None,
        flushes: Flushes::new(alloc, false),
        body: Vec::new(alloc),
    };
    run_and_tell(alloc, &mut run, load, writers, sink, style)
}

/// The whole of a run that has not begun, and what it tells.
fn run_and_tell<D: Disk, K: Sink>(
    alloc: Global,
    run: &mut Run,
    load: &Workload,
    writers: &mut Vec<Writer<D>>,
    sink: &mut K,
    style: Style,
) -> Result<RunEnd, NoMemory>
    requires on { IsOn writers.old.items run.old }
    requires opened { Opened run.old.core.load run.old.core }
    requires acks { run.old.clerk.acks ≡ [] }
    requires works { run.old.clerk.sink_failed ≡ false }
    requires procs { load.now.declarations.procs ≡ run.old.core.load.procs }
    requires calls { load.now.calls ≡ run.old.core.load.calls }
    requires begun { (bases : ℕ → List ℕ) × IsBegun (format_of run.old.core.load.mode) bases writers.old.items run.old.core.load.opening }
    ensures ran { (bases : ℕ → List ℕ) → IsBegun (format_of run.old.core.load.mode) bases writers.old.items run.old.core.load.opening →
        Gave (counting writers.old.items writers.new.items (by_turns style run.old.core.load.streams run.old.core.load.workers load.now)) bases run.old.core.load writers.old.items writers.new.items K.tells (K.held sink.old) (K.held sink.new) (Rose (K.faults sink.old) (K.faults sink.new)) result }
    ensures faults { K.faults sink.old ≤ K.faults sink.new }
    ensures count { length writers.new.items ≡ length writers.old.items }
{
    let mut peekers = peekers_of(alloc, style, run.workers)?;
    run.all(style, load, &mut peekers, writers, sink)?;
    end_of(alloc, run, load.calls.len())
}

/// What each worker of a run in this style has peeked before it begins. In the style Locking none ever peeks.
fn peekers_of(alloc: Global, style: Style, m: u8) -> Result<Vec<Peeker>, NoMemory>
    ensures { IfOk result (λ peekers. peekers.items ≡ blank_peekers style m) }
{
    match style {
        Style::Locking => Ok(Vec::new(alloc)),
        Style::Optimistic => fresh_peekers(alloc, m),
    }
}

/// So many workers that have peeked nothing.
fn fresh_peekers(alloc: Global, m: u8) -> Result<Vec<Peeker>, NoMemory>
    ensures { IfOk result (λ peekers. peekers.items ≡ replicate m blank_peeker) }
{
    let mut peekers = Vec::new(alloc);
    for _ in 0..m {
        peekers.push(Peeker::new(alloc))?;
    }
    Ok(peekers)
}
