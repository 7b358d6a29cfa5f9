//! The order in which a run calls its disks.
ghost use Rattle.std.specs.Prelude.{ℕ, ◌≡◌, ◌≤◌, ◌++◌, [], true, false, length, replicate, vec_len, IfOk, OnOk};
ghost use Rattle.std.specs.List.{flat_map};
ghost use Rattle.tau_base.specs.declared.format.Format.{Format};
ghost use Rattle.tau_base.specs.declared.format.Format.TheVariants.{One};
ghost use Rattle.tau_base.specs.declared.limits.TheConstants.{MAX_CATALOGUE, MAX_WORKERS};
ghost use Rattle.tau_base.specs.Modes.{format_of, most_streams};
ghost use Rattle.tau_text.specs.Canonical.{declarations_text};
ghost use Rattle.tau_text.specs.Kept.{AreCalls};
ghost use Rattle.tau_core.specs.Opens.{OpenedFresh, catalogue_size};
ghost use Rattle.tau_disk.specs.Left.{may_leave_each};
ghost use Rattle.tau_open.specs.Outside.{calls_to_make};
ghost use Rattle.tau_run.specs.Start.{catalogue_of};
ghost use Rattle.tau_run.specs.Run.{below};
ghost use Rattle.tau_run.specs.RunFacts.{turns_of};
ghost use Rattle.tau_run.specs.Writers.{AreNew};
ghost use Rattle.tau_step.specs.Counts.{calls_to_flush};
ghost use Rattle.tau_step.specs.Device.{IsDeviceOrder, IsFlushOrder, IsOfRun};
ghost use Rattle.tau_occ.specs.declared.style.Style.TheVariants.{Locking};
ghost use Rattle.tau_step.specs.declared.run.Run.{Run as OneRun};
ghost use Rattle.tau_step.specs.Optimists.{Peeks};
ghost use Rattle.tau_step.specs.RunEffects.{IsOn, Moves};
ghost use Rattle.tau_step.specs.Rounding.{none_peeked, ran_all};

use crate::clerk::Clerk;
use crate::flushes::Flushes;
use crate::run::Run;
use std::alloc::Global;
use std::mem;
use tau_base::{Listed, LogMode, NoMemory};
use tau_core::Core;
use tau_disk::{Disk, Failed, Sink};
use tau_occ::Style;
use tau_open::open_streams;
use tau_stream::Writer;
use tau_text::{Workload, print_declarations};

/// A disk that keeps nothing and never fails.
#[derive(Clone, Copy)]
struct NoDisk;

impl Disk for NoDisk {
    ghost tells = { ⊥ };

    ghost seen = { λ _. [] };

    ghost may_leave = { λ _ _. ⊥ };

    ghost moment = { λ _. 0 };

    ghost may_leave_since = { λ _ _ _. ⊥ };

    ghost faults = { λ _. 0 };

    ghost number = { λ _. 0 };

    ghost fails = { λ _ _. false };

    ghost short = { λ _. false };

    ghost image = { λ _ _. [] };

    ghost keeps = { λ _ _. false };

    ghost cut = { λ _. false };

    ghost seen_now = { λ _ tells. tells };

    ghost leaves_each = { may_leave_each ⊥ (λ _ _. ⊥) (λ _ _. []) (λ _ _ tells. tells) };

    ghost counts_now = { λ _ _ _ _ now. now };

    ghost only_now = { λ _ _ since. since };

    fn len(&mut self) -> Result<u64, Failed> {
        Ok(0)
    }

    fn read_at(&mut self, _at: u64, _buf: &mut [u8]) -> Result<(), Failed> {
        Ok(())
    }

    fn write_at(&mut self, _at: u64, _bytes: &[u8]) -> Result<(), Failed> {
        Ok(())
    }

    fn sync(&mut self) -> Result<(), Failed> {
        Ok(())
    }
}

/// A sink that keeps nothing.
#[derive(Clone, Copy)]
struct NoSink;

impl Sink for NoSink {
    ghost tells = { ⊥ };

    ghost held = { λ _. [] };

    ghost faults = { λ _. 0 };

    fn write(&mut self, bytes: &[u8]) -> Result<usize, Failed> {
        Ok(bytes.len())
    }
}

/// Streams on disks that keep nothing.
fn streams_of(alloc: Global, load: &Workload, n: u8) -> Result<Vec<Writer<NoDisk>>, NoMemory>
    requires streams { n ≤ most_streams One }
    requires text { length (declarations_text load.now.declarations) ≤ MAX_CATALOGUE }
    ensures count { IfOk result (λ writers. vec_len writers ≡ n) }
    // These disks tell nothing, so they hold a log of any format.
    ensures new { IfOk result (λ writers. (f : Format) → AreNew f (λ j. catalogue_of load.now) writers.items) }
{
    let catalogue = print_declarations(alloc, &load.declarations)?;
    let mut disks = vec![in alloc; NoDisk; usize::from(n)]?;
    match open_streams(alloc, &mut disks, n, &catalogue) {
        Ok(writers) => Ok(writers),
        // These disks tell nothing, so no clause excludes the other causes.
        Err(_) => Err(NoMemory),
    }
}

/// What a run has flushed, if all of it was noted and no disk failed. It is taken out of the run.
fn flushes_in(alloc: Global, run: &mut Run) -> Result<Listed<u8>, NoMemory>
    ensures { IfOk result (λ flushes. IsOfRun run.old.failed run.old.flushes flushes) }
{
    if run.failed.is_some() {
        return Err(NoMemory);
    }
    if !run.flushes.noted {
        return Err(NoMemory);
    }
    Ok(mem::replace(&mut run.flushes.streams, Listed::new(alloc)))
}

/// The stream of each flush of this run, which has not begun.
fn flushes_by(
    alloc: Global,
    run: &mut Run,
    load: &Workload,
    writers: &mut Vec<Writer<NoDisk>>,
) -> Result<Listed<u8>, NoMemory>
    requires on { IsOn writers.old.items run.old }
    ensures { IfOk result (λ flushes. (last : OneRun) × (peeks : Peeks) × Moves (ran_all Locking none_peeked peeks (turns_of load.now)) true run.old last writers.old.items writers.new.items ⊥ [] [] 0 0 × IsOfRun last.failed last.flushes flushes) }
{
    let mut peekers = Vec::new(alloc);
    run.all(Style::Locking, load, &mut peekers, writers, &mut NoSink)?;
    flushes_in(alloc, run)
}

/// The stream of each flush of the run that begins so.
fn flushes_of(
    alloc: Global,
    core: Core,
    load: &Workload,
    n: u8,
    m: u8,
    mode: LogMode,
    writers: &mut Vec<Writer<NoDisk>>,
) -> Result<Listed<u8>, NoMemory>
    requires count { vec_len writers.old ≡ n }
    requires new { AreNew (format_of mode) (λ j. catalogue_of load.now) writers.old.items }
    requires opened { OpenedFresh load.now.declarations.procs load.now.calls mode m n (catalogue_size (declarations_text load.now.declarations)) core }
    ensures { IfOk result (λ flushes. IsFlushOrder n m mode load.now flushes) }
{
    let mut run = Run {
        core,
        clerk: Clerk::new(alloc),
        workers: m,
        streams: n,
        failed: None,
        flushes: Flushes::new(alloc, true),
        body: Vec::new(alloc),
    };
    flushes_by(alloc, &mut run, load, writers)
}

/// Each stream is asked its length.
fn put_lengths(order: &mut Vec<u8>, n: u8) -> Result<(), NoMemory>
    ensures { OnOk result (order.new.items ≡ order.old.items ++ below n) }
{
    for stream in 0..n {
        order.push(stream)?;
    }
    Ok(())
}

/// Each stream is made.
fn put_makings(order: &mut Vec<u8>, n: u8) -> Result<(), NoMemory>
    ensures { OnOk result (order.new.items ≡ order.old.items ++ flat_map (replicate calls_to_make) (below n)) }
{
    for stream in 0..n {
        order.extend_from_slice(&[stream; 6])?;
    }
    Ok(())
}

/// Each of these streams is flushed.
fn put_flushes(order: &mut Vec<u8>, flushes: &[u8]) -> Result<(), NoMemory>
    ensures { OnOk result (order.new.items ≡ order.old.items ++ flat_map (replicate calls_to_flush) flushes.now) }
{
    for stream in flushes {
        order.extend_from_slice(&[*stream; 4])?;
    }
    Ok(())
}

/// The stream of each disk call, in order, of the run by turns of a workload on disks that begin empty and never fail.
pub fn device_order(
    alloc: Global,
    load: &Workload,
    n: u8,
    m: u8,
    mode: LogMode,
) -> Result<Vec<u8>, NoMemory>
    requires streams_low { 1 ≤ n }
    requires streams_high { n ≤ most_streams One }
    requires low { 1 ≤ m }
    requires high { m ≤ MAX_WORKERS }
    requires calls { AreCalls load.now.declarations.procs load.now.calls }
    requires text { length (declarations_text load.now.declarations) ≤ MAX_CATALOGUE }
    ensures { IfOk result (λ order. IsDeviceOrder n m mode load.now order.items) }
{
    let mut writers = streams_of(alloc, load, n)?;
    let core = Core::new(alloc, load, n, m, mode)?;
    let flushes = flushes_of(alloc, core, load, n, m, mode, &mut writers)?;
    let mut order = Vec::new(alloc);
    put_lengths(&mut order, n)?;
    put_makings(&mut order, n)?;
    put_flushes(&mut order, flushes.as_slice())?;
    Ok(order)
}
