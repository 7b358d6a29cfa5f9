//! A run in threads on two streams that were just created for it.
ghost use Rattle.std.specs.Prelude.{ℕ, ◌≡◌, ◌≤◌, ◌<◌, [], ◌∷◌, length, vec_len, IfOk};
ghost use Rattle.tau_base.specs.declared.format.Format.TheVariants.{One};
ghost use Rattle.tau_base.specs.declared.limits.TheConstants.{MAX_CATALOGUE, MAX_LSN};
ghost use Rattle.tau_text.specs.Canonical.{declarations_text};
ghost use Rattle.tau_text.specs.Kept.{AreCalls};
ghost use Rattle.tau_run.specs.Start.{catalogue_of};
ghost use Rattle.tau_run.specs.Writers.{AreNew};

use crate::told::{are_anchors, are_images, counts_up, tells};
use arrayvec::ArrayVec;
use std::alloc::Global;
use std::sync::Wait;
use std::test::Fail;
use std::thread::Threads;
use tau_base::{LogMode, Lv};
use tau_core::Opening;
use tau_crew::{run_threads, run_threads_from};
use tau_disk::{MemDisk, MemSink, Quiet};
use tau_model::Tables;
use tau_occ::Style;
use tau_open::open_streams;
use tau_report::RunEnd;
use tau_stream::Writer;
use tau_text::{Workload, print_declarations};

/// How a run goes.
#[derive(Clone, Copy)]
pub struct Way {
    /// How many anchors the first stream is said to have.
    pub anchors: u32,
    pub workers: u8,
    /// The style from an opening; none on new streams.
    pub style: Option<Style>,
}

/// Two new disks.
fn two_disks(alloc: Global) -> Result<Vec<MemDisk>, Fail>
    ensures { IfOk result (λ disks. vec_len disks ≡ 2) }
{
    let mut disks = Vec::new(alloc);
    disks.push(MemDisk::new(alloc, &[])?)?;
    disks.push(MemDisk::new(alloc, &[])?)?;
    Ok(disks)
}

/// Two streams, just created for the workload.
fn created(alloc: Global, load: &Workload) -> Result<Vec<Writer<MemDisk>>, Fail>
    requires text { length (declarations_text load.now.declarations) ≤ MAX_CATALOGUE }
    ensures count { IfOk result (λ writers. vec_len writers ≡ 2) }
    ensures fresh { IfOk result (λ writers. AreNew One (λ j. catalogue_of load.now) writers.items) }
{
    let mut disks = two_disks(alloc)?;
    let catalogue = match print_declarations(alloc, &load.declarations) {
        Ok(catalogue) => catalogue,
        Err(error) => return Err(error.into()),
    };
    match open_streams(alloc, &mut disks, 2, &catalogue) {
        Ok(writers) => Ok(writers),
        Err(_) => Err("the streams".into()),
    }
}

/// Two streams that end here, with no rows. The first one is said to have so many anchors.
fn opening(alloc: Global, end: u64, count: u32) -> Opening
    requires { end < MAX_LSN }
    ensures rows { result.rows ≡ [] }
    ensures floor { result.floor ≡ 0 ∷ 0 ∷ [] }
    ensures ends { result.ends ≡ end ∷ end ∷ [] }
    ensures anchors { result.anchors.items ≡ count ∷ 0 ∷ [] }
{
    let mut ends = Lv::zero(2);
    ends.set(0, end);
    ends.set(1, end);
    let mut anchors = ArrayVec::new();
    anchors.push(count);
    anchors.push(0);
    Opening {
        rows: Tables::of(Vec::new(alloc)),
        floor: Lv::zero(2),
        ends,
        anchors,
    }
}

/// Runs the workload from an opening on two streams that were just created for it.
fn run_from<R: Threads + Wait + Sync>(
    rt: &R,
    alloc: Global,
    load: &Workload,
    way: Way,
    style: Style,
    writers: &mut Vec<Writer<MemDisk>>,
    sink: &mut MemSink,
) -> Result<RunEnd, Fail>
    requires calls { AreCalls load.now.declarations.procs load.now.calls }
    requires text { length (declarations_text load.now.declarations) ≤ MAX_CATALOGUE }
    requires two { vec_len writers.old ≡ 2 }
    requires fresh { AreNew One (λ j. catalogue_of load.now) writers.old.items }
    requires some { 1 ≤ way.workers }
    requires few { way.workers ≤ 16 }
{
    let opening = opening(alloc, writers[0].durable(), way.anchors);
    match run_threads_from(
        rt,
        alloc,
        load,
        opening,
        way.workers,
        LogMode::Values,
        writers,
        sink,
        &Quiet,
        style,
    ) {
        Ok(end) => Ok(end),
        Err(_) => Err("out of memory".into()),
    }
}

/// Runs the workload on two streams that were just created for it.
fn run<R: Threads + Wait + Sync>(
    rt: &R,
    alloc: Global,
    load: &Workload,
    way: Way,
    writers: &mut Vec<Writer<MemDisk>>,
    sink: &mut MemSink,
) -> Result<RunEnd, Fail>
    requires calls { AreCalls load.now.declarations.procs load.now.calls }
    requires text { length (declarations_text load.now.declarations) ≤ MAX_CATALOGUE }
    requires two { vec_len writers.old ≡ 2 }
    requires fresh { AreNew One (λ j. catalogue_of load.now) writers.old.items }
{
    let m = way.workers;
    if m < 1 || m > 16 {
        return Err("no such crew".into());
    }
    if let Some(style) = way.style {
        return run_from(rt, alloc, load, way, style, writers, sink);
    }
    match run_threads(rt, alloc, load, m, LogMode::Values, writers, sink, &Quiet) {
        Ok(end) => Ok(end),
        Err(_) => Err("out of memory".into()),
    }
}

/// Whether a run that goes so comes to this.
pub fn comes_to<R: Threads + Wait + Sync>(
    rt: &R,
    alloc: Global,
    load: &Workload,
    way: Way,
    wanted: &str,
) -> Result<bool, Fail>
    requires calls { AreCalls load.now.declarations.procs load.now.calls }
    requires text { length (declarations_text load.now.declarations) ≤ MAX_CATALOGUE }
{
    let mut writers = match created(alloc, load) {
        Ok(writers) => writers,
        Err(fail) => return Err(fail),
    };
    let mut sink = MemSink::new(alloc, &[])?;
    let end = run(rt, alloc, load, way, &mut writers, &mut sink)?;
    match wanted.split_once(' ') {
        Some(("image", _)) => are_images(alloc, writers, wanted),
        Some(("anchors", rest)) => are_anchors(alloc, &end, writers, rest),
        Some(("counts", rest)) => Ok(counts_up(&end, rest)),
        _ => tells(alloc, load, &end, sink.bytes(), wanted),
    }
}
