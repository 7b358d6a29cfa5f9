//! A run on two streams that were just created for it.
ghost use Rattle.std.specs.Prelude.{ℕ, ◌≡◌, ◌≤◌, ◌<◌, [], ◌∷◌, length, vec_len, IfOk};
ghost use Rattle.tau_base.specs.declared.format.Format.TheVariants.{One};
ghost use Rattle.tau_base.specs.declared.limits.TheConstants.{MAX_CATALOGUE, MAX_LSN, MAX_WORKERS};
ghost use Rattle.tau_text.specs.Canonical.{declarations_text};
ghost use Rattle.tau_text.specs.Kept.{AreCalls};
ghost use Rattle.tau_run.specs.Start.{catalogue_of};
ghost use Rattle.tau_run.specs.Writers.{AreNew};

use arrayvec::ArrayVec;
use std::alloc::Global;
use std::test::Fail;
use tau_base::{LogMode, Lv};
use tau_core::Opening;
use tau_disk::{MemDisk, MemSink};
use tau_model::Tables;
use tau_occ::Style;
use tau_open::open_streams;
use tau_report::{RunEnd, report_text};
use tau_step::{run_turns, run_turns_from};
use tau_stream::Writer;
use tau_text::{Workload, print_declarations};

/// Two new disks. The call of the second one with this number fails.
fn two_disks(alloc: Global, failing: Option<u32>) -> Result<Vec<MemDisk>, Fail>
    ensures { IfOk result (λ disks. vec_len disks ≡ 2) }
{
    let mut disks = Vec::new(alloc);
    disks.push(MemDisk::new(alloc, &[])?)?;
    disks.push(MemDisk::new(alloc, failing.as_slice())?)?;
    Ok(disks)
}

/// Two streams, just created for the workload. The call of the second one's disk with this number fails.
fn created(
    alloc: Global,
    load: &Workload,
    failing: Option<u32>,
) -> Result<Vec<Writer<MemDisk>>, Fail>
    requires text { length (declarations_text load.now.declarations) ≤ MAX_CATALOGUE }
    ensures count { IfOk result (λ writers. vec_len writers ≡ 2) }
    ensures fresh { IfOk result (λ writers. AreNew One (λ j. catalogue_of load.now) writers.items) }
{
    let mut disks = two_disks(alloc, failing)?;
    let catalogue = match print_declarations(alloc, &load.declarations) {
        Ok(catalogue) => catalogue,
        Err(error) => return Err(error.into()),
    };
    match open_streams(alloc, &mut disks, 2, &catalogue) {
        Ok(writers) => Ok(writers),
        Err(_) => Err("the streams".into()),
    }
}

/// Two streams that end here, with no rows and no anchors.
fn opening(alloc: Global, end: u64) -> Opening
    requires { end < MAX_LSN }
    ensures rows { result.rows ≡ [] }
    ensures floor { result.floor ≡ 0 ∷ 0 ∷ [] }
    ensures ends { result.ends ≡ end ∷ end ∷ [] }
    ensures anchors { result.anchors.items ≡ 0 ∷ 0 ∷ [] }
{
    let mut ends = Lv::zero(2);
    ends.set(0, end);
    ends.set(1, end);
    let mut anchors = ArrayVec::new();
    anchors.push(0);
    anchors.push(0);
    Opening {
        rows: Tables::of(Vec::new(alloc)),
        floor: Lv::zero(2),
        ends,
        anchors,
    }
}

/// The run of so many workers on two new streams, from an opening in a style if there is one.
fn run(
    alloc: Global,
    load: &Workload,
    style: Option<Style>,
    m: u8,
    writers: &mut Vec<Writer<MemDisk>>,
    sink: &mut MemSink,
) -> Result<RunEnd, Fail>
    requires calls { AreCalls load.now.declarations.procs load.now.calls }
    requires text { length (declarations_text load.now.declarations) ≤ MAX_CATALOGUE }
    requires two { vec_len writers.old ≡ 2 }
    requires fresh { AreNew One (λ j. catalogue_of load.now) writers.old.items }
    requires low { 1 ≤ m }
    requires high { m ≤ MAX_WORKERS }
{
    let end = match style {
        None => run_turns(alloc, load, m, LogMode::Values, writers, sink),
        Some(style) => {
            let opening = opening(alloc, writers[0].durable());
            run_turns_from(
                alloc,
                load,
                opening,
                m,
                LogMode::Values,
                writers,
                sink,
                style,
            )
        }
    };
    match end {
        Ok(end) => Ok(end),
        Err(_) => Err("out of memory".into()),
    }
}

/// Whether such a run tells this.
pub fn tells_end(
    alloc: Global,
    load: &Workload,
    style: Option<Style>,
    m: u8,
    failing: Option<u32>,
    wanted: &str,
) -> Result<bool, Fail>
    requires calls { AreCalls load.now.declarations.procs load.now.calls }
    requires text { length (declarations_text load.now.declarations) ≤ MAX_CATALOGUE }
    requires low { 1 ≤ m }
    requires high { m ≤ MAX_WORKERS }
{
    let mut writers = match created(alloc, load, failing) {
        Ok(writers) => writers,
        Err(fail) => return Err(fail),
    };
    let mut sink = MemSink::new(alloc, &[])?;
    let end = run(alloc, load, style, m, &mut writers, &mut sink)?;
    let rest = report_text(alloc, &load.declarations, &end.report, end.disk)?;
    Ok(wanted.as_bytes().strip_prefix(sink.bytes()) == Some(rest.as_slice()))
}
