//! From the source of an audit to a workload and the report of a run of it.
ghost use Rattle.std.specs.Prelude.{ℕ, ◌≡◌, ◌≤◌, ◌+◌, List, Ok, length, drop};
ghost use Rattle.tau_base.specs.declared.limits.TheConstants.{MAX_STREAMS, MAX_WORKLOAD};
ghost use Rattle.tau_disk.specs.Disk.{Rose};
ghost use Rattle.tau_text.specs.Kept.{IsRunnable};
ghost use Rattle.tau_text.specs.Text.{workload_of};
ghost use Rattle.tau_commands.specs.Cases.{GivesCase, ReadsCase, ReadsLoad, ReadsReport};

use crate::cut::cut_at_report;
use crate::source::{SourceRefusal, read_text};
use crate::status::Status;
use std::alloc::Global;
use tau_disk::Source;
use tau_inspect::{ReportRefusal, read_report};
use tau_report::RunReport;
use tau_text::{TextRefusal, Workload, parse_workload};

/// The workload of a text.
fn read_load(alloc: Global, text: &[u8]) -> Result<Workload, Status>
    ensures { ReadsLoad text.now result }
{
    match parse_workload(alloc, text) {
        Ok(load) => Ok(load),
        Err(TextRefusal::NoMemory) => Err(Status::NoMemory),
        Err(TextRefusal::Bad(fault)) => Err(Status::BadText {
            line: fault.line,
            cause: fault.cause,
        }),
    }
}

/// The report with this text, of a run of the workload over so many streams.
fn read_run(alloc: Global, streams: u8, load: &Workload, text: &[u8]) -> Result<RunReport, Status>
    requires low { 1 ≤ streams }
    requires high { streams ≤ MAX_STREAMS }
    requires meant { (front : List ℕ) × (workload_of front ≡ Ok load.now) }
    requires runnable { IsRunnable load.now }
    ensures { ReadsReport streams load.now text.now result }
{
    let calls = load.calls.len() as u32;
    match read_report(alloc, &load.declarations, streams, calls, text) {
        Ok(report) => Ok(report),
        Err(ReportRefusal::NoMemory) => Err(Status::NoMemory),
        Err(ReportRefusal::Bad { line }) => Err(Status::BadReport { line }),
    }
}

/// The workload of a text and the report after it, of a run over so many streams.
fn case_in(alloc: Global, streams: u8, text: &[u8]) -> Result<(Workload, RunReport), Status>
    requires low { 1 ≤ streams }
    requires high { streams ≤ MAX_STREAMS }
    requires within { length text.now ≤ MAX_WORKLOAD }
    ensures { ReadsCase streams text.now result }
{
    match cut_at_report(text) {
        None => match read_load(alloc, text) {
            Ok(_) => Err(Status::BadReport { line: 0 }),
            Err(refusal) => Err(refusal),
        },
        Some((front, behind)) => match read_load(alloc, front) {
            Err(refusal) => Err(refusal),
            Ok(load) => match read_run(alloc, streams, &load, behind) {
                Ok(report) => Ok((load, report)),
                Err(refusal) => Err(refusal),
            },
        },
    }
}

/// The workload of a source and the report after it, of a run over so many streams.
pub fn read_case<S: Source>(
    alloc: Global,
    streams: u8,
    source: &mut S,
) -> Result<(Workload, RunReport), Status>
    requires low { 1 ≤ streams }
    requires high { streams ≤ MAX_STREAMS }
    ensures case { GivesCase (record { tells = S.tells; left = S.left source.old; left' = S.left source.new; rose = Rose (S.faults source.old) (S.faults source.new) }) streams result }
    ensures source { S.tells → (k : ℕ) × (k ≤ MAX_WORKLOAD + 1) × (S.left source.new ≡ drop k (S.left source.old)) }
{
    match read_text(alloc, source) {
        Ok(text) => case_in(alloc, streams, &text),
        Err(SourceRefusal::NoMemory) => Err(Status::NoMemory),
        Err(SourceRefusal::Failed) => Err(Status::ReadFault),
        Err(SourceRefusal::TooLong) => Err(Status::TooLong),
    }
}
