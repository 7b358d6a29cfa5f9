//! Reports, read and judged.
ghost use Rattle.tau_scan.specs.Reading.{IsLog};

use std::alloc::Global;
use std::process::Abort;
use tau_inspect::{ReportRefusal, Verdict, audit, read_report};
use tau_scan::Log;
use tau_text::parse_workload;

/// A text that is spelled in one line: `¶` ends a line of it.
pub fn text_of(rt: &impl Abort, alloc: Global, spelled: &str) -> String {
    let mut text = String::new(alloc);
    for c in spelled.chars() {
        let put = if c == '¶' { '\n' } else { c };
        text.push(put).expect(rt, "memory");
    }
    text
}

/// What an audit says of a report of a run of this workload by two workers, and of a log; none if one of them is not read.
pub fn verdict_on(alloc: Global, workload: &[u8], report: &[u8], log: &Log) -> Option<Verdict>
    requires { IsLog log.now }
{
    let load = match parse_workload(alloc, workload) {
        Ok(load) => load,
        Err(_) => return None,
    };
    let streams = log.elv.width() as u8;
    let calls = load.calls.len() as u32;
    match read_report(alloc, &load.declarations, streams, calls, report) {
        Ok(report) => audit(alloc, &load, 2, &report, log).ok(),
        Err(_) => None,
    }
}

/// The first bad line of a report of a run of this workload over two streams; 0 if it is one.
pub fn bad_line(alloc: Global, workload: &[u8], report: &[u8]) -> Option<u32> {
    let load = match parse_workload(alloc, workload) {
        Ok(load) => load,
        Err(_) => return None,
    };
    let calls = load.calls.len() as u32;
    match read_report(alloc, &load.declarations, 2, calls, report) {
        Ok(_) => Some(0),
        Err(ReportRefusal::Bad { line }) => Some(line),
        Err(ReportRefusal::NoMemory) => None,
    }
}
