//! What an audit looks at, lent.
use tau_report::RunReport;
use tau_scan::Log;
use tau_text::Workload;

/// What an audit is given: a workload, how many workers ran it, what they told, and the log.
#[derive(Drop)]
pub struct LentCase<'a> {
    /// The workload.
    pub load: &'a Workload,
    /// How many workers ran it.
    pub workers: usize,
    /// What the run told.
    pub report: &'a RunReport,
    /// The log.
    pub log: &'a Log,
}
