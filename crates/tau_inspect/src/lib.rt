//! What a log holds, record by record, and whether a report and a log fit together.
#![tactic(auto)]

mod acked;
mod by_number;
mod case;
mod check_order;
mod check_records;
mod check_taint;
mod checks;
mod executed;
mod inspect;
mod laws;
mod lines;
mod parts;
mod quick;
mod records;
mod refusal;
mod same;
mod sections;
mod stages;
mod taint;
mod told;
mod verdict;
mod walk;
mod words;

pub use inspect::inspect_text;
pub use laws::{
    names_are_known, one_first_bad, one_report, one_verdict, taint_is_dependence,
    uncovered_is_lowest, verdicts_mean,
};
pub use refusal::ReportRefusal;
pub use sections::read_report;
pub use stages::audit;
pub use verdict::{Check, Verdict};
