//! Laws of what an audit says of a run's own report.
#![tactic(auto)]

mod laws;

pub use laws::{
    end_is_long, ended_report_fits, no_epochs, order_fits, own_report_fits, reach_images,
    records_fit, run_report_fits, taken_fits, told_as_executed, verdicts_of_run, whole_is_long,
};
