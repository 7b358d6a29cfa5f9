//! The texts of reports: what a run tells, what recovery tells, and rows.
#![tactic(auto)]

mod acks;
mod fate;
mod lines;
mod recovery;
mod report;
mod taken_line;
mod texts;
mod words;

pub use acks::{AckWalk, Acks};
pub use fate::KeptFate;
pub use lines::ack_line;
pub use recovery::{put_recovery, recover_text};
pub use report::{Fate, RunEnd, RunReport};
pub use texts::{report_text, table_text};
pub use words::{next_number, next_vector, put_number};
