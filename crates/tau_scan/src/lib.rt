//! Reading the log of all streams: what their images hold together, or the first cause why they hold no log.
#![tactic(auto)]

mod begins;
mod catalogue;
mod content;
mod epochs;
mod fault;
mod judge;
mod laws;
mod log;
mod read;
mod reading;
mod records;

pub use begins::{count_anchors, largest_epoch};
pub use catalogue::one_catalogue;
pub use epochs::one_vector_each;
pub use fault::{LogCause, LogFault, LogRefusal, ReplayRefusal, ScanRefusal};
pub use judge::{Judge, known_in};
pub use laws::{taken_are_listed, taken_plain};
pub use log::Log;
pub use reading::{scan, scan_contents, scan_settled};
pub use records::{declarations_in, is_declared, none_declared};
