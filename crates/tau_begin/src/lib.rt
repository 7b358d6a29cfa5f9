//! How a run begins: what the disks of its streams hold is read, and each stream is given what stands before the run's first
//! record.
#![tactic(auto)]

mod given;
mod laws;
mod open;
mod opening;
mod read;
mod starts;

pub use laws::opening_has_barrier;
pub use open::open_run;
