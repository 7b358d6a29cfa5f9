//! Runs by turns: who acts next is told by a list, on one thread.
#![tactic(auto)]

mod clerk;
mod device;
mod end;
mod flushes;
mod laws;
mod manager;
mod run;
mod seen;
mod top;
mod worker;

pub use device::device_order;
pub use laws::{locks_are_turns, peeks_are_turns, whole_runs_end};
pub use top::{run_turns, run_turns_from};
