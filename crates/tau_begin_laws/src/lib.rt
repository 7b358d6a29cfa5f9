//! Laws of how a run begins.
#![tactic(auto)]

mod laws;

pub use laws::begun_is_start;
