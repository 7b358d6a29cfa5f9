//! Laws of a follower, which redoes records of a log while their streams still grow.
#![tactic(auto)]

mod laws;

pub use laws::{applied_in_order, applied_is_closed, applied_is_least, only_taken};
