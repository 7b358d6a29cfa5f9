//! Laws of checkpoints.
//!
//! A checkpoint is true for what the streams hold if it is what recovery once gave of them, and they only went on since. What
//! is redone on a true checkpoint gives what recovery gives; a checkpoint is true when it is made; and runs and stops that
//! come after it leave it true.
#![tactic(auto)]

mod laws;

pub use laws::{made_is_true, restored_is_recovered, stays_true};
