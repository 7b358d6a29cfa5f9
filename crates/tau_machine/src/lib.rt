//! The core of the engine as a machine: its state, its events, the one invariant that every event keeps, and the theorems for every list of events.
//! The layers that work cite its definitions; its functions are the theorems.
#![tactic(auto)]

mod laws;

pub use laws::{
    above, acknowledged, committed, contents, cuts, ended, example, goes_on, kept, let_go, light,
    numbers, order, own_row, posted, reported, rows, run, streams,
};
