//! A call's life in a worker: its locks, its record with its place, and the keys that it gives back or frees.
#![tactic(auto)]

mod action;
mod course;
mod hand;
mod held;
mod standing;
mod txn;

pub use action::{Action, ActionKind};
pub use txn::Txn;
