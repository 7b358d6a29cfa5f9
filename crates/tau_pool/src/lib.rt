//! The pools of a recovery: which taken record may start next, and how far each stream is recovered.
#![tactic(auto)]

mod item;
mod items;
mod pass;
mod pools;
mod waits;

pub use item::{Job, Stage};
pub use pools::{Next, Pools};
