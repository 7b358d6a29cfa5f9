//! The room for the core that the desk makes when it closes.
use std::alloc::Global;
use tau_core::Stream;
use tau_model::CommittedList;
use tau_shard::Shard;

/// Empty vectors with room for what the core is made of.
#[derive(Drop)]
pub struct Kept {
    pub alloc: Global,
    pub shards: Vec<Shard>,
    pub seats: Vec<tau_core::Seat>,
    pub streams: Vec<Stream>,
    /// With room for every call of the run.
    pub committed: CommittedList,
}
