//! The state in which a run begins.
use arrayvec::ArrayVec;
use tau_base::{Lv, MAX_STREAMS};
use tau_model::Tables;

/// What a run begins with.
#[derive(Debug, Drop)]
pub struct Opening {
    /// The rows that are there.
    pub rows: Tables,
    /// The floor of every shard.
    pub floor: Lv,
    /// Where each stream ends. All of it is gathered and persisted.
    pub ends: Lv,
    /// How many anchors each stream has.
    pub anchors: ArrayVec<u32, MAX_STREAMS>,
}
